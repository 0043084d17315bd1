//! Places of trees in a text: the one at which a fault of the tree is reported, and that of its first byte.
#![tactic(auto, using(crate::proofs::Rows::rows))]

ghost use Rattle.std.specs.Prelude.{◌≡◌};
ghost use Rattle.rgo_ast.specs.Places.{ty_place_of, place_of, start_of, stmt_place_of, stmt_start_of};
ghost use Rattle.rgo_ast.specs.Views.{type_expr_of, expr_of, stmt_of};

use crate::expressions::Expr;
use crate::names::Place;
use crate::statements::Stmt;
use crate::types::TypeExpr;

impl TypeExpr {
    /// The place of its first token.
    pub fn place(&self) -> Place
        ensures { result ≡ ty_place_of (type_expr_of self.now) }
    {
        match self {
            TypeExpr::Named(name) => name.at,
            TypeExpr::Pointer(_, at) | TypeExpr::Slice(_, at) | TypeExpr::Chan(_, at) => *at,
        }
    }
}

impl Expr {
    /// The place by which it is named: of a binary operation that of its operator, of a call that
    /// of its `(`, of an index that of its `[`, of a selector that of its field, and else that of
    /// its first token.
    pub fn place(&self) -> Place
        ensures { result ≡ place_of (expr_of self.now) }
    {
        match self {
            Expr::Name(name) | Expr::Select(_, name) => name.at,
            Expr::Number(_, at)
            | Expr::Text(_, at)
            | Expr::Paren(_, at)
            | Expr::New(_, at)
            | Expr::MakeSlice(_, _, at)
            | Expr::MakeChan(_, _, at)
            | Expr::Index(_, _, at)
            | Expr::Call(_, _, at)
            | Expr::Unary(_, _, at)
            | Expr::Binary(_, _, _, at)
            | Expr::Literal(_, _, at)
            | Expr::Keyed(_, _, at) => *at,
        }
    }

    /// The place of its first token.
    pub fn start(&self) -> Place
        ensures { result ≡ start_of (expr_of self.now) }
    {
        match self {
            Expr::Select(first, _)
            | Expr::Index(first, _, _)
            | Expr::Call(first, _, _)
            | Expr::Binary(_, first, _, _) => first.start(),
            _ => self.place(),
        }
    }
}

impl Stmt {
    /// The place by which it is named: of an expression its place, of an assignment, a short
    /// variable declaration, a send statement, `++` and `--` that of the operator, and else that
    /// of its first token.
    pub fn place(&self) -> Place
        ensures { result ≡ stmt_place_of (stmt_of self.now) }
    {
        match self {
            Stmt::Plain(value) => value.place(),
            Stmt::Block(_, at)
            | Stmt::Send(_, _, at)
            | Stmt::Step(_, _, at)
            | Stmt::Assign(_, _, _, at)
            | Stmt::Define(_, _, at)
            | Stmt::If { at, .. }
            | Stmt::For { at, .. }
            | Stmt::Go(_, _, at)
            | Stmt::Var(_, at)
            | Stmt::Return(_, at)
            | Stmt::Break(at)
            | Stmt::Continue(at) => *at,
        }
    }

    /// The place of its first token.
    pub fn start(&self) -> Place
        ensures { result ≡ stmt_start_of (stmt_of self.now) }
    {
        match self {
            Stmt::Plain(first)
            | Stmt::Send(first, _, _)
            | Stmt::Step(_, first, _)
            | Stmt::Assign(_, first, _, _) => first.start(),
            Stmt::Define(name, _, _) => name.at,
            _ => self.place(),
        }
    }
}
