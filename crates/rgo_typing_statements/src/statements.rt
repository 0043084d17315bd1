//! Statements that contain no others.
#![tactic(auto, using(crate::proofs::Trees::sources))]

ghost use Rattle.std.specs.Prelude.{◌≡◌, true};
ghost use Rattle.rgo_ast.specs.Views.{stmt_of};
ghost use Rattle.rgo_typing_statements.specs.Outcomes.{Appends, is_simple_stmt, stmt_outcome};
ghost use Rattle.rgo_typing_statements.specs.Statements.{within_loop};
ghost use Rattle.rgo_typing_statements.specs.Views.{enclosing_of};

use crate::calls::{go, plain};
use crate::locals::{declare_vars, define};
use crate::simple::{assign, branch, return_value, send, step};
use rgo_ast::Stmt as Source;
use rgo_typed::Stmt;
use rgo_typing_expressions::Checker;
use rgo_typing_rules::{Kind, TypeError};

/// What encloses a statement: all that a rule needs of it beside the scope. It is passed down by value, so nothing has to be
/// restored at the end of a loop.
#[derive(Clone, Copy)]
pub struct Enclosing<'a> {
    /// The result type of its function.
    pub result_type: Option<Kind<'a>>,
    /// Whether it is in a `for`.
    pub in_loop: bool,
}

impl<'a> Enclosing<'a> {
    /// The same in a `for`.
    pub fn in_a_loop(self) -> Enclosing<'a>
        ensures { enclosing_of result ≡ within_loop (enclosing_of self.entry) }
    {
        Enclosing {
            result_type: self.result_type,
            in_loop: true,
        }
    }
}

/// Checks a statement that contains no other, and appends its typed trees.
///
/// # Errors
///
/// `Refused` with the first node that breaks a rule. `NoMemory` when an allocation fails.
pub fn check_simple<'a>(
    checker: &mut Checker<'_, 'a>,
    around: Enclosing<'a>,
    out: &mut Vec<Stmt>,
    s: &'a Source,
) -> Result<(), TypeError>
    requires simple { is_simple_stmt (stmt_of s.now) ≡ true }
    ensures { Appends result (stmt_outcome (enclosing_of around.entry) checker.old (stmt_of s.now))
        checker.new out.old.items out.new.items }
{
    match s {
        Source::Plain(e) => plain(checker, out, e),
        Source::Send(channel, value, at) => send(checker, out, channel, value, *at),
        Source::Step(op, e, at) => step(checker, out, *op, e, *at),
        Source::Assign(op, left, right, at) => assign(checker, out, *op, left, right, *at),
        Source::Define(x, value, at) => define(checker, out, x, None, value, *at),
        Source::Go(x, args, at) => go(checker, out, x, args, *at),
        Source::Var(vars, _) => declare_vars(checker, out, vars),
        Source::Return(value, at) => return_value(checker, out, around.result_type, value, *at),
        Source::Break(at) => branch(checker, out, around.in_loop, Stmt::Break(*at), *at),
        Source::Continue(at) => branch(checker, out, around.in_loop, Stmt::Continue(*at), *at),
        // These contain statements, which the premise excludes.
        Source::Block(_, _) | Source::If { .. } | Source::For { .. } => unreachable!(),
    }
}
