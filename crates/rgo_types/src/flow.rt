//! Which statements are terminating, and which contain a `break` that leaves the `for` around them.
#![tactic(auto, using(rgo_typing_statements::proofs::Trees::sources))]

ghost use Rattle.std.specs.Prelude.{◌≡◌, map};
ghost use Rattle.rgo_ast.specs.Tree as ast;
ghost use Rattle.rgo_ast.specs.Views.{stmt_of, boxed_stmt_of};
ghost use Rattle.rgo_types.specs.Flow as spec;

use rgo_ast::Stmt;

/// Whether a `break` in it leaves the `for` around it.
#[cycle(breaks)]
fn stmt_breaks(s: &Stmt) -> bool
    ensures { result ≡ spec.stmt_breaks (stmt_of s.now) }
{
    match s {
        Stmt::Block(all, _) => stmts_break(all),
        Stmt::If { body, other, .. } => {
            stmts_break(body)
                || match other {
                    None => false,
                    Some(other) => stmt_breaks(other),
                }
        }
        Stmt::Break(_) => true,
        // A `break` in a `for` leaves that `for`, and other statements contain none.
        _ => false,
    }
}

/// Whether a `break` in one of these statements leaves the `for` around them.
#[cycle(breaks)]
fn stmts_break(all: &[Stmt]) -> bool
    ensures { result ≡ spec.stmts_break (ast.stmts_of (map stmt_of all.now)) }
{
    for s in all {
        if stmt_breaks(s) {
            return true;
        }
    }
    false
}

/// Whether it is terminating (The Go Programming Language Specification, "Terminating
/// statements").
#[cycle(ends)]
fn stmt_terminates(s: &Stmt) -> bool
    ensures { result ≡ spec.stmt_terminates (stmt_of s.now) }
{
    match s {
        Stmt::Block(all, _) => stmts_terminate(all),
        Stmt::If { body, other, .. } => {
            stmts_terminate(body)
                && match other {
                    None => false,
                    Some(other) => stmt_terminates(other),
                }
        }
        // Without a condition and a `break`, nothing but a `return` leaves the loop.
        Stmt::For { test, body, .. } => test.is_none() && !stmts_break(body),
        Stmt::Return(_, _) => true,
        // No call is terminating, since the subset has no `panic`.
        _ => false,
    }
}

/// Whether the last of these statements is terminating.
#[cycle(ends)]
pub(crate) fn stmts_terminate(all: &[Stmt]) -> bool
    ensures { result ≡ spec.stmts_terminate (ast.stmts_of (map stmt_of all.now)) }
{
    match all.last() {
        None => false,
        Some(s) => stmt_terminates(s),
    }
}
