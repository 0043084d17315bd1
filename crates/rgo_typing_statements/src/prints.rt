//! Typed trees of prints, from their checked operands. A print keeps its strings as bytes and evaluates only the other operands,
//! since a string is not a value of any type in the subset.
#![tactic(auto)]

ghost use Rattle.std.specs.Prelude.{◌≡◌, ◌++◌, IfOk, OnOk, map};
ghost use Rattle.rgo_ast.specs.Tree as ast;
ghost use Rattle.rgo_ast.specs.Views.{expr_of};
ghost use Rattle.rgo_typed.specs.Tree as tree;
ghost use Rattle.rgo_typed.specs.Views.{term_of, stmt_of};
ghost use Rattle.rgo_typing_statements.specs.TypedStatements as spec;

use rgo_ast::{Expr, Name, Place};
use rgo_typed::{Piece, Row, Stmt, Term};
use rgo_typing_expressions::bare;
use std::alloc::{AllocError, Global};

/// What a print writes for an operand without parentheses.
#[tactic(auto, using(rgo_typing_expressions::proofs::Trees::exprs))]
fn piece(alloc: Global, e: &Expr) -> Result<Piece, AllocError>
    ensures { IfOk result (λ p. p ≡ spec.piece_of (expr_of e.now)) }
{
    match e {
        Expr::Text(bytes, _) => {
            let bytes = Vec::from_slice(alloc, bytes)?;
            Ok(Piece::Text(Name::new(bytes)))
        }
        _ => Ok(Piece::Value),
    }
}

#[tactic(auto, using(rgo_typing_expressions::proofs::Trees::exprs))]
fn is_text(e: &Expr) -> bool
    ensures { result ≡ spec.is_text (expr_of e.now) }
{
    matches!(e, Expr::Text(_, _))
}

/// What a print writes: each string as its bytes, and between them the values.
fn pieces(alloc: Global, args: &[Expr]) -> Result<Row<Piece>, AllocError>
    ensures { IfOk result (λ row. row ≡ spec.printed_pieces (ast.exprs_of (map expr_of args.now))) }
{
    let mut pieces = Vec::new(alloc);
    for arg in args {
        pieces.push(piece(alloc, bare(arg))?)?;
    }
    Ok(Row::new(pieces))
}

/// Appends the term of an operand, unless it is a string.
#[tactic(auto, using(std::proofs::lemmas::List::map_push))]
fn keep(values: &mut Vec<Term>, is_text: bool, term: Term) -> Result<(), AllocError>
    ensures { OnOk result (map term_of values.new.items ≡ map term_of values.old.items ++ spec.kept_operand is_text (term_of term)) }
{
    if !is_text {
        values.push(term)?;
    }
    Ok(())
}

/// The terms of all operands but the strings.
fn values(alloc: Global, args: &[Expr], terms: Vec<Term>) -> Result<Vec<Term>, AllocError>
    ensures { IfOk result (λ v. tree.terms_of (map term_of v.items)
        ≡ spec.printed_terms (ast.exprs_of (map expr_of args.now)) (tree.terms_of (map term_of terms.items))) }
{
    let mut values = Vec::new(alloc);
    let mut rest = terms.into_iter();
    for arg in args {
        match rest.next() {
            // Each operand has a term. The definition ends with the shorter list, and so does this.
            None => return Ok(values),
            Some(term) => keep(&mut values, is_text(bare(arg)), term)?,
        }
    }
    Ok(values)
}

/// A print, from its operands and their terms.
pub(crate) fn print(
    alloc: Global,
    args: &[Expr],
    terms: Vec<Term>,
    at: Place,
) -> Result<Stmt, AllocError>
    ensures { IfOk result (λ s. stmt_of s ≡ tree.Print (spec.printed_pieces (ast.exprs_of (map expr_of args.now)))
        (spec.printed_terms (ast.exprs_of (map expr_of args.now)) (tree.terms_of (map term_of terms.items))) at) }
{
    let pieces = pieces(alloc, args)?;
    let values = values(alloc, args, terms)?;
    Ok(Stmt::Print(pieces, values, at))
}
