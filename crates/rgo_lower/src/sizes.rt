//! How large the code of a program is at most, counted before it is made. Sums saturate: a count that exceeds a machine word
//! is too large in any case. Why it is counted first: docs/DECISIONS.md, "Three-address code".

ghost use Rattle.std.specs.Prelude.{◌≡◌, ◌↔◌, ◌+◌, ◌<◌, false, ◌-◌, ◌^◌, true, map, max, min};
ghost use Rattle.rgo_typed.specs.Tree.{terms_of, stmts_of};
ghost use Rattle.rgo_typed.specs.Views.{term_of, boxed_term_of, stmt_of, typed_function_of, typed_of};
ghost use Rattle.rgo_lower.specs.Sizes as spec;
ghost use Rattle.rgo_lower.specs.Sizes.{IsTooLargeToLower};

use rgo_typed::{Function, Stmt, Struct, Term, Typed};

/// The most that a count may be, so that all numbers below it have 32 bits and the two largest are free for other uses.
const MOST: usize = u32::MAX as usize - 2;

/// What the code of a term counts. The constants, here and below, are what a part adds by itself; `specs/Sizes.antt` says of
/// what they are made.
#[cycle(terms)]
#[tactic(auto, using(rgo_typed::proofs::Rows::rows))]
fn term_size(term: &Term) -> usize
    ensures { result ≡ min (spec.term_size (term_of term.now)) (2 ^ 64 - 1) }
{
    match term {
        Term::Local(_) => 0,
        Term::Apply(_, parts, _, _) => terms_size(parts).saturating_add(3),
        Term::Logic(_, left, right, _) => {
            let sides = term_size(left).saturating_add(term_size(right));
            sides.saturating_add(11)
        }
        Term::Build(_, parts, fields, _) => {
            let stores = fields.items().len().saturating_mul(3);
            terms_size(parts).saturating_add(stores).saturating_add(3)
        }
        Term::Call(_, arguments, _, _) => terms_size(arguments).saturating_add(3),
    }
}

/// What the code of several terms counts.
#[cycle(terms)]
fn terms_size(terms: &Vec<Term>) -> usize
    ensures { result ≡ min (spec.terms_size (terms_of (map term_of terms.now.items))) (2 ^ 64 - 1) }
{
    let mut size: usize = 0;
    for term in terms {
        size = size.saturating_add(term_size(term));
    }
    size
}

/// What the code of a term counts, if there is one.
fn value_size(value: &Option<Box<Term>>) -> usize
    ensures { result ≡ min (spec.value_size (boxed_term_of value.now)) (2 ^ 64 - 1) }
{
    match value {
        None => 0,
        Some(term) => term_size(term),
    }
}

/// What the code of a statement counts.
#[cycle(statements)]
#[tactic(auto, using(rgo_typed::proofs::Rows::rows))]
fn stmt_size(stmt: &Stmt) -> usize
    ensures { result ≡ min (spec.stmt_size (stmt_of stmt.now)) (2 ^ 64 - 1) }
{
    match stmt {
        Stmt::Block(all) => stmts_size(all),
        Stmt::Zero(_, _, _) | Stmt::Break(_) | Stmt::Continue(_) => 3,
        Stmt::Declare(_, _, value, _) | Stmt::Assign(_, value, _) => {
            term_size(value).saturating_add(3)
        }
        Stmt::Discard(value) => term_size(value),
        Stmt::Perform(_, terms, _)
        | Stmt::Invoke(_, terms, _)
        | Stmt::Go(_, terms, _)
        | Stmt::Print(_, terms, _) => terms_size(terms).saturating_add(3),
        Stmt::Update {
            operands,
            value,
            ..
        } => {
            let both = terms_size(operands).saturating_add(term_size(value));
            both.saturating_add(9)
        }
        Stmt::If(test, body, _) => {
            let both = term_size(test).saturating_add(stmts_size(body));
            both.saturating_add(5)
        }
        Stmt::IfElse(test, body, other, _) => {
            let both = term_size(test).saturating_add(stmts_size(body));
            both.saturating_add(stmts_size(other)).saturating_add(9)
        }
        Stmt::Loop {
            test,
            body,
            post,
            ..
        } => {
            let both = value_size(test).saturating_add(stmts_size(body));
            both.saturating_add(stmts_size(post)).saturating_add(10)
        }
        Stmt::Return(value, _) => value_size(value).saturating_add(3),
    }
}

/// What the code of several statements counts.
#[cycle(statements)]
fn stmts_size(stmts: &Vec<Stmt>) -> usize
    ensures { result ≡ min (spec.stmts_size (stmts_of (map stmt_of stmts.now.items))) (2 ^ 64 - 1) }
{
    let mut size: usize = 0;
    for stmt in stmts {
        size = size.saturating_add(stmt_size(stmt));
    }
    size
}

/// What the code of a function counts.
fn function_size(function: &Function) -> usize
    ensures { result ≡ min (spec.function_size (typed_function_of function.now)) (2 ^ 64 - 1) }
{
    let body = stmts_size(&function.body);
    let with_locals = body.saturating_add(function.locals.items().len());
    with_locals
        .saturating_add(function.params)
        .saturating_add(4)
}

fn larger(a: usize, b: usize) -> usize
    ensures { result ≡ max a b }
{
    if a < b { b } else { a }
}

/// The largest count of a function's code.
fn largest_of(functions: &Vec<Function>) -> usize
    ensures { result ≡ min (spec.largest_of (map typed_function_of functions.now.items)) (2 ^ 64 - 1) }
{
    let mut largest: usize = 0;
    for function in functions {
        largest = larger(largest, function_size(function));
    }
    largest
}

/// The largest number of fields of a struct.
fn most_fields(structs: &[Struct]) -> usize
    ensures { result ≡ min (spec.most_struct_fields structs.now) (2 ^ 64 - 1) }
{
    let mut most: usize = 0;
    for item in structs {
        most = larger(most, item.fields.items().len());
    }
    most
}

/// The largest of the program's counts.
fn program_size(program: &Typed) -> usize
    ensures { result ≡ min (spec.program_size (typed_of program.now)) (2 ^ 64 - 1) }
{
    let structs = program.structs.items();
    let variables = program.variables.items().len();
    let fields = larger(structs.len(), most_fields(structs));
    let functions = larger(program.functions.len(), largest_of(&program.functions));
    larger(fields, larger(variables, functions))
}

/// Whether a count of the program is too large for numbers of 32 bits.
pub fn is_too_large(program: &Typed) -> bool
    ensures large { (result ≡ true) ↔ IsTooLargeToLower (typed_of program.now) }
    ensures small { result ≡ false → spec.program_size (typed_of program.now) + 2 < 2 ^ 32 }
{
    program_size(program) > MOST
}
