//! Functions with their classes, of which nothing else is said yet. A call passes regions by the classes of its callee, so the
//! classes of all functions are known before any note is made.

ghost use Rattle.std.specs.Prelude.{◌≡◌, length, slice_get, IfOk};
ghost use Rattle.rgo_classes.specs.Classes.{AreClasses};
ghost use Rattle.rgo_code.specs.Views.{code_fns};
ghost use Rattle.rgo_insert.specs.Bare.{AreBare, classes_by};

use rgo_classes::{Summaries, classes_of};
use rgo_code::{CodeFn, Regions};
use rgo_tac::TacFn;
use rgo_typed::Row;
use std::alloc::{AllocError, Global};
use std::marker::Model;

/// The functions of a program, each with its classes.
#[derive(Drop)]
pub(crate) struct Bare<'a> {
    functions: &'a [TacFn],
    regions: &'a [Regions],
}

impl<'a> Model for Bare<'a> {
    ghost use Rattle.std.specs.Prelude.{◌≡◌, List, length};
    ghost use Rattle.rgo_code.specs.Code as code;
    ghost use Rattle.rgo_code.specs.Views.{code_fns};

    ghost Value = { List code.CodeFn };

    ghost view = { λ b. code_fns b.functions.now b.regions.now };

    ghost invariant = { λ b. length b.regions.now ≡ length b.functions.now };
}

impl<'a> Bare<'a> {
    pub(crate) fn new(functions: &'a [TacFn], regions: &'a [Regions]) -> Bare<'a>
        requires { length regions.now ≡ length functions.now }
        ensures { result ≡ code_fns functions.now regions.now }
    {
        Bare { functions, regions }
    }

    /// The function of this number.
    pub(crate) fn function(&self, n: usize) -> Option<CodeFn<'a>>
        ensures { result ≡ slice_get self.now n }
    {
        match self.functions.get(n) {
            Some(tac) => match self.regions.get(n) {
                Some(regions) => Some(CodeFn::new(tac, regions)),
                None => None,
            },
            None => None,
        }
    }
}

/// The classes of a function.
fn bare_of(alloc: Global, function: &TacFn, summaries: &Summaries) -> Result<Regions, AllocError>
    ensures { IfOk result (λ r. AreClasses summaries.now.functions function.now (classes_by r)) }
{
    let classes = classes_of(alloc, function, summaries)?;
    Ok(Regions {
        classes: classes.variables,
        result: classes.result,
        entry: Row::new(Vec::new(alloc)),
        notes: Row::new(Vec::new(alloc)),
    })
}

/// The classes of all functions.
pub(crate) fn bare_regions(
    alloc: Global,
    functions: &[TacFn],
    summaries: &Summaries,
) -> Result<Vec<Regions>, AllocError>
    ensures { IfOk result (λ regions. AreBare summaries.now.functions functions.now regions.items) }
{
    let mut regions = Vec::new(alloc);
    for function in functions {
        regions.push(bare_of(alloc, function, summaries)?)?;
    }
    Ok(regions)
}
