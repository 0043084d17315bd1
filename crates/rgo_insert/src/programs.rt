//! Regions put into a program.

ghost use Rattle.std.specs.Prelude.{◌≡◌, length, vec_len, IfOk};
ghost use Rattle.rgo_summaries.specs.Families.{IsFamily};
ghost use Rattle.rgo_code.specs.Checked.{IsChecked};
ghost use Rattle.rgo_code.specs.Erasure.{erased};
ghost use Rattle.rgo_code.specs.NameRules.{Ascends};
ghost use Rattle.rgo_code.specs.TypedCode.{IsTypedCode};
ghost use Rattle.rgo_code.specs.Views.{code_of};
ghost use Rattle.rgo_insert.specs.Bare as bare;
ghost use Rattle.rgo_insert.specs.Inserted.{HasClasses, IsInserted};

use crate::bare::bare_regions;
use crate::filling::all_filled;
use rgo_classes::Summaries;
use rgo_code::{Code, Regions, Undeclared};
use rgo_tac::Tac;
use rgo_typed::Row;
use std::alloc::{AllocError, Global};

/// A program declares every name that its code uses.
fn nothing_undeclared(alloc: Global) -> Undeclared
    ensures { result ≡ bare.nothing_undeclared }
{
    Undeclared {
        structs: Row::new(Vec::new(alloc)),
        variables: Row::new(Vec::new(alloc)),
        functions: Row::new(Vec::new(alloc)),
    }
}

/// What all functions say of regions.
fn regions_of(alloc: Global, code: &Tac, summaries: &Summaries) -> Result<Vec<Regions>, AllocError>
    requires typed { IsTypedCode code.now }
    requires family { IsFamily code.now summaries.now.functions }
    ensures inserted { IfOk result (λ regions. IsInserted code.now summaries.now.functions
        (code_of code.now bare.nothing_undeclared regions.items)) }
    ensures len { IfOk result (λ regions. vec_len regions ≡ length code.now.functions) }
{
    let functions = code.functions();
    let bare = bare_regions(alloc, functions, summaries)?;
    all_filled(alloc, functions, &bare)
}

/// A copy of the code, with these regions. The caller keeps its own, without regions.
fn with_regions(alloc: Global, code: &Tac, regions: Vec<Regions>) -> Result<Code, AllocError>
    requires ascends { Ascends (code_of code.now bare.nothing_undeclared regions.items) }
    requires len { vec_len regions ≡ length code.now.functions }
    ensures { IfOk result (λ c. c ≡ code_of code.now bare.nothing_undeclared regions.items) }
{
    let tac = code.copy(alloc)?;
    Ok(Code::new(tac, nothing_undeclared(alloc), Row::new(regions)))
}

/// Code that says where regions are created, passed, protected and removed.
///
/// # Errors
///
/// On allocation failure.
pub fn insert(alloc: Global, code: &Tac, summaries: &Summaries) -> Result<Code, AllocError>
    requires typed { IsTypedCode code.now }
    requires family { IsFamily code.now summaries.now.functions }
    ensures erased { IfOk result (λ c. erased c ≡ code.now) }
    ensures declared { IfOk result (λ c. c.undeclared ≡ bare.nothing_undeclared) }
    ensures classes { IfOk result (HasClasses summaries.now.functions) }
    ensures checked { IfOk result IsChecked }
{
    let regions = regions_of(alloc, code, summaries)?;
    with_regions(alloc, code, regions)
}
