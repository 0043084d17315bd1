//! How a run begins: with `main` alone and no region, and nothing done yet of what `main` owes.

ghost use Rattle.std.specs.Prelude.{IfOk};
ghost use Rattle.rgo_region_interpreter.specs.Works.{WorldStarts};

use crate::holders::Holder;
use crate::marks::{formals, marks};
use crate::tables::Table;
use crate::worlds::World;
use rgo_code::Checked;
use rgo_machine::Sizes;
use rgo_tac_interpreter::start;
use std::alloc::{AllocError, Global};

impl<'a> World<'a> {
    /// A run of checked code that begins, with room for its regions by these sizes.
    ///
    /// # Errors
    ///
    /// On allocation failure.
    pub fn new(alloc: Global, code: &'a Checked, sizes: Sizes) -> Result<World<'a>, AllocError>
        ensures starts { IfOk result (WorldStarts code.now sizes) }
    {
        let code = code.code();
        code.ascends();
        let mut holders = Vec::new(alloc);
        holders.push(Holder::new(alloc, Vec::new(alloc), Vec::new(alloc))?)?;
        Ok(World {
            code,
            sizes,
            marks: marks(alloc, code)?,
            formals: formals(alloc, code)?,
            state: start(alloc, code.tac())?,
            table: Table::new(alloc),
            holders,
        })
    }
}
