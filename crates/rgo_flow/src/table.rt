//! The tables of a function's liveness. Rows of readers, writers and solved blocks ascend, since questions search in them; liveness is kept
//! for blocks, and a question follows one block to its end.

ghost use Rattle.rgo_graphs.specs.Rows.{rows_of};
ghost use Rattle.rgo_flow.specs.Runs.{AreRuns};
ghost use Rattle.rgo_flow.specs.Solved.{IsTable};

/// At which instructions each variable of a function is live.
#[derive(Drop)]
pub struct Liveness {
    /// The first and the last instruction of the block of each instruction.
    pub(crate) first: Vec<u32>,
    pub(crate) last: Vec<u32>,
    /// For the first instruction of each block, what follows the block.
    pub(crate) exits: Vec<Vec<u32>>,
    /// For the first instruction of each block, the blocks that it follows.
    pub(crate) before: Vec<Vec<u32>>,
    /// The instructions that read each variable, and those that write it.
    pub(crate) readers: Vec<Vec<u32>>,
    pub(crate) writers: Vec<Vec<u32>>,
    /// The blocks that each variable is live into, by their first instructions.
    pub(crate) solved: Vec<Vec<u32>>,
    ghost table: { IsTable first.items last.items (rows_of exits.items) (rows_of readers.items)
        (rows_of writers.items) (rows_of solved.items) },
    ghost runs: { AreRuns first.items last.items (rows_of exits.items) (rows_of before.items)
        (rows_of readers.items) (rows_of solved.items) },
}
