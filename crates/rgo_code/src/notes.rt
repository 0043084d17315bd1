//! What the code says of regions. In a function a region goes by the number of its class, its name there.

use rgo_tac::Class;
use rgo_typed::Row;

/// What is said of regions at an instruction. Names are in ascending order: so two notes are equal exactly if they mean the same.
#[derive(Drop)]
pub struct Note {
    /// The names that are created before the instruction.
    pub creates: Row<u32>,
    /// For a call or the start of a goroutine: what is passed for each region parameter of the callee.
    pub passes: Row<Class>,
    /// For a call: the names that are kept until it has returned, whatever the callee removes.
    pub protects: Row<u32>,
    /// The names that are removed after the instruction; after a branch, if the variable is true.
    pub removes: Row<u32>,
    /// For a branch: the names that are removed if the variable is false.
    pub otherwise: Row<u32>,
}

/// What is said of regions in a function.
#[derive(Drop)]
pub struct Regions {
    /// The class of each variable.
    pub classes: Row<Class>,
    /// The class of the result.
    pub result: Class,
    /// The names that are removed before the first instruction, in ascending order.
    pub entry: Row<u32>,
    /// The note of each instruction.
    pub notes: Row<Note>,
}
