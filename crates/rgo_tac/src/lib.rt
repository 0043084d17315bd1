//! Three-address code: its instructions, what they read, write and join, and by definition what it does when it runs.
#![tactic(auto)]

mod code;
mod copies;
mod copying;
mod errors;
mod flow;
mod functions;
mod laws;
mod ops;
mod programs;
mod regions;
mod widths;

pub use code::{Body, Instr};
pub use copies::{
    copy_items, copy_name, copy_pieces, copy_result, copy_structs, copy_type, copy_types,
    copy_variables,
};
pub use errors::FunctionError;
pub use flow::{ReadVariables, Targets, leads_to, reads, writes};
pub use functions::{TacFn, instr_at};
pub use laws::examples;
pub use ops::{Kind, Op, Operands, items_at};
pub use programs::Tac;
pub use regions::{Class, Member, is_pointer_like, joins};
