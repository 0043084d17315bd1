//! The interpreter of the source machine. Tests compare what it does with other programs; the compiler needs only the
//! definition.
#![tactic(auto)]

mod acts;
mod calls;
mod frames;
mod locals;
mod machine;
mod stack;
mod stands;
mod statements;
mod terms;

pub use frames::{Frame, Todo};
pub use machine::{SourceMachine, start};
pub use stack::Stack;
