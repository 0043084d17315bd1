//! Values, operators and traps; and by definition the memory of a running program: what actions and operations on channels
//! do to it. The memory has no code here: each interpreter keeps it in its own form, and the runtime in the words of a table, and
//! all of them are proved against this one definition.
#![tactic(auto)]

mod operators;
mod printing;
mod traps;
mod values;

pub use operators::{binary, inverted, is_nil, negated, on_ints};
pub use printing::write_value;
pub use traps::Trap;
pub use values::{Value, element_zero, zero};
