//! Operations, index expressions and `make`, from their checked operands: the check of the node, the typed tree, and what the rules
//! see of its value. Nothing here recurs: that the operands were checked is a fact about the arguments.
#![tactic(auto)]

mod binary_operations;
mod made;
mod operations;
mod results;
mod terms;

pub use binary_operations::binary;
pub use made::{make_buffered, make_channel, make_slice};
pub use operations::{index, unary};
pub use results::{Checked, applied, applied_to_two};
pub use terms::{apply_one, apply_two, atom, constant, plain, with_type};
