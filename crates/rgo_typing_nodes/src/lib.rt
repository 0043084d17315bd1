//! The check of each kind of node at its place, from what the rules ask about it: a function for each, which
//! refuses the node for the first rule that it breaks.
#![tactic(auto)]

mod calls;
mod declarations;
mod names;
mod operations;
mod statements;
mod values;

pub use calls::{
    check_builtin, check_go, check_go_nothing, check_missing, check_nothing, check_routine,
};
pub use declarations::{check_declared, check_end, check_import, check_text_end};
pub use names::{check_base_name, check_name, check_pointed, check_type_name};
pub use operations::{check_binary, check_unary};
pub use statements::{
    check_alone, check_assign, check_branch, check_condition, check_define, check_define_as,
    check_return, check_send, check_update,
};
pub use values::{
    check_index, check_keyed, check_literal, check_number, check_selector, check_size, check_text,
};
