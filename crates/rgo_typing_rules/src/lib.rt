//! The rules on meaning, each a test of one node of a program; and the check of a node. A rule sees the shapes of a node's parts and
//! not the parts, so that it is a few lines without recursion, and what is a rule is apart from the order in which nodes are checked.
#![tactic(auto)]

mod breaking;
mod builtins;
mod call_rules;
mod checking;
mod constants;
mod errors;
mod kinds;
mod meanings;
mod name_rules;
mod nodes;
mod operator_rules;
mod roles;
mod rules;
mod shapes;
mod value_rules;
mod values;

pub use breaking::broken;
pub use builtins::Builtin;
pub use checking::check_node;
pub use constants::{fold, fold_one};
pub use errors::{TypeError, TypeRefusal};
pub use kinds::Kind;
pub use meanings::{Meaning, Signature};
pub use name_rules::is_fmt;
pub use nodes::Node;
pub use roles::Role;
pub use rules::Rule;
pub use shapes::Shape;
