//! Code with regions: three-address code that says where regions are created, passed, protected and removed, and the
//! fourteen rules that checked code keeps.
#![tactic(auto)]

mod checked;
mod code;
mod functions;
mod laws;
mod notes;
mod rules;

pub use checked::Checked;
pub use code::{Code, Undeclared};
pub use functions::CodeFn;
pub use laws::erasure_is_code;
pub use notes::{Note, Regions};
pub use rgo_tac::Class;
pub use rules::{CodeRefusal, Line, Rule};
