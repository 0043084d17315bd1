//! The typing of what a package declares: its imports, its names, and all outside of function bodies.
//!
//! Declarations are passed over twice. A name may be used before its declaration, so the first pass (`numbering`) gives each name its
//! meaning and refuses nothing; the second (`signatures`) checks names and types in the order of the text with these meanings.
#![tactic(auto)]

mod imports;
mod names;
mod numbering;
mod packages;
mod signatures;

pub use names::{add_bindings, check_name, count};
pub use packages::{Declared, check_package};
pub use signatures::{copied, result_kind, types};
