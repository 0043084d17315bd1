//! Words of code texts, as they are read: numbers, names, lists of names, types, and what a line prints.
#![tactic(auto)]

mod cuts;
mod lists;
mod printed;
mod types;
mod words;

pub use cuts::{cut, len_to, word_at};
pub use lists::{inside, numbers, passes, regions, removes};
pub use printed::{Pieces, read_pieces};
pub use types::{NamedType, named_type};
pub use words::{class, int, is, is_name, lettered, number, operator, truth, value, variable};
