//! The text of a large program for the command `big`: many goroutines, each with a list of its own. It measures what runs programs,
//! without a file to read. Why: docs/DECISIONS.md, "Errors and statuses".
#![tactic(auto)]

mod texts;

pub use texts::big_source;
