//! The tables of code texts and of what has to be reported of each, as `tools/code_vectors.py --table` writes them.

pub(crate) mod bytes;
pub(crate) mod cuts;
pub(crate) mod forms;
pub(crate) mod rules;
pub(crate) mod texts;
