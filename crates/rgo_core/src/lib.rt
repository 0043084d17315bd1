//! The table of a run: its words and the records of its goroutines, and the rule that one run of the region machine explains
//! them after every access. The records have what `rgo_core_memory`, `rgo_core_frames` and `rgo_core_channels` know of memory,
//! frames and channels, over one layout, and what is drawn from the clock and from the number of goroutines.
//!
//! Invariant, after every access: one run of the region machine, within the limits and with room for each of its steps, leads to a
//! state whose image the words and the records are. Each record is on the seat of one thread, and only that thread's accesses
//! change it. Why: docs/DECISIONS.md, "Tables of words".
//!
//! [`laws`] has the law of each access: the region machine makes the step that the access is, whatever the other goroutines are
//! doing. [`memory_moves`] has those of accesses to memory: loads and stores, new objects, pages, chains and the counts of regions;
//! [`channel_moves`] those of accesses to channels. [`table`] opens and closes a table.
#![tactic(auto)]

pub mod channel_moves;
pub mod laws;
pub mod memory_moves;
pub mod records;
pub mod table;

// The crates below that those above name too, so that these need one line of imports and not four.
pub use rgo_core_channels as channels;
pub use rgo_core_frames as frames;
pub use rgo_core_memory as memory;
pub use rgo_core_rule as rule;
