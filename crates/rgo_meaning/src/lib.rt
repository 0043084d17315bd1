//! What programs mean: the source machine by definition, whose goroutines walk the typed tree over a heap that never frees.
#![tactic(auto)]

mod laws;

pub use laws::examples;
