//! What a goroutine has of regions: which regions the names of its frames are bound to, which regions it protects, for which it has
//! taken a stake for a coming child, and the page of its own that it fills in each.
//!
//! A name's number leads to a [`Key`], and the key to the region's entry in the goroutine's own list, so that nothing is
//! searched or hashed. Tables of names are kept only for frames that have bound one: a call that passes no region costs
//! nothing here. [`Holding`] says what each operation does to the holder of the region machine (specs/Holds.antt).
//!
//! Invariants: a key leads to an entry in use as long as the goroutine has a stake in the region; an entry's protections are those
//! of all frames and of the base; an entry that is given up is used again. Only the goroutine itself uses its holding, in its turn.
//! Why: docs/DECISIONS.md, "Goroutines over the table".
#![tactic(auto)]

mod calls;
mod children;
mod entries;
mod frames;
mod holding;
mod keys;
mod laws;
mod parameters;

pub use entries::Page;
pub use holding::Holding;
pub use keys::Key;
pub use laws::examples;
pub use parameters::formals;
