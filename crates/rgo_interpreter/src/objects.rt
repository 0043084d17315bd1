//! Objects: what pointers, slices and channels refer to.

use rgo_memory::Value;
use smallvec::SmallVec;
use std::collections::VecDeque;

/// A channel. The queue has what was sent and not yet received, the oldest first.
#[derive(Drop)]
pub struct Channel {
    pub capacity: usize,
    pub queue: VecDeque<Value>,
    pub closed: bool,
}

/// How many fields a struct stores in place. A larger one takes an allocation for its fields. Three is measured: with room for two,
/// lists of small nodes are walked up to a seventh faster, with room for four up to a quarter slower.
pub(crate) const FIELDS: usize = 3;

/// An object.
#[derive(Drop)]
pub enum Object {
    /// A struct, by its fields.
    Struct(SmallVec<Value, FIELDS>),
    /// The elements of a slice.
    Slice(Vec<Value>),
    /// In a box, since it is larger than the others.
    Channel(Box<Channel>),
}
