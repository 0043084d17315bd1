//! What a pass to a deque knows. Passes of one deque are with several threads, and none of them can read what the others did. So
//! each accounts for its own part, and the parts are added up when all passes have come back.
use std::collections::LinkedList;

/// How many of the 128 parts of its deque a pass has, and which positions were put and taken with it. Only contracts use it. No
/// value of it is ever made.
pub struct Account {
    pub parts: u64,
    pub put: LinkedList<usize>,
    pub taken: LinkedList<usize>,
}
