//! Regions.

/// A region: Global, or another one by its number. Global has the objects that are reached from package variables. It is never
/// removed, since a package variable may be read as long as the program runs; so it needs no number and no stakes.
#[derive(Clone, Copy, Debug, PartialEq, Eq)]
pub enum Region {
    Global,
    Numbered(usize),
}
