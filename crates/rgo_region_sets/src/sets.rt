//! Sets of names, as lists in ascending order.

ghost use Rattle.std.specs.Prelude.{Decides, Contains};
ghost use Rattle.std.specs.List.Sorted.{IsStrictlyIncreasing};
ghost use Rattle.rgo_region_sets.specs.Sets.{IsSet};

/// The set of these names.
pub(crate) fn set_of(mut names: Vec<u32>) -> Vec<u32>
    ensures { IsSet result.items (Contains names.items) }
{
    names.sort_unstable();
    names.dedup();
    names
}

/// Whether a name is in a set.
pub(crate) fn has(names: &[u32], name: u32) -> bool
    requires ascends { IsStrictlyIncreasing names.now }
    ensures { Decides result (Contains names.now name) }
{
    match names.binary_search(&name) {
        Ok(_) => true,
        Err(_) => false,
    }
}
