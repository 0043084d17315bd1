//! Conjunctions of tests that are all computed in any case: a caller then has one path to prove, and not one for each test.

ghost use Rattle.std.specs.Prelude.{◌≡◌, ◌&&◌};

pub(crate) fn both(a: bool, b: bool) -> bool
    ensures { result ≡ (a && b) }
{
    a && b
}

pub(crate) fn all_three(a: bool, b: bool, c: bool) -> bool
    ensures { result ≡ (a && (b && c)) }
{
    a && b && c
}
