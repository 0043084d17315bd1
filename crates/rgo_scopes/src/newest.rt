//! The index below the table of blocks: what each name means now, found by a hash of the name. Entries are never removed: a name
//! that is out of scope keeps one that means nothing, so that the end of a block allocates nothing and cannot fail.

ghost use Rattle.std.specs.Prelude.{◌≡◌, List, ℕ, Some, IsSome, OnOk, OnErr, bytes_eq, if◌then◌else◌};
ghost use Rattle.rgo_scopes.specs.Newest.{noted_meaning, Notes};

use indexmap::IndexMap;
use std::alloc::AllocError;

/// A declaration that a name means: its value, and the number of blocks outside its own.
#[derive(Clone, Copy)]
pub(crate) struct Seen<T> {
    pub(crate) value: T,
    pub(crate) block: usize,
}

/// What each name means. `None` is a name that was declared once and no longer is.
pub(crate) type Newest<'a, T> = IndexMap<&'a [u8], Option<Seen<T>>>;

/// What a name means.
pub(crate) fn look_up<'a, T: Copy>(newest: &Newest<'a, T>, name: &[u8]) -> Option<Seen<T>>
    ensures { result ≡ noted_meaning newest.now name.now }
{
    match newest.get(name) {
        Some(seen) => *seen,
        None => None,
    }
}

/// Makes a name mean a new declaration.
pub(crate) fn note<'a, T: Copy>(
    newest: &mut Newest<'a, T>,
    name: &'a [u8],
    seen: Seen<T>,
) -> Result<(), AllocError>
    ensures noted { OnOk result (Notes newest.old name.now (Some seen) newest.new) }
    ensures err { OnErr result (newest.new.entries ≡ newest.old.entries) }
{
    newest.insert(name, Some(seen))?;
    Ok(())
}

/// Makes a name mean what it meant before its newest declaration. The premise says that it means something, so its entry exists and
/// the insertion allocates nothing.
pub(crate) fn restore<'a, T: Copy>(
    newest: &mut Newest<'a, T>,
    name: &'a [u8],
    seen: Option<Seen<T>>,
)
    requires { IsSome (noted_meaning newest.old name.now) }
    ensures noted { Notes newest.old name.now seen newest.new }
{
    newest.insert(name, seen).unwrap();
}
