//! Words of a text, with their bytes and their places.

ghost use Rattle.std.specs.Prelude.{◌≡◌};

use std::marker::Model;

/// The position of something in a text: the number of bytes before it. Lines and columns are computed from it only for a message.
pub type Place = usize;

/// The bytes of a name, which contracts see as their list. A name is copied from the text, so that trees do not borrow from it.
#[derive(Drop)]
pub struct Name {
    bytes: Vec<u8>,
}

impl Model for Name {
    ghost use Rattle.std.specs.Prelude.{List, ℕ};

    ghost Value = { List ℕ };

    ghost view = { λ n. n.bytes.items };
}

impl Name {
    /// The name with these bytes.
    pub fn new(bytes: Vec<u8>) -> Name
        ensures { result ≡ bytes.items }
    {
        Name { bytes }
    }

    /// Its bytes.
    pub fn bytes(&self) -> &[u8]
        ensures { result.now ≡ self.now }
    {
        &self.bytes
    }
}

/// A name with its place.
#[derive(Drop)]
pub struct Ident {
    pub name: Name,
    pub at: Place,
}

/// The path of an import, without its quotes, with the place of its string.
#[derive(Drop)]
pub struct ImportPath {
    pub path: Name,
    pub at: Place,
}
