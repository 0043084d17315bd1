//! Types in a code text, as they are read.

ghost use Rattle.std.specs.Prelude.{◌≡◌, [], IfOk};
ghost use Rattle.std.specs.Option.{option_map};
ghost use Rattle.rgo_code_words.specs.Readers.{layer_len, read_layer, read_base, read_type, as_named_type};
ghost use Rattle.rgo_code_words.specs.Views.{named_type_of};

use crate::words::{is, is_name};
use rgo_typed::{Base, Layer, Row, Type};
use std::alloc::{AllocError, Global};

/// A type, and the name of its struct, if it has one. A pointer has number 0 until all names of the text are known.
#[derive(Drop)]
pub struct NamedType<'t> {
    pub ty: Type,
    pub name: &'t [u8],
}

/// The layer that a word begins with.
fn layer(word: &[u8]) -> Option<Layer>
    ensures { result ≡ read_layer word.now }
{
    if word.starts_with(b"[]") {
        Some(Layer::Slice)
    } else if word.starts_with(b"chan.") {
        Some(Layer::Chan)
    } else {
        None
    }
}

/// How many bytes a layer has.
fn width(layer: Layer) -> usize
    ensures { result ≡ layer_len layer }
{
    match layer {
        Layer::Slice => 2,
        Layer::Chan => 5,
    }
}

/// A base, and the name of its struct.
fn base(word: &[u8]) -> Option<(Base, &[u8])>
    ensures { option_map (λ b. as_named_type [] b.0 b.1.now) result ≡ read_base word.now }
{
    if is(word, "int") {
        return Some((Base::Int, &[]));
    }
    if is(word, "bool") {
        return Some((Base::Bool, &[]));
    }
    match word.split_first() {
        Some((first, name)) if *first == b'*' && is_name(name) => Some((Base::Pointer(0), name)),
        _ => None,
    }
}

/// The type that a word is.
///
/// # Errors
///
/// On allocation failure.
pub fn named_type(alloc: Global, word: &[u8]) -> Result<Option<NamedType<'_>>, AllocError>
    ensures { IfOk result (λ r. option_map named_type_of r ≡ read_type word.now) }
{
    let mut layers = Vec::new(alloc);
    let mut at = 0;
    // No base begins like a layer, so the layers are all that can be read in front.
    while let Some(l) = layer(&word[at..]) {
        layers.push(l)?;
        at = at + width(l);
    }
    match base(&word[at..]) {
        Some((base, name)) => {
            let layers = Row::new(layers);
            Ok(Some(NamedType {
                ty: Type { layers, base },
                name,
            }))
        }
        None => Ok(None),
    }
}
