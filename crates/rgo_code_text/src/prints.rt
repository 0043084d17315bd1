//! Prints in a code text, as they are read. Strings may contain spaces, so a print is not cut into words but read from its two ends:
//! the removals are its last word, and the pieces are between `print` and them.

ghost use Rattle.std.specs.Prelude.{◌≡◌, ◌++◌, [], codes, IfOk};
ghost use Rattle.std.specs.Option.{option_map};
ghost use Rattle.rgo_code.specs.Code.{Print};
ghost use Rattle.rgo_code_text.specs.Ops.{LastWord, op_text, NamedOpFits};
ghost use Rattle.rgo_code_words.specs.Readers.{IsReadFromBytes};
ghost use Rattle.rgo_code_text.specs.Views.{named_op_of};

use crate::ops::{NamedOp, removals};
use rgo_code_words::{Pieces, len_to, read_pieces, removes};
use rgo_tac::Instr;
use rgo_typed::Row;
use std::alloc::{AllocError, Global};

/// Where the last word begins, after the last space.
fn last_word(bytes: &[u8]) -> usize
    ensures { LastWord bytes.now result }
{
    let mut at = 0;
    'words: loop {
        let rest = &bytes[at..];
        let len = len_to(rest, b' ');
        if len == rest.len() {
            return at;
        }
        at = at + len + 1;
    }
}

/// The operation that prints these pieces.
fn printing<'t>(alloc: Global, all: Pieces, removes: Row<u32>) -> NamedOp<'t>
    ensures { named_op_of result
        ≡ record { op = Print all.pieces.items all.from.items removes; name = [] } }
{
    let Pieces { pieces, from } = all;
    NamedOp {
        instr: Instr::Print(0, 0),
        name: &[],
        from,
        pieces,
        note: removals(alloc, removes),
    }
}

fn no_pieces(alloc: Global) -> Pieces
    ensures pieces { result.pieces.items ≡ [] }
    ensures from { result.from.items ≡ [] }
{
    Pieces {
        pieces: Vec::new(alloc),
        from: Vec::new(alloc),
    }
}

/// `print .. -[..]`, by what follows `print`. Removals contain no space, so the last space of the line is before them.
pub(crate) fn print<'t>(alloc: Global, bytes: &[u8]) -> Result<Option<NamedOp<'t>>, AllocError>
    ensures { IfOk result (λ r. IsReadFromBytes NamedOpFits op_text (codes "print " ++ bytes.now)
        (option_map named_op_of r)) }
{
    let at = last_word(bytes);
    let Some(removes) = removes(alloc, &bytes[at..])? else {
        return Ok(None);
    };
    // No space, so no word before the removals: a print without pieces.
    if at == 0 {
        return Ok(Some(printing(alloc, no_pieces(alloc), removes)));
    }
    match read_pieces(alloc, &bytes[..at - 1])? {
        Some(all) => Ok(Some(printing(alloc, all, removes))),
        None => Ok(None),
    }
}
