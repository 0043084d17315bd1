//! The separators and ends of lists: what may come before and after an item. The parser's loops over items call these.

ghost use Rattle.std.specs.Prelude.{◌≡◌};
ghost use Rattle.rgo_reader.specs.Agrees.{Agrees};
ghost use Rattle.rgo_reader.specs.Lists.{closes, after_item, ending_of};

use crate::readers::{Fault, Read, Reader};
use rgo_lexer::{Lexeme, Terminal};

/// Before an item of a list: reads and returns the lexeme that closes the list, or returns `None` if an item is next.
pub fn closes<'r, 'a>(reader: &mut Reader<'r, 'a>, closer: Terminal) -> Read<Option<&'r Lexeme<'a>>>
    ensures { Agrees ending_of result reader.new (closes closer reader.old) }
{
    match reader.peek() {
        Some(lexeme) if lexeme.terminal.stands_as(closer) => {
            reader.pass();
            Ok(Some(lexeme))
        }
        Some(_) => Ok(None),
        None => Err(Fault::Syntax),
    }
}

/// After an item of a list: reads the lexeme that closes the list and returns it, or reads a separator and returns `None`.
pub fn separated<'r, 'a>(
    reader: &mut Reader<'r, 'a>,
    separator: Terminal,
    closer: Terminal,
) -> Read<Option<&'r Lexeme<'a>>>
    ensures { Agrees ending_of result reader.new (after_item separator closer reader.old) }
{
    match reader.peek() {
        Some(lexeme) if lexeme.terminal.stands_as(closer) => {
            reader.pass();
            Ok(Some(lexeme))
        }
        Some(lexeme) if lexeme.terminal.stands_as(separator) => {
            reader.pass();
            Ok(None)
        }
        _ => Err(Fault::Syntax),
    }
}
