//! What `fmt.Println` writes.

ghost use Rattle.std.specs.Prelude.{◌≡◌, ◌++◌, length, take, OnOk, OnErr};
ghost use Rattle.rgo_machine.specs.Lines as spec;
ghost use Rattle.rgo_machine.specs.Lines.{spaced};

use rgo_memory::{Value, write_value};
use rgo_typed::Piece;
use std::alloc::AllocError;

/// Appends the operands in order, each followed by a space: the one after the last operand is taken off again by the caller, which is
/// simpler than a test for the last one here. On allocation failure some of it is appended.
#[tactic(auto, using(crate::proofs::Spaces::begun))]
fn write_operands(out: &mut Vec<u8>, pieces: &[Piece], values: &[Value]) -> Result<(), AllocError>
    ensures operands { OnOk result (out.new.items ≡ out.old.items ++ spaced (spec.printed_operands pieces.now values.now)) }
    ensures begins { take (length out.old.items) out.new.items ≡ out.old.items }
{
    let mut rest = values;
    for piece in pieces {
        match piece {
            Piece::Text(text) => {
                out.extend_from_slice(text.bytes())?;
                out.push(b' ')?;
            }
            Piece::Value => {
                // A piece without a value appends nothing, as in the definition; a typed tree has a value for each.
                if let Some((value, others)) = rest.split_first() {
                    write_value(out, *value)?;
                    out.push(b' ')?;
                    rest = others;
                }
            }
        }
    }
    Ok(())
}

/// Appends a line. On allocation failure some of it is appended.
#[tactic(auto, using(crate::proofs::Spaces::begun))]
fn append_line(out: &mut Vec<u8>, pieces: &[Piece], values: &[Value]) -> Result<(), AllocError>
    ensures line { OnOk result (out.new.items ≡ out.old.items ++ spec.printed_line pieces.now values.now) }
    ensures begins { take (length out.old.items) out.new.items ≡ out.old.items }
{
    let start = out.len();
    write_operands(out, pieces, values)?;
    // Without operands there is no space to take off.
    out.truncate(out.len().saturating_sub(1).max(start));
    out.push(b'\n')?;
    Ok(())
}

/// Appends a line: the operands with one space between each two, and a newline at the end.
///
/// # Errors
///
/// On allocation failure. Then nothing is appended.
pub fn write_line(out: &mut Vec<u8>, pieces: &[Piece], values: &[Value]) -> Result<(), AllocError>
    ensures appends { OnOk result (out.new.items ≡ out.old.items ++ spec.printed_line pieces.now values.now) }
    ensures keeps { OnErr result (out.new.items ≡ out.old.items) }
{
    let start = out.len();
    match append_line(out, pieces, values) {
        Ok(()) => Ok(()),
        Err(error) => {
            // The line is taken back whole: what a run has printed is always the print of one of its states.
            out.truncate(start);
            Err(error)
        }
    }
}
