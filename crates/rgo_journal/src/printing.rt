//! Journals, printed.

ghost use Rattle.std.specs.Prelude.{◌≡◌, ◌++◌, ◌∷◌, [], decimal, IfOk, OnOk};
ghost use Rattle.rgo_journal.specs.Text.{journal, pick_line, pick_lines};

use crate::picks::TacPick;
use itoa::Buffer;
use std::alloc::{AllocError, Global};

fn print(out: &mut Vec<u8>, bytes: &[u8]) -> Result<(), AllocError>
    ensures { OnOk result (out.new.items ≡ out.old.items ++ bytes.now) }
{
    out.extend_from_slice(bytes)
}

/// A number, and the byte after it.
fn print_number(out: &mut Vec<u8>, n: u32, end: &[u8]) -> Result<(), AllocError>
    ensures { OnOk result (out.new.items ≡ out.old.items ++ (decimal n ++ end.now)) }
{
    let mut buffer = Buffer::new();
    print(out, buffer.format(n).as_bytes())?;
    print(out, end)
}

fn print_two(out: &mut Vec<u8>, word: &[u8], a: u32, b: u32) -> Result<(), AllocError>
    ensures { OnOk result (out.new.items
        ≡ out.old.items ++ (word.now ++ (decimal a ++ (32 ∷ [] ++ (decimal b ++ 10 ∷ []))))) }
{
    print(out, word)?;
    print_number(out, a, b" ")?;
    print_number(out, b, b"\n")
}

/// Appends the line of a pick. On an error some of it may be appended: a journal that does not fit in memory is dropped whole.
///
/// # Errors
///
/// On allocation failure.
pub fn print_pick(out: &mut Vec<u8>, pick: TacPick) -> Result<(), AllocError>
    ensures { OnOk result (out.new.items ≡ out.old.items ++ pick_line pick) }
{
    match pick {
        TacPick::One(g) => {
            print(out, b"one ")?;
            print_number(out, g, b"\n")
        }
        TacPick::Meet(receiver, sender) => print_two(out, b"meet ", receiver, sender),
        TacPick::Case(g, case) => print_two(out, b"case ", g, case),
        TacPick::CaseMeet(g, case, sender) => {
            print(out, b"casemeet ")?;
            print_number(out, g, b" ")?;
            print_number(out, case, b" ")?;
            print_number(out, sender, b"\n")
        }
    }
}

fn print_lines(out: &mut Vec<u8>, picks: &[TacPick]) -> Result<(), AllocError>
    ensures { OnOk result (out.new.items ≡ out.old.items ++ pick_lines picks.now) }
{
    for pick in picks {
        print_pick(out, *pick)?;
    }
    Ok(())
}

/// The journal of these picks: its first line, one line for each pick, and its last line.
///
/// # Errors
///
/// On allocation failure.
pub fn print_picks(alloc: Global, picks: &[TacPick]) -> Result<Vec<u8>, AllocError>
    ensures { IfOk result (λ bytes. bytes.items ≡ journal picks.now) }
{
    let mut out = Vec::new(alloc);
    print(&mut out, b"rgo picks 1\n")?;
    print_lines(&mut out, picks)?;
    print(&mut out, b"text\n")?;
    Ok(out)
}
