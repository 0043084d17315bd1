//! The journal of what was noted.

ghost use Rattle.std.specs.Prelude.{◌≡◌, ◌++◌, replicate, IfOk, OnOk};
ghost use Rattle.rgo_journal.specs.declared.picks.TacPick.{TacPick as Pick};
ghost use Rattle.rgo_journal.specs.Text.{journal, pick_line, pick_lines};
ghost use Rattle.rgo_recording.specs.Notes.{picks_in, noted_picks};

use crate::notes::{Note, Notes};
use rgo_journal::print_pick;
use std::alloc::{AllocError, Global};

/// The line of a pick, `times` times. The line is made once for the whole note.
fn print_times(out: &mut Vec<u8>, line: &[u8], times: usize) -> Result<(), AllocError>
    ensures { (pick : Pick) → line.now ≡ pick_line pick
        → OnOk result (out.new.items ≡ out.old.items ++ pick_lines (replicate times pick)) }
{
    for taken in 0..times {
        out.extend_from_slice(line)?;
    }
    Ok(())
}

/// The lines of a note.
fn print_note(alloc: Global, out: &mut Vec<u8>, note: Note) -> Result<(), AllocError>
    ensures { OnOk result (out.new.items ≡ out.old.items ++ pick_lines (replicate note.times note.pick)) }
{
    let mut line = Vec::new(alloc);
    print_pick(&mut line, note.pick)?;
    print_times(out, &line, note.times)
}

/// The lines of notes.
fn print_notes(alloc: Global, out: &mut Vec<u8>, notes: &[Note]) -> Result<(), AllocError>
    ensures { OnOk result (out.new.items ≡ out.old.items ++ pick_lines (picks_in notes.now)) }
{
    for i in 0..notes.len() {
        print_note(alloc, out, notes[i])?;
    }
    Ok(())
}

impl Notes {
    /// The journal of the picks that were noted.
    ///
    /// # Errors
    ///
    /// On allocation failure.
    pub fn journal(&self, alloc: Global) -> Result<Vec<u8>, AllocError>
        ensures { IfOk result (λ bytes. bytes.items ≡ journal (noted_picks self.now)) }
    {
        let mut out = Vec::new(alloc);
        out.extend_from_slice(b"rgo picks 1\n")?;
        print_notes(alloc, &mut out, &self.list)?;
        out.extend_from_slice(b"text\n")?;
        Ok(out)
    }
}
