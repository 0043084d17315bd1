//! The clock, word 0 of a table: prints draw their tickets from its low 63 bits, and bit 63 says that the run has ended.
//!
//! 1. A goroutine that prints finishes the piece, then adds 1: the number found is its ticket. No other access draws a
//!    ticket, so no two pieces have the same one.
//! 2. A goroutine that ends the run sets bit 63. The one that finds it clear has ended the run; all later ones change nothing.
//! 3. A ticket that was drawn after that is void: its piece is not part of the print.
//!
//! The end is one bit of the same word, set by an `or`: one access draws a ticket and shows whether the print still counts, and no
//! access has to be tried again. Why: docs/DECISIONS.md, "Tables of words".
//!
//! `behind` is how many local steps the goroutine has made since its last access. The code does not use it: it is for the proof, which
//! puts these steps into the run directly before the access.
ghost use Rattle.std.specs.Prelude.{◌≡◌, ◌≤◌, ◌<◌, ◌+◌, ◌%◌, ◌^◌, ℕ, bit_or, true};
ghost use mathlib.Core.Logic.{◌↔◌};
ghost use Rattle.rgo_core.specs.runs.Plans.{setup_of};
ghost use Rattle.rgo_core.specs.Records.{looked};
ghost use Rattle.rgo_core.specs.Memory.Words.{clock_at};
ghost use Rattle.rgo_core.specs.Rule.Views.{number_of};
ghost use Rattle.rgo_core.specs.Rule.declared.accesses.Kind.TheVariants as kind;
ghost use Rattle.rgo_core_steps.specs.After.{piece as piece_of, printing};
ghost use Rattle.rgo_core_steps.specs.Ends.{GoroutineEndsRun, ending, mark_of};
ghost use Rattle.rgo_core_steps.specs.Prints.{IsAtPrint};
ghost use Rattle.rgo_core_steps.specs.Seats.{HasOne, HasPossible, IsSeatOf, HasAccessed, Settles, settled};

use rgo_core::records::Record;
use rgo_core::rule::steps::{fetch_add, fetch_or, load};
use rgo_core::table::{ByRuns, Plan, RunSeat, RunTable};
use rgo_sound::machine::End;
use rgo_sound::region_machine::Limit;
use std::marker::Brand;

/// What a print has drawn: the place of its piece among all pieces.
#[derive(Clone, Copy, Debug, PartialEq, Eq)]
pub struct Drawn {
    pub ticket: u64,
    /// The run had ended before: the piece is not part of its print.
    pub is_void: bool,
}

/// How a run ends.
#[derive(Clone, Copy, Debug, PartialEq, Eq)]
pub enum Mark {
    /// An instruction ended it.
    Ended(End),
    /// It met a limit.
    Stopped(Limit),
}

/// Draws a ticket for the next instruction, which is a print. The caller has finished the piece: all its bytes are there.
pub fn ticket(table: &RunTable, seat: &mut RunSeat, behind: u64, piece: &[u8]) -> Drawn
    requires own { IsSeatOf seat.old.table_id table.now.shared.table_id clock_at }
    requires alone { HasOne (setup_of table.now.shared.key) seat.old.me }
    requires settles { Settles (setup_of table.now.shared.key) behind seat.old.me }
    requires print { IsAtPrint (setup_of table.now.shared.key) (settled (setup_of table.now.shared.key) behind seat.old.me) }
    requires piece { piece.now ≡ piece_of (setup_of table.now.shared.key).code
        (settled (setup_of table.now.shared.key) behind seat.old.me) }
    ensures own { (seat.new.table_id ≡ seat.old.table_id) × (seat.new.id ≡ seat.old.id) }
    ensures drawn { (n : ℕ) × (result.ticket ≡ n % 2 ^ 63) × ((result.is_void ≡ true) ↔ (2 ^ 63 ≤ n))
        × HasAccessed (setup_of table.now.shared.key) kind.DrawTicket clock_at (λ n. (n + 1) % 2 ^ 64)
        (λ n d. d ≡ printing (setup_of table.now.shared.key).code (settled (setup_of table.now.shared.key) behind seat.old.me) n)
        seat.old.me n seat.new.me }
    ensures possible { HasPossible (setup_of table.now.shared.key) seat.new.me }
{
    let found = fetch_add::<Record, Plan, ByRuns, Brand, _>(table, seat, 0, 1, &(piece, behind));
    Drawn {
        ticket: found % (1 << 63),
        is_void: found >= 1 << 63,
    }
}

/// Loads the clock, and returns whether the run has ended: `true` stays true, `false` may be outdated at once. The load puts the
/// local steps since the goroutine's last access into the run, without an instruction that needs an access.
pub fn look(table: &RunTable, seat: &mut RunSeat, behind: u64) -> bool
    requires own { IsSeatOf seat.old.table_id table.now.shared.table_id clock_at }
    requires alone { HasOne (setup_of table.now.shared.key) seat.old.me }
    requires settles { Settles (setup_of table.now.shared.key) behind seat.old.me }
    ensures own { (seat.new.table_id ≡ seat.old.table_id) × (seat.new.id ≡ seat.old.id) }
    ensures looked { (n : ℕ) × ((result ≡ true) ↔ (2 ^ 63 ≤ n))
        × HasAccessed (setup_of table.now.shared.key) kind.Load clock_at (λ n. n)
        (λ n d. d ≡ looked (settled (setup_of table.now.shared.key) behind seat.old.me)) seat.old.me n seat.new.me }
    ensures possible { HasPossible (setup_of table.now.shared.key) seat.new.me }
{
    load::<Record, Plan, ByRuns, Brand, _>(table, seat, 0, &behind) >= 1 << 63
}

/// Sets the end mark, for which the record of the goroutine shows the cause. Returns whether this has ended the run: `false` means that
/// another goroutine had ended it before, for its own reason.
pub fn finish(table: &RunTable, seat: &mut RunSeat, behind: u64, mark: Mark) -> bool
    requires own { IsSeatOf seat.old.table_id table.now.shared.table_id clock_at }
    requires alone { HasOne (setup_of table.now.shared.key) seat.old.me }
    requires settles { Settles (setup_of table.now.shared.key) behind seat.old.me }
    requires cause { GoroutineEndsRun (setup_of table.now.shared.key) (number_of seat.old.me)
        (settled (setup_of table.now.shared.key) behind seat.old.me) (mark_of mark) }
    ensures own { (seat.new.table_id ≡ seat.old.table_id) × (seat.new.id ≡ seat.old.id) }
    ensures ended { (n : ℕ) × ((result ≡ true) ↔ (n < 2 ^ 63))
        × HasAccessed (setup_of table.now.shared.key) kind.EndRun clock_at (λ n. bit_or n (2 ^ 63))
        (λ n d. d ≡ ending (setup_of table.now.shared.key).code (settled (setup_of table.now.shared.key) behind seat.old.me) n
        (mark_of mark)) seat.old.me n seat.new.me }
    ensures possible { HasPossible (setup_of table.now.shared.key) seat.new.me }
{
    fetch_or::<Record, Plan, ByRuns, Brand, _>(table, seat, 0, 1 << 63, &(mark, behind)) < 1 << 63
}
