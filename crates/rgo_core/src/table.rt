//! A table of a run: how it opens and how it closes. The driver calls both: it opens the table before there is a goroutine, and
//! closes it when all records are back on its own seat.
ghost use mathlib.Core.Logic.{◌↔◌};
ghost use Rattle.std.specs.Prelude.{◌≡◌, ◌≤◌, ◌<◌, ◌^◌, ℕ, true, [], ◌∷◌, IfOk, length};
ghost use Rattle.std.specs.Mem.Slots.{IsFull, slots_items, slots_len};
ghost use Rattle.rgo_sound.specs.Code.NameRules.{Ascends};
ghost use Rattle.rgo_core.specs.Core.{Core as Explains, IsPossible, Setup};
ghost use Rattle.rgo_core.specs.runs.Opening.{first_of, opening_table};
ghost use Rattle.rgo_core.specs.Image.{table_sizes};
ghost use Rattle.rgo_core.specs.runs.Plans.{setup_of};
ghost use Rattle.rgo_core.specs.Records.{accesses, looked};
ghost use Rattle.rgo_core_memory.specs.Words.{all_words as words_in_all};
ghost use Rattle.rgo_core_rule.specs.Rule.{Closing};
ghost use Rattle.rgo_core_rule.specs.Steps.{LeavesOnSeat};
ghost use Rattle.rgo_core_rule.specs.Views.{IsAlone, number_of, record_of, view};
ghost use Rattle.rgo_core_rule.specs.declared.accesses.Kind.TheVariants as kind;
ghost use Rattle.rgo_sound.specs.Machine.Limits.{most_goroutines};
ghost use Rattle.rgo_sound.specs.RegionMachine.Machine.{Event as RegionEvent};

use crate::records::Record;
use atomic_table::Closed;
use rgo_core_frames::constants::constants_fit;
use rgo_core_memory::layout::{TableSizes, all_words, count_at};
use rgo_core_rule::rule::{Cells, Chair, Explanation};
use rgo_core_rule::seats;
use rgo_core_rule::steps::load;
use rgo_sound::code::Checked;
use rgo_sound::machine::{Limits, Sizes};
use std::alloc::{AllocError, Global};
use std::marker::Brand;
use std::snapshot::Snapshot;

/// What is fixed when a table opens. Only proofs see the code in it, since the table itself has no use for it.
#[derive(Drop)]
pub struct Plan {
    pub code: Snapshot<Checked>,
    pub sizes: Sizes,
    pub limits: Limits,
}

/// Runs of the region machine explain the words. This is where the machine of the rule is chosen.
pub struct ByRuns;

impl Explanation<Record, Plan> for ByRuns {
    ghost Event = { RegionEvent };

    ghost accesses = { accesses };

    ghost explains = { λ plan. Explains (setup_of plan) };

    ghost opening = { λ plan. opening_table (setup_of plan) };

    ghost first = { λ plan. first_of plan.code.value };
}

/// The table of a run.
pub type RunTable = Cells<Record, Plan, ByRuns>;

/// The right of a thread to access the table. It has no bytes.
pub type RunSeat = Chair<Record>;

/// A table as a run begins, and the seat with the record of `main`. `variables` is the number of the code's package variables. All words
/// are 0 but two: `main` is counted, and Global has a stake that never ends.
pub fn open(
    alloc: Global,
    code: &Checked,
    variables: usize,
    sizes: Sizes,
    limits: Limits,
) -> Result<(RunTable, RunSeat), AllocError>
    requires variables { variables ≡ length code.now.variables }
    requires fits { words_in_all (table_sizes code.now sizes) ≤ 2 ^ 32 }
    requires goroutines { most_goroutines limits ≤ 1000000 }
    ensures table { IfOk result (λ t. (t.0.shared.table_id.words ≡ words_in_all (table_sizes code.now sizes))
        × (t.0.shared.table_id.slots ≡ 0)
        × (setup_of t.0.shared.key ≡ record { code = code.now; sizes = sizes; limits = limits })) }
    ensures seat { IfOk result (λ t. (t.1.table_id ≡ t.0.shared.table_id)
        × (t.1.me ≡ (view ((0, first_of code.now) ∷ []) [], []))) }
    ensures possible { IfOk result (λ t. IsPossible (setup_of t.0.shared.key) 0 (first_of code.now)) }
{
    code.code().ascends();
    constants_fit(code.code());
    let layout = TableSizes {
        pages: sizes.pages,
        page_words: sizes.page_words,
        slots: sizes.regions,
        variables,
    };
    let mut words = vec![in alloc; 0u64; all_words(&layout)]?;
    words[16] = 1;
    words[count_at(&layout, sizes.regions)] = 2;
    let plan = Plan {
        code: Snapshot::of(code),
        sizes,
        limits,
    };
    seats::open::<Record, Plan, ByRuns>(alloc, words.as_slice(), &plan)
}

/// Whether the run has ended, by a load of the clock: `true` stays true, `false` may be outdated at once. The lower bits of the
/// clock count the tickets for prints that were drawn.
pub fn look(table: &RunTable, seat: &mut RunSeat) -> bool
    requires own { (seat.old.table_id ≡ table.now.shared.table_id) × (0 < table.now.shared.table_id.words) }
    requires alone { IsAlone (first_of table.now.shared.key.code.value) seat.old.me }
    ensures own { (seat.new.table_id ≡ seat.old.table_id) × (seat.new.id ≡ seat.old.id) }
    ensures looked { (n : ℕ) × ((result ≡ true) ↔ (2 ^ 63 ≤ n))
        × LeavesOnSeat accesses (first_of table.now.shared.key.code.value) kind.Load 0 (λ n. n)
        (λ n d. d ≡ looked (record_of (first_of table.now.shared.key.code.value) seat.old.me)) seat.old.me n seat.new.me }
    ensures possible { IsPossible (setup_of table.now.shared.key) (number_of seat.new.me)
        (record_of (first_of table.now.shared.key.code.value) seat.new.me) }
{
    load::<Record, Plan, ByRuns, Brand, _>(table, seat, 0, &()) >= 1 << 63
}

/// The last words. One run explains them, and leads to the records that the seat has, among others. What a run claims of its end follows
/// from here, so a driver retires all goroutines to this seat before it closes.
pub fn close(table: RunTable, seat: RunSeat) -> Closed<(), Global>
    requires own { seat.table_id ≡ table.shared.table_id }
    ensures counts { (slots_len result.words ≡ table.shared.table_id.words)
        × (slots_len result.slots ≡ table.shared.table_id.slots) }
    ensures full { IsFull result.words }
    ensures end { Closing accesses (Explains (setup_of table.shared.key)) (opening_table (setup_of table.shared.key))
        (slots_items result.words) seat.me.0 }
{
    seats::close(table, seat)
}
