//! The picks of a journal. A type of its own, since its format has picks that the machine does not have: it does not depend on
//! which part of the language is there.

ghost use Rattle.std.specs.Prelude.{◌≡◌, MatchOption};
ghost use Rattle.rgo_code_words.specs.Worded.{IsSmallNumber};
ghost use Rattle.rgo_machine.specs.declared.picks.Pick.TheVariants.{Meet};
ghost use Rattle.rgo_journal.specs.Picks as spec;
ghost use Rattle.rgo_journal.specs.Picks.{IsSmallPick};

use rgo_machine::Pick;

/// A pick of the three-address machine, with numbers of 32 bits, in the order in which its line in a journal has them.
#[derive(Clone, Copy, Debug, PartialEq, Eq)]
pub enum TacPick {
    /// A goroutine steps alone.
    One(u32),
    /// A receiver and a sender step together.
    Meet(u32, u32),
    /// A goroutine takes the case of this number in a `select`, alone.
    Case(u32, u32),
    /// A goroutine takes the case of this number, a receive, together with a sender.
    CaseMeet(u32, u32, u32),
}

/// The pick of the machine that this is; none for a case of a `select`, which no program of the subset has. Such a pick has no step.
pub fn machine_pick(pick: TacPick) -> Option<Pick>
    ensures { result ≡ spec.machine_pick pick }
{
    match pick {
        TacPick::One(g) => Some(Pick::One(g as usize)),
        TacPick::Meet(receiver, sender) => Some(Pick::Meet(receiver as usize, sender as usize)),
        TacPick::Case(_, _) | TacPick::CaseMeet(_, _, _) => None,
    }
}

/// The number, if it has 32 bits. A machine's goroutines have numbers of a machine word, and no clause bounds how many there are.
fn small(n: usize) -> Option<u32>
    ensures { MatchOption result (IsSmallNumber n → ⊥) (λ m. (m ≡ n) × IsSmallNumber n) }
{
    if n <= u32::MAX as usize {
        Some(n as u32)
    } else {
        None
    }
}

fn small_meeting(receiver: usize, sender: usize) -> Option<TacPick>
    ensures { MatchOption result (IsSmallPick (Meet receiver sender) → ⊥)
        (λ pick. (pick ≡ spec.journal_pick (Meet receiver sender)) × IsSmallPick (Meet receiver sender)) }
{
    match (small(receiver), small(sender)) {
        (Some(receiver), Some(sender)) => Some(TacPick::Meet(receiver, sender)),
        _ => None,
    }
}

/// A pick of the machine as it is in a journal; none if a number does not have 32 bits.
pub fn journal_pick(pick: Pick) -> Option<TacPick>
    ensures { MatchOption result (IsSmallPick pick → ⊥) (λ p. (p ≡ spec.journal_pick pick) × IsSmallPick pick) }
{
    match pick {
        Pick::One(g) => match small(g) {
            Some(g) => Some(TacPick::One(g)),
            None => None,
        },
        Pick::Meet(receiver, sender) => small_meeting(receiver, sender),
    }
}
