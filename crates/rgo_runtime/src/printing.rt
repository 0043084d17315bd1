//! Prints that were gathered from goroutines, and go out in the order of their tickets.
//!
//! Invariant: the prints with tickets below `next` have gone out, each once and whole; those that wait have other tickets, in any order.
//! A goroutine draws its ticket at the table, at the moment of the print, but the driver gathers prints only after a turn. So the print
//! with a lower ticket may come later, and the others wait for it.
//!
//! Only the driver's thread gathers and writes, between rounds. So the bytes of two prints never mix.
ghost use Rattle.std.specs.Prelude.{◌≡◌, ◌==◌, ◌++◌, [], IfOk, IsPermutation, MatchResult, OnErr, OnOk, length, true};
ghost use Rattle.std.specs.List.Sorted.{IsNonDecreasingBy};
ghost use Rattle.rgo_outside.specs.Causes.{HasCause};
ghost use Rattle.rgo_outside.specs.Pieces.{AddsOnly};
ghost use Rattle.rgo_table_runs.specs.Goroutine.Acts.Runs as runs;
ghost use Rattle.rgo_table_runs.specs.Goroutine.Goroutines.{IsOf};
ghost use Rattle.rgo_table_runs.specs.Goroutine.Passing.{Gathers};
ghost use Rattle.rgo_runtime.specs.Printing.{GivesOut, GivesSome, IsPieceOf, PrintingExamples, ticket_of};

use rgo_outside::{Sink, WriteFault, write_all};
use rgo_table_runs::goroutine::acts::prints::Print;
use rgo_table_runs::goroutine::goroutine::Goroutine;
use std::alloc::{AllocError, Global};
use std::marker::Model;

/// A queue of prints that wait until all prints with lower tickets have gone out.
#[derive(Drop)]
pub struct PrintQueue {
    waiting: Vec<Print>,
    /// The first ticket whose print has not gone out. It passes the end of a `u64` once the print with the last ticket is out.
    next: u128,
}

impl Model for PrintQueue {
    ghost use Rattle.rgo_runtime.specs.Printing as spec;

    ghost Value = { spec.WaitingPrints };

    ghost view = { λ q. record { waiting = q.waiting.items; next = q.next } };
}

/// Puts prints in the order of their tickets. No two prints of a run have the same, so a sort that is not stable, and needs no memory, is
/// enough.
fn sort_by_ticket(prints: &mut Vec<Print>)
    ensures same { IsPermutation prints.old.items prints.new.items }
    ensures sorted { IsNonDecreasingBy ticket_of prints.new.items }
{
    prints.sort_unstable_by_key(|print| print.ticket);
}

/// Writes the prints whose turn it is, from this ticket on, and removes them. Returns the first ticket that had no print. The list is
/// sorted, so one walk finds all. After a fault the list still has prints that went out: no one may write it then.
fn write_in_order<K: Sink>(
    waiting: &mut Vec<Print>,
    from: u128,
    out: &mut K,
) -> Result<u128, WriteFault>
    requires { IsNonDecreasingBy ticket_of waiting.old.items }
    ensures given { IfOk result (λ next.
        GivesOut waiting.old.items from waiting.new.items next (K.contents out.old) (K.contents out.new)) }
    ensures part { OnErr result (GivesSome waiting.old.items from (K.contents out.old) (K.contents out.new)) }
    ensures cause { HasCause (K.faults out.old) (K.faults out.new) result }
    ensures broken { OnErr result (K.broken out.new ≡ true) }
    ensures pieces { AddsOnly (IsPieceOf waiting.old.items) (K.pieces out.old) (K.pieces out.new) }
{
    let mut next = from;
    let mut kept = 0;
    for i in 0..waiting.len() {
        let print = &waiting[i];
        if u128::from(print.ticket) == next {
            match write_all(out, &print.bytes) {
                Ok(()) => next += 1,
                Err(fault) => return Err(fault),
            }
        } else {
            waiting.swap(kept, i);
            kept += 1;
        }
    }
    waiting.truncate(kept);
    Ok(next)
}

impl PrintQueue {
    /// None waits, and none has gone out.
    pub fn new(alloc: Global) -> PrintQueue
        ensures { result ≡ record { waiting = []; next = 0 } }
    {
        PrintQueue {
            waiting: Vec::new(alloc),
            next: 0,
        }
    }

    /// Moves these prints from the list to those that wait.
    ///
    /// # Errors
    ///
    /// On allocation failure. Then nothing has changed.
    pub fn add(&mut self, prints: &mut Vec<Print>) -> Result<(), AllocError>
        ensures added { OnOk result (self.new ≡ record self.old { waiting = self.old.waiting ++ prints.old.items }) }
        ensures none { OnOk result (prints.new.items ≡ []) }
        ensures same { OnErr result (self.new ≡ self.old) }
        ensures kept { OnErr result (prints.new.items ≡ prints.old.items) }
    {
        self.waiting.append(prints)
    }

    /// What a goroutine has printed since the last call waits now, but for prints that are void. After a turn of the goroutine. Returns how
    /// many prints came. It is here, and not at `Turn`, since only the queue sees the list of those that wait.
    ///
    /// # Errors
    ///
    /// On allocation failure. Then nothing has changed.
    pub(crate) fn gather(&mut self, goroutine: &mut Goroutine) -> Result<usize, AllocError>
        ensures of { (r : runs.Run) → IsOf r goroutine.old → IsOf r goroutine.new }
        ensures gathers { MatchResult result (Gathers goroutine.old goroutine.new self.old.waiting self.new.waiting)
            (λ _. (goroutine.new ≡ goroutine.old) × (self.new.waiting ≡ self.old.waiting)) }
        ensures next { self.new.next ≡ self.old.next }
    {
        goroutine.gather(&mut self.waiting)
    }

    /// Whether no print waits. True until the next `add` or `gather`.
    pub(crate) fn is_empty(&self) -> bool
        ensures { result ≡ (length self.now.waiting == 0) }
    {
        self.waiting.is_empty()
    }

    /// Writes the prints whose turn it is, each as a whole, and removes them. Called after each round, so that prints do not pile up.
    ///
    /// # Errors
    ///
    /// If a write failed. Nothing more was written then, and the queue is of no more use: the run ends.
    pub fn flush<K: Sink>(&mut self, out: &mut K) -> Result<(), WriteFault>
        ensures given { OnOk result (GivesOut self.old.waiting self.old.next self.new.waiting self.new.next
            (K.contents out.old) (K.contents out.new)) }
        ensures part { OnErr result (GivesSome self.old.waiting self.old.next (K.contents out.old) (K.contents out.new)) }
        ensures cause { HasCause (K.faults out.old) (K.faults out.new) result }
        ensures broken { OnErr result (K.broken out.new ≡ true) }
        ensures pieces { AddsOnly (IsPieceOf self.old.waiting) (K.pieces out.old) (K.pieces out.new) }
    {
        sort_by_ticket(&mut self.waiting);
        match write_in_order(&mut self.waiting, self.next, out) {
            Ok(next) => {
                self.next = next;
                Ok(())
            }
            Err(fault) => Err(fault),
        }
    }
}

/// Examples of prints, of which one is missing.
pub fn examples()
    ensures { PrintingExamples }
{}
