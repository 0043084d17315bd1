//! Goroutines that are parked until a word of the table changes, by the operation that each of them waits to do and by the address of the
//! word (`semaroot` in Go's runtime). So a change wakes those that can use it, and no others.
//!
//! Only the driver's thread parks and wakes, between rounds, when no goroutine runs: no lock is needed, and a value that was parked is
//! there until it is woken, whatever workers do.
ghost use Rattle.std.specs.Prelude.{◌≡◌, ◌==◌, IfErr, IfOk, OnErr, OnOk, length, take};
ghost use Rattle.rgo_runtime.specs.Parking.{ParkingExamples, TakesAll, all_parked, nobody_parked};
ghost use Rattle.rgo_runtime.specs.Parking as spec;

use crate::queues::Queues;
use rgo_table_runs::goroutine::waking::OperationKind;
use std::alloc::{AllocError, AllocFailed, Global};
use std::marker::Model;

/// Goroutines, each parked at the address of a word, at which it waits to do an operation.
#[derive(Drop)]
pub struct Parked<T: Drop> {
    senders: Queues<T>,
    receivers: Queues<T>,
    /// Those that wait until their offer is taken. A channel has at most one.
    offerers: Queues<T>,
}

impl<T: Drop> Model for Parked<T> {
    ghost use Rattle.rgo_runtime.specs.Parking as spec;

    ghost Value = { spec.Parked T };

    ghost view = { λ p. record { senders = p.senders; receivers = p.receivers; offerers = p.offerers } };
}

impl<T: Drop> Parked<T> {
    /// None is parked.
    pub fn new(alloc: Global) -> Parked<T>
        ensures { result ≡ nobody_parked }
    {
        Parked {
            senders: Queues::new(alloc),
            receivers: Queues::new(alloc),
            offerers: Queues::new(alloc),
        }
    }

    /// Parks a goroutine that waits to do this operation at an address: as the oldest, if it was woken and could not continue, and else as
    /// the youngest.
    ///
    /// # Errors
    ///
    /// On allocation failure. Then nothing has changed, and the error returns the goroutine.
    #[inline(always)]
    pub fn park(
        &mut self,
        at: usize,
        operation: OperationKind,
        value: T,
        is_oldest: bool,
    ) -> Result<(), AllocFailed<T>>
        ensures parked { OnOk result (spec.Parks at operation is_oldest value self.old self.new) }
        ensures back { IfErr result (λ failed. failed.value ≡ value) }
        ensures same { OnErr result (self.new ≡ self.old) }
    {
        match operation {
            // A close never waits.
            OperationKind::Send | OperationKind::Close => self.senders.push(at, value, is_oldest),
            OperationKind::Receive => self.receivers.push(at, value, is_oldest),
            OperationKind::Acknowledge => self.offerers.push(at, value, is_oldest),
        }
    }

    /// Up to `most` goroutines that wait to do this operation at an address come to the list's end, the oldest first. Returns how many.
    ///
    /// # Errors
    ///
    /// On allocation failure. Then nothing has changed.
    #[inline(always)]
    pub fn unpark(
        &mut self,
        at: usize,
        operation: OperationKind,
        most: usize,
        into: &mut Vec<T>,
    ) -> Result<usize, AllocError>
        ensures woken { IfOk result (λ many. spec.Wakes at operation most many self.old into.old.items self.new into.new.items) }
        ensures same { OnErr result (self.new ≡ self.old) }
        ensures kept { OnErr result (into.new.items ≡ into.old.items) }
    {
        match operation {
            OperationKind::Send | OperationKind::Close => self.senders.take(at, most, into),
            OperationKind::Receive => self.receivers.take(at, most, into),
            OperationKind::Acknowledge => self.offerers.take(at, most, into),
        }
    }

    /// Whether none is parked.
    pub fn is_empty(&self) -> bool
        ensures { result ≡ (length (all_parked self.now) == 0) }
    {
        self.senders.len() == 0 && self.receivers.len() == 0 && self.offerers.len() == 0
    }

    /// Whether a goroutine waits to do this operation at an address.
    pub fn is_waited_at(&self, at: usize, operation: OperationKind) -> bool {
        match operation {
            OperationKind::Send | OperationKind::Close => self.senders.has_any(at),
            OperationKind::Receive => self.receivers.has_any(at),
            OperationKind::Acknowledge => self.offerers.has_any(at),
        }
    }

    /// All goroutines that are parked come to the list's end. Room for all is reserved before the first moves.
    ///
    /// # Errors
    ///
    /// On allocation failure. Then nothing has changed.
    pub fn unpark_all(&mut self, into: &mut Vec<T>) -> Result<(), AllocError>
        ensures woken { OnOk result (TakesAll (all_parked self.old) into.old.items into.new.items) }
        ensures left { OnOk result (self.new ≡ nobody_parked) }
        ensures same { OnErr result (self.new ≡ self.old) }
        ensures kept { OnErr result (into.new.items ≡ into.old.items) }
    {
        let parked = self
            .senders
            .len()
            .saturating_add(self.receivers.len())
            .saturating_add(self.offerers.len());
        match into.reserve(parked) {
            Ok(()) => {
                self.senders.take_all(into);
                self.receivers.take_all(into);
                self.offerers.take_all(into);
                Ok(())
            }
            Err(error) => Err(error),
        }
    }

    /// The queues, for a driver that ends a run.
    pub(crate) fn into_queues(self) -> (Queues<T>, Queues<T>, Queues<T>)
        ensures { (result.0 ≡ self.senders) × (result.1 ≡ self.receivers) × (result.2 ≡ self.offerers) }
    {
        let Parked {
            senders,
            receivers,
            offerers,
        } = self;
        (senders, receivers, offerers)
    }
}

/// Values that are parked for two operations.
pub fn examples()
    ensures { ParkingExamples }
{}
