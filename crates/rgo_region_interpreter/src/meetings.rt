//! Meetings at a channel without a buffer. Offer, meeting and acknowledgement are three steps of the region machine and one call
//! here, so no offer outlasts a call.

ghost use Rattle.rgo_region_interpreter.specs.Works.{TriesMeeting};

use crate::worlds::World;
use rgo_interpreter::{Stepped, step};
use rgo_machine::Pick;
use std::alloc::{AllocError, Global};

impl<'a> World<'a> {
    /// A receiver and a sender continue together, if they meet: the sender offers, the two meet, and the sender acknowledges that its
    /// offer was taken. Returns whether they do. Any two goroutines may be asked: two that do not meet stay as they are.
    ///
    /// # Errors
    ///
    /// On allocation failure.
    pub(crate) fn meet_both(
        &mut self,
        alloc: Global,
        receiver: usize,
        sender: usize,
    ) -> Result<bool, AllocError>
        ensures meets { TriesMeeting self.old self.new receiver sender result }
    {
        let Some(receives) = self.next(receiver) else {
            return Ok(false);
        };
        let Some(sends) = self.next(sender) else {
            return Ok(false);
        };
        let machine = self.machine();
        match step(
            alloc,
            &machine,
            &mut self.state,
            Pick::Meet(receiver, sender),
        )? {
            Stepped::NotEnabled => Ok(false),
            Stepped::Advanced | Stepped::Ended(_) => {
                let sent = sends.function.removes(sends.at);
                let received = receives.function.removes(receives.at);
                self.settle_both(sender, sent, receiver, received);
                Ok(true)
            }
        }
    }
}
