//! Starts of goroutines. The body of the new one is made before its number is drawn: a number that was drawn cannot be returned.
//! Its stakes were taken by duties before, so its regions stay from its first step on.
ghost use Rattle.std.specs.Prelude.{◌≡◌, ◌+◌, ◌<◌, [], MatchResult, false};
ghost use Rattle.rgo_sound.specs.Tac.Code.{Go};
ghost use Rattle.rgo_sound.specs.Tac.Ops.{operation_of};
ghost use Rattle.rgo_acts.specs.Actors.{ActorActed};
ghost use Rattle.rgo_acts.specs.Ready.{ActorIsBefore};
ghost use Rattle.rgo_acts.specs.Starts.{ActorStarts};

use crate::actors::{Actor, Searches};
use crate::runs::Run;
use rgo_body::{Body, Next};
use rgo_core_steps::{numbers, seats};
use std::alloc::{AllocError, Global};

/// Whether a goroutine was started.
pub enum Outcome {
    /// This one, with its number.
    Started(u64, Actor),
    /// There are as many as there may be. The number that was drawn is lost, the record remembers the refusal, and the run is to
    /// end.
    Refused,
}

/// The next instruction starts a goroutine with this function and these arguments. The new one is not run here: its parent's driver
/// takes it over after the turn, and until then nobody but the parent knows it.
///
/// # Errors
///
/// On allocation failure. Then nothing has happened.
pub fn start(
    alloc: Global,
    actor: &mut Actor,
    run: &Run<'_, '_>,
    next: &Next<'_>,
    function: u32,
    from: &[u32],
) -> Result<Outcome, AllocError>
    requires before { ActorIsBefore run.now actor.old next.now }
    requires is { operation_of next.now.op ≡ Go function from.now }
    requires never { actor.old.body.refused ≡ false }
    requires count { actor.old.body.counts.goroutines + 1 < 18446744073709551616 }
    ensures { MatchResult result (ActorStarts run.now actor.old actor.new) (λ _. ActorActed run.now actor.old actor.new 0 [] []) }
{
    let body = match actor.body.child(alloc, run.program, next, function, from) {
        Ok(body) => body,
        Err(error) => return Err(error),
    };
    match numbers::number(run.table, &mut actor.seat, actor.behind, &run.limits) {
        Some(number) => {
            actor.behind = 0;
            actor.body.started(run.program, next);
            let seat = seats::split(run.table, &mut actor.seat, number);
            let searches = Searches::new(number, run);
            Ok(Outcome::Started(
                number,
                Actor {
                    seat,
                    behind: 0,
                    searches,
                    body,
                },
            ))
        }
        None => {
            actor.behind = 0;
            actor.body.refuse(run.program);
            Ok(Outcome::Refused)
        }
    }
}
