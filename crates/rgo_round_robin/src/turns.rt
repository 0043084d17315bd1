//! Turns of goroutines: up to 1,000 steps, alone and in meetings.

ghost use Rattle.std.specs.Prelude.{◌≡◌, ◌≤◌, ◌<◌, ◌-◌, ◌++◌, ◌∷◌, [], ℕ, List, Some, None, length, Contains};
ghost use Rattle.std.specs.Prelude.{MatchResult, IfOk, IfSome, OnOk};
ghost use Rattle.rgo_machine.specs.declared.picks.Pick.TheVariants as pick;
ghost use Rattle.rgo_machine.specs.Machines as spec;
ghost use Rattle.rgo_machine.specs.Machines.{step_by};
ghost use Rattle.rgo_round_robin.specs.Points.{listed_at_channel};
ghost use Rattle.rgo_round_robin.specs.Probing.{MeetingTried};
ghost use Rattle.rgo_round_robin.specs.Running.{RunContinues, IsRunAt, IsNotEnded, IsOn};
ghost use Rattle.rgo_round_robin.specs.Sleeping as sleeping;
ghost use Rattle.rgo_round_robin.specs.Taking.{StopsAt, TurnMovesTo, TurnStepsTo, WaitsTo, AdvancesTo, TurnsTo};
ghost use Rattle.rgo_round_robin.specs.Turning as turning;
ghost use Rattle.rgo_round_robin.specs.Turning.{operated_channel, AreMet};

use crate::drivers::Driver;
use crate::running::Running;
use crate::waiting::{admit, put_list, take_list};
use rgo_interpreter::{Stand, TurnEnd, Turned};
use rgo_machine::{Limits, RunEnd};
use rgo_memory::Value;
use std::alloc::{AllocError, Global};
use std::collections::HashMap;

/// The most steps of a turn.
const LONGEST_TURN: usize = 1_000;

/// The channel a goroutine is blocked on, by what it is before. A goroutine that is at nothing else, or at nil, never continues
/// alone and meets nobody, so it is not listed.
fn waits_at(stand: Stand) -> Option<usize>
    ensures { result ≡ sleeping.waits_at stand }
{
    match stand {
        Stand::Receive {
            channel: Value::Object(channel),
            ..
        } => Some(channel),
        Stand::Send {
            channel: Value::Object(channel),
            ..
        } => Some(channel),
        Stand::Receive { .. }
        | Stand::Send { .. }
        | Stand::Close { .. }
        | Stand::Call
        | Stand::Start
        | Stand::Elsewhere => None,
    }
}

/// The channel at which a goroutine waits that has no step alone, if it may come back.
fn channel_of<R: Running>(run: &R, g: usize) -> Option<usize>
    ensures { (machine : spec.Machine R.Frame) (given : List ℕ) (s : spec.State R.Frame)
        → IsRunAt (R.view run.now) machine given s → result ≡ sleeping.next_channel_of machine s g }
{
    match run.standing(g) {
        Some(stand) => waits_at(stand),
        None => None,
    }
}

/// The receiver and the sender, of a goroutine that is blocked and the one that waits there.
fn meeting<R: Running>(run: &R, g: usize, partner: usize) -> (usize, usize)
    ensures { AreMet result g partner }
{
    match run.standing(g) {
        Some(Stand::Receive { .. }) => (g, partner),
        // A goroutine that is blocked and does not receive sends. If neither does, the meeting is refused and nothing changes.
        _ => (partner, g),
    }
}

/// A receiver and a sender meet, if they can. Returns whether they have met.
///
/// # Errors
///
/// On allocation failure.
pub(crate) fn meet<R: Running>(
    alloc: Global,
    run: &mut R,
    steps: &mut u64,
    met: (usize, usize),
) -> Result<bool, AllocError>
    requires { IsNotEnded (R.view run.old) }
    ensures tries { (machine : spec.Machine R.Frame) (given : List ℕ) (s : spec.State R.Frame)
        → IsRunAt (R.view run.old) machine given s → s.ended ≡ None
        → MeetingTried (R.view run.new) machine given s met steps.old steps.new result }
    ensures fixed { (R.view run.new).fixed ≡ (R.view run.old).fixed }
{
    let (receiver, sender) = met;
    match run.meet(alloc, receiver, sender) {
        Ok(true) => {
            *steps = steps.saturating_add(1);
            Ok(true)
        }
        Ok(false) => Ok(false),
        Err(_) => Err(AllocError),
    }
}

/// After some steps of a turn: the goroutines that were started become ready, and those that wait at the channel that changed. All
/// of them, since one value may let any of them continue; those that cannot wait again in their turn.
fn wake(
    alloc: Global,
    driver: &mut Driver,
    from: usize,
    to: usize,
    stop: TurnEnd,
) -> Result<(), AllocError>
    ensures steps { driver.new.steps ≡ driver.old.steps }
    ensures stay { OnOk result ((g : ℕ) → Contains driver.old.ready.items g → Contains driver.new.ready.items g) }
    ensures fresh { OnOk result ((g : ℕ) → from ≤ g → g < to → Contains driver.new.ready.items g) }
    ensures woken { OnOk result ((n g : ℕ) → operated_channel stop ≡ Some n → Contains (listed_at_channel driver.old.waiting n) g
        → Contains driver.new.ready.items g) }
    ensures others { OnOk result ((n : ℕ) → (operated_channel stop ≡ Some n → ⊥)
        → listed_at_channel driver.new.waiting n ≡ listed_at_channel driver.old.waiting n) }
{
    admit(&mut driver.ready, from, to)?;
    if let TurnEnd::Operated(channel) = stop {
        let list = take_list(alloc, &mut driver.waiting, channel);
        driver.ready.extend_from_slice(&list)?;
    }
    Ok(())
}

/// A goroutine joins those that wait at a channel.
fn join(
    waiting: &mut HashMap<usize, Vec<usize>>,
    channel: usize,
    mut list: Vec<usize>,
    g: usize,
) -> Result<(), AllocError>
    ensures joined { OnOk result (listed_at_channel waiting.new channel ≡ list.items ++ g ∷ []) }
    ensures others { OnOk result ((n : ℕ) → (n ≡ channel → ⊥) → listed_at_channel waiting.new n ≡ listed_at_channel waiting.old n) }
{
    list.push(g)?;
    put_list(waiting, channel, list)
}

/// Two goroutines join those that wait at a channel.
fn join_both(
    waiting: &mut HashMap<usize, Vec<usize>>,
    channel: usize,
    mut list: Vec<usize>,
    first: usize,
    second: usize,
) -> Result<(), AllocError>
    ensures joined { OnOk result (listed_at_channel waiting.new channel ≡ (list.items ++ first ∷ []) ++ second ∷ []) }
    ensures others { OnOk result ((n : ℕ) → (n ≡ channel → ⊥) → listed_at_channel waiting.new n ≡ listed_at_channel waiting.old n) }
{
    list.push(first)?;
    join(waiting, channel, list, second)
}

/// A goroutine that waited has met another: it is ready, and the rest of its list waits on.
fn come_back(
    driver: &mut Driver,
    channel: usize,
    list: Vec<usize>,
    g: usize,
) -> Result<(), AllocError>
    ensures steps { driver.new.steps ≡ driver.old.steps }
    ensures ready { OnOk result (driver.new.ready.items ≡ driver.old.ready.items ++ g ∷ []) }
    ensures rest { OnOk result (listed_at_channel driver.new.waiting channel ≡ list.items) }
    ensures others { OnOk result ((n : ℕ) → (n ≡ channel → ⊥)
        → listed_at_channel driver.new.waiting n ≡ listed_at_channel driver.old.waiting n) }
{
    driver.ready.push(g)?;
    put_list(&mut driver.waiting, channel, list)
}

/// A goroutine that is blocked at a channel meets the one that has waited there last, or joins those that wait there. Returns
/// whether it has met. Only one is tried: a meeting that is missed here costs time and never makes a wrong report, since a deadlock
/// is reported only after a search of all goroutines.
fn wait<R: Running>(
    alloc: Global,
    run: &mut R,
    driver: &mut Driver,
    limits: Limits,
    g: usize,
    channel: usize,
) -> Result<bool, RunEnd>
    requires { IsOn limits (R.view run.old) }
    ensures waits { (machine : spec.Machine R.Frame) (given : List ℕ) (s : spec.State R.Frame)
        → IsRunAt (R.view run.old) machine given s → RunContinues limits s → step_by machine s (pick.One g) ≡ None
        → sleeping.next_channel_of machine s g ≡ Some channel
        → MatchResult result (WaitsTo (R.view run.new) machine limits g given s driver.old driver.new)
        (StopsAt (R.view run.new) machine limits g given s 1) }
    ensures fixed { (R.view run.new).fixed ≡ (R.view run.old).fixed }
{
    let mut list = take_list(alloc, &mut driver.waiting, channel);
    let Some(partner) = list.pop() else {
        return match join(&mut driver.waiting, channel, list, g) {
            Ok(()) => Ok(false),
            Err(_) => Err(RunEnd::NoMemory),
        };
    };
    let met = meeting(run, g, partner);
    match meet(alloc, run, &mut driver.steps, met) {
        Ok(true) => match come_back(driver, channel, list, partner) {
            Ok(()) => Ok(true),
            Err(_) => Err(RunEnd::NoMemory),
        },
        Ok(false) => match join_both(&mut driver.waiting, channel, list, partner, g) {
            Ok(()) => Ok(false),
            Err(_) => Err(RunEnd::NoMemory),
        },
        Err(_) => Err(RunEnd::NoMemory),
    }
}

/// A goroutine that has no step alone waits, if it may come back. Returns how many steps its turn has left, `None` if it sleeps.
fn rest<R: Running>(
    alloc: Global,
    run: &mut R,
    driver: &mut Driver,
    limits: Limits,
    g: usize,
    left: usize,
) -> Result<Option<usize>, RunEnd>
    requires { IsOn limits (R.view run.old) }
    ensures went { (machine : spec.Machine R.Frame) (given : List ℕ) (s : spec.State R.Frame)
        → IsRunAt (R.view run.old) machine given s → RunContinues limits s → step_by machine s (pick.One g) ≡ None
        → MatchResult result (AdvancesTo (R.view run.new) machine limits g given s driver.old driver.new left)
        (StopsAt (R.view run.new) machine limits g given s left) }
    ensures fixed { (R.view run.new).fixed ≡ (R.view run.old).fixed }
    ensures one { IfOk result (λ rest. IfSome rest (λ n. n ≡ left - 1)) }
{
    // A meeting is a step, and this turn has none left: the goroutine stays ready and tries in its next turn.
    if left == 0 {
        return Ok(Some(0));
    }
    // It has returned, or waits at nil: it is listed nowhere, and never has a step again.
    let Some(channel) = channel_of(run, g) else {
        return Ok(None);
    };
    match wait(alloc, run, driver, limits, g, channel) {
        Ok(true) => Ok(Some(left - 1)),
        Ok(false) => Ok(None),
        Err(end) => Err(end),
    }
}

/// The end of the run that a turn has found.
fn end_of(stop: TurnEnd) -> Option<RunEnd>
    ensures { result ≡ turning.run_end_of stop }
{
    match stop {
        TurnEnd::Ended(end) => Some(RunEnd::Ended(end)),
        TurnEnd::TooDeep => Some(RunEnd::CallsTooDeep),
        TurnEnd::Full => Some(RunEnd::GoroutinesSpent),
        TurnEnd::NoRoom(shortage) => Some(RunEnd::NoRoom(shortage)),
        TurnEnd::NoMemory => Some(RunEnd::NoMemory),
        TurnEnd::Spent | TurnEnd::Waits | TurnEnd::Printed | TurnEnd::Operated(_) => None,
    }
}

/// A goroutine steps alone, and others wake.
fn take_steps<R: Running>(
    alloc: Global,
    run: &mut R,
    driver: &mut Driver,
    limits: Limits,
    g: usize,
    left: usize,
) -> Result<Turned, RunEnd>
    requires { IsOn limits (R.view run.old) }
    ensures steps { (machine : spec.Machine R.Frame) (given : List ℕ) (s : spec.State R.Frame)
        → IsRunAt (R.view run.old) machine given s → RunContinues limits s
        → MatchResult result (TurnStepsTo (R.view run.new) machine limits g given s driver.old driver.new left)
        (StopsAt (R.view run.new) machine limits g given s left) }
    ensures fixed { (R.view run.new).fixed ≡ (R.view run.old).fixed }
    ensures within { IfOk result (λ turned. turned.steps ≤ left) }
{
    let from = run.goroutines();
    let turned = run.turn(alloc, limits, g, left);
    driver.steps = driver.steps.saturating_add(turned.steps as u64);
    if let Some(end) = end_of(turned.stop) {
        return Err(end);
    }
    // A turn only adds goroutines at the end, so the new ones are those from `from` on.
    let to = run.goroutines();
    match wake(alloc, driver, from, to, turned.stop) {
        Ok(()) => Ok(turned),
        Err(_) => Err(RunEnd::NoMemory),
    }
}

/// A goroutine takes some steps of its turn. Returns how many it has left, `None` if it sleeps.
fn advance<R: Running>(
    alloc: Global,
    run: &mut R,
    driver: &mut Driver,
    limits: Limits,
    g: usize,
    left: usize,
) -> Result<Option<usize>, RunEnd>
    requires on { IsOn limits (R.view run.old) }
    requires some { 0 < left }
    ensures went { (machine : spec.Machine R.Frame) (given : List ℕ) (s : spec.State R.Frame)
        → IsRunAt (R.view run.old) machine given s → RunContinues limits s
        → MatchResult result (AdvancesTo (R.view run.new) machine limits g given s driver.old driver.new left)
        (StopsAt (R.view run.new) machine limits g given s left) }
    ensures fixed { (R.view run.new).fixed ≡ (R.view run.old).fixed }
    ensures less { IfOk result (λ rest. IfSome rest (λ n. n < left)) }
{
    let turned = match take_steps(alloc, run, driver, limits, g, left) {
        Ok(turned) => turned,
        Err(end) => return Err(end),
    };
    match turned.stop {
        TurnEnd::Waits => rest(alloc, run, driver, limits, g, left - turned.steps),
        _ => Ok(Some(left - turned.steps)),
    }
}

/// A goroutine has its turn. If it may have a step after it, it has a turn in the next round.
pub(crate) fn take_turn<R: Running>(
    alloc: Global,
    run: &mut R,
    driver: &mut Driver,
    limits: Limits,
    g: usize,
) -> Result<(), RunEnd>
    requires { IsOn limits (R.view run.old) }
    ensures turns { (machine : spec.Machine R.Frame) (given : List ℕ) (s : spec.State R.Frame)
        → IsRunAt (R.view run.old) machine given s → RunContinues limits s
        → MatchResult result (λ _. TurnsTo (R.view run.new) machine limits g given s driver.old driver.new)
        (StopsAt (R.view run.new) machine limits g given s 1000) }
    ensures fixed { (R.view run.new).fixed ≡ (R.view run.old).fixed }
{
    let mut left = LONGEST_TURN;
    while left > 0 {
        let next = match advance(alloc, run, driver, limits, g, left) {
            Ok(next) => next,
            Err(end) => return Err(end),
        };
        match next {
            Some(rest) => left = rest,
            None => return Ok(()),
        }
    }
    // It has had all its steps, and may have more: only a goroutine that sleeps is left out of the next round.
    match driver.ready.push(g) {
        Ok(()) => Ok(()),
        Err(_) => Err(RunEnd::NoMemory),
    }
}
