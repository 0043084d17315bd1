//! Instructions that load or store one word: a field, an element or the length of a slice, or a package variable. Each returns the
//! trap by which its instruction ends the run instead; the access itself cannot fail.
//!
//! The length of a slice, the number of fields of a struct and the page numbers of a spread object are fixed before anybody else
//! knows its address. So what was found of them holds until the access, whatever others do meanwhile.
ghost use Rattle.std.specs.Prelude.{◌≡◌, ◌<◌, ◌∷◌, [], List, Some, None, MatchOption, MatchResult, suc};
ghost use Rattle.rgo_core.specs.moves.Cells.{IsAtSpread};
ghost use Rattle.rgo_core.specs.Frames.shown.WordFrames.{frame_word};
ghost use Rattle.rgo_core_steps.specs.Accesses.{Loads, Stores};
ghost use Rattle.rgo_sound.specs.Tac.Code.{Do};
ghost use Rattle.rgo_sound.specs.Tac.Ops.{operation_of};
ghost use Rattle.rgo_sound.specs.Typed.declared.actions.Action.TheVariants as action;
ghost use Rattle.rgo_body.specs.Bodies.{frames_of_body};
ghost use Rattle.rgo_acts.specs.ActorExamples.{ElementExamples};
ghost use Rattle.rgo_acts.specs.Actors.{ActorActed, now};
ghost use Rattle.rgo_acts.specs.Elements.{ActorHasElement, HasFieldHere, HasLocated, HasNoElementHere, IsElementAccess, IsAtFieldOf};
ghost use Rattle.rgo_acts.specs.Ready.{ActorIsBefore};
ghost use Rattle.rgo_acts.specs.Traps.{IsAtTrap};

use crate::actors::Actor;
use crate::runs::Run;
use rgo_body::Next;
use rgo_body::pages::cells;
use rgo_core_steps::counting::Steps;
use rgo_sound::memory::Trap;
use std::sync::ledger::Ledger;

/// A variable of the next instruction gets the word that this loads. The access comes before the change of the body, since only it
/// says what the word is.
fn take<L: Ledger>(
    actor: &mut Actor,
    run: &Run<'_, '_>,
    next: &Next<'_>,
    word: usize,
    steps: &mut Steps<L>,
)
    requires before { ActorIsBefore run.now actor.old next.now }
    requires inside { word < run.now.table.words }
    requires loads { Loads run.now.setup (now run.now.setup actor.old) word }
    ensures { ActorActed run.now actor.old actor.new 1 [] [] }
{
    let found = cells::load(run.table, &mut actor.seat, actor.behind, word, steps);
    actor.behind = 0;
    actor.body.acted(run.program, next, found);
}

/// The next instruction stores this value.
fn put<L: Ledger>(
    actor: &mut Actor,
    run: &Run<'_, '_>,
    next: &Next<'_>,
    word: usize,
    value: u64,
    steps: &mut Steps<L>,
)
    requires before { ActorIsBefore run.now actor.old next.now }
    requires inside { word < run.now.table.words }
    requires stores { Stores run.now.setup (now run.now.setup actor.old) word value }
    ensures { ActorActed run.now actor.old actor.new 1 [] [] }
{
    cells::store(run.table, &mut actor.seat, actor.behind, word, value, steps);
    actor.behind = 0;
    actor.body.acted(run.program, next, 0);
}

/// The word of a cell of the spread object at this address, which has `before` words before its cells. Loads the number of the
/// cell's data page, plus 1; it is never 0 once the object exists.
fn locate<L: Ledger>(
    actor: &mut Actor,
    run: &Run<'_, '_>,
    next: &Next<'_>,
    address: usize,
    before: usize,
    cell: usize,
    steps: &mut Steps<L>,
) -> usize
    requires before { ActorIsBefore run.now actor.old next.now }
    requires spread { IsAtSpread run.now.setup (now run.now.setup actor.old) address before cell }
    ensures { HasLocated run.now actor.old actor.new next.now address cell result }
{
    run.fits();
    let page_words = run.page_words();
    let word = run.cell(address, before + cell / page_words);
    let number = cells::index(
        run.table,
        &mut actor.seat,
        actor.behind,
        word,
        address,
        before,
        cell,
        steps,
    );
    actor.behind = 0;
    run.cell_in(number as usize - 1, cell % page_words)
}

/// The word of a field of the struct to which variable `pointer` points, which has this address. A struct has no words before its
/// fields, so the field is the cell of its number.
fn field_word<L: Ledger>(
    actor: &mut Actor,
    run: &Run<'_, '_>,
    next: &Next<'_>,
    pointer: u32,
    address: usize,
    field: usize,
    steps: &mut Steps<L>,
) -> usize
    requires before { ActorIsBefore run.now actor.old next.now }
    requires at { IsAtFieldOf (operation_of next.now.op) pointer field }
    requires points { (w : _) (ws : List _) → frames_of_body actor.old.body ≡ w ∷ ws → frame_word w pointer ≡ suc address }
    ensures { HasFieldHere run.now actor.old actor.new next.now pointer field result }
{
    let fields = run.program.fields_at(next, pointer);
    let page_words = run.page_words();
    if fields <= page_words {
        return run.cell(address, field);
    }
    locate(actor, run, next, address, 0, field, steps)
}

/// Loads a field of the struct to which variable `from` points.
pub fn load_field<L: Ledger>(
    actor: &mut Actor,
    run: &Run<'_, '_>,
    next: &Next<'_>,
    to: u32,
    field: usize,
    from: u32,
    steps: &mut Steps<L>,
) -> Result<(), Trap>
    requires before { ActorIsBefore run.now actor.old next.now }
    requires is { operation_of next.now.op ≡ Do (Some to) (action.Load field) (from ∷ []) }
    ensures { MatchResult result (λ _. ActorActed run.now actor.old actor.new 1 [] []) (λ trap. IsAtTrap run.now actor.old actor.new trap) }
{
    let pointer = actor.body.word(from);
    if pointer == 0 {
        return Err(Trap::NilPointer);
    }
    let address = pointer as usize - 1;
    let word = field_word(actor, run, next, from, address, field, steps);
    take(actor, run, next, word, steps);
    Ok(())
}

/// Stores variable `value` to a field of the struct to which variable `to` points.
pub fn store_field<L: Ledger>(
    actor: &mut Actor,
    run: &Run<'_, '_>,
    next: &Next<'_>,
    field: usize,
    to: u32,
    value: u32,
    steps: &mut Steps<L>,
) -> Result<(), Trap>
    requires before { ActorIsBefore run.now actor.old next.now }
    requires is { operation_of next.now.op ≡ Do None (action.Store field) (to ∷ value ∷ []) }
    ensures { MatchResult result (λ _. ActorActed run.now actor.old actor.new 1 [] []) (λ trap. IsAtTrap run.now actor.old actor.new trap) }
{
    let pointer = actor.body.word(to);
    if pointer == 0 {
        return Err(Trap::NilPointer);
    }
    let address = pointer as usize - 1;
    let word = field_word(actor, run, next, to, address, field, steps);
    let value = actor.body.word(value);
    put(actor, run, next, word, value, steps);
    Ok(())
}

/// Loads the length of the slice in variable `from`. That of nil is 0, for which no word is loaded, but another access is made: the
/// instruction is a step of the run.
pub fn length<L: Ledger>(
    actor: &mut Actor,
    run: &Run<'_, '_>,
    next: &Next<'_>,
    to: u32,
    from: u32,
    steps: &mut Steps<L>,
)
    requires before { ActorIsBefore run.now actor.old next.now }
    requires is { operation_of next.now.op ≡ Do (Some to) action.Len (from ∷ []) }
    ensures { ActorActed run.now actor.old actor.new 1 [] [] }
{
    let slice = actor.body.word(from);
    if slice == 0 {
        cells::length_of_nil(run.table, &mut actor.seat, actor.behind, steps);
        actor.behind = 0;
        actor.body.acted(run.program, next, 0);
        return;
    }
    take(actor, run, next, run.cell(slice as usize - 1, 0), steps);
}

/// The word of element `index` of the slice in variable `slice`, whose length is loaded first; `None` if there is no such element.
/// A negative index is a large word, so one comparison finds both ends.
fn element<L: Ledger>(
    actor: &mut Actor,
    run: &Run<'_, '_>,
    next: &Next<'_>,
    slice: u32,
    index: u32,
    steps: &mut Steps<L>,
) -> Option<usize>
    requires before { ActorIsBefore run.now actor.old next.now }
    requires at { IsElementAccess (operation_of next.now.op) slice index }
    ensures { MatchOption result (HasNoElementHere run.now actor.old actor.new next.now slice index)
        (ActorHasElement run.now actor.old actor.new next.now slice index) }
{
    let pointer = actor.body.word(slice);
    if pointer == 0 {
        return None;
    }
    let address = pointer as usize - 1;
    let first = run.cell(address, 0);
    let elements = cells::measure(
        run.table,
        &mut actor.seat,
        actor.behind,
        first,
        address,
        steps,
    );
    actor.behind = 0;
    let index = actor.body.word(index);
    if index >= elements {
        return None;
    }
    let cell = index as usize;
    let page_words = run.page_words() as u64;
    if elements < page_words {
        return Some(run.cell(address, 1 + cell));
    }
    Some(locate(actor, run, next, address, 1, cell, steps))
}

/// Loads element `index` of the slice in variable `slice`. Nil has no elements, so it has the same trap.
pub fn load_element<L: Ledger>(
    actor: &mut Actor,
    run: &Run<'_, '_>,
    next: &Next<'_>,
    to: u32,
    slice: u32,
    index: u32,
    steps: &mut Steps<L>,
) -> Result<(), Trap>
    requires before { ActorIsBefore run.now actor.old next.now }
    requires is { operation_of next.now.op ≡ Do (Some to) action.At (slice ∷ index ∷ []) }
    ensures { MatchResult result (λ _. ActorActed run.now actor.old actor.new 1 [] []) (λ trap. IsAtTrap run.now actor.old actor.new trap) }
{
    match element(actor, run, next, slice, index, steps) {
        Some(word) => {
            take(actor, run, next, word, steps);
            Ok(())
        }
        None => Err(Trap::IndexRange),
    }
}

/// Stores variable `value` to element `index` of the slice in variable `slice`. The length is loaded even if the trap follows: it is the
/// reason of the trap.
pub fn store_element<L: Ledger>(
    actor: &mut Actor,
    run: &Run<'_, '_>,
    next: &Next<'_>,
    slice: u32,
    index: u32,
    value: u32,
    steps: &mut Steps<L>,
) -> Result<(), Trap>
    requires before { ActorIsBefore run.now actor.old next.now }
    requires is { operation_of next.now.op ≡ Do None action.Put (slice ∷ index ∷ value ∷ []) }
    ensures { MatchResult result (λ _. ActorActed run.now actor.old actor.new 1 [] []) (λ trap. IsAtTrap run.now actor.old actor.new trap) }
{
    match element(actor, run, next, slice, index, steps) {
        Some(word) => {
            let value = actor.body.word(value);
            put(actor, run, next, word, value, steps);
            Ok(())
        }
        None => Err(Trap::IndexRange),
    }
}

/// Loads a package variable.
pub fn load_variable<L: Ledger>(
    actor: &mut Actor,
    run: &Run<'_, '_>,
    next: &Next<'_>,
    to: u32,
    variable: usize,
    steps: &mut Steps<L>,
)
    requires before { ActorIsBefore run.now actor.old next.now }
    requires is { operation_of next.now.op ≡ Do (Some to) (action.Get variable) [] }
    ensures { ActorActed run.now actor.old actor.new 1 [] [] }
{
    take(actor, run, next, run.variable(variable), steps);
}

/// Stores variable `from` to a package variable.
pub fn store_variable<L: Ledger>(
    actor: &mut Actor,
    run: &Run<'_, '_>,
    next: &Next<'_>,
    variable: usize,
    from: u32,
    steps: &mut Steps<L>,
)
    requires before { ActorIsBefore run.now actor.old next.now }
    requires is { operation_of next.now.op ≡ Do None (action.Set variable) (from ∷ []) }
    ensures { ActorActed run.now actor.old actor.new 1 [] [] }
{
    let value = actor.body.word(from);
    put(actor, run, next, run.variable(variable), value, steps);
}

/// Accesses to elements that meet their definitions, and some that do not.
pub fn examples()
    ensures { ElementExamples }
{}
