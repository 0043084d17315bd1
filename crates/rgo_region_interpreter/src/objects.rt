//! New objects, and their pages. A page is only a number here: how many a region has, and how many words are used of the one that a
//! goroutine fills. Room is made before the object, so an instruction that lacks a page is not done.

ghost use Rattle.std.specs.Prelude.{◌≡◌, ◌≤◌, ◌+◌, false, slice_get, unwrap_or, Some, MatchResult, OnOk};
ghost use Rattle.rgo_tac.specs.Frames.{operand_values};
ghost use Rattle.rgo_tac.specs.Ops.{numbers_of, operation_of};
ghost use Rattle.rgo_code.specs.Names as names;
ghost use Rattle.rgo_region_machine.specs.Objects.{fits_in_page};
ghost use Rattle.rgo_region_machine.specs.States.{RegionState};
ghost use Rattle.rgo_region_interpreter.specs.Extents as extents;
ghost use Rattle.rgo_region_interpreter.specs.Holders.{Fills, Reserves, fill_in};
ghost use Rattle.rgo_region_interpreter.specs.Objects as spec;
ghost use Rattle.rgo_region_interpreter.specs.Objects.{GoroutineMakesNext, ChangesHolder, WithPage, AddsPage, Placed, PlacesObject, ObjectHasRoom, ObjectHasNoRoom};
ghost use Rattle.rgo_region_interpreter.specs.Works.{Ready, SameRun};

use crate::worlds::{Halt, Next, World};
use rgo_machine::Shortage;
use rgo_memory::Value;
use rgo_region_machine::Region;
use rgo_tac::{Class, Op, Operands};
use rgo_tac_interpreter::Frame;
use rgo_typed::{Action, Struct};
use std::alloc::AllocError;

/// How large an object is.
#[derive(Clone, Copy)]
pub(crate) struct Extent {
    /// How many fields, elements or places of a buffer it has.
    pub(crate) cells: usize,
    /// How many words it takes.
    pub(crate) words: usize,
}

/// An object that is about to be made.
#[derive(Clone, Copy)]
pub(crate) struct Making {
    /// The variable that will point to it.
    pub(crate) to: u32,
    pub(crate) extent: Extent,
}

impl Extent {
    /// Whether an object does not fit a page, and is spread over a lead page and data pages.
    fn is_spread(self, page_words: usize) -> bool
        ensures { result ≡ extents.extent_is_spread page_words self }
    {
        self.words > page_words
    }

    /// How many data pages an object has; none unless it is spread. In pages of no words it counts as one, as in the definition, where
    /// a division by 0 returns 0.
    fn data_pages(self, page_words: usize) -> usize
        ensures { result ≡ extents.extent_data_pages page_words self }
    {
        if !self.is_spread(page_words) {
            return 0;
        }
        match self.cells.saturating_sub(1).checked_div(page_words) {
            Some(full) => full + 1,
            None => 1,
        }
    }

    /// Whether an object needs more data pages than an object can have.
    fn is_too_large(self, page_words: usize) -> bool
        ensures { result ≡ extents.extent_is_too_large page_words self }
    {
        self.data_pages(page_words) > page_words.saturating_sub(2).min(64)
    }

    /// How many pages are to be taken before an object, if `reserved` are reserved for it and `used` words are used of the
    /// goroutine's own page.
    fn pages_wanted(self, page_words: usize, reserved: usize, used: Option<usize>) -> usize
        requires { extents.extent_is_too_large page_words self ≡ false }
        ensures { result ≡ extents.pages_wanted page_words reserved used self }
    {
        if self.is_spread(page_words) {
            (self.data_pages(page_words) + 1).saturating_sub(reserved)
        } else if has_room(used, self.words, page_words) {
            0
        } else {
            1
        }
    }
}

/// A struct of this number: it takes at least one word.
fn struct_extent(structs: &[Struct], n: usize) -> Option<Extent>
    ensures { result ≡ spec.struct_extent (slice_get structs.now n) }
{
    match structs.get(n) {
        Some(of) => {
            let cells = of.fields.items().len();
            Some(Extent {
                cells,
                words: cells.max(1),
            })
        }
        None => None,
    }
}

/// How many cells an object of this size has; `None` if it is not a size.
fn cells(size: Value) -> Option<usize>
    ensures { result ≡ spec.cells_for_size size }
{
    match size {
        Value::Int(n) if n >= 0 => Some(n as usize),
        _ => None,
    }
}

/// A slice of this length: its cells, and a word for the length.
fn slice_extent(size: Value) -> Option<Extent>
    ensures { result ≡ spec.sized_extent spec.slice_extent size }
{
    match cells(size) {
        Some(n) => Some(Extent {
            cells: n,
            words: n + 1,
        }),
        None => None,
    }
}

/// A channel with a buffer of this size: at least one cell, and two words before the cells.
fn channel_extent(size: Value) -> Option<Extent>
    ensures { result ≡ spec.sized_extent spec.channel_extent size }
{
    match cells(size) {
        Some(n) => Some(Extent {
            cells: n.max(1),
            words: n.max(1) + 2,
        }),
        None => None,
    }
}

/// How large the object is that an action makes; `None` if it makes none.
fn extent_made(structs: &[Struct], frame: &Frame, action: Action, from: Operands) -> Option<Extent>
    ensures { result ≡ spec.extent_made structs.now action (operand_values frame.now (numbers_of from)) }
{
    match (action, from) {
        (Action::New(n), Operands::Zero) => struct_extent(structs, n),
        (Action::Slice, Operands::One(size)) => slice_extent(frame.value(size)),
        (Action::Chan, Operands::One(size)) => channel_extent(frame.value(size)),
        (Action::New(_) | Action::Slice | Action::Chan, _) => None,
        (
            Action::Int(_)
            | Action::Bool(_)
            | Action::Nil
            | Action::Copy
            | Action::Binary(_)
            | Action::Neg
            | Action::Not
            | Action::IsNil
            | Action::Len
            | Action::Load(_)
            | Action::Store(_)
            | Action::At
            | Action::Put
            | Action::Recv
            | Action::Send
            | Action::Close
            | Action::Get(_)
            | Action::Set(_),
            _,
        ) => None,
    }
}

/// The object that a frame's next instruction makes, if it makes one.
pub(crate) fn next_object(structs: &[Struct], frame: &Frame, op: Op<'_>) -> Option<Making>
    ensures { result ≡ spec.making_by structs.now frame.now (operation_of op.entry) }
{
    match op {
        Op::Do {
            to: Some(to),
            action,
            from,
        } => match extent_made(structs, frame, action, from) {
            Some(extent) => Some(Making { to, extent }),
            None => None,
        },
        Op::Do { .. }
        | Op::Call { .. }
        | Op::Go { .. }
        | Op::Print { .. }
        | Op::Jump(_)
        | Op::Branch { .. }
        | Op::Return(_) => None,
    }
}

/// Whether an object of `words` words fits what is left of a page of which `used` are used. It is a subtraction, since a sum could
/// overflow.
fn has_room(used: Option<usize>, words: usize, page_words: usize) -> bool
    requires { words ≤ page_words }
    ensures { result ≡ fits_in_page page_words used words }
{
    match used {
        Some(used) => used <= page_words - words,
        None => false,
    }
}

impl<'a> World<'a> {
    /// The region of a class, for a goroutine's newest frame.
    pub(crate) fn region_of_class(&self, g: usize, class: Class) -> Option<Region>
        ensures { result ≡ spec.region_of_class self.now g class }
    {
        match class {
            Class::NoClass => None,
            Class::Global => Some(Region::Global),
            Class::Name(name) => match self.holders.get(g) {
                Some(holder) => holder.region(name),
                None => None,
            },
        }
    }

    /// The region of the object that a goroutine is about to make.
    fn region_for(&self, g: usize, next: &Next<'a>, making: Making) -> Option<Region>
        ensures { result ≡ spec.region_for self.now g next.now making }
    {
        self.region_of_class(g, next.function.class_of(making.to))
    }

    /// How many words are used of the page that a goroutine fills in a region.
    fn fill(&self, g: usize, region: Region) -> Option<usize>
        ensures { result ≡ spec.fill_for self.now g region }
    {
        match self.holders.get(g) {
            Some(holder) => holder.fill(region),
            None => None,
        }
    }

    /// Records how many words are used of the page that a goroutine fills in a region.
    fn refill(&mut self, g: usize, region: Region, used: usize) -> Result<(), AllocError>
        ensures refills { OnOk result (ChangesHolder self.old self.new g (λ c d. Fills c d region used)) }
        ensures same { SameRun self.old self.new }
    {
        if let Some(holder) = self.holders.get_mut(g) {
            holder.set_fill(region, used)?;
        }
        Ok(())
    }

    /// Records that `words` more words are used of that page.
    fn fill_more(&mut self, g: usize, region: Region, words: usize) -> Result<(), AllocError>
        ensures refills { OnOk result (ChangesHolder self.old self.new g
            (λ c d. Fills c d region (unwrap_or (fill_in c region) 0 + words))) }
        ensures same { SameRun self.old self.new }
    {
        if let Some(holder) = self.holders.get_mut(g) {
            holder.fill_more(region, words)?;
        }
        Ok(())
    }

    /// How many pages a goroutine has reserved.
    fn reserved(&self, g: usize) -> usize
        ensures { result ≡ spec.reserved_for self.now g }
    {
        match self.holders.get(g) {
            Some(holder) => holder.reserved,
            None => 0,
        }
    }

    /// A goroutine has one more page reserved.
    ///
    /// # Errors
    ///
    /// If the count would overflow. Then nothing changed.
    fn reserve_page(&mut self, g: usize) -> Result<(), AllocError>
        ensures reserves { OnOk result (ChangesHolder self.old self.new g (λ c d. Reserves c d (c.reserved + 1))) }
        ensures same { SameRun self.old self.new }
    {
        if let Some(holder) = self.holders.get_mut(g) {
            let Some(more) = holder.reserved.checked_add(1) else {
                return Err(AllocError);
            };
            holder.reserved = more;
        }
        Ok(())
    }

    /// The pages that a goroutine has reserved become those of an object: none is reserved any more.
    fn use_reserved(&mut self, g: usize)
        ensures uses { ChangesHolder self.old self.new g (λ c d. Reserves c d 0) }
        ensures same { SameRun self.old self.new }
    {
        if let Some(holder) = self.holders.get_mut(g) {
            holder.reserved = 0;
        }
    }

    /// A page more is reserved for an object, if it is spread; otherwise it becomes the goroutine's own page in a region.
    fn keep_page(&mut self, g: usize, region: Region, extent: Extent) -> Result<(), AllocError>
        ensures kept { OnOk result (ChangesHolder self.old self.new g
            (λ c d. WithPage (extents.extent_is_spread self.old.sizes.page_words extent) c d region)) }
        ensures same { SameRun self.old self.new }
    {
        if extent.is_spread(self.sizes.page_words) {
            self.reserve_page(g)
        } else {
            self.refill(g, region, 0)
        }
    }

    /// A goroutine takes a page in a region for an object.
    fn add_page(&mut self, g: usize, region: Region, extent: Extent) -> Result<(), AllocError>
        ensures added { OnOk result (AddsPage self.old self.new g region extent) }
        ensures same { SameRun self.old self.new }
    {
        self.table.take_page(region)?;
        self.keep_page(g, region, extent)?;
        Ok(())
    }

    /// How many pages a goroutine is to take in a region before an object.
    fn pages_wanted(&self, g: usize, region: Region, extent: Extent) -> usize
        requires { extents.extent_is_too_large self.now.sizes.page_words extent ≡ false }
        ensures { result ≡ spec.pages_wanted_for self.now g region extent }
    {
        extent.pages_wanted(
            self.sizes.page_words,
            self.reserved(g),
            self.fill(g, region),
        )
    }

    /// The goroutine takes the pages in a region that its next object still needs. Those that it takes before room is lacking stay
    /// taken and are counted, so a later turn does not take them again.
    fn take_pages(
        &mut self,
        g: usize,
        next: &Next<'a>,
        making: Making,
        region: Region,
    ) -> Result<(), Halt>
        requires makes { GoroutineMakesNext self.old g next.now making }
        requires region { spec.region_for self.old g next.now making ≡ Some region }
        requires small { extents.extent_is_too_large self.old.sizes.page_words making.extent ≡ false }
        ensures { MatchResult result (λ _. (s : RegionState) → Ready self.old s g
            → ObjectHasRoom self.old self.new s g next.now making) (λ halt. ObjectHasNoRoom halt self.old self.new g) }
    {
        for _ in 0..self.pages_wanted(g, region, making.extent) {
            if self.table.pages() >= self.sizes.pages {
                return Err(Halt::NoRoom(Shortage::Pages));
            }
            self.add_page(g, region, making.extent)?;
        }
        Ok(())
    }

    /// Makes room for the next object: in the goroutine's own page of its region, or in pages that are reserved for it. If there is
    /// none, the goroutine takes pages.
    pub(crate) fn make_room(
        &mut self,
        g: usize,
        next: &Next<'a>,
        making: Making,
    ) -> Result<(), Halt>
        requires { GoroutineMakesNext self.old g next.now making }
        ensures { MatchResult result (λ _. (s : RegionState) → Ready self.old s g
            → ObjectHasRoom self.old self.new s g next.now making) (λ halt. ObjectHasNoRoom halt self.old self.new g) }
    {
        if making.extent.is_too_large(self.sizes.page_words) {
            return Err(Halt::NoRoom(Shortage::ObjectSize));
        }
        // Never taken: the class of the variable of a new object has a region.
        let Some(region) = self.region_for(g, next, making) else {
            return Ok(());
        };
        self.take_pages(g, next, making, region)
    }

    /// An object takes the pages that are reserved for it, if it is spread; otherwise words of the goroutine's own page in a region.
    fn use_room(&mut self, g: usize, region: Region, extent: Extent) -> Result<(), AllocError>
        ensures used { OnOk result (ChangesHolder self.old self.new g
            (λ c d. Placed (extents.extent_is_spread self.old.sizes.page_words extent) c d region extent.words)) }
        ensures same { SameRun self.old self.new }
    {
        if extent.is_spread(self.sizes.page_words) {
            self.use_reserved(g);
            Ok(())
        } else {
            self.fill_more(g, region, extent.words)
        }
    }

    /// An object belongs to a region from now on, and is freed with it.
    fn put(
        &mut self,
        g: usize,
        region: Region,
        extent: Extent,
        object: usize,
    ) -> Result<(), AllocError>
        ensures placed { OnOk result (PlacesObject self.old self.new g region extent object) }
        ensures same { SameRun self.old self.new }
    {
        self.use_room(g, region, extent)?;
        self.table.own(region, object)?;
        Ok(())
    }

    /// The object that was made is placed in its region. Only called after `make_room` and the instruction, so the room is there.
    pub(crate) fn place(
        &mut self,
        g: usize,
        next: &Next<'a>,
        making: Making,
        object: usize,
    ) -> Result<(), AllocError>
        ensures placed { OnOk result ((region : _) → spec.region_for self.old g next.now making ≡ Some region
            → PlacesObject self.old self.new g region making.extent object) }
        ensures same { SameRun self.old self.new }
    {
        if let Some(region) = self.region_for(g, next, making) {
            self.put(g, region, making.extent, object)?;
        }
        Ok(())
    }
}
