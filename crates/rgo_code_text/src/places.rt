//! Places of lines in a code text: which lines may be next. A line has a form only in its place, so that each text is refused at
//! the first line with which no code continues.

ghost use Rattle.std.specs.Prelude.{◌≡◌, ◌↔◌, IsTrue};
ghost use Rattle.rgo_code_text.specs.Items as spec;
ghost use Rattle.rgo_code_text.specs.Order.{IsLast};
ghost use Rattle.rgo_code_text.specs.Views.{item_of};

use crate::items::Item;

/// Where a line is: which lines may be next.
#[derive(Clone, Copy, Debug, PartialEq, Eq)]
pub(crate) enum Place {
    /// The first line.
    First,
    /// After the first line and structs.
    Structs,
    /// After package variables.
    Globals,
    /// After a function.
    Functions,
    /// In a function, after its variables.
    Slots,
    /// In a function, before the instruction of this number or its end.
    Body(usize),
}

impl Place {
    /// The place after a line, if that may be here.
    pub(crate) fn after(self, item: &Item<'_>) -> Option<Place>
        ensures { result ≡ spec.place_after_item self (item_of item.now) }
    {
        match (self, item) {
            (Place::First, Item::Head) => Some(Place::Structs),
            (Place::Structs, Item::Struct(..)) => Some(Place::Structs),
            (Place::Structs | Place::Globals, Item::Global(..)) => Some(Place::Globals),
            (Place::Structs | Place::Globals | Place::Functions, Item::Function(..)) => Some(
                Place::Slots,
            ),
            (Place::Slots, Item::Slot(..)) => Some(Place::Slots),
            (Place::Slots, Item::Entry(..)) => Some(Place::Body(0)),
            (Place::Body(i), Item::Instr(instr)) if instr.index as usize == i => Some(Place::Body(
                i + 1,
            )),
            (Place::Body(_), Item::End) => Some(Place::Functions),
            _ => None,
        }
    }

    /// Whether a text may end here.
    pub(crate) fn is_last(self) -> bool
        ensures { IsTrue result ↔ IsLast self }
    {
        matches!(self, Place::Structs | Place::Globals | Place::Functions)
    }
}
