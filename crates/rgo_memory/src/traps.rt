//! Traps: what ends a running program.

ghost use Rattle.std.specs.Prelude.{◌≡◌};
ghost use Rattle.rgo_memory.specs.Traps.{trap_number, trap_name};

/// The run-time error that ends a run (The Go Programming Language Specification, "Run-time
/// panics").
#[derive(Clone, Copy, Debug, PartialEq, Eq)]
pub enum Trap {
    /// A field of nil.
    NilPointer,
    /// An index that is negative or not below the length.
    IndexRange,
    /// A division by zero.
    DivideZero,
    /// A negative length of a new slice, or a negative capacity of a new channel.
    BadSize,
    /// A send to a closed channel.
    SendClosed,
    /// A close of a closed channel.
    CloseClosed,
    /// A close of nil.
    CloseNil,
}

impl Trap {
    /// Its number, from 1 on. Messages show it, so the numbers never change.
    pub fn number(self) -> u8
        ensures { result ≡ trap_number self }
    {
        match self {
            Trap::NilPointer => 1,
            Trap::IndexRange => 2,
            Trap::DivideZero => 3,
            Trap::BadSize => 4,
            Trap::SendClosed => 5,
            Trap::CloseClosed => 6,
            Trap::CloseNil => 7,
        }
    }

    /// Its name, which messages show after the number.
    pub fn name(self) -> &'static str
        ensures { result.now ≡ trap_name self }
    {
        match self {
            Trap::NilPointer => "NilPointer",
            Trap::IndexRange => "IndexRange",
            Trap::DivideZero => "DivideZero",
            Trap::BadSize => "BadSize",
            Trap::SendClosed => "SendClosed",
            Trap::CloseClosed => "CloseClosed",
            Trap::CloseNil => "CloseNil",
        }
    }
}
