//! Why a program is not lowered.

/// Why `lower` returned no code.
#[derive(Clone, Copy, Debug, PartialEq, Eq)]
pub enum LowerError {
    NoMemory,
    /// A count of the program is too large for numbers of 32 bits: of its structs, package variables or functions, of the
    /// fields of a struct, or of what the code of a function has.
    TooLarge,
}
