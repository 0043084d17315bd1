//! What an expression is used as. A few rules depend on it: a string may only be printed, a call without a result may only be a
//! statement, and the left side of `=` need not be a value.

/// What an expression is checked as.
#[derive(Clone, Copy, Debug, PartialEq, Eq)]
pub enum Role {
    /// A value that is wanted.
    Value,
    /// An argument of `fmt.Println`: the only place of a string.
    Printed,
    /// An expression statement.
    Alone,
    /// The left side of `=`, which is not read. That of `+=` is a `Value`.
    Target,
}
