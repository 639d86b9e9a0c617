//! The primitive functions.

/// A primitive function. `primitive_of` ties each but `If` to the logic's, where IF is a form of its own among terms.
#[derive(Clone, Copy, Debug, PartialEq, Eq)]
pub enum Primitive {
    /// IF
    If,
    /// EQUAL
    Equal,
    /// CONSP
    Consp,
    /// CONS
    Cons,
    /// CAR
    Car,
    /// CDR
    Cdr,
    /// SYMBOLP
    Symbolp,
    /// SYMBOL-<
    SymbolLess,
    /// NATP
    Natp,
    /// <
    Less,
    /// +
    Plus,
    /// -
    Minus,
    /// *, which profile One lacks
    Times,
}
