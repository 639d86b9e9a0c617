//! What a primitive function answers.
use mw_heap::Ref;

/// The value of a primitive function, or why there is none.
#[derive(Clone, Copy, Debug, PartialEq, Eq)]
pub enum Applied {
    /// The value.
    Value(Ref),
    /// A sum or a product of 2^128 or more, which no heap holds.
    Overflow,
    /// Out of memory.
    Memory,
}
