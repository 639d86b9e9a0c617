//! What an object is made of.
use crate::Ref;

/// An object's outermost form.
#[derive(Clone, Copy, PartialEq, Eq)]
pub enum View {
    /// A natural number.
    Nat(u128),
    /// A symbol, whose name `Heap::name_of` lends.
    Symbol,
    /// A pair, by its first and its second part.
    Pair(Ref, Ref),
}
