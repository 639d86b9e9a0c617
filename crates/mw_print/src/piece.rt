//! What is still to be written of a text with labels.
use mw_heap::Ref;

/// A piece of a text with labels.
#[derive(Clone, Copy)]
pub(crate) enum Piece {
    /// The text of an object.
    Text(Ref),
    /// What follows the first member of a list, by the object after that member.
    Tail(Ref),
    /// Nothing: from here on the pair has this label.
    Given(Ref, u32),
    /// The parenthesis that closes a list.
    Close,
}
