//! What is still to be written of a text.
use mw_heap::Ref;

/// A part of a text.
#[derive(Clone, Copy)]
pub(crate) enum Part {
    /// The text of an object.
    Text(Ref),
    /// What follows the first member of a list, by the object after that member.
    Tail(Ref),
}
