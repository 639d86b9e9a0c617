//! One turn of comparing two objects.
use mw_heap::Ref;

/// Whether the first is below the second, or two others that are so where these are.
#[derive(Clone, Copy)]
pub(crate) enum Turn {
    Decided(bool),
    Next(Ref, Ref),
}
