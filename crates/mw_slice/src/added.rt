//! Events that were added.
use mw_heap::{Mark, Ref};

/// An event, in which of the heaps it stands, and how large that was before it was copied there.
#[derive(Clone, Copy)]
pub(crate) struct Added {
    pub heap: usize,
    pub start: Mark,
    pub event: Ref,
}
