//! Events that a slice may keep.
use mw_heap::{Heap, Ref};

/// An event that is kept where it is asked for: the heap that it stands in, itself, and its place among the events.
#[derive(Clone, Copy)]
pub(crate) struct Candidate<'a> {
    pub heap: &'a Heap,
    pub event: Ref,
    pub place: u64,
}
