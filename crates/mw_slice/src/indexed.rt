//! A heap with an index of its formulas.
use indexmap::IndexMap;
use mw_heap::{Heap, Ref};

/// A heap, its NIL, and where its formulas are first proved.
#[derive(Clone, Copy)]
pub(crate) struct IndexedHeap<'a> {
    pub heap: &'a Heap,
    pub nil: Ref,
    pub firsts: &'a IndexMap<Ref, u64>,
}
