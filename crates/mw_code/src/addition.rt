//! What is added to a table.
use mw_heap::{Heap, Ref};

/// A block, the heap that holds its terms, and how many are left of the instructions that the blocks of the table share.
#[derive(Clone, Copy)]
pub(crate) struct Addition<'a> {
    pub heap: &'a Heap,
    pub block: &'a [(Ref, Ref, Option<Ref>)],
    pub left: u64,
}
