//! The labels of pairs.
use indexmap::IndexMap;
use mw_heap::Ref;

/// The labels that pairs have, and the first number that no label has.
#[derive(Drop)]
pub(crate) struct Numbers {
    pub given: IndexMap<Ref, u32>,
    pub next: u32,
}
