//! What code is laid out for.
use crate::Signature;
use mw_heap::{Heap, Profile};

/// The heap that holds the terms, the functions that they may call, and the profile that says which names are primitives.
#[derive(Clone, Copy)]
pub(crate) struct Context<'a> {
    pub heap: &'a Heap,
    pub signature: &'a Signature,
    pub profile: Profile,
}
