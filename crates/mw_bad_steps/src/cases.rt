//! The cases of an induction.
use mw_heap::Ref;

/// The list of the conditions of the cases, and that of their lists of substitutions. NIL stands for those that are missing.
#[derive(Clone, Copy)]
pub(crate) struct Cases {
    pub conditions: Ref,
    pub substitutions: Ref,
    pub nil: Ref,
}
