//! A scheme of induction.

use mw_heap::Ref;

/// A measure, conditions, and for each condition a list of substitutions.
#[derive(Clone, Copy)]
pub(crate) struct Scheme {
    pub(crate) measure: Ref,
    pub(crate) conditions: Ref,
    pub(crate) cases: Ref,
}
