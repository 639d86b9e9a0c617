//! The list of what a block owes.
use mw_heap::Ref;

/// No list, since its calls are nested, or since it owes more than it may; or the list of its obligations.
#[derive(Clone, Copy)]
pub(crate) enum Listed {
    Nested,
    TooMany,
    Formulas(Ref),
}
