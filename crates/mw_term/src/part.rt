//! Parts of a term.
use mw_heap::Ref;

/// A part of a term: a term, or a list of terms.
#[derive(Clone, Copy, PartialEq, Eq, Hash)]
pub(crate) enum Part {
    Term(Ref),
    Terms(Ref),
}
