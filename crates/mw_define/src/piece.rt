//! Pieces of a term.
use mw_heap::Ref;

/// A term, or a list of terms.
#[derive(Clone, Copy, PartialEq, Eq, Hash)]
pub(crate) enum Piece {
    Term(Ref),
    Terms(Ref),
}
