//! Parts of events.
use mw_heap::Ref;

/// What is met in an event: a cell of it, a proof, or a list of proofs. One cell may be met as each of these.
#[derive(Clone, Copy)]
pub(crate) enum Part {
    Cell(Ref),
    Proof(Ref),
    Proofs(Ref),
}
