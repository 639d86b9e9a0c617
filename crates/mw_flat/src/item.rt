//! What is still to be done of a walk over proofs.
use mw_heap::Ref;

/// An item of a walk: what is met, or what is complete once the items after it are done with.
#[derive(Clone, Copy)]
pub(crate) enum Item {
    /// A proof that is met.
    Proof(Ref),
    /// A list of proofs that is met.
    Proofs(Ref),
    /// A proof whose subproofs are complete.
    Complete(Ref),
    /// A list of proofs that are complete.
    AllComplete(Ref),
}
