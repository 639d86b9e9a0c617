//! What is left to be looked at for calls of a block.
use mw_heap::Ref;

/// A part of a term: a term, a list of terms, or the call of a function of the block, by its name and its actuals.
#[derive(Clone, Copy)]
pub(crate) enum Part {
    Term(Ref),
    Terms(Ref),
    Call(Ref, Ref),
}

/// A part and the list of the tests that it stands under, the innermost first.
#[derive(Clone, Copy)]
pub(crate) struct Item {
    pub part: Part,
    pub tests: Ref,
}

/// A call of a function of the block: its name, the list of its actuals, and the list of the tests that it stands under, the innermost
/// first. A test is a pair (T . term), where the term is not to be NIL, or (NIL . term), where it is to be.
#[derive(Clone, Copy)]
pub(crate) struct FoundCall {
    pub name: Ref,
    pub actuals: Ref,
    pub tests: Ref,
}
