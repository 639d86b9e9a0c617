//! What a formula comes to where an equation has a value.
use mw_heap::Ref;

/// The parts of a formula, and that an equation has a value. The context is the denial of that, as a formula.
#[derive(Clone, Copy)]
pub(crate) struct Assumption<'a> {
    pub formulas: &'a [Ref],
    pub equation: Ref,
    pub value: bool,
    pub context: Ref,
}

/// A formula's value in a case, and a proof of the formula where it is true, or else of its denial, or the context of the case.
#[derive(Clone, Copy)]
pub(crate) struct Settled {
    pub value: bool,
    pub proof: Ref,
}

/// Another formula, and of what it is the denial, if it is one. The first proof is of its denial, or the whole or the context, and the other
/// of the whole's denial, or the context or the other formula.
#[derive(Clone, Copy)]
pub(crate) struct Change {
    pub formula: Ref,
    pub denied: Option<Ref>,
    pub from: Ref,
    pub to: Ref,
}

/// A value, or another formula. A part in which the equation does not occur is kept, and nothing is proved of it.
#[derive(Clone, Copy)]
pub(crate) enum Reduced {
    Fixed(Settled),
    Kept,
    Changed(Change),
}
