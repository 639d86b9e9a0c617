//! What a reader answers.
ghost use Rattle.std.specs.Prelude.{◌≡◌, Option};
ghost use Rattle.mw_read.specs.Standing.{lasting};

use mw_heap::Ref;

/// A fault of a book's text.
#[derive(Clone, Copy, Debug, PartialEq, Eq)]
pub enum SyntaxKind {
    /// The book ends inside a datum.
    End,
    /// A closing parenthesis closes nothing.
    Close,
    /// A dot stands where none may, or lacks the one datum after it.
    Dot,
    /// A token is none, or something stands directly after it.
    Token,
    /// A byte that may not stand here.
    Byte,
    /// A label is none, is begun twice, or is used before its datum is complete.
    Label,
    /// The book has more than 2^40 bytes.
    Length,
}

/// A fault, and the offset where it lies.
#[derive(Clone, Copy)]
pub(crate) struct Fault {
    pub(crate) kind: SyntaxKind,
    pub(crate) offset: u64,
}

/// What a lexeme comes to.
#[derive(Clone, Copy)]
pub(crate) enum Outcome {
    /// No datum is complete.
    Pending,
    /// A datum that stands in no other.
    Datum(Ref),
    Fault(Fault),
}

/// What comes next in a book.
#[derive(Clone, Copy, Debug, PartialEq, Eq)]
pub enum Step {
    /// A datum.
    Datum(Ref),
    /// A datum that holds a natural of 2^128 or more: its first member, where that is a symbol, and its second member, where that is
    /// a symbol and the first is VERIFY, DEFINE, SKOLEM or SWITCH.
    TooBig(Option<Ref>, Option<Ref>),
    /// The bytes so far hold no further complete datum and no fault.
    More,
    /// The book has ended: no datum is left, and it has no fault.
    End,
    /// The first fault of the book, and its offset.
    Syntax(SyntaxKind, u64),
    /// Memory was refused.
    Memory,
}

// The answer, where no other follows it.
pub(crate) fn lasting(step: &Step) -> Option<Step>
    ensures { result ≡ lasting step.now }
{
    match step {
        Step::Syntax(..) | Step::Memory => Some(*step),
        _ => None,
    }
}
