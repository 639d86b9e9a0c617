//! How the program ends.
ghost use Rattle.std.specs.Prelude.{◌≡◌};
ghost use Rattle.mw_answers.specs.Numbers.{status_number};

use mw_read::SyntaxKind;

/// How a run of the program ends.
#[derive(Clone, Copy, Debug, PartialEq, Eq)]
pub enum Status {
    /// The book was read to its end, and every event was accepted.
    Done,
    /// The book was read to its end, and some event was refused.
    SomeRefused,
    /// The words asked how the program is used, which was written.
    Help,
    /// The words are none that the program takes; how it is used was written.
    Usage,
    /// The first fault of the book's text, and its offset.
    Syntax(SyntaxKind, u64),
    /// A read failed.
    ReadFault,
    /// A write failed.
    WriteFault,
    /// Out of memory, or past a bound that is answered so.
    Memory,
}

impl Status {
    /// The number with which the program ends.
    pub fn number(self) -> u8
        ensures { result ≡ status_number self }
    {
        match self {
            Status::Done | Status::Help => 0,
            Status::SomeRefused => 1,
            Status::Usage => 2,
            Status::Syntax(_, _) => 3,
            Status::ReadFault => 4,
            Status::WriteFault => 5,
            Status::Memory => 6,
        }
    }
}
