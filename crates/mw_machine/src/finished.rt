//! What a run with room comes to.
ghost use Rattle.std.specs.Prelude.{◌≡◌};
ghost use Rattle.mw_machine.specs.Room.{IsEnd};
ghost use Rattle.mw_machine.specs.Ready.{outcome_of};

use crate::Outcome;
use mw_heap::Ref;

/// What a run comes to for which room was made: it asks for no memory.
#[derive(Clone, Copy)]
pub enum Finished {
    /// The value, and the units that are left.
    Value(Ref, u64),
    /// No unit was left where one was needed.
    Steps,
    /// A sum or a product of 2^128 or more.
    Overflow,
    /// A witness was called, which has no code.
    Witness,
}

impl Finished {
    // The outcome, which is not out of memory.
    pub(crate) fn of(outcome: Outcome) -> Finished
        requires { IsEnd outcome }
        ensures { outcome_of result ≡ outcome }
    {
        match outcome {
            Outcome::Value(value, left) => Finished::Value(value, left),
            Outcome::Steps => Finished::Steps,
            Outcome::Overflow => Finished::Overflow,
            Outcome::Witness => Finished::Witness,
            Outcome::Memory => unreachable!(),
        }
    }

    // The same, as an outcome of any run.
    pub(crate) fn outcome(self) -> Outcome
        ensures { result ≡ outcome_of self }
    {
        match self {
            Finished::Value(value, left) => Outcome::Value(value, left),
            Finished::Steps => Outcome::Steps,
            Finished::Overflow => Outcome::Overflow,
            Finished::Witness => Outcome::Witness,
        }
    }
}
