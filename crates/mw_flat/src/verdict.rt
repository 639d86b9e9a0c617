//! What is answered to the data of a log.
ghost use Rattle.std.specs.Prelude.{◌≡◌};
ghost use Rattle.mw_commands.specs.Commands.Log.{objection_number, objection_word};
ghost use Rattle.mw_flat.specs.Verdicts.{objection_of};

/// Why an event of a log gets a no, the first of these that holds.
#[derive(Clone, Copy, Debug, PartialEq, Eq)]
pub enum Objection {
    /// It is none of the five forms with their numbers, or it holds a natural past the range.
    Shape,
    /// A step that was collected for it is not good.
    Step,
    /// It would be refused before its proofs are looked at.
    Admit,
    /// Its numbers are not those of steps that conclude just what it owes.
    Goal,
}

impl Objection {
    /// Its number; the first ones are those of refusals.
    pub fn number(self) -> u64
        ensures { result ≡ objection_number (objection_of self) }
    {
        match self {
            Objection::Shape => 20,
            Objection::Step => 23,
            Objection::Admit => 24,
            Objection::Goal => 25,
        }
    }

    /// The word of the report.
    pub fn word(self) -> &'static str
        ensures { result.now ≡ objection_word (objection_of self) }
    {
        match self {
            Objection::Shape => "SHAPE",
            Objection::Step => "STEP",
            Objection::Admit => "ADMIT",
            Objection::Goal => "GOAL",
        }
    }
}

/// What comes of a datum of a log.
#[derive(Clone, Copy, Debug, PartialEq, Eq)]
pub enum Verdict {
    /// It is a step, which was put with those that were collected.
    Noted,
    /// The event gets a yes, and the theory goes on.
    Yes,
    /// The event gets a no, and the theory stays.
    No(Objection),
}
