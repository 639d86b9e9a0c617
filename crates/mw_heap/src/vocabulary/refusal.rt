//! Why an event is refused.
ghost use Rattle.std.specs.Prelude.{◌≡◌};
ghost use Rattle.mw_model.specs.Events.Refusal.{reason_of};
ghost use Rattle.mw_heap.specs.Variants.{number_of, refusal_of};

/// The reason for which an event is refused, and its place in the order in which the reasons are tested.
#[derive(Clone, Copy, Debug, PartialEq, Eq)]
pub enum Refusal {
    Range,
    Event,
    Name,
    Formals,
    Term,
    Formula,
    Variables,
    Nested,
    Count,
    Conclusion,
    Proof,
    Nil,
    Steps,
    Overflow,
    Witness,
    Claim,
    Checker,
    Long,
    Profile,
}

impl Refusal {
    /// The number of the reason, from 1 on.
    pub fn number(self) -> u64
        ensures { result ≡ number_of (refusal_of self) }
    {
        match self {
            Refusal::Range => 1,
            Refusal::Event => 2,
            Refusal::Name => 3,
            Refusal::Formals => 4,
            Refusal::Term => 5,
            Refusal::Formula => 6,
            Refusal::Variables => 7,
            Refusal::Nested => 8,
            Refusal::Count => 9,
            Refusal::Conclusion => 10,
            Refusal::Proof => 11,
            Refusal::Nil => 12,
            Refusal::Steps => 13,
            Refusal::Overflow => 14,
            Refusal::Witness => 15,
            Refusal::Claim => 16,
            Refusal::Checker => 17,
            Refusal::Long => 18,
            Refusal::Profile => 19,
        }
    }

    /// The word of the report.
    pub fn word(self) -> &'static str
        ensures { result.now ≡ reason_of (refusal_of self) }
    {
        match self {
            Refusal::Range => "RANGE",
            Refusal::Event => "EVENT",
            Refusal::Name => "NAME",
            Refusal::Formals => "FORMALS",
            Refusal::Term => "TERM",
            Refusal::Formula => "FORMULA",
            Refusal::Variables => "VARIABLES",
            Refusal::Nested => "NESTED",
            Refusal::Count => "COUNT",
            Refusal::Conclusion => "CONCLUSION",
            Refusal::Proof => "PROOF",
            Refusal::Nil => "NIL",
            Refusal::Steps => "STEPS",
            Refusal::Overflow => "OVERFLOW",
            Refusal::Witness => "WITNESS",
            Refusal::Claim => "CLAIM",
            Refusal::Checker => "CHECKER",
            Refusal::Long => "LONG",
            Refusal::Profile => "PROFILE",
        }
    }
}
