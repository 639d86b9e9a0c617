//! The words of the logic.
ghost use Rattle.std.specs.Prelude.{◌≡◌, ◌≤◌, true, MatchOption};
ghost use Rattle.mw_heap.specs.Words.{word_bytes, place_of, word_count};

use crate::Ref;

/// A symbol that the logic, its proofs or its events speak of. In a heap that keeps the words they are the first objects, in this order.
#[derive(Clone, Copy)]
pub enum Word {
    /// NIL
    Nil,
    /// T
    T,
    /// QUOTE
    Quote,
    /// LAMBDA
    Lambda,
    /// IF
    If,
    /// PEQUAL*
    Pequal,
    /// PNOT*
    Pnot,
    /// POR*
    Por,
    /// AND
    And,
    /// OR
    Or,
    /// COND
    Cond,
    /// LIST
    List,
    /// LET
    Let,
    /// LET*
    LetStar,
    /// FIRST
    First,
    /// SECOND
    Second,
    /// THIRD
    Third,
    /// FOURTH
    Fourth,
    /// FIFTH
    Fifth,
    /// VERIFY
    Verify,
    /// DEFINE
    Define,
    /// DEFINE-ALL
    DefineAll,
    /// SKOLEM
    Skolem,
    /// SWITCH
    Switch,
    /// EVAL
    Eval,
    /// PRINT
    Print,
    /// PROFILE
    Profile,
    /// AXIOM
    Axiom,
    /// THEOREM
    Theorem,
    /// PROPOSITIONAL-SCHEMA
    PropositionalSchema,
    /// FUNCTIONAL-EQUALITY
    FunctionalEquality,
    /// BETA-REDUCTION
    BetaReduction,
    /// BASE-EVAL
    BaseEval,
    /// EXPANSION
    Expansion,
    /// CONTRACTION
    Contraction,
    /// ASSOCIATIVITY
    Associativity,
    /// CUT
    Cut,
    /// INSTANTIATION
    Instantiation,
    /// INDUCTION
    Induction,
    /// ORDP
    Ordp,
    /// ORD<
    OrdLess,
    /// STEP
    Step,
    /// COMMUTE-OR
    CommuteOr,
    /// MODUS-PONENS
    ModusPonens,
    /// SYMMETRY
    Symmetry,
    /// TRANSITIVITY
    Transitivity,
    /// REPLACE
    Replace,
    /// CAR
    Car,
    /// CDR
    Cdr,
    /// CONS
    Cons,
}

// All of them, in order.
pub(crate) static WORDS: [Word; 50] = [
    Word::Nil,
    Word::T,
    Word::Quote,
    Word::Lambda,
    Word::If,
    Word::Pequal,
    Word::Pnot,
    Word::Por,
    Word::And,
    Word::Or,
    Word::Cond,
    Word::List,
    Word::Let,
    Word::LetStar,
    Word::First,
    Word::Second,
    Word::Third,
    Word::Fourth,
    Word::Fifth,
    Word::Verify,
    Word::Define,
    Word::DefineAll,
    Word::Skolem,
    Word::Switch,
    Word::Eval,
    Word::Print,
    Word::Profile,
    Word::Axiom,
    Word::Theorem,
    Word::PropositionalSchema,
    Word::FunctionalEquality,
    Word::BetaReduction,
    Word::BaseEval,
    Word::Expansion,
    Word::Contraction,
    Word::Associativity,
    Word::Cut,
    Word::Instantiation,
    Word::Induction,
    Word::Ordp,
    Word::OrdLess,
    Word::Step,
    Word::CommuteOr,
    Word::ModusPonens,
    Word::Symmetry,
    Word::Transitivity,
    Word::Replace,
    Word::Car,
    Word::Cdr,
    Word::Cons,
];

// Their names, in the same order.
static NAMES: [&[u8]; 50] = [
    b"NIL",
    b"T",
    b"QUOTE",
    b"LAMBDA",
    b"IF",
    b"PEQUAL*",
    b"PNOT*",
    b"POR*",
    b"AND",
    b"OR",
    b"COND",
    b"LIST",
    b"LET",
    b"LET*",
    b"FIRST",
    b"SECOND",
    b"THIRD",
    b"FOURTH",
    b"FIFTH",
    b"VERIFY",
    b"DEFINE",
    b"DEFINE-ALL",
    b"SKOLEM",
    b"SWITCH",
    b"EVAL",
    b"PRINT",
    b"PROFILE",
    b"AXIOM",
    b"THEOREM",
    b"PROPOSITIONAL-SCHEMA",
    b"FUNCTIONAL-EQUALITY",
    b"BETA-REDUCTION",
    b"BASE-EVAL",
    b"EXPANSION",
    b"CONTRACTION",
    b"ASSOCIATIVITY",
    b"CUT",
    b"INSTANTIATION",
    b"INDUCTION",
    b"ORDP",
    b"ORD<",
    b"STEP",
    b"COMMUTE-OR",
    b"MODUS-PONENS",
    b"SYMMETRY",
    b"TRANSITIVITY",
    b"REPLACE",
    b"CAR",
    b"CDR",
    b"CONS",
];

impl Word {
    /// The name.
    pub fn name(self) -> &'static [u8]
        ensures { result.now ≡ word_bytes self }
    {
        NAMES[self as usize]
    }

    // Where it stands in a heap that keeps the words.
    pub(crate) fn place(self) -> Ref
        ensures { result ≡ place_of self }
    {
        Ref::new(self as u32)
    }
}

// The word that stands in this place of a heap that keeps the words; nothing after them.
pub(crate) fn word_in(place: Ref) -> Option<Word>
    ensures { MatchOption result (word_count ≤ place) (λ w. place_of w ≡ place) }
{
    if place.index() < WORDS.len() {
        Some(WORDS[place.index()])
    } else {
        None
    }
}

// Whether the words stay known where the heap is cut back to this number of cells.
pub(crate) fn are_kept(known: bool, cells: usize) -> bool
    ensures { result ≡ true → (known ≡ true) × (word_count ≤ cells) }
{
    known && WORDS.len() <= cells
}
