//! Methods of proof.
ghost use Rattle.std.specs.Prelude.{◌≡◌, option_map};
ghost use Rattle.mw_model.specs.Proofs.Judgment.{methods, method_among};
ghost use Rattle.mw_heap.specs.Objects.{object_at, IsIn};
ghost use Rattle.mw_heap.specs.Words.{word_object};
ghost use Rattle.mw_rules.specs.Methods.{method_of_logic};
ghost use Rattle.mw_rules.specs.Counted.{most_subproofs};

use mw_heap::{Heap, Ref, Word};

/// One of the twelve methods of proof: how a conclusion follows.
#[derive(Clone, Copy)]
pub enum Method {
    Axiom,
    Theorem,
    PropositionalSchema,
    FunctionalEquality,
    BetaReduction,
    BaseEval,
    Expansion,
    Contraction,
    Associativity,
    Cut,
    Instantiation,
    Induction,
}

impl Method {
    // The method that proofs call by this word.
    fn of_word(word: Word) -> Option<Method>
        ensures { option_map method_of_logic result ≡ method_among methods (word_object word) }
    {
        match word {
            Word::Axiom => Some(Method::Axiom),
            Word::Theorem => Some(Method::Theorem),
            Word::PropositionalSchema => Some(Method::PropositionalSchema),
            Word::FunctionalEquality => Some(Method::FunctionalEquality),
            Word::BetaReduction => Some(Method::BetaReduction),
            Word::BaseEval => Some(Method::BaseEval),
            Word::Expansion => Some(Method::Expansion),
            Word::Contraction => Some(Method::Contraction),
            Word::Associativity => Some(Method::Associativity),
            Word::Cut => Some(Method::Cut),
            Word::Instantiation => Some(Method::Instantiation),
            Word::Induction => Some(Method::Induction),
            _ => None,
        }
    }

    /// How many subproofs a step by the method has at most; an induction has any number.
    pub fn most_subproofs(self) -> Option<usize>
        ensures { result ≡ most_subproofs (method_of_logic self) }
    {
        match self {
            Method::Induction => None,
            Method::Cut => Some(2),
            Method::Expansion
            | Method::Contraction
            | Method::Associativity
            | Method::Instantiation => Some(1),
            _ => Some(0),
        }
    }

    /// The method that a symbol names.
    pub fn of(heap: &Heap, x: Ref) -> Option<Method>
        requires { IsIn heap.now.objects x }
        ensures { option_map method_of_logic result ≡ method_among methods (object_at heap.now.objects x) }
    {
        match heap.word_at(x) {
            Some(word) => Method::of_word(word),
            None => None,
        }
    }
}
