//! The methods of proof keep truth.

ghost use Rattle.mw_model.specs.Terms.Object.{Object};
ghost use Rattle.mw_model.specs.Terms.Term.{Formula};
ghost use Rattle.mw_model.specs.Values.Definition.{arity_table};
ghost use Rattle.mw_model.specs.Proofs.Proof.{Axiom, Theorem, PropositionalSchema, FunctionalEquality, BetaReduction, BaseEval, Expansion, Contraction, Associativity, Cut, Instantiation, Induction, Proves};
ghost use Rattle.mw_model.specs.Events.Theory.{Theory, IsSound};
ghost use Rattle.mw_truth.specs.Methods.{IsTrueFormula, KeepsTruth, InductionDescends, ProofsKeepTruth};

/// Where the conclusions of the subproofs are true formulas, what follows from them by a method is true. Besides, AXIOM
/// and THEOREM need that the axioms and the theorems are true, and INDUCTION the built-in functions on ordinals.
pub fn methods_keep_truth()
    ensures axiom { KeepsTruth Axiom }
    ensures theorem { KeepsTruth Theorem }
    ensures propositional_schema { KeepsTruth PropositionalSchema }
    ensures functional_equality { KeepsTruth FunctionalEquality }
    ensures beta_reduction { KeepsTruth BetaReduction }
    ensures base_eval { KeepsTruth BaseEval }
    ensures expansion { KeepsTruth Expansion }
    ensures contraction { KeepsTruth Contraction }
    ensures associativity { KeepsTruth Associativity }
    ensures cut { KeepsTruth Cut }
    ensures instantiation { KeepsTruth Instantiation }
    ensures induction { KeepsTruth Induction }
{}

/// Where the premises of an induction are true, its goal passes from all ordinals below to an ordinal.
pub fn induction_descends()
    ensures { InductionDescends }
{}

/// A proof from true axioms and theorems has a true conclusion; so does each proof of a sound theory.
pub fn proofs_keep_truth()
    ensures definitions { ProofsKeepTruth }
    ensures theories { (t : Theory) → IsSound t → (p : Object) (F : Formula) → Proves t.axioms t.theorems (arity_table t.definitions) t.definitions.profile p F → IsTrueFormula t.definitions F }
{}
