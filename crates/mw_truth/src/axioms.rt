//! The axioms of the primitives.

ghost use Rattle.mw_model.specs.Terms.Term.{IsFormula};
ghost use Rattle.mw_model.specs.Values.Definition.{Definitions, arity_table, IsWellMade};
ghost use Rattle.mw_model.specs.Values.Truth.{Each, AreTrueIn};
ghost use Rattle.mw_model.specs.Proofs.Axioms.{primitive_axioms};

/// Each axiom of the primitives of a profile is true in all definitions of that profile, and a formula of them where
/// they are well made.
pub fn axioms_true()
    ensures each { (D : Definitions) → AreTrueIn D (primitive_axioms D.profile) }
    ensures formulas { (D : Definitions) → IsWellMade D → Each (IsFormula (arity_table D)) (primitive_axioms D.profile) }
{}
