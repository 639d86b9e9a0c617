//! Judging proofs over a heap, each distinct proof once, and what a rewriter of proofs is.
#![tactic(auto)]

mod conclusions;
mod judging;
mod members;
mod rewriter;
mod step;

ghost use Rattle.std.specs.Prelude.{◌≡◌, Some};
ghost use Rattle.mw_model.specs.Terms.Object.{Object, second_of};
ghost use Rattle.mw_model.specs.Terms.Term.{ArityTable, Formula, formula_object};
ghost use Rattle.mw_model.specs.Values.Primitive.{Profile};
ghost use Rattle.mw_model.specs.Proofs.Judgment.{judge};
ghost use Rattle.mw_proof.specs.Step.{subproofs_of, is_proof, are_proofs, is_step};

pub use conclusions::conclusions_of;
pub use judging::{Judged, judge, judge_counted};
pub use members::{Members, members_of};
pub use mw_subst::Steps;
pub use rewriter::{Rewriter, Rewritten};
pub use step::decide;

/// Judging is a local test: an object is a proof exactly where it has the shape of one, its conclusion is a formula, its
/// subproofs are proofs and the rule of its method holds. What is judged a proof proves the formula that it names.
pub fn judging_by_steps()
    ensures step { (axioms theorems : Object) (A : ArityTable) (P : Profile) (p : Object) → is_proof axioms theorems A P p ≡ is_step axioms theorems A P p (are_proofs axioms theorems A P (subproofs_of p)) }
    ensures conclusion { (axioms theorems : Object) (A : ArityTable) (P : Profile) (p : Object) (F : Formula) → judge axioms theorems A P p ≡ Some F → formula_object F ≡ second_of p }
{}
