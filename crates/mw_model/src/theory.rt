//! Laws on proofs and events.
ghost use Rattle.std.specs.Prelude.{◌≡◌, ◌↔◌, ℕ, Some};
ghost use Rattle.mw_model.specs.Terms.Object.{Object};
ghost use Rattle.mw_model.specs.Terms.Term.{Formula, ArityTable};
ghost use Rattle.mw_model.specs.Values.Primitive.{Profile};
ghost use Rattle.mw_model.specs.Proofs.Proof.{Proves};
ghost use Rattle.mw_model.specs.Proofs.Judgment.{judge};
ghost use Rattle.mw_model.specs.Events.Theory.{Theory};
ghost use Rattle.mw_model.specs.Events.Refusal.{Refusal, Refused};
ghost use Rattle.mw_model.specs.Events.Checking.{judged_as};
ghost use Rattle.mw_model.specs.Events.Fate.{fate, next, happens};
ghost use Rattle.mw_model.specs.Events.Demand.{happens_under};

/// The test on an object answers a formula exactly where the object is a proof of that formula.
pub fn judging()
    ensures { (axioms theorems : Object) (A : ArityTable) (P : Profile) (p : Object) (F : Formula) → (judge axioms theorems A P p ≡ Some F) ↔ Proves axioms theorems A P p F }
{}

/// A refused event leaves the theory as it was.
pub fn refusals()
    ensures { (t : Theory) (N : ℕ) (e : Object) (r : Refusal) → fate t e N ≡ Refused r → next t e N ≡ t }
{}

/// What an event wants settles its fate, where the judge is the theory's own checker.
pub fn demands()
    ensures { (t : Theory) (N : ℕ) (e : Object) → happens_under judged_as t N e ≡ happens t N e }
{}
