//! The conclusion with which a step would follow.
ghost use Rattle.std.specs.Prelude.{◌≡◌, ◌<◌, true, length, map, Some, All, IfOk, List, IfSome};
ghost use Rattle.mw_model.specs.Terms.Object.{car, second_of, third_of, fourth_of, list4};
ghost use Rattle.mw_model.specs.Terms.Term.{ArityTable, Formula, IsFormula, formula_object};
ghost use Rattle.mw_model.specs.Terms.Reading.{formula_under};
ghost use Rattle.mw_model.specs.Values.Truth.{Each};
ghost use Rattle.mw_model.specs.Proofs.Proof.{Method as LogicMethod};
ghost use Rattle.mw_model.specs.Proofs.Judgment.{methods, method_among, judge_each};
ghost use Rattle.mw_heap.specs.Objects.{object_at, IsIn, Grows};
ghost use Rattle.mw_heap.specs.Lists.{list_object};
ghost use Rattle.mw_heap.specs.Parts.{IsPart};
ghost use Rattle.mw_heap.specs.Variants.{profile_of};
ghost use Rattle.mw_term.specs.Marking.{AreMarks};
ghost use Rattle.mw_rules.specs.Methods.{method_of_logic};
ghost use Rattle.mw_proof.specs.Step.{has_proof_shape};
ghost use Rattle.mw_rules.specs.Basis.{IsBasisIn};
ghost use Rattle.mw_proof.specs.Judging.{basis_over, is_step_on};
ghost use Rattle.mw_commands.specs.Commands.ExplanationSteps.{are_extras, mended};
ghost use Rattle.mw_bad_steps.specs.Members.{conclusions_in};
ghost use Rattle.mw_bad_steps.specs.Candidates.{IsCandidate, IsMended, meant_of};

use crate::candidates::candidate;
use crate::conclusions::conclusions_shown;
use indexmap::IndexSet;
use mw_heap::{Heap, Memory, Profile, Ref, list_of};
use mw_proof::{Members, decide, members_of};
use mw_rules::{Basis, Known, Method};
use mw_term::{Arity, Marks};

// Whether all holds of an object that must hold of a proof, but that its subproofs are proofs.
fn decide_alone(heap: &mut Heap, step: Ref, basis: &Basis, marks: &Marks) -> Result<bool, Memory>
    requires marks { (A : ArityTable) × AreMarks A heap.old.objects marks.now }
    requires within { step < length marks.now }
    requires basis { IsBasisIn heap.old.objects basis.now }
    ensures grows { Grows heap.old.objects heap.new.objects }
    ensures answer { IfOk result (λ b. (A : ArityTable) → AreMarks A heap.old.objects marks.now → b ≡ is_step_on (basis_over heap.old.objects A basis.now) (object_at heap.old.objects step)) }
{
    let mut found = Box::new(heap.alloc(), IndexSet::new(heap.alloc()))?;
    decide(
        heap,
        step,
        &mut found,
        basis.axioms,
        basis.theorems,
        basis.profile,
        marks,
    )
}

// The same, with the marks extended to it.
fn is_step(
    heap: &mut Heap,
    step: Ref,
    basis: &Basis,
    arity: &Arity,
    marks: &mut Marks,
) -> Result<bool, Memory>
    requires within { IsIn heap.old.objects step }
    requires basis { IsBasisIn heap.old.objects basis.now }
    requires marked { AreMarks arity.now heap.old.objects marks.old }
    ensures grows { Grows heap.old.objects heap.new.objects }
    ensures marked { AreMarks arity.now heap.new.objects marks.new }
    ensures answer { IfOk result (λ b. b ≡ is_step_on (basis_over heap.old.objects arity.now basis.now) (object_at heap.old.objects step)) }
{
    let below = heap.mark();
    marks.extend(heap, arity, below)?;
    decide_alone(heap, step, basis, marks)
}

// The conclusion that may be meant by a step.
fn meant(
    heap: &mut Heap,
    members: &Members,
    method: Method,
    profile: Profile,
    marks: &Marks,
) -> Result<Option<Ref>, Memory>
    requires conclusion { IsIn heap.old.objects members.now.conclusion }
    requires subproofs { IsIn heap.old.objects members.now.subproofs }
    requires extras { IsIn heap.old.objects members.now.extras }
    requires marked { members.now.extras < length marks.now }
    requires marks { (A : ArityTable) × AreMarks A heap.old.objects marks.now }
    ensures grows { Grows heap.old.objects heap.new.objects }
    ensures within { IfOk result (λ o. IfSome o (λ r. IsIn heap.new.objects r)) }
    ensures meant { IfOk result (λ o. (A : ArityTable) (F : Formula) (Fs : List Formula) → AreMarks A heap.old.objects marks.now → IsFormula A F → Each (IsFormula A) Fs → object_at heap.old.objects members.now.conclusion ≡ formula_object F → conclusions_in (object_at heap.old.objects members.now.subproofs) ≡ map formula_object Fs → are_extras A (method_of_logic method) (object_at heap.old.objects members.now.extras) ≡ true → IsCandidate heap.new.objects (meant_of (profile_of profile) (method_of_logic method) F Fs (object_at heap.old.objects members.now.extras)) o) }
{
    let conclusions = conclusions_shown(heap, members.subproofs)?;
    candidate(
        heap,
        method,
        members.conclusion,
        &conclusions,
        members.extras,
        profile,
        marks,
    )
}

// The step with another conclusion.
fn step_with(heap: &mut Heap, members: &Members, conclusion: Ref) -> Result<Ref, Memory>
    requires method { IsIn heap.old.objects members.now.method }
    requires conclusion { IsIn heap.old.objects conclusion }
    requires subproofs { IsIn heap.old.objects members.now.subproofs }
    requires extras { IsIn heap.old.objects members.now.extras }
    ensures grows { Grows heap.old.objects heap.new.objects }
    ensures within { IfOk result (λ r. IsIn heap.new.objects r) }
    ensures made { IfOk result (λ r. object_at heap.new.objects r ≡ list4 (object_at heap.old.objects members.now.method) (object_at heap.old.objects conclusion) (object_at heap.old.objects members.now.subproofs) (object_at heap.old.objects members.now.extras)) }
{
    list_of(
        heap,
        &[
            members.method,
            conclusion,
            members.subproofs,
            members.extras,
        ],
    )
}

/// The conclusion with which a step would follow, all else being as it stands, where one is meant. The step's subproofs are proofs; the
/// marks are under the table, and are extended to what is made. The error is out of memory, also where no look is left.
pub fn mended(
    heap: &mut Heap,
    step: Ref,
    axioms: &Known,
    theorems: &Known,
    arity: &Arity,
    profile: Profile,
    marks: &mut Marks,
) -> Result<Option<Ref>, Memory>
    requires within { step < length marks.old }
    requires axioms { All (IsIn heap.old.objects) axioms.now }
    requires theorems { All (IsIn heap.old.objects) theorems.now }
    requires marked { AreMarks arity.now heap.old.objects marks.old }
    ensures grows { Grows heap.old.objects heap.new.objects }
    ensures marked { AreMarks arity.now heap.new.objects marks.new }
    ensures within { IfOk result (λ o. IsPart heap.new.objects o) }
    ensures mended { IfOk result (λ o. (m : LogicMethod) (F : Formula) (Fs : List Formula) → has_proof_shape (object_at heap.old.objects step) ≡ true → method_among methods (car (object_at heap.old.objects step)) ≡ Some m → formula_under arity.now (second_of (object_at heap.old.objects step)) ≡ Some F → judge_each (list_object heap.old.objects axioms.now) (list_object heap.old.objects theorems.now) arity.now (profile_of profile) (third_of (object_at heap.old.objects step)) ≡ Some Fs → are_extras arity.now m (fourth_of (object_at heap.old.objects step)) ≡ true → IsMended heap.new.objects (mended (list_object heap.old.objects axioms.now) (list_object heap.old.objects theorems.now) arity.now (profile_of profile) m F Fs (fourth_of (object_at heap.old.objects step))) o) }
{
    let Some(members) = members_of(heap, step) else {
        return Ok(None);
    };
    let Some(method) = Method::of(heap, members.method) else {
        return Ok(None);
    };
    let Some(conclusion) = meant(heap, &members, method, profile, marks)? else {
        return Ok(None);
    };
    heap.in_range(conclusion);
    let made = step_with(heap, &members, conclusion)?;
    let basis = Basis {
        axioms,
        theorems,
        profile,
    };
    let follows = is_step(heap, made, &basis, arity, marks)?;
    Ok(follows.then_some(conclusion))
}
