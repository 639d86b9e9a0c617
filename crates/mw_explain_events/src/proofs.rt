//! What is shown of proofs that are refused.
ghost use Rattle.std.specs.Prelude.{◌≡◌, ◌+◌, None, Some, [], ◌∷◌, IfOk, MatchOption, All, map, List};
ghost use Rattle.mw_model.specs.Terms.Object.{Natural, second_of};
ghost use Rattle.mw_model.specs.Terms.Term.{Formula};
ghost use Rattle.mw_model.specs.Laws.RulesInduction.{formulas_object};
ghost use Rattle.mw_model.specs.Events.Refusal.{PROOF};
ghost use Rattle.mw_heap.specs.Objects.{object_at, IsIn, Grows};
ghost use Rattle.mw_heap.specs.Variants.{refusal_of};
ghost use Rattle.mw_theory.specs.Knowledge.{parts_of, meant};
ghost use Rattle.mw_commands.specs.Commands.Explanation.{wrong_proof, proof_shown};
ghost use Rattle.mw_bad_steps.specs.Shown.{Shows};
ghost use Rattle.mw_kernel.specs.Proofs.{judged_for};
ghost use Rattle.mw_kernel.specs.Standing.{Stands, Keeps};
ghost use Rattle.mw_commands.specs.Commands.ExplanationSteps.{bad_step_shown};
ghost use Rattle.mw_explain_events.specs.Reasons.{IsNoneOr, AreRefused};

use mw_commands::explaining::bad_steps;
use mw_explain::bad_step_shown;
use mw_heap::{Heap, Memory, Ref, Refusal, View};
use mw_kernel::Checker;
use mw_term::Marks;
use mw_theory::{Judge, Theory};

/// What is shown of a proof that is refused for this reason: Conclusion its conclusion, Proof its first bad step, and else nothing.
pub(crate) fn wrong_proof_shown(
    heap: &mut Heap,
    theory: &Theory,
    marks: &mut Marks,
    reason: Refusal,
    proof: Ref,
) -> Result<Vec<Ref>, Memory>
    requires proof { IsIn heap.old.objects proof }
    requires stands { Stands heap.old.objects theory.now marks.old }
    ensures kept { Keeps theory.now.arity heap.old.objects heap.new.objects marks.new }
    ensures shown { IfOk result (λ v. Shows heap.new.objects v.items (wrong_proof (meant heap.old.objects (parts_of theory.now)) (refusal_of reason) (object_at heap.old.objects proof))) }
{
    match reason {
        Refusal::Conclusion => conclusion_shown(heap, proof),
        Refusal::Proof => bad_step_shown(
            heap,
            proof,
            &theory.known_axioms,
            &theory.known_theorems,
            &theory.arity,
            theory.profile,
            marks,
        ),
        _ => Ok(Vec::new(heap.alloc())),
    }
}

// The second member of a proof; NIL where it has none.
fn conclusion_of(heap: &mut Heap, proof: Ref) -> Result<Ref, Memory>
    requires { IsIn heap.old.objects proof }
    ensures grows { Grows heap.old.objects heap.new.objects }
    ensures conclusion { IfOk result (λ r. IsIn heap.new.objects r × (object_at heap.new.objects r ≡ second_of (object_at heap.old.objects proof))) }
{
    match heap.second_of(proof) {
        Some(conclusion) => Ok(conclusion),
        None => heap.nil(),
    }
}

fn conclusion_shown(heap: &mut Heap, proof: Ref) -> Result<Vec<Ref>, Memory>
    requires { IsIn heap.old.objects proof }
    ensures grows { Grows heap.old.objects heap.new.objects }
    ensures shown { IfOk result (λ v. Shows heap.new.objects v.items (second_of (object_at heap.old.objects proof) ∷ [])) }
{
    let conclusion = conclusion_of(heap, proof)?;
    just(heap, conclusion)
}

/// Just this object.
pub(crate) fn just(heap: &Heap, x: Ref) -> Result<Vec<Ref>, Memory>
    requires { IsIn heap.now.objects x }
    ensures { IfOk result (λ v. Shows heap.now.objects v.items (object_at heap.now.objects x ∷ [])) }
{
    let mut shown = Vec::new(heap.alloc());
    shown.push(x)?;
    Ok(shown)
}

/// The number of a proof, the formula that is wanted of it, and what is wrong with it.
pub(crate) fn numbered(
    heap: &mut Heap,
    number: u64,
    formula: Ref,
    parts: &[Ref],
) -> Result<Vec<Ref>, Memory>
    requires formula { IsIn heap.old.objects formula }
    requires parts { All (IsIn heap.old.objects) parts.now }
    ensures grows { Grows heap.old.objects heap.new.objects }
    ensures shown { IfOk result (λ v. Shows heap.new.objects v.items (Natural number ∷ object_at heap.old.objects formula ∷ map (object_at heap.old.objects) parts.now)) }
{
    let count = heap.nat(number as u128)?;
    let mut shown = Vec::new(heap.alloc());
    shown.push(count)?;
    shown.push(formula)?;
    shown.extend_from_slice(parts)?;
    Ok(shown)
}

// The parts, where there are any.
fn where_some(parts: Vec<Ref>) -> Option<Vec<Ref>>
    ensures { MatchOption result (parts.items ≡ []) (λ v. (v ≡ parts) × (v.items ≡ [] → ⊥)) }
{
    if parts.is_empty() { None } else { Some(parts) }
}

// The first bad step, with what is wrong with it; None if it is a proof.
fn bad_step_of(
    heap: &mut Heap,
    theory: &Theory,
    marks: &mut Marks,
    proof: Ref,
) -> Result<Option<Vec<Ref>>, Memory>
    requires proof { IsIn heap.old.objects proof }
    requires stands { Stands heap.old.objects theory.now marks.old }
    ensures kept { Keeps theory.now.arity heap.old.objects heap.new.objects marks.new }
    ensures shown { IfOk result (λ o. MatchOption o (bad_step_shown (meant heap.old.objects (parts_of theory.now)) (object_at heap.old.objects proof) ≡ []) (λ v. (bad_step_shown (meant heap.old.objects (parts_of theory.now)) (object_at heap.old.objects proof) ≡ [] → ⊥) × Shows heap.new.objects v.items (bad_step_shown (meant heap.old.objects (parts_of theory.now)) (object_at heap.old.objects proof)))) }
{
    let parts = wrong_proof_shown(heap, theory, marks, Refusal::Proof, proof)?;
    Ok(where_some(parts))
}

// What is shown of a proof, where the theory's checker refuses it, which can only be for this reason; nothing where it does not. Where
// the reason is Proof, looking for a bad step is what judges it.
fn refused_proof_shown(
    heap: &mut Heap,
    theory: &Theory,
    marks: &mut Marks,
    checker: &mut Checker,
    reason: Refusal,
    formula: Ref,
    proof: Ref,
) -> Result<Option<Vec<Ref>>, Memory>
    requires formula { IsIn heap.old.objects formula }
    requires proof { IsIn heap.old.objects proof }
    requires stands { Stands heap.old.objects theory.now marks.old }
    requires reason { IsNoneOr (refusal_of reason) (judged_for checker.old.steps (meant heap.old.objects (parts_of theory.now)) (object_at heap.old.objects formula) (object_at heap.old.objects proof)) }
    requires built_in { refusal_of reason ≡ PROOF → (meant heap.old.objects (parts_of theory.now)).checker ≡ None }
    ensures kept { Keeps theory.now.arity heap.old.objects heap.new.objects marks.new }
    ensures steps { checker.new.steps ≡ checker.old.steps }
    ensures shown { IfOk result (λ o. MatchOption o (judged_for checker.old.steps (meant heap.old.objects (parts_of theory.now)) (object_at heap.old.objects formula) (object_at heap.old.objects proof) ≡ None) (λ v. (judged_for checker.old.steps (meant heap.old.objects (parts_of theory.now)) (object_at heap.old.objects formula) (object_at heap.old.objects proof) ≡ Some (refusal_of reason)) × Shows heap.new.objects v.items (wrong_proof (meant heap.old.objects (parts_of theory.now)) (refusal_of reason) (object_at heap.old.objects proof)))) }
{
    bad_steps();
    if let Refusal::Proof = reason {
        return bad_step_of(heap, theory, marks, proof);
    }
    let refused = checker.refusal(heap, formula, proof, theory, marks)?;
    if !refused.is_some() {
        return Ok(None);
    }
    let parts = wrong_proof_shown(heap, theory, marks, reason, proof)?;
    Ok(Some(parts))
}

/// What is shown of the first of these proofs that is refused: its number, the formula that is wanted of it, and what is wrong with it. The
/// proofs are as many as the formulas, and the first one that is refused is so for this reason. The error is out of memory.
pub(crate) fn first_refused_shown(
    heap: &mut Heap,
    theory: &Theory,
    marks: &mut Marks,
    checker: &mut Checker,
    reason: Refusal,
    formulas: Ref,
    proofs: Ref,
) -> Result<Vec<Ref>, Memory>
    requires formulas { IsIn heap.old.objects formulas }
    requires proofs { IsIn heap.old.objects proofs }
    requires stands { Stands heap.old.objects theory.now marks.old }
    requires refused { (Fs : List Formula) × (object_at heap.old.objects formulas ≡ formulas_object Fs) × AreRefused (refusal_of reason) (meant heap.old.objects (parts_of theory.now)) checker.old.steps Fs (object_at heap.old.objects proofs) }
    ensures kept { Keeps theory.now.arity heap.old.objects heap.new.objects marks.new }
    ensures steps { checker.new.steps ≡ checker.old.steps }
    ensures shown { IfOk result (λ v. (Fs : List Formula) → object_at heap.old.objects formulas ≡ formulas_object Fs → Shows heap.new.objects v.items (proof_shown (meant heap.old.objects (parts_of theory.now)) checker.old.steps 1 Fs (object_at heap.old.objects proofs))) }
{
    let mut number = 1;
    let mut left = formulas;
    let mut rest = proofs;
    while let View::Pair(formula, more) = heap.view(left) {
        let View::Pair(proof, others) = heap.view(rest) else {
            unreachable!()
        };
        let shown = refused_proof_shown(heap, theory, marks, checker, reason, formula, proof)?;
        if let Some(parts) = shown {
            return numbered(heap, number, formula, parts.as_slice());
        }
        number = next_number(number)?;
        left = more;
        rest = others;
    }
    Ok(Vec::new(heap.alloc()))
}

// The next number. There are fewer proofs than a u64 can tell.
fn next_number(number: u64) -> Result<u64, Memory>
    ensures { IfOk result (λ n. n ≡ number + 1) }
{
    match number.checked_add(1) {
        Some(next) => Ok(next),
        None => Err(Memory),
    }
}
