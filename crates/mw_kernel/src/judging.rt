//! The verdict of a theory's checker on a proof.
ghost use Rattle.std.specs.Prelude.{◌≡◌, ℕ, None, Some, IfOk, option_map};
ghost use Rattle.mw_model.specs.Events.Evaluation.{Outcome as Evaluated, Value};
ghost use Rattle.mw_model.specs.Events.Checking.{verdict, judged_by};
ghost use Rattle.mw_heap.specs.Objects.{object_at, IsIn, Grows};
ghost use Rattle.mw_heap.specs.Variants.{refusal_of};
ghost use Rattle.mw_term.specs.Marking.{AreMarks};
ghost use Rattle.mw_machine.specs.State.{Answers};
ghost use Rattle.mw_theory.specs.Knowledge.{parts_of, name_read, meant, IsHeld};
ghost use Rattle.mw_kernel.specs.Proofs.{judged_for};

use crate::running::run_entry;
use mw_heap::{Heap, Memory, Ref, Refusal};
use mw_machine::{Machine, Outcome};
use mw_proof::{Judged, judge};
use mw_term::Marks;
use mw_theory::Theory;

/// Why this is refused as a proof of the formula, where it is: Conclusion where its second member is not the formula, and then what the
/// theory's checker finds. That is Proof by the built-in checker. A checker of the theory is run with the given number of units; it finds Nil where
/// its value is NIL, Steps where it needs more units, Overflow where a sum or a product is too large, and Witness where it calls a
/// function without code. The marks, which are under the theory's arity table, are extended.
pub(crate) fn refusal_of_proof(
    heap: &mut Heap,
    formula: Ref,
    proof: Ref,
    theory: &Theory,
    marks: &mut Marks,
    machine: &mut Machine,
    steps: u64,
) -> Result<Option<Refusal>, Memory>
    requires formula { IsIn heap.old.objects formula }
    requires proof { IsIn heap.old.objects proof }
    requires held { IsHeld heap.old.objects theory.now }
    requires marked { AreMarks theory.now.arity heap.old.objects marks.old }
    ensures grows { Grows heap.old.objects heap.new.objects }
    ensures marked { AreMarks theory.now.arity heap.new.objects marks.new }
    ensures refusal { IfOk result (λ r. option_map refusal_of r ≡ judged_for steps (meant heap.old.objects (parts_of theory.now)) (object_at heap.old.objects formula) (object_at heap.old.objects proof)) }
{
    if !heap.is_same(heap.second_of(proof), Some(formula)) {
        return Ok(Some(Refusal::Conclusion));
    }
    match theory.checker {
        None => refusal_by_rules(heap, proof, theory, marks),
        Some(checker) => refusal_by_run(heap, proof, checker, theory, machine, steps),
    }
}

// What the built-in checker finds.
fn refusal_by_rules(
    heap: &mut Heap,
    proof: Ref,
    theory: &Theory,
    marks: &mut Marks,
) -> Result<Option<Refusal>, Memory>
    requires proof { IsIn heap.old.objects proof }
    requires held { IsHeld heap.old.objects theory.now }
    requires marked { AreMarks theory.now.arity heap.old.objects marks.old }
    ensures grows { Grows heap.old.objects heap.new.objects }
    ensures marked { AreMarks theory.now.arity heap.new.objects marks.new }
    ensures refusal { (N : ℕ) → IfOk result (λ r. option_map refusal_of r ≡ judged_by None (meant heap.old.objects (parts_of theory.now)) (object_at heap.old.objects proof) N) }
{
    match judge(
        heap,
        proof,
        &theory.known_axioms,
        &theory.known_theorems,
        &theory.arity,
        theory.profile,
        marks,
    ) {
        Judged::Good => Ok(None),
        Judged::Bad => Ok(Some(Refusal::Proof)),
        Judged::Memory => Err(Memory),
    }
}

// What the theory's checker of this name finds. Its code is looked up among that of the theory's functions for each proof: so it is always
// that of the function whose claim is a theorem.
fn refusal_by_run(
    heap: &mut Heap,
    proof: Ref,
    checker: Ref,
    theory: &Theory,
    machine: &mut Machine,
    steps: u64,
) -> Result<Option<Refusal>, Memory>
    requires proof { IsIn heap.old.objects proof }
    requires held { IsHeld heap.old.objects theory.now }
    requires checker { theory.now.checker ≡ Some checker }
    ensures grows { Grows heap.old.objects heap.new.objects }
    ensures refusal { IfOk result (λ r. option_map refusal_of r ≡ judged_by (name_read heap.old.objects (Some checker)) (meant heap.old.objects (parts_of theory.now)) (object_at heap.old.objects proof) steps) }
{
    let Some(code) = theory.table.find(heap.name_of(checker)) else {
        unreachable!()
    };
    let arguments = [proof, theory.axioms, theory.theorems, theory.arity_list];
    let outcome = run_entry(heap, &theory.table, machine, &code, &arguments, steps);
    refusal_of_outcome(heap, outcome)
}

// Why a proof on which a checker's run came to this is refused, where it is.
fn refusal_of_outcome(heap: &Heap, outcome: Outcome) -> Result<Option<Refusal>, Memory>
    requires { (o : Evaluated) × Answers heap.now.objects o outcome }
    ensures { (o : Evaluated) → Answers heap.now.objects o outcome → IfOk result (λ r. option_map refusal_of r ≡ verdict o) }
{
    match outcome {
        Outcome::Value(value, _) => Ok(refusal_of_value(heap, value)),
        Outcome::Steps => Ok(Some(Refusal::Steps)),
        Outcome::Overflow => Ok(Some(Refusal::Overflow)),
        Outcome::Witness => Ok(Some(Refusal::Witness)),
        Outcome::Memory => Err(Memory),
    }
}

// A checker says no with NIL, and yes with any other value.
fn refusal_of_value(heap: &Heap, value: Ref) -> Option<Refusal>
    requires { IsIn heap.now.objects value }
    ensures { (left : ℕ) → option_map refusal_of result ≡ verdict (Value (object_at heap.now.objects value) left) }
{
    if heap.is_nil(Some(value)) {
        Some(Refusal::Nil)
    } else {
        None
    }
}
