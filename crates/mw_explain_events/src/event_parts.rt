//! What is shown of the parts of an event that is refused.
ghost use Rattle.std.specs.Prelude.{◌≡◌, ℕ, [], ◌∷◌, None, IfOk};
ghost use Rattle.mw_model.specs.Values.Definition.{arity_table};
ghost use Rattle.mw_model.specs.Events.Theory.{Theory as Meant};
ghost use Rattle.mw_model.specs.Events.Refusal.{EVENT, NESTED, Refused};
ghost use Rattle.mw_model.specs.Events.Fate.{Verify, Skolem, Switch, Eval, event_word, eval};
ghost use Rattle.mw_heap.specs.Objects.{object_at, IsIn, Grows};
ghost use Rattle.mw_heap.specs.Variants.{refusal_of};
ghost use Rattle.mw_term.specs.Marking.{AreMarks};
ghost use Rattle.mw_define.specs.Blocks.{draft_at, IsDraftIn};
ghost use Rattle.mw_theory.specs.Knowledge.{parts_of, meant};
ghost use Rattle.mw_theory.specs.Settling.{skolem_at, verified};
ghost use Rattle.mw_theory.specs.Words.{verify_event, skolem_event, switch_event, eval_event};
ghost use Rattle.mw_commands.specs.Commands.Explanation.{drafts_shown, shown, shown_by, word_of};
ghost use Rattle.mw_commands.specs.Commands.ExplanationTerms.{bad_formula, part_shown};
ghost use Rattle.mw_bad_steps.specs.Shown.{Shows};
ghost use Rattle.mw_kernel.specs.Proofs.{judged_for};
ghost use Rattle.mw_kernel.specs.Standing.{Stands, Keeps};
ghost use Rattle.mw_kernel.specs.Switching.{switched};

use crate::definitions::is_of_definitions;
use crate::proofs::{just, numbered, wrong_proof_shown};
use mw_define::Draft;
use mw_explain::{arity_shown, bad_formula, definition_shown, part_shown};
use mw_heap::{Heap, Memory, Ref, Refusal};
use mw_kernel::claim;
use mw_term::{Arity, Marks};
use mw_theory::{Theory, members_wanted};

/// How many members its word wants, where an event has the wrong number of them; None if it does not begin with an event's word.
pub(crate) fn members_shown(heap: &mut Heap, event: Ref) -> Result<Vec<Ref>, Memory>
    requires within { IsIn heap.old.objects event }
    requires none { event_word (object_at heap.old.objects event) ≡ None }
    ensures grows { Grows heap.old.objects heap.new.objects }
    ensures shown { IfOk result (λ v. (t : Meant) (N : ℕ) → Shows heap.new.objects v.items (shown EVENT (word_of (object_at heap.old.objects event)) t N (object_at heap.old.objects event))) }
{
    let Some(count) = members_wanted(heap, event) else {
        return Ok(Vec::new(heap.alloc()));
    };
    let number = heap.nat(count as u128)?;
    just(heap, number)
}

// The first part that keeps an object from being a formula, and its arity where it has one.
fn formula_shown(
    heap: &mut Heap,
    arity: &Arity,
    marks: &mut Marks,
    formula: Ref,
) -> Result<Vec<Ref>, Memory>
    requires formula { IsIn heap.old.objects formula }
    requires marked { AreMarks arity.now heap.old.objects marks.old }
    ensures grows { Grows heap.old.objects heap.new.objects }
    ensures marked { AreMarks arity.now heap.new.objects marks.new }
    ensures shown { IfOk result (λ v. Shows heap.new.objects v.items (part_shown arity.now (bad_formula arity.now (object_at heap.old.objects formula)))) }
{
    let below = heap.mark();
    marks.extend(heap, arity, below)?;
    let part = bad_formula(heap, arity, marks, formula);
    part_shown(heap, arity, part)
}

/// What is shown of a VERIFY: its name, the part of its formula that is none, or its formula and what is wrong with its proof.
pub(crate) fn verify_shown(
    heap: &mut Heap,
    theory: &Theory,
    marks: &mut Marks,
    reason: Refusal,
    name: Ref,
    formula: Ref,
    proof: Ref,
) -> Result<Vec<Ref>, Memory>
    requires name { IsIn heap.old.objects name }
    requires formula { IsIn heap.old.objects formula }
    requires proof { IsIn heap.old.objects proof }
    requires stands { Stands heap.old.objects theory.now marks.old }
    ensures kept { Keeps theory.now.arity heap.old.objects heap.new.objects marks.new }
    ensures shown { IfOk result (λ v. (N : ℕ) → (verified (judged_for N) (meant heap.old.objects (parts_of theory.now)) (object_at heap.old.objects name) (object_at heap.old.objects formula) (object_at heap.old.objects proof)).0 ≡ Refused (refusal_of reason) → Shows heap.new.objects v.items (shown_by (refusal_of reason) Verify (meant heap.old.objects (parts_of theory.now)) N (verify_event (object_at heap.old.objects name) (object_at heap.old.objects formula) (object_at heap.old.objects proof)))) }
{
    match reason {
        Refusal::Name => just(heap, name),
        Refusal::Formula => formula_shown(heap, &theory.arity, marks, formula),
        _ => {
            let parts = wrong_proof_shown(heap, theory, marks, reason, proof)?;
            numbered(heap, 1, formula, parts.as_slice())
        }
    }
}

// What is shown of one definition that is not recursive, as that of a witness and that of a term.
fn single_shown(
    heap: &mut Heap,
    reason: Refusal,
    draft: Draft,
    arity: &Arity,
) -> Result<Vec<Ref>, Memory>
    requires draft { IsDraftIn heap.old.objects draft }
    requires other { refusal_of reason ≡ NESTED → ⊥ }
    ensures grows { Grows heap.old.objects heap.new.objects }
    ensures shown { IfOk result (λ v. Shows heap.new.objects v.items (drafts_shown (refusal_of reason) arity.now arity.now (draft_at heap.old.objects draft ∷ []))) }
{
    definition_shown(heap, reason, &[draft], arity, false)
}

/// What is shown of a SKOLEM: of its name, its formals or its body what fails the test.
pub(crate) fn witness_shown(
    heap: &mut Heap,
    arity: &Arity,
    reason: Refusal,
    name: Ref,
    bound: Ref,
    free: Ref,
    body: Ref,
) -> Result<Vec<Ref>, Memory>
    requires name { IsIn heap.old.objects name }
    requires bound { IsIn heap.old.objects bound }
    requires free { IsIn heap.old.objects free }
    requires body { IsIn heap.old.objects body }
    requires other { refusal_of reason ≡ NESTED → ⊥ }
    ensures grows { Grows heap.old.objects heap.new.objects }
    ensures shown { IfOk result (λ v. (t : Meant) (N : ℕ) → arity_table t.definitions ≡ arity.now → (skolem_at heap.old.objects t name bound free body).0 ≡ Refused (refusal_of reason) → Shows heap.new.objects v.items (shown_by (refusal_of reason) Skolem t N (skolem_event (object_at heap.old.objects name) (object_at heap.old.objects bound) (object_at heap.old.objects free) (object_at heap.old.objects body)))) }
{
    let formals = heap.cons(bound, free)?;
    let measure = heap.nil()?;
    let draft = Draft {
        name,
        formals,
        body,
        measure,
    };
    single_shown(heap, reason, draft, arity)
}

/// What is shown of a SWITCH: the arity of its name, or the claim that is not a theorem.
pub(crate) fn switch_shown(
    heap: &mut Heap,
    arity: &Arity,
    reason: Refusal,
    name: Ref,
) -> Result<Vec<Ref>, Memory>
    requires name { IsIn heap.old.objects name }
    requires refused { (t : Meant) × ((switched t (object_at heap.old.objects name)).0 ≡ Refused (refusal_of reason)) }
    ensures grows { Grows heap.old.objects heap.new.objects }
    ensures shown { IfOk result (λ v. (t : Meant) (N : ℕ) → arity_table t.definitions ≡ arity.now → (switched t (object_at heap.old.objects name)).0 ≡ Refused (refusal_of reason) → Shows heap.new.objects v.items (shown_by (refusal_of reason) Switch t N (switch_event (object_at heap.old.objects name)))) }
{
    if let Refusal::Checker = reason {
        return arity_shown(heap, arity, name);
    }
    let formula = claim(heap, name)?;
    just(heap, formula)
}

/// What is shown of an EVAL: the part of its term that is none, or its variables.
pub(crate) fn term_shown(
    heap: &mut Heap,
    arity: &Arity,
    reason: Refusal,
    term: Ref,
) -> Result<Vec<Ref>, Memory>
    requires term { IsIn heap.old.objects term }
    requires other { refusal_of reason ≡ NESTED → ⊥ }
    ensures grows { Grows heap.old.objects heap.new.objects }
    ensures shown { IfOk result (λ v. (t : Meant) (N : ℕ) → arity_table t.definitions ≡ arity.now → (eval t N (eval_event (object_at heap.old.objects term))).0 ≡ Refused (refusal_of reason) → Shows heap.new.objects v.items (shown_by (refusal_of reason) Eval t N (eval_event (object_at heap.old.objects term)))) }
{
    if !is_of_definitions(reason) {
        return Ok(Vec::new(heap.alloc()));
    }
    let nil = heap.nil()?;
    let draft = Draft {
        name: nil,
        formals: nil,
        body: term,
        measure: nil,
    };
    single_shown(heap, reason, draft, arity)
}
