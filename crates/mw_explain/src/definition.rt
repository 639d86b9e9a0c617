//! What is shown of definitions that are refused.
ghost use Rattle.std.specs.Prelude.{◌≡◌, ◌++◌, ◌∷◌, [], true, map, is_some, IfOk};
ghost use Rattle.mw_model.specs.Terms.Object.{Natural, Pair};
ghost use Rattle.mw_model.specs.Events.Admission.{all_of, formals_of, new_names};
ghost use Rattle.mw_model.specs.Events.Refusal.{NAME, FORMALS, NESTED};
ghost use Rattle.mw_heap.specs.Objects.{object_at, IsIn, Grows};
ghost use Rattle.mw_heap.specs.Variants.{refusal_of};
ghost use Rattle.mw_define.specs.Blocks.{draft_at, AreDraftsIn};
ghost use Rattle.mw_commands.specs.Commands.Explanation.{draft_shown, drafts_shown, first_shown};
ghost use Rattle.mw_explain.specs.Drafts.{bodies_under};
ghost use Rattle.mw_bad_steps.specs.Shown.{Shows};

use crate::draft_name::names_shown;
use crate::one_draft::draft_shown;
use crate::putting_first::put_number;
use mw_define::{Draft, NestedCall, arities_of_drafts, first_nested_call};
use mw_heap::{Heap, Memory, Ref, Refusal};
use mw_term::Arity;

// What is shown of the first draft that fails a test, after its number.
fn first_shown(
    heap: &mut Heap,
    reason: Refusal,
    drafts: &[Draft],
    newer: &Arity,
    older: &Arity,
) -> Result<Vec<Ref>, Memory>
    requires { AreDraftsIn heap.old.objects drafts.now }
    ensures grows { Grows heap.old.objects heap.new.objects }
    ensures shown { IfOk result (λ v. Shows heap.new.objects v.items (first_shown (draft_shown (refusal_of reason) older.now (newer.now ++ older.now)) 1 (map (draft_at heap.old.objects) drafts.now))) }
{
    for (index, draft) in drafts.iter().enumerate() {
        let shown = draft_shown(heap, reason, *draft, newer, older)?;
        if !shown.as_slice().is_empty() {
            return put_number(heap, index as u64 + 1, shown);
        }
    }
    Ok(Vec::new(heap.alloc()))
}

// The arities in front of the table under which the bodies stand.
fn newer_arities(
    heap: &Heap,
    drafts: &[Draft],
    arity: &Arity,
    recursive: bool,
) -> Result<Arity, Memory>
    requires drafts { AreDraftsIn heap.now.objects drafts.now }
    requires named { recursive ≡ true → is_some (new_names arity.now (map (λ d. d.name) (map (draft_at heap.now.objects) drafts.now))) ≡ true }
    requires formals { recursive ≡ true → is_some (all_of formals_of (map (λ d. d.formals) (map (draft_at heap.now.objects) drafts.now))) ≡ true }
    ensures { IfOk result (λ t. t ++ arity.now ≡ bodies_under recursive arity.now (map (draft_at heap.now.objects) drafts.now)) }
{
    if !recursive {
        return Ok(Arity::new(heap.alloc()));
    }
    match arities_of_drafts(heap, drafts, arity)? {
        Some(newer) => Ok(newer),
        None => unreachable!(),
    }
}

// What is shown of drafts whose names and formals passed.
fn terms_shown(
    heap: &mut Heap,
    reason: Refusal,
    drafts: &[Draft],
    arity: &Arity,
    recursive: bool,
) -> Result<Vec<Ref>, Memory>
    requires drafts { AreDraftsIn heap.old.objects drafts.now }
    requires named { recursive ≡ true → is_some (new_names arity.now (map (λ d. d.name) (map (draft_at heap.old.objects) drafts.now))) ≡ true }
    requires formals { recursive ≡ true → is_some (all_of formals_of (map (λ d. d.formals) (map (draft_at heap.old.objects) drafts.now))) ≡ true }
    ensures grows { Grows heap.old.objects heap.new.objects }
    ensures shown { IfOk result (λ v. Shows heap.new.objects v.items (first_shown (draft_shown (refusal_of reason) arity.now (bodies_under recursive arity.now (map (draft_at heap.old.objects) drafts.now))) 1 (map (draft_at heap.old.objects) drafts.now))) }
{
    let newer = newer_arities(heap, drafts, arity, recursive)?;
    first_shown(heap, reason, drafts, &newer, arity)
}

// The number of the function, and the call in whose actuals the block is called.
fn call_shown(heap: &mut Heap, nested: NestedCall) -> Result<Vec<Ref>, Memory>
    requires name { IsIn heap.old.objects nested.name }
    requires actuals { IsIn heap.old.objects nested.actuals }
    ensures grows { Grows heap.old.objects heap.new.objects }
    ensures shown { IfOk result (λ v. Shows heap.new.objects v.items (Natural nested.number ∷ Pair (object_at heap.old.objects nested.name) (object_at heap.old.objects nested.actuals) ∷ [])) }
{
    let call = heap.cons(nested.name, nested.actuals)?;
    let mut shown = Vec::new(heap.alloc());
    shown.push(call)?;
    put_number(heap, nested.number, shown)
}

// What is shown of recursive drafts in which a call of the block has one among its actuals.
fn nested_shown(heap: &mut Heap, drafts: &[Draft], arity: &Arity) -> Result<Vec<Ref>, Memory>
    requires drafts { AreDraftsIn heap.old.objects drafts.now }
    requires named { is_some (new_names arity.now (map (λ d. d.name) (map (draft_at heap.old.objects) drafts.now))) ≡ true }
    requires formals { is_some (all_of formals_of (map (λ d. d.formals) (map (draft_at heap.old.objects) drafts.now))) ≡ true }
    ensures grows { Grows heap.old.objects heap.new.objects }
    ensures shown { IfOk result (λ v. Shows heap.new.objects v.items (drafts_shown NESTED arity.now (bodies_under true arity.now (map (draft_at heap.old.objects) drafts.now)) (map (draft_at heap.old.objects) drafts.now))) }
{
    let nested = first_nested_call(heap, drafts, arity)?;
    let Some(nested) = nested else {
        return Ok(Vec::new(heap.alloc()));
    };
    call_shown(heap, nested)
}

/// What is shown of definitions that are refused for this reason, as an explanation of it; nothing of definitions that pass its test. Of
/// a name or a list of formals: the number of the first definition that has a bad one, from 1 on, and that. Of a body or a measure that
/// is not a term: the number, which of the two it is, and its first bad part. Of variables: the number, and those that are not formals.
/// Of a call of the block in an actual of one: the number, and the outer call. Recursive definitions may call each other; a witness and
/// the term of an evaluation are not recursive. What it takes counts as looks that the heap allows. The error is out of memory.
pub fn definition_shown(
    heap: &mut Heap,
    reason: Refusal,
    drafts: &[Draft],
    arity: &Arity,
    recursive: bool,
) -> Result<Vec<Ref>, Memory>
    requires drafts { AreDraftsIn heap.old.objects drafts.now }
    requires named { recursive ≡ true → (refusal_of reason ≡ NAME → ⊥) → is_some (new_names arity.now (map (λ d. d.name) (map (draft_at heap.old.objects) drafts.now))) ≡ true }
    requires formals { recursive ≡ true → (refusal_of reason ≡ NAME → ⊥) → (refusal_of reason ≡ FORMALS → ⊥) → is_some (all_of formals_of (map (λ d. d.formals) (map (draft_at heap.old.objects) drafts.now))) ≡ true }
    requires nested { refusal_of reason ≡ NESTED → recursive ≡ true }
    ensures grows { Grows heap.old.objects heap.new.objects }
    ensures shown { IfOk result (λ v. Shows heap.new.objects v.items (drafts_shown (refusal_of reason) arity.now (bodies_under recursive arity.now (map (draft_at heap.old.objects) drafts.now)) (map (draft_at heap.old.objects) drafts.now))) }
{
    match reason {
        Refusal::Name => names_shown(heap, drafts, arity),
        Refusal::Formals => terms_shown(heap, reason, drafts, arity, false),
        Refusal::Nested => nested_shown(heap, drafts, arity),
        _ => terms_shown(heap, reason, drafts, arity, recursive),
    }
}
