//! Events whose proofs are rewritten.
#![tactic(auto, using(crate::proofs::Growing::growing))]

ghost use Rattle.std.specs.Prelude.{◌≡◌, true, All, IfOk};
ghost use Rattle.mw_model.specs.Terms.Object.{Object};
ghost use Rattle.mw_model.specs.Laws.RulesInduction.{is_list_object};
ghost use Rattle.mw_model.specs.Laws.Rewriting.{TurnsOrStays, EachTurnsOrStays, IsRewritten};
ghost use Rattle.mw_heap.specs.Objects.{object_at, IsIn, Grows};
ghost use Rattle.mw_heap.specs.Lists.{list_object};
ghost use Rattle.mw_theory.specs.Admitting.{AreWithin};
ghost use Rattle.mw_theory.specs.Knowledge.{parts_of, meant};
ghost use Rattle.mw_kernel.specs.Rewriting.{defining_event};
ghost use Rattle.mw_kernel.specs.Standing.{Stands, Keeps};

use mw_bad_steps::is_list;
use mw_define::Draft;
use mw_heap::{Heap, Memory, Ref, View, Word, form_of, list_of};
use mw_proof::{Rewriter, Rewritten};
use mw_rules::Basis;
use mw_term::Marks;
use mw_theory::{Drafts, Event, Theory, event_of};

/// The event with its proofs rewritten, each to what it turns to, or kept where it turns to nothing. The event itself where the theory's
/// checker is not the built-in one, where the object is no event with proofs, and where its proofs are no proper list. The marks, which
/// are under the theory's arity table, are extended. The one error is out of memory.
pub(crate) fn rewritten<R: Rewriter>(
    heap: &mut Heap,
    event: Ref,
    theory: &Theory,
    marks: &mut Marks,
    by: &mut R,
) -> Result<Ref, Memory>
    requires within { IsIn heap.old.objects event }
    requires stands { Stands heap.old.objects theory.now marks.old }
    ensures kept { Keeps theory.now.arity heap.old.objects heap.new.objects marks.new }
    ensures within { IfOk result (λ r. IsIn heap.new.objects r) }
    ensures rewritten { IfOk result (λ r. IsRewritten R.turns (meant heap.old.objects (parts_of theory.now)) (object_at heap.old.objects event) (object_at heap.new.objects r)) }
{
    let None = theory.checker else {
        return Ok(event);
    };
    let Some(members) = event_of(heap, event) else {
        return Ok(event);
    };
    match members {
        Event::Verify {
            name,
            formula,
            proof,
        } => {
            let turned = rewritten_proof(heap, proof, theory, marks, by)?;
            form_of(heap, Word::Verify, &[name, formula, turned])
        }
        Event::Define {
            name,
            formals,
            body,
            measure,
            proofs,
        } => {
            if !is_list(heap, proofs) {
                return Ok(event);
            }
            let draft = Draft {
                name,
                formals,
                body,
                measure,
            };
            with_proofs(heap, Drafts::One(draft), proofs, theory, marks, by)
        }
        Event::DefineAll {
            definitions,
            proofs,
        } => {
            if !is_list(heap, proofs) {
                return Ok(event);
            }
            with_proofs(heap, Drafts::All(definitions), proofs, theory, marks, by)
        }
        _ => Ok(event),
    }
}

// A DEFINE or a DEFINE-ALL that gives these definitions, whose proofs are rewritten.
fn with_proofs<R: Rewriter>(
    heap: &mut Heap,
    drafts: Drafts,
    proofs: Ref,
    theory: &Theory,
    marks: &mut Marks,
    by: &mut R,
) -> Result<Ref, Memory>
    requires drafts { AreWithin heap.old.objects drafts }
    requires proofs { IsIn heap.old.objects proofs }
    requires list { is_list_object (object_at heap.old.objects proofs) ≡ true }
    requires stands { Stands heap.old.objects theory.now marks.old }
    ensures kept { Keeps theory.now.arity heap.old.objects heap.new.objects marks.new }
    ensures within { IfOk result (λ r. IsIn heap.new.objects r) }
    ensures rewritten { IfOk result (λ r. (qs : Object) × EachTurnsOrStays R.turns (meant heap.old.objects (parts_of theory.now)) (object_at heap.old.objects proofs) qs × (object_at heap.new.objects r ≡ defining_event heap.old.objects drafts qs)) }
{
    let members = rewritten_members(heap, proofs, theory, marks, by)?;
    let turned = list_of(heap, members.as_slice())?;
    defining_event(heap, drafts, turned)
}

// The DEFINE or the DEFINE-ALL that gives these definitions, with these proofs.
fn defining_event(heap: &mut Heap, drafts: Drafts, proofs: Ref) -> Result<Ref, Memory>
    requires drafts { AreWithin heap.old.objects drafts }
    requires proofs { IsIn heap.old.objects proofs }
    ensures grows { Grows heap.old.objects heap.new.objects }
    ensures made { IfOk result (λ r. IsIn heap.new.objects r × (object_at heap.new.objects r ≡ defining_event heap.old.objects drafts (object_at heap.old.objects proofs))) }
{
    match drafts {
        Drafts::One(draft) => form_of(
            heap,
            Word::Define,
            &[draft.name, draft.formals, draft.body, draft.measure, proofs],
        ),
        Drafts::All(definitions) => form_of(heap, Word::DefineAll, &[definitions, proofs]),
    }
}

// What the members of a proper list of proofs turn to, or the members themselves where they turn to nothing.
fn rewritten_members<R: Rewriter>(
    heap: &mut Heap,
    proofs: Ref,
    theory: &Theory,
    marks: &mut Marks,
    by: &mut R,
) -> Result<Vec<Ref>, Memory>
    requires proofs { IsIn heap.old.objects proofs }
    requires list { is_list_object (object_at heap.old.objects proofs) ≡ true }
    requires stands { Stands heap.old.objects theory.now marks.old }
    ensures kept { Keeps theory.now.arity heap.old.objects heap.new.objects marks.new }
    ensures within { IfOk result (λ members. All (IsIn heap.new.objects) members.items) }
    ensures turned { IfOk result (λ members. EachTurnsOrStays R.turns (meant heap.old.objects (parts_of theory.now)) (object_at heap.old.objects proofs) (list_object heap.new.objects members.items)) }
{
    let mut members = Vec::new(heap.alloc());
    let mut rest = proofs;
    while let View::Pair(proof, more) = heap.view(rest) {
        let turned = rewritten_proof(heap, proof, theory, marks, by)?;
        members.push(turned)?;
        rest = more;
    }
    Ok(members)
}

// What the proof turns to, or itself where it turns to nothing.
fn rewritten_proof<R: Rewriter>(
    heap: &mut Heap,
    proof: Ref,
    theory: &Theory,
    marks: &mut Marks,
    by: &mut R,
) -> Result<Ref, Memory>
    requires proof { IsIn heap.old.objects proof }
    requires stands { Stands heap.old.objects theory.now marks.old }
    ensures kept { Keeps theory.now.arity heap.old.objects heap.new.objects marks.new }
    ensures within { IfOk result (λ r. IsIn heap.new.objects r) }
    ensures turned { IfOk result (λ r. TurnsOrStays R.turns (meant heap.old.objects (parts_of theory.now)) (object_at heap.old.objects proof) (object_at heap.new.objects r)) }
{
    let basis = Basis {
        axioms: &theory.known_axioms,
        theorems: &theory.known_theorems,
        profile: theory.profile,
    };
    match by.rewrite(heap, proof, &basis, marks, &theory.arity) {
        Rewritten::Proof(turned) => Ok(turned),
        Rewritten::Keep => Ok(proof),
        Rewritten::Memory => Err(Memory),
    }
}
