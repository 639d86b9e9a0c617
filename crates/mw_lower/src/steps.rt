//! Steps by the further rules: whether they hold, and proofs in their place.
ghost use Rattle.std.specs.Prelude.{◌≡◌, false, MatchOption, IfOk};
ghost use Rattle.mw_model.specs.Terms.Object.{Object, same_object, list3, second_of};
ghost use Rattle.mw_commands.specs.Commands.Derivation.{CommuteOr, ModusPonens, Symmetry, Transitivity};
ghost use Rattle.mw_heap.specs.Objects.{object_at, IsIn, Grows};
ghost use Rattle.mw_heap.specs.Words.{word_object};
ghost use Rattle.mw_lower.specs.Answers.{AnswersOne, AnswersTwo, HasParts};

use crate::rules::{CHAINED, COMMUTED, DETACHED, TURNED, apply};
use mw_heap::{Heap, Memory, Ref, Word};

// The parts of the conclusion of a proof, after this head.
fn parts_of(heap: &Heap, p: Ref, head: Word) -> Option<(Ref, Ref)>
    requires { IsIn heap.now.objects p }
    ensures { MatchOption result ((a b : Object) → same_object (second_of (object_at heap.now.objects p)) (list3 (word_object head) a b) ≡ false) (λ q. HasParts heap.now.objects (word_object head) (second_of (object_at heap.now.objects p)) q.0 q.1) }
{
    heap.members_after(heap.second_of(p)?, head)
}

/// A proof of the conclusion by COMMUTE-OR from what p proves.
pub(crate) fn commute(heap: &mut Heap, conclusion: Ref, p: Ref) -> Result<Option<Ref>, Memory>
    requires conclusion { IsIn heap.old.objects conclusion }
    requires proof { IsIn heap.old.objects p }
    ensures grows { Grows heap.old.objects heap.new.objects }
    ensures answer { IfOk result (AnswersOne CommuteOr (object_at heap.old.objects conclusion) (object_at heap.old.objects p) heap.new.objects) }
{
    let Some((f, g)) = parts_of(heap, p, Word::Por) else {
        return Ok(None);
    };
    if !heap.is_or(Some(conclusion), Some(g), Some(f)) {
        return Ok(None);
    }
    Ok(Some(apply(heap, COMMUTED, &[f, g, p])?))
}

/// A proof of the conclusion by SYMMETRY from what p proves.
pub(crate) fn turn_round(heap: &mut Heap, conclusion: Ref, p: Ref) -> Result<Option<Ref>, Memory>
    requires conclusion { IsIn heap.old.objects conclusion }
    requires proof { IsIn heap.old.objects p }
    ensures grows { Grows heap.old.objects heap.new.objects }
    ensures answer { IfOk result (AnswersOne Symmetry (object_at heap.old.objects conclusion) (object_at heap.old.objects p) heap.new.objects) }
{
    let Some((a, b)) = parts_of(heap, p, Word::Pequal) else {
        return Ok(None);
    };
    if !heap.is_equal(Some(conclusion), Some(b), Some(a)) {
        return Ok(None);
    }
    Ok(Some(apply(heap, TURNED, &[a, b, p])?))
}

/// A proof of the conclusion by MODUS-PONENS from what p and q prove.
pub(crate) fn detach(
    heap: &mut Heap,
    conclusion: Ref,
    p: Ref,
    q: Ref,
) -> Result<Option<Ref>, Memory>
    requires conclusion { IsIn heap.old.objects conclusion }
    requires proof { IsIn heap.old.objects p }
    requires other { IsIn heap.old.objects q }
    ensures grows { Grows heap.old.objects heap.new.objects }
    ensures answer { IfOk result (AnswersTwo ModusPonens (object_at heap.old.objects conclusion) (object_at heap.old.objects p) (object_at heap.old.objects q) heap.new.objects) }
{
    let Some(f) = heap.second_of(p) else {
        return Ok(None);
    };
    let Some((negation, g)) = parts_of(heap, q, Word::Por) else {
        return Ok(None);
    };
    if !heap.is_not(Some(negation), Some(f)) || !heap.same(g, conclusion) {
        return Ok(None);
    }
    Ok(Some(apply(heap, DETACHED, &[f, g, p, q])?))
}

/// A proof of the conclusion by TRANSITIVITY from what p and q prove.
pub(crate) fn chain(heap: &mut Heap, conclusion: Ref, p: Ref, q: Ref) -> Result<Option<Ref>, Memory>
    requires conclusion { IsIn heap.old.objects conclusion }
    requires proof { IsIn heap.old.objects p }
    requires other { IsIn heap.old.objects q }
    ensures grows { Grows heap.old.objects heap.new.objects }
    ensures answer { IfOk result (AnswersTwo Transitivity (object_at heap.old.objects conclusion) (object_at heap.old.objects p) (object_at heap.old.objects q) heap.new.objects) }
{
    let Some((a, b)) = parts_of(heap, p, Word::Pequal) else {
        return Ok(None);
    };
    let Some((middle, c)) = parts_of(heap, q, Word::Pequal) else {
        return Ok(None);
    };
    if !heap.same(b, middle) || !heap.is_equal(Some(conclusion), Some(a), Some(c)) {
        return Ok(None);
    }
    Ok(Some(apply(heap, CHAINED, &[a, b, c, p, q])?))
}
