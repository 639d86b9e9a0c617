//! Steps by REPLACE, as a step by functional equality from which the premises are detached.
ghost use Rattle.std.specs.Prelude.{◌≡◌, All, IfOk};
ghost use Rattle.mw_commands.specs.Commands.Derivation.{Replace};
ghost use Rattle.mw_heap.specs.Objects.{object_at, IsIn, Grows};
ghost use Rattle.mw_heap.specs.Lists.{list_object};
ghost use Rattle.mw_lower.specs.Answers.{AnswersAll};
ghost use Rattle.mw_lower.specs.Unless.{MakesUnless, DetachesOne, DetachesAll};

use crate::rules::{DETACHED, FUNCTIONAL, IMPLICATION, apply};
use mw_equal::functional_equality;
use mw_heap::{Heap, Memory, Ref};

/// A proof of c by REPLACE from what the proofs prove.
pub(crate) fn replace(heap: &mut Heap, c: Ref, proofs: &[Ref]) -> Result<Option<Ref>, Memory>
    requires conclusion { IsIn heap.old.objects c }
    requires proofs { All (IsIn heap.old.objects) proofs.now }
    ensures grows { Grows heap.old.objects heap.new.objects }
    ensures answer { IfOk result (AnswersAll Replace (object_at heap.old.objects c) (list_object heap.old.objects proofs.now) heap.new.objects) }
{
    if heap.equal_parts(Some(c)).is_none() {
        return Ok(None);
    }
    let whole = unless(heap, c, proofs)?;
    if !functional_equality(heap, whole) {
        return Ok(None);
    }
    let step = apply(heap, FUNCTIONAL, &[whole])?;
    Ok(Some(detach_all(heap, whole, step, proofs)?))
}

// Not the first or .. or not the last of what the proofs prove, or c.
fn unless(heap: &mut Heap, c: Ref, proofs: &[Ref]) -> Result<Ref, Memory>
    requires conclusion { IsIn heap.old.objects c }
    requires proofs { All (IsIn heap.old.objects) proofs.now }
    ensures grows { Grows heap.old.objects heap.new.objects }
    ensures within { IfOk result (IsIn heap.new.objects) }
    ensures made { IfOk result (λ r. MakesUnless (object_at heap.old.objects c) (list_object heap.old.objects proofs.now) (object_at heap.new.objects r)) }
{
    let mut whole = c;
    let mut left = proofs.len();
    while left > 0 {
        left -= 1;
        if let Some(premise) = heap.second_of(proofs[left]) {
            whole = apply(heap, IMPLICATION, &[premise, whole])?;
        }
    }
    Ok(whole)
}

// What is left of `whole`, which `step` proves, when all that the proofs prove is detached from it.
fn detach_all(heap: &mut Heap, whole: Ref, step: Ref, proofs: &[Ref]) -> Result<Ref, Memory>
    requires whole { IsIn heap.old.objects whole }
    requires step { IsIn heap.old.objects step }
    requires proofs { All (IsIn heap.old.objects) proofs.now }
    ensures grows { Grows heap.old.objects heap.new.objects }
    ensures within { IfOk result (IsIn heap.new.objects) }
    ensures made { IfOk result (λ r. DetachesAll (object_at heap.old.objects whole) (object_at heap.old.objects step) (list_object heap.old.objects proofs.now) (object_at heap.new.objects r)) }
{
    let mut whole = whole;
    let mut step = step;
    for p in proofs {
        let (rest, next) = detach_one(heap, whole, step, *p)?;
        whole = rest;
        step = next;
    }
    Ok(step)
}

// What is left of `whole`, which `step` proves, when what p proves is detached from it, and a proof of that.
fn detach_one(heap: &mut Heap, whole: Ref, step: Ref, p: Ref) -> Result<(Ref, Ref), Memory>
    requires whole { IsIn heap.old.objects whole }
    requires step { IsIn heap.old.objects step }
    requires proof { IsIn heap.old.objects p }
    ensures grows { Grows heap.old.objects heap.new.objects }
    ensures within { IfOk result (λ r. IsIn heap.new.objects r.0 × IsIn heap.new.objects r.1) }
    ensures made { IfOk result (λ r. DetachesOne (object_at heap.old.objects whole) (object_at heap.old.objects step) (object_at heap.old.objects p) (object_at heap.new.objects r.0) (object_at heap.new.objects r.1)) }
{
    let Some(premise) = heap.second_of(p) else {
        return Ok((whole, step));
    };
    let Some(rest) = heap.third_of(whole) else {
        return Ok((whole, step));
    };
    let next = apply(heap, DETACHED, &[premise, rest, p, step])?;
    Ok((rest, next))
}
