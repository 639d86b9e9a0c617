//! Conclusions that may be meant by a step, by the rules of propositions.
ghost use Rattle.std.specs.Prelude.{◌≡◌, IfOk, IfSome};
ghost use Rattle.mw_model.specs.Terms.Term.{Formula, formula_object};
ghost use Rattle.mw_heap.specs.Objects.{object_at, IsIn, Grows};
ghost use Rattle.mw_bad_steps.specs.Candidates.{IsCandidate, AreSides, sides, schema_of, expansion_of, contraction_of, associativity_of, cut_of};

use crate::formulas::{not, or};
use mw_heap::{Heap, Memory, Ref, Word};

// A and B of A or B.
fn sides_of(heap: &Heap, x: Ref) -> Option<(Ref, Ref)>
    requires { IsIn heap.now.objects x }
    ensures within { IfSome result (λ p. IsIn heap.now.objects p.0 × IsIn heap.now.objects p.1) }
    ensures sides { (F : Formula) → object_at heap.now.objects x ≡ formula_object F → AreSides heap.now.objects (sides F) result }
{
    heap.members_after(x, Word::Por)
}

/// Of F or G: not G or G.
#[tactic(auto, using(crate::proofs::Sides::schema_none, crate::proofs::Sides::schema_made))]
pub(crate) fn schema(heap: &mut Heap, conclusion: Ref) -> Result<Option<Ref>, Memory>
    requires { IsIn heap.old.objects conclusion }
    ensures grows { Grows heap.old.objects heap.new.objects }
    ensures within { IfOk result (λ o. IfSome o (λ r. IsIn heap.new.objects r)) }
    ensures meant { IfOk result (λ o. (F : Formula) → object_at heap.old.objects conclusion ≡ formula_object F → IsCandidate heap.new.objects (schema_of F) o) }
{
    let Some((_, g)) = sides_of(heap, conclusion) else {
        return Ok(None);
    };
    let negation = not(heap, g)?;
    Ok(Some(or(heap, negation, g)?))
}

/// Of G or H, and the premise F: G or F.
#[tactic(auto, using(crate::proofs::Sides::expansion_none, crate::proofs::Sides::expansion_made))]
pub(crate) fn expansion(
    heap: &mut Heap,
    conclusion: Ref,
    premise: Ref,
) -> Result<Option<Ref>, Memory>
    requires within { IsIn heap.old.objects conclusion }
    requires premise { IsIn heap.old.objects premise }
    ensures grows { Grows heap.old.objects heap.new.objects }
    ensures within { IfOk result (λ o. IfSome o (λ r. IsIn heap.new.objects r)) }
    ensures meant { IfOk result (λ o. (F G : Formula) → object_at heap.old.objects conclusion ≡ formula_object F → object_at heap.old.objects premise ≡ formula_object G → IsCandidate heap.new.objects (expansion_of F G) o) }
{
    let Some((g, _)) = sides_of(heap, conclusion) else {
        return Ok(None);
    };
    Ok(Some(or(heap, g, premise)?))
}

/// Of the premise G or H: G.
#[tactic(auto, using(crate::proofs::Sides::contraction_none, crate::proofs::Sides::contraction_made))]
pub(crate) fn contraction(heap: &Heap, premise: Ref) -> Option<Ref>
    requires { IsIn heap.now.objects premise }
    ensures within { IfSome result (λ r. IsIn heap.now.objects r) }
    ensures meant { (G : Formula) → object_at heap.now.objects premise ≡ formula_object G → IsCandidate heap.now.objects (contraction_of G) result }
{
    match sides_of(heap, premise) {
        Some((g, _)) => Some(g),
        None => None,
    }
}

/// Of the premise G or (H or K): (G or H) or K.
#[tactic(auto, using(crate::proofs::Sides::associativity_none, crate::proofs::Sides::associativity_inner, crate::proofs::Sides::associativity_made))]
pub(crate) fn associativity(heap: &mut Heap, premise: Ref) -> Result<Option<Ref>, Memory>
    requires { IsIn heap.old.objects premise }
    ensures grows { Grows heap.old.objects heap.new.objects }
    ensures within { IfOk result (λ o. IfSome o (λ r. IsIn heap.new.objects r)) }
    ensures meant { IfOk result (λ o. (G : Formula) → object_at heap.old.objects premise ≡ formula_object G → IsCandidate heap.new.objects (associativity_of G) o) }
{
    let Some((g, others)) = sides_of(heap, premise) else {
        return Ok(None);
    };
    let Some((h, k)) = sides_of(heap, others) else {
        return Ok(None);
    };
    let first = or(heap, g, h)?;
    Ok(Some(or(heap, first, k)?))
}

/// Of the premises G or H and K or L: H or L.
#[tactic(auto, using(crate::proofs::Sides::cut_none, crate::proofs::Sides::cut_none_second, crate::proofs::Sides::cut_made))]
pub(crate) fn cut(heap: &mut Heap, first: Ref, second: Ref) -> Result<Option<Ref>, Memory>
    requires first { IsIn heap.old.objects first }
    requires second { IsIn heap.old.objects second }
    ensures grows { Grows heap.old.objects heap.new.objects }
    ensures within { IfOk result (λ o. IfSome o (λ r. IsIn heap.new.objects r)) }
    ensures meant { IfOk result (λ o. (F G : Formula) → object_at heap.old.objects first ≡ formula_object F → object_at heap.old.objects second ≡ formula_object G → IsCandidate heap.new.objects (cut_of F G) o) }
{
    let Some((_, h)) = sides_of(heap, first) else {
        return Ok(None);
    };
    let Some((_, l)) = sides_of(heap, second) else {
        return Ok(None);
    };
    Ok(Some(or(heap, h, l)?))
}
