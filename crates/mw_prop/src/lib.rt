//! The propositional rules of proof, each as a test on the conclusions of a step and of its subproofs.
#![tactic(auto)]

ghost use Rattle.std.specs.Prelude.{◌≡◌};
ghost use Rattle.mw_model.specs.Terms.Object.{same_object};
ghost use Rattle.mw_model.specs.Laws.Rules.{or_object, object_is_schema, object_is_expansion, object_is_contraction, object_is_associativity, object_is_cut};
ghost use Rattle.mw_heap.specs.Objects.{object_at, IsIn};
ghost use Rattle.mw_heap.specs.Parts.{part_at, IsPart};

use mw_heap::{Heap, Ref};

/// Conclude not A or A.
pub fn schema(heap: &Heap, conclusion: Ref) -> bool
    requires { IsIn heap.now.objects conclusion }
    ensures { result ≡ object_is_schema (object_at heap.now.objects conclusion) }
{
    match heap.or_parts(Some(conclusion)) {
        Some((not_a, a)) => heap.is_not(not_a, a),
        None => false,
    }
}

/// From A, conclude B or A.
pub fn expansion(heap: &Heap, conclusion: Ref, premise: Ref) -> bool
    requires conclusion { IsIn heap.now.objects conclusion }
    requires premise { IsIn heap.now.objects premise }
    ensures { result ≡ object_is_expansion (object_at heap.now.objects conclusion) (object_at heap.now.objects premise) }
{
    match heap.or_parts(Some(conclusion)) {
        Some((_, a)) => heap.is_same(a, Some(premise)),
        None => false,
    }
}

/// From A or A, conclude A.
pub fn contraction(heap: &Heap, conclusion: Ref, premise: Ref) -> bool
    requires conclusion { IsIn heap.now.objects conclusion }
    requires premise { IsIn heap.now.objects premise }
    ensures { result ≡ object_is_contraction (object_at heap.now.objects conclusion) (object_at heap.now.objects premise) }
{
    heap.is_or(Some(premise), Some(conclusion), Some(conclusion))
}

/// From A or (B or C), conclude (A or B) or C.
pub fn associativity(heap: &Heap, conclusion: Ref, premise: Ref) -> bool
    requires conclusion { IsIn heap.now.objects conclusion }
    requires premise { IsIn heap.now.objects premise }
    ensures { result ≡ object_is_associativity (object_at heap.now.objects conclusion) (object_at heap.now.objects premise) }
{
    let Some((a, b_or_c)) = heap.or_parts(Some(premise)) else {
        return false;
    };
    let Some((b, c)) = heap.or_parts(b_or_c) else {
        return false;
    };
    is_left_or(heap, conclusion, a, b, c)
}

// Whether x is: (A or B) or C.
#[tactic(auto, using(crate::proofs::ByMembers::by_members))]
fn is_left_or(heap: &Heap, x: Ref, a: Option<Ref>, b: Option<Ref>, c: Option<Ref>) -> bool
    requires within { IsIn heap.now.objects x }
    requires a_within { IsPart heap.now.objects a }
    requires b_within { IsPart heap.now.objects b }
    requires c_within { IsPart heap.now.objects c }
    ensures { result ≡ same_object (object_at heap.now.objects x) (or_object (or_object (part_at heap.now.objects a) (part_at heap.now.objects b)) (part_at heap.now.objects c)) }
{
    heap.is_or(heap.second_of(x), a, b) && heap.is_or(Some(x), heap.second_of(x), c)
}

/// From A or B and not A or C, conclude B or C.
pub fn cut(heap: &Heap, conclusion: Ref, first: Ref, second: Ref) -> bool
    requires conclusion { IsIn heap.now.objects conclusion }
    requires first { IsIn heap.now.objects first }
    requires second { IsIn heap.now.objects second }
    ensures { result ≡ object_is_cut (object_at heap.now.objects conclusion) (object_at heap.now.objects first) (object_at heap.now.objects second) }
{
    match (heap.or_parts(Some(first)), heap.or_parts(Some(second))) {
        (Some((a, b)), Some((not_a, c))) => heap.is_not(not_a, a)
            && heap.is_or(Some(conclusion), b, c),
        _ => false,
    }
}
