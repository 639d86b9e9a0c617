//! The shapes of formulas and of calls.
ghost use Rattle.std.specs.Prelude.{◌≡◌, ◌<◌, ◌&&◌, true, false, IfSome, MatchOption, is_some};
ghost use Rattle.mw_model.specs.Terms.Object.{Object, Pair, same_object, cdr};
ghost use Rattle.mw_model.specs.Values.Primitive.{is_pair};
ghost use Rattle.mw_model.specs.Laws.Rules.{or_object, not_object, equal_object, are_calls_of_one};
ghost use Rattle.mw_heap.specs.Objects.{object_at, IsIn};
ghost use Rattle.mw_heap.specs.Parts.{part_at, IsPart};

use mw_heap::{Heap, Ref, View, Word};
use mw_term::is_function_symbol;

// Whether x is: not a = b.
pub(crate) fn is_inequality(heap: &Heap, x: Ref, a: Ref, b: Ref) -> bool
    requires within { IsIn heap.now.objects x }
    requires first_within { IsIn heap.now.objects a }
    requires second_within { IsIn heap.now.objects b }
    ensures { result ≡ same_object (object_at heap.now.objects x) (not_object (equal_object (object_at heap.now.objects a) (object_at heap.now.objects b))) }
{
    match heap.member_after(x, Word::Pnot) {
        Some(equality) => heap.is_equal(Some(equality), Some(a), Some(b)),
        None => false,
    }
}

// The lists of arguments of two calls of one function.
pub(crate) fn arguments_of_one(heap: &Heap, x: Option<Ref>, y: Option<Ref>) -> Option<(Ref, Ref)>
    requires first_within { IsPart heap.now.objects x }
    requires second_within { IsPart heap.now.objects y }
    ensures within { IfSome result (λ p. IsIn heap.now.objects p.0 × IsIn heap.now.objects p.1) }
    ensures calls { are_calls_of_one (part_at heap.now.objects x) (part_at heap.now.objects y) ≡ is_some result }
    ensures arguments { IfSome result (λ p. (object_at heap.now.objects p.0 ≡ cdr (part_at heap.now.objects x)) × (object_at heap.now.objects p.1 ≡ cdr (part_at heap.now.objects y))) }
{
    let Some(x) = x else {
        return None;
    };
    let Some(y) = y else {
        return None;
    };
    let View::Pair(f, firsts) = heap.view(x) else {
        return None;
    };
    let View::Pair(g, seconds) = heap.view(y) else {
        return None;
    };
    if !is_function_symbol(heap, f) {
        return None;
    }
    if !heap.same(f, g) {
        return None;
    }
    Some((firsts, seconds))
}

// The first member and the rest of each of two lists that have members.
pub(crate) fn members(heap: &Heap, xs: Ref, ys: Ref) -> Option<((Ref, Ref), (Ref, Ref))>
    requires first_within { IsIn heap.now.objects xs }
    requires second_within { IsIn heap.now.objects ys }
    ensures within { IfSome result (λ p. IsIn heap.now.objects p.0.0 × IsIn heap.now.objects p.0.1 × IsIn heap.now.objects p.1.0 × IsIn heap.now.objects p.1.1 × (p.0.1 < xs)) }
    ensures members { IfSome result (λ p. (object_at heap.now.objects xs ≡ Pair (object_at heap.now.objects p.0.0) (object_at heap.now.objects p.0.1)) × (object_at heap.now.objects ys ≡ Pair (object_at heap.now.objects p.1.0) (object_at heap.now.objects p.1.1))) }
    ensures both { is_some result ≡ (is_pair (object_at heap.now.objects xs) && is_pair (object_at heap.now.objects ys)) }
{
    let View::Pair(a, more_xs) = heap.view(xs) else {
        return None;
    };
    let View::Pair(b, more_ys) = heap.view(ys) else {
        return None;
    };
    Some(((a, more_xs), (b, more_ys)))
}
