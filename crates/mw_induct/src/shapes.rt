//! Premises that need no substitution, and the shapes of the others.
ghost use Rattle.std.specs.Prelude.{◌≡◌, true, false, IfSome, MatchOption};
ghost use Rattle.mw_model.specs.Terms.Object.{Object, Pair, same_object};
ghost use Rattle.mw_model.specs.Laws.RulesInduction.{disjunction_object, true_object, ordinal_object};
ghost use Rattle.mw_heap.specs.Objects.{object_at, IsIn};

use mw_heap::{Heap, Ref, View, Word};

// Whether x is: A or q1 or .. or qn, for the formula A and the members of a list.
pub(crate) fn is_disjunction(heap: &Heap, x: Ref, a: Ref, members: Ref) -> bool
    requires within { IsIn heap.now.objects x }
    requires first_within { IsIn heap.now.objects a }
    requires members_within { IsIn heap.now.objects members }
    ensures { result ≡ same_object (object_at heap.now.objects x) (disjunction_object (Pair (object_at heap.now.objects a) (object_at heap.now.objects members))) }
{
    let mut rest = x;
    let mut first = a;
    let mut members = members;
    while let View::Pair(next, more) = heap.view(members) {
        let Some((side, others)) = heap.members_after(rest, Word::Por) else {
            return false;
        };
        if !heap.same(side, first) {
            return false;
        }
        rest = others;
        first = next;
        members = more;
    }
    heap.same(rest, first)
}

// Whether x is: A or q1 or .. or qn, for the formula A and any members. It looks no further than at the first disjunct.
pub(crate) fn is_disjunction_from(heap: &Heap, x: Ref, a: Ref) -> bool
    requires within { IsIn heap.now.objects x }
    requires first_within { IsIn heap.now.objects a }
    ensures no { result ≡ false → (members : Object) → same_object (object_at heap.now.objects x) (disjunction_object (Pair (object_at heap.now.objects a) members)) ≡ false }
    ensures yes { result ≡ true → (members : Object) × (same_object (object_at heap.now.objects x) (disjunction_object (Pair (object_at heap.now.objects a) members)) ≡ true) }
{
    if let Some((first, _)) = heap.members_after(x, Word::Por) {
        if heap.same(first, a) {
            return true;
        }
    }
    heap.same(x, a)
}

// The term t, where x is: t = 't.
pub(crate) fn true_term(heap: &Heap, x: Ref) -> Option<Ref>
    requires { IsIn heap.now.objects x }
    ensures within { IfSome result (λ t. IsIn heap.now.objects t) }
    ensures term { MatchOption result ((t : Object) → same_object (object_at heap.now.objects x) (true_object t) ≡ false) (λ t. object_at heap.now.objects x ≡ true_object (object_at heap.now.objects t)) }
{
    let Some((term, constant)) = heap.members_after(x, Word::Pequal) else {
        return None;
    };
    let Some(value) = heap.member_after(constant, Word::Quote) else {
        return None;
    };
    if heap.is_word(Some(value), Word::T) {
        Some(term)
    } else {
        None
    }
}

// Whether x is: (ordp m) = 't.
pub(crate) fn is_ordinal_premise(heap: &Heap, x: Ref, measure: Ref) -> bool
    requires within { IsIn heap.now.objects x }
    requires measure_within { IsIn heap.now.objects measure }
    ensures { result ≡ same_object (object_at heap.now.objects x) (ordinal_object (object_at heap.now.objects measure)) }
{
    match true_term(heap, x) {
        Some(term) => heap.is_list2(Some(term), Word::Ordp, Some(measure)),
        None => false,
    }
}
