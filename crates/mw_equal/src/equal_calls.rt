//! Equal arguments give equal values.
ghost use Rattle.std.specs.Prelude.{◌≡◌, ◌<◌, true, false, IfSome, MatchOption};
ghost use Rattle.mw_model.specs.Terms.Object.{same_object};
ghost use Rattle.mw_model.specs.Laws.Rules.{last_disjunct_object, unless_equal_object, object_ends_with_equality, object_is_functional_equality};
ghost use Rattle.mw_heap.specs.Objects.{object_at, IsIn};

use crate::shapes::{arguments_of_one, is_inequality, members};
use mw_heap::{Heap, Ref, View, Word};

/// Whether the conclusion is: not a1 = b1 or .. or not an = bn or (f a1 .. an) = (f b1 .. bn), where f is the name of a function.
pub fn functional_equality(heap: &Heap, conclusion: Ref) -> bool
    requires { IsIn heap.now.objects conclusion }
    ensures { result ≡ object_is_functional_equality (object_at heap.now.objects conclusion) }
{
    ends_with_equality(heap, conclusion, last_disjunct(heap, conclusion))
}

// The last disjunct of c.
fn last_disjunct(heap: &Heap, c: Ref) -> Ref
    requires { IsIn heap.now.objects c }
    ensures within { IsIn heap.now.objects result }
    ensures last { object_at heap.now.objects result ≡ last_disjunct_object (object_at heap.now.objects c) }
{
    let mut last = c;
    while let Some(later) = later_disjunct(heap, last) {
        last = later;
    }
    last
}

// What follows the first disjunct, of a list that begins like a disjunction.
fn later_disjunct(heap: &Heap, x: Ref) -> Option<Ref>
    requires { IsIn heap.now.objects x }
    ensures within { IfSome result (λ y. IsIn heap.now.objects y × (y < x)) }
    ensures last { MatchOption result (last_disjunct_object (object_at heap.now.objects x) ≡ object_at heap.now.objects x) (λ y. last_disjunct_object (object_at heap.now.objects x) ≡ last_disjunct_object (object_at heap.now.objects y)) }
{
    let View::Pair(head, sides) = heap.view(x) else {
        return None;
    };
    let View::Pair(_, others) = heap.view(sides) else {
        return None;
    };
    let View::Pair(second, _) = heap.view(others) else {
        return None;
    };
    if heap.is_word(Some(head), Word::Por) {
        Some(second)
    } else {
        None
    }
}

// Whether c is a disjunction by which the arguments of the two calls that its end equates are equal.
fn ends_with_equality(heap: &Heap, c: Ref, end: Ref) -> bool
    requires within { IsIn heap.now.objects c }
    requires end_within { IsIn heap.now.objects end }
    ensures { result ≡ object_ends_with_equality (object_at heap.now.objects c) (object_at heap.now.objects end) }
{
    let Some((a, b)) = heap.equal_parts(Some(end)) else {
        return false;
    };
    match arguments_of_one(heap, a, b) {
        Some((firsts, seconds)) => is_unless_equal(heap, c, firsts, seconds, end),
        None => false,
    }
}

// Whether c is: not a1 = b1 or .. or not an = bn or end, for the members of two lists.
fn is_unless_equal(heap: &Heap, c: Ref, firsts: Ref, seconds: Ref, end: Ref) -> bool
    requires within { IsIn heap.now.objects c }
    requires firsts_within { IsIn heap.now.objects firsts }
    requires seconds_within { IsIn heap.now.objects seconds }
    requires end_within { IsIn heap.now.objects end }
    ensures { result ≡ same_object (object_at heap.now.objects c) (unless_equal_object (object_at heap.now.objects firsts) (object_at heap.now.objects seconds) (object_at heap.now.objects end)) }
{
    let mut rest = c;
    let mut firsts = firsts;
    let mut seconds = seconds;
    while let Some(((a, more_firsts), (b, more_seconds))) = members(heap, firsts, seconds) {
        let Some((first, others)) = heap.members_after(rest, Word::Por) else {
            return false;
        };
        if !is_inequality(heap, first, a, b) {
            return false;
        }
        rest = others;
        firsts = more_firsts;
        seconds = more_seconds;
    }
    heap.same(rest, end)
}
