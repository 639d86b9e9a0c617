//! The order of ordinals, and what an ordinal is, over objects of a heap.
ghost use Rattle.std.specs.Prelude.{◌≡◌, true, false, ◌⊎◌, MatchOption};
ghost use Rattle.mw_model.specs.Terms.Object.{Natural, same_object, car};
ghost use Rattle.mw_model.specs.Values.Primitive.{number, is_pair};
ghost use Rattle.mw_model.specs.Laws.Ordinal.{is_ordinal, is_below, leads_below};
ghost use Rattle.mw_heap.specs.Objects.{object_at, IsIn};
ghost use Rattle.mw_heap.specs.Parts.{part_at, IsPart};
ghost use Rattle.mw_ordinal.specs.Turns.{Turns};
ghost use Rattle.mw_ordinal.specs.Leading.{is_positive, may_lead};

use crate::turn::Turn;
use mw_heap::{Heap, Ref, View};

/// Whether x is below y: an object that is not a pair is below each pair; pairs compare by their exponents where these differ, else by their
/// coefficients where these differ, else by their rests; others compare as numbers.
pub fn ordinal_less(heap: &Heap, x: Ref, y: Ref) -> bool
    requires x_in { IsIn heap.now.objects x }
    requires y_in { IsIn heap.now.objects y }
    ensures { result ≡ is_below (object_at heap.now.objects x) (object_at heap.now.objects y) }
{
    let mut x = x;
    let mut y = y;
    loop {
        match compare_once(heap, x, y) {
            Turn::Decided(below) => return below,
            Turn::Next(a, b) => {
                x = a;
                y = b;
            }
        }
    }
}

/// Whether x is an ordinal: a natural, or a pair ((e . c) . r) of ordinals e and r and a natural c, where neither e nor c is 0 and
/// the leading exponent of r, if it has one, is below e. It takes stack in proportion to how deep exponents stand in exponents.
pub fn is_ordinal(heap: &Heap, x: Ref) -> bool
    requires { IsIn heap.now.objects x }
    ensures { result ≡ is_ordinal (object_at heap.now.objects x) }
{
    let mut rest = x;
    while let View::Pair(term, others) = heap.view(rest) {
        let View::Pair(e, c) = heap.view(term) else {
            return false;
        };
        if !is_ordinal(heap, e) {
            return false;
        }
        if !may_lead(heap, e, c, others) {
            return false;
        }
        rest = others;
    }
    matches!(heap.view(rest), View::Nat(_))
}

// Whether neither the exponent nor the coefficient is 0, the coefficient is a natural, and the exponent is above those of the rest.
fn may_lead(heap: &Heap, e: Ref, c: Ref, rest: Ref) -> bool
    requires e_in { IsIn heap.now.objects e }
    requires c_in { IsIn heap.now.objects c }
    requires rest_in { IsIn heap.now.objects rest }
    ensures { result ≡ may_lead (object_at heap.now.objects e) (object_at heap.now.objects c) (object_at heap.now.objects rest) }
{
    !is_zero(heap, e) && is_positive(heap, c) && leads_below(heap, rest, e)
}

// Whether it is 0.
fn is_zero(heap: &Heap, x: Ref) -> bool
    requires { IsIn heap.now.objects x }
    ensures { result ≡ same_object (object_at heap.now.objects x) (Natural 0) }
{
    match heap.view(x) {
        View::Nat(n) => n == 0,
        _ => false,
    }
}

// Whether it is a natural other than 0.
fn is_positive(heap: &Heap, x: Ref) -> bool
    requires { IsIn heap.now.objects x }
    ensures { result ≡ is_positive (object_at heap.now.objects x) }
{
    match heap.view(x) {
        View::Nat(n) => 0 < n,
        _ => false,
    }
}

// Whether the leading exponent of x, if it has one, is below e.
fn leads_below(heap: &Heap, x: Ref, e: Ref) -> bool
    requires x_in { IsIn heap.now.objects x }
    requires e_in { IsIn heap.now.objects e }
    ensures { result ≡ leads_below (object_at heap.now.objects x) (object_at heap.now.objects e) }
{
    let View::Pair(q, _) = heap.view(x) else {
        return true;
    };
    match heap.car(q) {
        Some(f) => ordinal_less(heap, f, e),
        None => is_below_unless_pairs(heap, None, Some(e)),
    }
}

// Compares two objects of which one is not a pair, or the leading terms of two pairs. If these are equal, the rests are left to compare.
fn compare_once(heap: &Heap, x: Ref, y: Ref) -> Turn
    requires x_in { IsIn heap.now.objects x }
    requires y_in { IsIn heap.now.objects y }
    ensures { Turns heap.now.objects x (object_at heap.now.objects x) (object_at heap.now.objects y) result }
{
    let View::Pair(p, r) = heap.view(x) else {
        return Turn::Decided(is_below_unless_pairs(heap, Some(x), Some(y)));
    };
    let View::Pair(q, s) = heap.view(y) else {
        return Turn::Decided(false);
    };
    if !heap.is_same(heap.car(p), heap.car(q)) {
        return compare_exponents(heap, p, q);
    }
    if !heap.is_same(heap.cdr(p), heap.cdr(q)) {
        return Turn::Decided(heap.number(heap.cdr(p)) < heap.number(heap.cdr(q)));
    }
    Turn::Next(r, s)
}

// Compares the exponents of two terms.
fn compare_exponents(heap: &Heap, p: Ref, q: Ref) -> Turn
    requires p_in { IsIn heap.now.objects p }
    requires q_in { IsIn heap.now.objects q }
    ensures { Turns heap.now.objects p (car (object_at heap.now.objects p)) (car (object_at heap.now.objects q)) result }
{
    let Some(e) = heap.car(p) else {
        return Turn::Decided(is_below_unless_pairs(heap, None, heap.car(q)));
    };
    match heap.car(q) {
        Some(f) => Turn::Next(e, f),
        None => Turn::Decided(is_below_unless_pairs(heap, Some(e), None)),
    }
}

// Whether x is below y, where not both are pairs.
fn is_below_unless_pairs(heap: &Heap, x: Option<Ref>, y: Option<Ref>) -> bool
    requires x_within { IsPart heap.now.objects x }
    requires y_within { IsPart heap.now.objects y }
    requires no_pair { (is_pair (part_at heap.now.objects x) ≡ false) ⊎ (is_pair (part_at heap.now.objects y) ≡ false) }
    ensures { result ≡ is_below (part_at heap.now.objects x) (part_at heap.now.objects y) }
{
    match (number_of_no_pair(heap, x), number_of_no_pair(heap, y)) {
        (None, _) => false,
        (Some(_), None) => true,
        (Some(m), Some(n)) => m < n,
    }
}

// The number of an object that is not a pair; None if it is a pair.
fn number_of_no_pair(heap: &Heap, x: Option<Ref>) -> Option<u128>
    requires { IsPart heap.now.objects x }
    ensures { MatchOption result (is_pair (part_at heap.now.objects x) ≡ true) (λ n. (is_pair (part_at heap.now.objects x) ≡ false) × (number (part_at heap.now.objects x) ≡ n)) }
{
    let Some(x) = x else {
        return Some(0);
    };
    match heap.view(x) {
        View::Nat(n) => Some(n),
        View::Symbol => Some(0),
        View::Pair(_, _) => None,
    }
}
