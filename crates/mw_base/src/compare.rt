//! Whether an object is the value of a primitive function, told without making the value.
ghost use Rattle.std.specs.Prelude.{◌≡◌, ℕ, ◌<◌, ◌^◌, [], ◌∷◌};
ghost use Rattle.std.specs.Option.{SomeIff};
ghost use Rattle.mw_model.specs.Terms.Object.{Natural, Pair, same_object, truth_of, car, cdr};
ghost use Rattle.mw_model.specs.Values.Primitive.{choose};
ghost use Rattle.mw_heap.specs.Parts.{part_at, IsPart};
ghost use Rattle.mw_base.specs.Answers.{value_of};

use crate::values::{is_before, is_natural, is_symbol};
use mw_heap::{Heap, Primitive, Ref, View, Word};

// Whether v is T or NIL, as the test says.

fn is_truth(heap: &Heap, holds: bool, v: Option<Ref>) -> bool
    requires { IsPart heap.now.objects v }
    ensures { result ≡ same_object (truth_of holds) (part_at heap.now.objects v) }
{
    if holds {
        heap.is_word(v, Word::T)
    } else {
        heap.is_nil(v)
    }
}

// Whether v is the number n, where there is none if it is 2^128 or more.
fn is_number(heap: &Heap, n: Option<u128>, v: Option<Ref>) -> bool
    requires { IsPart heap.now.objects v }
    ensures { (m : ℕ) → SomeIff n (m < 2 ^ 128) m → result ≡ same_object (Natural m) (part_at heap.now.objects v) }
{
    let Some(v) = v else {
        return false;
    };
    match heap.view(v) {
        View::Nat(m) => n == Some(m),
        _ => false,
    }
}

// Whether v is the pair of the two.
fn is_pair_of(heap: &Heap, first: Option<Ref>, second: Option<Ref>, v: Option<Ref>) -> bool
    requires first_within { IsPart heap.now.objects first }
    requires second_within { IsPart heap.now.objects second }
    requires v_within { IsPart heap.now.objects v }
    ensures { result ≡ same_object (Pair (part_at heap.now.objects first) (part_at heap.now.objects second)) (part_at heap.now.objects v) }
{
    let Some(v) = v else {
        return false;
    };
    match heap.view(v) {
        View::Pair(a, b) => heap.is_same(first, Some(a)) && heap.is_same(second, Some(b)),
        _ => false,
    }
}

// The first part, or `None` if it is not a pair.
fn first_part(heap: &Heap, x: Option<Ref>) -> Option<Ref>
    requires { IsPart heap.now.objects x }
    ensures within { IsPart heap.now.objects result }
    ensures value { part_at heap.now.objects result ≡ car (part_at heap.now.objects x) }
{
    heap.car(x?)
}

// The second part, or `None` if it is not a pair.
fn second_part(heap: &Heap, x: Option<Ref>) -> Option<Ref>
    requires { IsPart heap.now.objects x }
    ensures within { IsPart heap.now.objects result }
    ensures value { part_at heap.now.objects result ≡ cdr (part_at heap.now.objects x) }
{
    heap.cdr(x?)
}

// Whether v is what IF chooses.
fn is_choice(heap: &Heap, a: Option<Ref>, b: Option<Ref>, c: Option<Ref>, v: Option<Ref>) -> bool
    requires a_within { IsPart heap.now.objects a }
    requires b_within { IsPart heap.now.objects b }
    requires c_within { IsPart heap.now.objects c }
    requires v_within { IsPart heap.now.objects v }
    ensures { result ≡ same_object (choose (part_at heap.now.objects a) (part_at heap.now.objects b) (part_at heap.now.objects c)) (part_at heap.now.objects v) }
{
    if heap.is_nil(a) {
        heap.is_same(c, v)
    } else {
        heap.is_same(b, v)
    }
}

// Whether v is the value of the primitive function, or of IF, at these arguments. Nothing counts as NIL.
pub(crate) fn is_value(
    heap: &Heap,
    p: Primitive,
    a: Option<Ref>,
    b: Option<Ref>,
    c: Option<Ref>,
    v: Option<Ref>,
) -> bool
    requires a_within { IsPart heap.now.objects a }
    requires b_within { IsPart heap.now.objects b }
    requires c_within { IsPart heap.now.objects c }
    requires v_within { IsPart heap.now.objects v }
    ensures { result ≡ same_object (value_of p (part_at heap.now.objects a ∷ part_at heap.now.objects b ∷ part_at heap.now.objects c ∷ [])) (part_at heap.now.objects v) }
{
    match p {
        Primitive::If => is_choice(heap, a, b, c, v),
        Primitive::Equal => is_truth(heap, heap.is_same(a, b), v),
        Primitive::Consp => is_truth(heap, heap.is_pair(a), v),
        Primitive::Cons => is_pair_of(heap, a, b, v),
        Primitive::Car => heap.is_same(first_part(heap, a), v),
        Primitive::Cdr => heap.is_same(second_part(heap, a), v),
        Primitive::Symbolp => is_truth(heap, is_symbol(heap, a), v),
        Primitive::SymbolLess => is_truth(heap, is_before(heap, a, b), v),
        Primitive::Natp => is_truth(heap, is_natural(heap, a), v),
        Primitive::Less => is_truth(heap, heap.number(a) < heap.number(b), v),
        Primitive::Plus => is_number(heap, heap.number(a).checked_add(heap.number(b)), v),
        Primitive::Minus => {
            let difference = heap.number(a).saturating_sub(heap.number(b));
            is_number(heap, Some(difference), v)
        }
        Primitive::Times => is_number(heap, heap.number(a).checked_mul(heap.number(b)), v),
    }
}
