//! The values of the primitive functions.
ghost use Rattle.std.specs.Prelude.{◌≡◌, ◌<◌, ◌≤◌, ◌+◌, [], ◌∷◌, length, map, All};
ghost use Rattle.mw_heap.specs.Objects.{object_at, IsIn, Grows};
ghost use Rattle.mw_base.specs.Answers.{Answers, AnswersReserved, IsAnswered, arity, value_of, overflows};
ghost use Rattle.mw_base.specs.Truths.{AreTruths};

use crate::answers::{natural, pair};
use crate::values::{is_before, is_natural, is_symbol};
use crate::{Applied, Truths};
use mw_heap::{Heap, Primitive, Ref};

/// The value of a primitive function, or of IF, at as many arguments as it takes. It makes one object at most, and so it asks for no
/// memory where the heap has room for one.
pub fn apply(heap: &mut Heap, p: Primitive, args: &[Ref], truths: &Truths) -> Applied
    requires count { length args.now ≡ arity p }
    requires within { All (IsIn heap.old.objects) args.now }
    requires truths { AreTruths heap.old.objects truths.now }
    ensures grows { Grows heap.old.objects heap.new.objects }
    ensures answer { Answers heap.new.objects (overflows p (map (object_at heap.old.objects) args.now)) (value_of p (map (object_at heap.old.objects) args.now)) result }
    ensures room { 0 < heap.old.spare → IsAnswered result }
    ensures spare { heap.old.spare ≤ heap.new.spare + 1 }
{
    match args {
        [a] => Applied::Value(apply_to_one(heap, p, *a, truths)),
        [a, b] => apply_to_two(heap, p, *a, *b, truths),
        [a, b, c] => Applied::Value(if heap.is_nil(Some(*a)) { *c } else { *b }),
        _ => unreachable!(),
    }
}

/// The same where the heap has room for one object more, and T and NIL are at hand: no memory is asked for. There is no value exactly
/// where it would be a sum or a product of 2^128 or more.
pub fn apply_reserved(heap: &mut Heap, p: Primitive, args: &[Ref], t: Ref, nil: Ref) -> Option<Ref>
    requires count { length args.now ≡ arity p }
    requires within { All (IsIn heap.old.objects) args.now }
    requires room { 0 < heap.old.spare }
    requires truths { AreTruths heap.old.objects (record { t = t; nil = nil }) }
    ensures grows { Grows heap.old.objects heap.new.objects }
    ensures answer { AnswersReserved heap.new.objects (overflows p (map (object_at heap.old.objects) args.now)) (value_of p (map (object_at heap.old.objects) args.now)) result }
    ensures spare { heap.old.spare ≤ heap.new.spare + 1 }
{
    match apply(heap, p, args, &Truths { t, nil }) {
        Applied::Value(value) => Some(value),
        Applied::Overflow => None,
        Applied::Memory => unreachable!(),
    }
}

fn apply_to_one(heap: &Heap, p: Primitive, a: Ref, truths: &Truths) -> Ref
    requires count { arity p ≡ 1 }
    requires within { IsIn heap.now.objects a }
    requires truths { AreTruths heap.now.objects truths.now }
    ensures within { IsIn heap.now.objects result }
    ensures value { object_at heap.now.objects result ≡ value_of p (object_at heap.now.objects a ∷ []) }
{
    match p {
        Primitive::Consp => truths.of(heap, heap.is_pair(Some(a))),
        Primitive::Car => truths.car_of(heap, a),
        Primitive::Cdr => truths.cdr_of(heap, a),
        Primitive::Symbolp => truths.of(heap, is_symbol(heap, Some(a))),
        Primitive::Natp => truths.of(heap, is_natural(heap, Some(a))),
        _ => unreachable!(),
    }
}

fn apply_to_two(heap: &mut Heap, p: Primitive, a: Ref, b: Ref, truths: &Truths) -> Applied
    requires count { arity p ≡ 2 }
    requires a_in { IsIn heap.old.objects a }
    requires b_in { IsIn heap.old.objects b }
    requires truths { AreTruths heap.old.objects truths.now }
    ensures grows { Grows heap.old.objects heap.new.objects }
    ensures answer { Answers heap.new.objects (overflows p (object_at heap.old.objects a ∷ object_at heap.old.objects b ∷ [])) (value_of p (object_at heap.old.objects a ∷ object_at heap.old.objects b ∷ [])) result }
    ensures room { 0 < heap.old.spare → IsAnswered result }
    ensures spare { heap.old.spare ≤ heap.new.spare + 1 }
{
    match p {
        Primitive::Equal => Applied::Value(truths.of(heap, heap.same(a, b))),
        Primitive::Cons => pair(heap, a, b),
        Primitive::SymbolLess => {
            let holds = is_before(heap, Some(a), Some(b));
            Applied::Value(truths.of(heap, holds))
        }
        Primitive::Less => {
            let holds = heap.number(Some(a)) < heap.number(Some(b));
            Applied::Value(truths.of(heap, holds))
        }
        Primitive::Plus => {
            let sum = heap.number(Some(a)).checked_add(heap.number(Some(b)));
            natural(heap, sum)
        }
        Primitive::Minus => {
            let difference = heap.number(Some(a)).saturating_sub(heap.number(Some(b)));
            natural(heap, Some(difference))
        }
        Primitive::Times => {
            let product = heap.number(Some(a)).checked_mul(heap.number(Some(b)));
            natural(heap, product)
        }
        _ => unreachable!(),
    }
}
