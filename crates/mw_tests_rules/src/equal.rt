//! Each rule on equal objects once where it holds and once where it does not.
ghost use Rattle.mw_heap.specs.Objects.{IsIn};

use crate::marked::marks_of;
use mw_equal::{beta, functional_equality, instantiation, reduced};
use mw_forms::{boxed, read, read_four, read_three};
use mw_heap::{Heap, Memory, Ref};
use mw_term::is_formula;
use std::test::Fail;

// not X = Y or (F X) = (F Y), and with the last arguments turned; (ONE) = (ONE), and (ONE) = (TWO).
fn equalities(heap: &mut Heap) -> Result<[bool; 4], Memory> {
    let (equal, turned, same, other) = read_four(
        heap,
        b"((POR* (PNOT* (PEQUAL* X Y)) (PEQUAL* (F X) (F Y))) \
           (POR* (PNOT* (PEQUAL* X Y)) (PEQUAL* (F Y) (F X))) \
           (PEQUAL* (ONE) (ONE)) \
           (PEQUAL* (ONE) (TWO)))",
    )?;
    Ok([
        functional_equality(heap, equal),
        functional_equality(heap, turned),
        functional_equality(heap, same),
        functional_equality(heap, other),
    ])
}

// Equal arguments make equal calls, and calls without arguments of one function are equal.
fn equal_calls_follow(heap: &mut Heap) -> Result<bool, Memory> {
    Ok(equalities(heap)? == [true, false, true, false])
}

// Whether the rule gives the formula of a text.
fn reduces(heap: &mut Heap, formula: &[u8]) -> Result<bool, Memory> {
    let c = read(heap, formula)?;
    beta(heap, c)
}

// Whether ((LAMBDA (X) X) Y) comes to Y.
fn comes_to_the_actual(heap: &mut Heap) -> Result<bool, Memory> {
    let (function, arguments, y) = read_three(heap, b"((LAMBDA (X) X) (Y) Y)")?;
    Ok(reduced(heap, function, arguments)? == y)
}

// Actuals stand for formals: ((LAMBDA (X) X) Y) = Y, but not = X.
fn actuals_stand_for_formals(heap: &mut Heap) -> Result<bool, Memory> {
    Ok(
        reduces(heap, b"(PEQUAL* ((LAMBDA (X) X) Y) Y)")?
            && !reduces(heap, b"(PEQUAL* ((LAMBDA (X) X) Y) X)")?
            && comes_to_the_actual(heap)?,
    )
}

// Whether c is the formula a under the substitution s.
fn is_instance(heap: &mut Heap, c: Ref, a: Ref, s: Ref) -> Result<bool, Memory>
    requires conclusion { IsIn heap.old.objects c }
    requires premise { IsIn heap.old.objects a }
    requires substitution { IsIn heap.old.objects s }
{
    let marks = marks_of(heap)?;
    if !is_formula(&marks, a) {
        return Err(Memory);
    }
    instantiation(heap, c, a, s, &marks)
}

// Whether the first of three objects is the second, a formula, under the third, a substitution.
fn is_first_an_instance(heap: &mut Heap, objects: &[u8]) -> Result<bool, Memory> {
    let (c, a, s) = read_three(heap, objects)?;
    is_instance(heap, c, a, s)
}

// Each occurrence is instantiated: X = X with Y for X is Y = Y, and not Y = X.
fn each_occurrence_is_instantiated(heap: &mut Heap) -> Result<bool, Memory> {
    Ok(
        is_first_an_instance(heap, b"((PEQUAL* Y Y) (PEQUAL* X X) ((X . Y)))")?
            && !is_first_an_instance(heap, b"((PEQUAL* Y X) (PEQUAL* X X) ((X . Y)))")?,
    )
}

fn rules(heap: &mut Heap) -> Result<[bool; 3], Memory> {
    Ok([
        equal_calls_follow(heap)?,
        actuals_stand_for_formals(heap)?,
        each_occurrence_is_instantiated(heap)?,
    ])
}

#[test]
fn rules_of_equality_give_what_follows(rt: HostRuntime) -> Result<(), Fail> {
    let mut heap = boxed(rt.alloc())?;
    assert_eq!(rt; rules(&mut heap)?, [true; 3]);
    Ok(())
}
