//! Formulas that are decided: tautologies by a proof, others by the first choice against them, and those of too many equations.
ghost use Rattle.mw_heap.specs.Objects.{IsIn};

use mw_forms::{boxed, is_in, read, read_two};
use mw_heap::{Heap, Memory, Profile, Ref};
use mw_proof::{Judged, judge};
use mw_rules::Known;
use mw_taut::{Decision, decide};
use mw_term::{Arity, Marks, is_formula, mark_terms};
use std::alloc::{AllocError, Global};
use std::test::Fail;

// What is decided of a formula in which no function is called.
fn decided(heap: &mut Heap, f: Ref) -> Result<Decision, Memory>
    requires { IsIn heap.old.objects f }
{
    let arity = Arity::new(heap.alloc());
    let marks = mark_terms(heap.alloc(), heap, &arity, heap.mark())?;
    if !is_formula(&marks, f) {
        return Err(Memory);
    }
    Ok(decide(heap, f, &arity))
}

// What a proof from nothing is judged.
fn judged(heap: &mut Heap, proof: Ref) -> Judged {
    if !is_in(heap, proof) {
        return Judged::Memory;
    }
    let alloc = heap.alloc();
    let none = Known::new(alloc);
    let arity = Arity::new(alloc);
    judge(
        heap,
        proof,
        &none,
        &none,
        &arity,
        Profile::One,
        &mut Marks::new(alloc),
    )
}

// What the proof of a tautology is judged, or what is decided of any other formula.
fn proved(heap: &mut Heap, formula: &[u8]) -> Result<Result<Judged, Decision>, Memory> {
    let f = read(heap, formula)?;
    Ok(match decided(heap, f)? {
        Decision::Proof(proof) => Ok(judged(heap, proof)),
        other => Err(other),
    })
}

// Whether of X = X or not Y = Y the choice is found in which only Y = Y is true, of the four the second.
fn is_second_choice_found(heap: &mut Heap) -> Result<bool, Memory> {
    let (either, expected) = read_two(
        heap,
        b"((POR* (PEQUAL* X X) (PNOT* (PEQUAL* Y Y))) (((PEQUAL* X X)) ((PEQUAL* Y Y) . T)))",
    )?;
    Ok(decided(heap, either)? == Decision::Choice(expected))
}

// The disjunction of the given number of equations 'k = 'k, and the denial of the first one.
fn all_or_not_first(alloc: Global, count: u64) -> Result<String, AllocError> {
    let mut formula = String::from_str(alloc, "(PNOT* (PEQUAL* '0 '0))")?;
    for k in 0..count {
        formula = format!(in alloc; "(POR* (PEQUAL* '{k} '{k}) {formula})")?;
    }
    Ok(formula)
}

// What becomes of that formula.
fn proved_of(heap: &mut Heap, count: u64) -> Result<Result<Judged, Decision>, Memory> {
    let formula = all_or_not_first(heap.alloc(), count)?;
    proved(heap, formula.as_bytes())
}

// Whether each is decided as expected: not (X = X or Y = Y) or (Y = Y or X = X); that choice; twelve equations; and one more.
fn decisions(heap: &mut Heap) -> Result<[bool; 4], Memory> {
    Ok([
        proved(
            heap,
            b"(POR* (PNOT* (POR* (PEQUAL* X X) (PEQUAL* Y Y))) (POR* (PEQUAL* Y Y) (PEQUAL* X X)))",
        )? == Ok(Judged::Good),
        is_second_choice_found(heap)?,
        proved_of(heap, 12)? == Ok(Judged::Good),
        proved_of(heap, 13)? == Err(Decision::Many),
    ])
}

#[test]
fn formulas_of_twelve_equations_are_decided(rt: HostRuntime) -> Result<(), Fail> {
    let mut heap = boxed(rt.alloc())?;
    assert_eq!(rt; decisions(&mut heap)?, [true; 4]);
    Ok(())
}
