//! The first bad step of a proof and the condition that it fails, and the first bad part of a term and of a formula.
ghost use Rattle.std.specs.Prelude.{◌≡◌, [], ◌∷◌, All, IfOk};
ghost use Rattle.mw_heap.specs.Objects.{IsIn};

use mw_bad_steps::{BadStep, first_bad_step};
use mw_explain::{Wrong, bad_formula, bad_term, wrong_step};
use mw_forms::{boxed, read, read_three, read_two};
use mw_heap::{Heap, Memory, Profile, Ref};
use mw_rules::Known;
use mw_term::{Arity, Marks, mark_terms};
use std::alloc::Global;
use std::test::Fail;

// CAR with one argument, CONS with two.
fn arities(alloc: Global) -> Result<Arity, Memory> {
    let mut arity = Arity::new(alloc);
    arity.add(b"CAR", 1)?;
    arity.add(b"CONS", 2)?;
    Ok(arity)
}

// Whether the first of two objects, as a term, has the second as its first bad part.
fn shows_in_term(heap: &mut Heap, arity: &Arity, objects: &[u8]) -> Result<bool, Memory> {
    let (x, part) = read_two(heap, objects)?;
    let marks = mark_terms(heap.alloc(), heap, arity, heap.mark())?;
    Ok(bad_term(heap, arity, &marks, x) == Some(part))
}

// The same of a formula.
fn shows_in_formula(heap: &mut Heap, arity: &Arity, objects: &[u8]) -> Result<bool, Memory> {
    let (x, part) = read_two(heap, objects)?;
    let marks = mark_terms(heap.alloc(), heap, arity, heap.mark())?;
    Ok(bad_formula(heap, arity, &marks, x) == Some(part))
}

// In a lambda's body, in the last actual, a quote of two objects, a call by an unknown name, and no part of a term.
fn parts_of_terms(heap: &mut Heap, arity: &Arity) -> Result<[bool; 5], Memory> {
    Ok([
        shows_in_term(heap, arity, b"(((LAMBDA (X) (CAR 7)) 8) 7)")?,
        shows_in_term(heap, arity, b"((CONS X (CAR X Y)) (CAR X Y))")?,
        shows_in_term(heap, arity, b"((CAR (QUOTE A B)) (QUOTE A B))")?,
        shows_in_term(heap, arity, b"((CAR (FOO 7)) (FOO 7))")?,
        shows_in_term(heap, arity, b"((CAR X) X)")?,
    ])
}

// The first of two terms, one below a negation, a symbol, a formula by an unknown word, and no part of a formula.
fn parts_of_formulas(heap: &mut Heap, arity: &Arity) -> Result<[bool; 5], Memory> {
    Ok([
        shows_in_formula(
            heap,
            arity,
            b"((POR* (PEQUAL* X (CONS Y (FOO X))) (PEQUAL* (BAR X) Y)) (FOO X))",
        )?,
        shows_in_formula(heap, arity, b"((PNOT* (PEQUAL* (CAR X X) Y)) (CAR X X))")?,
        shows_in_formula(heap, arity, b"((PEQUAL* T NIL) T)")?,
        shows_in_formula(heap, arity, b"(#1=(PAND* (PEQUAL* X Y) (PEQUAL* 1 2)) #1#)")?,
        shows_in_formula(heap, arity, b"((PEQUAL* X Y) X)")?,
    ])
}

// One formula.
fn known_of(alloc: Global, x: Ref) -> Result<Known, Memory>
    ensures { IfOk result (λ k. k ≡ x ∷ []) }
{
    let mut known = Known::new(alloc);
    known.add(x)?;
    Ok(known)
}

// The first bad step of a proof from these axioms, where no function is called.
fn found_from(heap: &mut Heap, proof: Ref, axioms: &Known) -> Result<Option<BadStep>, Memory>
    requires proof { IsIn heap.old.objects proof }
    requires axioms { All (IsIn heap.old.objects) axioms.now }
{
    let alloc = heap.alloc();
    first_bad_step(
        heap,
        proof,
        axioms,
        &Known::new(alloc),
        &Arity::new(alloc),
        Profile::One,
        &mut Marks::new(alloc),
    )
}

// Whether the first bad step of the first of three objects, as a proof, is the third at this place. The second is the only axiom.
fn is_found(heap: &mut Heap, objects: &[u8], place: &[u64]) -> Result<bool, Memory> {
    let (proof, given, step) = read_three(heap, objects)?;
    let axioms = known_of(heap.alloc(), given)?;
    match found_from(heap, proof, &axioms)? {
        None => Ok(false),
        Some(found) => Ok(found.place.as_slice() == place && found.step == step),
    }
}

// A step three below the proof, though a later one is bad too; the second subproof; the whole; and no step of a proof.
fn steps_found(heap: &mut Heap) -> Result<[bool; 4], Memory> {
    Ok([
        is_found(
            heap,
            b"((CUT (POR* #2=(PEQUAL* X X) #3=(PEQUAL* A B)) ((EXPANSION (POR* #3# #2#) ((CONTRACTION #2# (#4=(EXPANSION (POR* #2# #3#) ((AXIOM #2#)))))))
            (PROPOSITIONAL-SCHEMA (POR* #3# (PNOT* #3#))))) #2# #4#)",
            &[1, 1, 1],
        )?,
        is_found(
            heap,
            b"((CUT (POR* #2=(PEQUAL* X X) #2#) ((EXPANSION (POR* #2# #2#) ((AXIOM #2#))) #3=(AXIOM (PEQUAL* Y Y)))) #2# #3#)",
            &[2],
        )?,
        is_found(heap, b"(#1=(AXIOM #2=(PEQUAL* X X) NOTHING) #2# #1#)", &[])?,
        is_found(heap, b"(#1=(AXIOM #2=(PEQUAL* X X)) #2# #1#)", &[])?,
    ])
}

// The first condition that an object fails as a step.
fn wrong_in(heap: &mut Heap, arity: &Arity, object: &[u8]) -> Result<Wrong, Memory> {
    let step = read(heap, object)?;
    let marks = mark_terms(heap.alloc(), heap, arity, heap.mark())?;
    Ok(wrong_step(heap, arity, &marks, step))
}

// Whether the first of two objects, as a step, has a conclusion that is no formula for the second.
fn is_wrong_for(heap: &mut Heap, arity: &Arity, objects: &[u8]) -> Result<bool, Memory> {
    let (step, part) = read_two(heap, objects)?;
    let marks = mark_terms(heap.alloc(), heap, arity, heap.mark())?;
    Ok(wrong_step(heap, arity, &marks, step) == Wrong::Formula(part))
}

// Steps that fail one condition each.
fn conditions(heap: &mut Heap, arity: &Arity) -> Result<[Wrong; 7], Memory> {
    Ok([
        wrong_in(heap, arity, b"AXIOM ")?,
        wrong_in(heap, arity, b"(AXIOMS (PEQUAL* X X))")?,
        wrong_in(heap, arity, b"(AXIOM (PEQUAL* X X) NOTHING)")?,
        wrong_in(heap, arity, b"(AXIOM (PEQUAL* X X) () BECAUSE)")?,
        wrong_in(
            heap,
            arity,
            b"(CUT (POR* (PEQUAL* X X) (PEQUAL* X X)) ((AXIOM (PEQUAL* X X))))",
        )?,
        wrong_in(heap, arity, b"(INDUCTION (PEQUAL* X X) () ())")?,
        wrong_in(heap, arity, b"(AXIOM (PEQUAL* X Y))")?,
    ])
}

#[test]
fn first_condition_that_fails_is_told(rt: HostRuntime) -> Result<(), Fail> {
    let mut heap = boxed(rt.alloc())?;
    let arity = arities(rt.alloc())?;
    let expected = [
        Wrong::Shape,
        Wrong::Method,
        Wrong::Subproofs,
        Wrong::Extras,
        Wrong::Premises(2),
        Wrong::Induction,
        Wrong::Rule,
    ];
    assert_eq!(rt; conditions(&mut heap, &arity)?, expected);
    assert!(rt;
        is_wrong_for(
            &mut heap,
            &arity,
            b"((AXIOM (POR* (PEQUAL* X X) (PEQUAL* X 7))) 7)"
        )?
    );
    Ok(())
}

#[test]
fn first_bad_part_is_found(rt: HostRuntime) -> Result<(), Fail> {
    let mut heap = boxed(rt.alloc())?;
    let arity = arities(rt.alloc())?;
    let expected = [true, true, true, true, false];
    assert_eq!(rt; parts_of_terms(&mut heap, &arity)?, expected);
    assert_eq!(rt; parts_of_formulas(&mut heap, &arity)?, expected);
    Ok(())
}

#[test]
fn first_bad_step_is_found(rt: HostRuntime) -> Result<(), Fail> {
    let mut heap = boxed(rt.alloc())?;
    assert_eq!(rt; steps_found(&mut heap)?, [true, true, true, false]);
    Ok(())
}
