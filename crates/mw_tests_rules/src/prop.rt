//! Each propositional rule once where it holds and once where it does not.
use mw_forms::{boxed, read_three, read_two};
use mw_heap::{Heap, Memory};
use mw_prop::{associativity, contraction, cut, expansion, schema};
use std::test::Fail;

// not F or F, but not: F or F.
fn schema_is_the_excluded_middle(heap: &mut Heap) -> Result<bool, Memory> {
    let (excluded, twice) = read_two(
        heap,
        b"((POR* (PNOT* (PEQUAL* X X)) (PEQUAL* X X)) (POR* (PEQUAL* X X) (PEQUAL* X X)))",
    )?;
    Ok(schema(heap, excluded) && !schema(heap, twice))
}

// F or G from G, but not from F.
fn expansion_adds_on_the_left(heap: &mut Heap) -> Result<bool, Memory> {
    let (c, f, g) = read_three(
        heap,
        b"((POR* (PEQUAL* X X) (PEQUAL* Y Y)) (PEQUAL* X X) (PEQUAL* Y Y))",
    )?;
    Ok(expansion(heap, c, g) && !expansion(heap, c, f))
}

// F from F or F, but not from F or G.
fn contraction_drops_a_repeat(heap: &mut Heap) -> Result<bool, Memory> {
    let (f, twice, other) = read_three(
        heap,
        b"((PEQUAL* X X) (POR* (PEQUAL* X X) (PEQUAL* X X)) (POR* (PEQUAL* X X) (PEQUAL* Y Y)))",
    )?;
    Ok(contraction(heap, f, twice) && !contraction(heap, f, other))
}

// (F or F) or F from F or (F or F), but not the other way.
fn associativity_moves_to_the_left(heap: &mut Heap) -> Result<bool, Memory> {
    let (left, right) = read_two(
        heap,
        b"((POR* (POR* (PEQUAL* X X) (PEQUAL* X X)) (PEQUAL* X X)) \
           (POR* (PEQUAL* X X) (POR* (PEQUAL* X X) (PEQUAL* X X))))",
    )?;
    Ok(associativity(heap, left, right) && !associativity(heap, right, left))
}

// G or F from F or G and not F or F, but not from the two in the other order.
fn cut_drops_what_is_denied(heap: &mut Heap) -> Result<bool, Memory> {
    let (c, a, b) = read_three(
        heap,
        b"((POR* (PEQUAL* Y Y) (PEQUAL* X X)) \
           (POR* (PEQUAL* X X) (PEQUAL* Y Y)) \
           (POR* (PNOT* (PEQUAL* X X)) (PEQUAL* X X)))",
    )?;
    Ok(cut(heap, c, a, b) && !cut(heap, c, b, a))
}

fn rules(heap: &mut Heap) -> Result<[bool; 5], Memory> {
    Ok([
        schema_is_the_excluded_middle(heap)?,
        expansion_adds_on_the_left(heap)?,
        contraction_drops_a_repeat(heap)?,
        associativity_moves_to_the_left(heap)?,
        cut_drops_what_is_denied(heap)?,
    ])
}

#[test]
fn propositional_rules_give_what_follows(rt: HostRuntime) -> Result<(), Fail> {
    let mut heap = boxed(rt.alloc())?;
    assert_eq!(rt; rules(&mut heap)?, [true; 5]);
    Ok(())
}
