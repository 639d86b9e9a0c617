//! The axioms of both profiles, counted, kept, and one looked at.
use crate::shared::holds;
use mw_axioms::{Axioms, build};
use mw_forms::read;
use mw_heap::{Heap, Memory, Profile, Ref};

// Whether the axioms of both profiles are the expected ones, of which this formula is the first.
fn are_as_expected(one: &Axioms, two: &Axioms, formula: Ref) -> bool {
    let one = one.as_slice();
    let two = two.as_slice();
    [
        one.len() == 53,
        two.len() == 60,
        two.starts_with(one),
        one.starts_with(&[formula]),
    ] == [true; 4]
}

// Whether the profiles have 53 and 60 axioms, those of the first begin those of the second, and the first axiom is X = X.
fn builds_both(heap: &mut Heap) -> Result<bool, Memory> {
    let formula = read(heap, b"(PEQUAL* X X)")?;
    let one = build(heap, Profile::One)?;
    let two = build(heap, Profile::Two)?;
    Ok(are_as_expected(&one, &two, formula))
}

#[test]
fn profiles_have_their_axioms(rt: HostRuntime) {
    assert!(rt; holds(rt.alloc(), builds_both));
}

fn are_kept(axioms: &Axioms, references: &[Ref]) -> bool {
    axioms.as_slice() == references
}

// Whether axioms keep the references that they are made from.
fn keeps_references(heap: &mut Heap) -> Result<bool, Memory> {
    let x = heap.symbol(b"X")?;
    let references = [x, x];
    let axioms = Axioms::from_vec(references.to_vec(heap.alloc())?);
    Ok(are_kept(&axioms, &references))
}

#[test]
fn axioms_keep_their_references(rt: HostRuntime) {
    assert!(rt; holds(rt.alloc(), keeps_references));
}
