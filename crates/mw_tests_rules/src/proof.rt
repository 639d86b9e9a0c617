//! Proofs that are judged, and formulas that are known.
ghost use Rattle.std.specs.Prelude.{◌≡◌, ◌<◌, [], ◌∷◌, All, IfOk};
ghost use Rattle.mw_heap.specs.Objects.{IsIn};

use mw_forms::{boxed, read_two};
use mw_heap::{Heap, Memory, Profile, Ref};
use mw_proof::{Judged, Steps, judge, judge_counted};
use mw_rules::Known;
use mw_term::{Arity, Marks};
use std::alloc::{AllocError, Global};
use std::marker::Brand;
use std::sync::ledger::{Blank, Ledger};
use std::test::Fail;

// One formula.
fn known_of(alloc: Global, x: Ref) -> Result<Known, Memory>
    ensures { IfOk result (λ k. k ≡ x ∷ []) }
{
    let mut known = Known::new(alloc);
    known.add(x)?;
    Ok(known)
}

// What a proof from these axioms is judged, where no function is called.
fn judged_from(heap: &mut Heap, proof: Ref, axioms: &Known) -> Judged
    requires proof { IsIn heap.old.objects proof }
    requires axioms { All (IsIn heap.old.objects) axioms.now }
{
    let alloc = heap.alloc();
    judge(
        heap,
        proof,
        axioms,
        &Known::new(alloc),
        &Arity::new(alloc),
        Profile::One,
        &mut Marks::new(alloc),
    )
}

// What the first of two objects is judged as a proof, where the second is the only axiom.
fn first_judged(heap: &mut Heap, objects: &[u8]) -> Result<Judged, Memory> {
    let (proof, given) = read_two(heap, objects)?;
    let axioms = known_of(heap.alloc(), given)?;
    Ok(judged_from(heap, proof, &axioms))
}

// A proof of X = X whose 60 steps each have one subproof twice, and the axiom X = X. As a tree the proof has more than 2 ^ 60 proofs, but 241
// distinct ones.
fn shared_proof(alloc: Global) -> Result<String, AllocError> {
    let mut proof = String::from_str(alloc, "(AXIOM (PEQUAL* X X))")?;
    for k in 0..60 {
        proof = format!(in alloc;
            "(CONTRACTION (PEQUAL* X X) ((CUT (POR* (PEQUAL* X X) (PEQUAL* X X)) (\
            (EXPANSION (POR* (PEQUAL* Y Y) (PEQUAL* X X)) (#{k}={proof})) \
            (EXPANSION (POR* (PNOT* (PEQUAL* Y Y)) (PEQUAL* X X)) (#{k}#))))))"
        )?;
    }
    format!(in alloc; "({proof} (PEQUAL* X X))")
}

// What a proof from these axioms is judged, where its steps are counted.
fn judged_counted<L: Ledger>(heap: &mut Heap, proof: Ref, axioms: &Known, blank: Blank) -> Judged
    requires proof { IsIn heap.old.objects proof }
    requires axioms { All (IsIn heap.old.objects) axioms.now }
    requires name { blank.name ≡ L.name }
    requires parts { blank.parts ≡ L.parts }
    requires some { 0 < blank.parts }
{
    let alloc = heap.alloc();
    judge_counted(
        heap,
        proof,
        axioms,
        &Known::new(alloc),
        &Arity::new(alloc),
        Profile::One,
        &mut Marks::new(alloc),
        &mut Steps::<L>::new(blank),
    )
}

// The same as objects.
fn read_shared(heap: &mut Heap) -> Result<(Ref, Ref), Memory>
    ensures within { IfOk result (λ r. IsIn heap.new.objects r.0 × IsIn heap.new.objects r.1) }
{
    let text = shared_proof(heap.alloc())?;
    read_two(heap, text.as_bytes())
}

// What that proof is judged, where its steps are counted.
fn shared_judged(heap: &mut Heap) -> Result<Judged, Memory> {
    let (proof, given) = read_shared(heap)?;
    let axioms = known_of(heap.alloc(), given)?;
    Ok(judged_counted::<Brand>(heap, proof, &axioms, Blank::new(1)))
}

// The proof by the axiom X = X, the one by the axiom Y = Y, where the former alone is an axiom, and the one with shared subproofs.
fn proofs_judged(heap: &mut Heap) -> Result<[Judged; 3], Memory> {
    Ok([
        first_judged(heap, b"((AXIOM (PEQUAL* X X)) (PEQUAL* X X))")?,
        first_judged(heap, b"((AXIOM (PEQUAL* Y Y)) (PEQUAL* X X))")?,
        shared_judged(heap)?,
    ])
}

// How many objects are known, and whether each of the two is.
fn known_of_two(known: &Known, x: Ref, y: Ref) -> (usize, bool, bool) {
    (known.len(), known.holds(x), known.holds(y))
}

// What is known before two objects are added, the first again at the end; after; and where the oldest alone is kept.
fn known_as_added(known: &mut Known, x: Ref, y: Ref) -> Result<[(usize, bool, bool); 3], Memory> {
    let before = known_of_two(known, x, y);
    known.add(x)?;
    known.add(y)?;
    known.add(x)?;
    let after = known_of_two(known, x, y);
    known.cut(1);
    Ok([before, after, known_of_two(known, x, y)])
}

// The same of nothing and two symbols.
fn known_at_each(heap: &mut Heap) -> Result<[(usize, bool, bool); 3], Memory> {
    let (x, y) = read_two(heap, b"(X Y)")?;
    known_as_added(&mut Known::new(heap.alloc()), x, y)
}

#[test]
fn proofs_are_judged_once_by_what_is_known(rt: HostRuntime) -> Result<(), Fail> {
    let mut heap = boxed(rt.alloc())?;
    assert_eq!(rt;
        proofs_judged(&mut heap)?,
        [Judged::Good, Judged::Bad, Judged::Good]
    );
    let expected = [(0, false, false), (3, true, true), (1, true, false)];
    assert_eq!(rt; known_at_each(&mut heap)?, expected);
    Ok(())
}
