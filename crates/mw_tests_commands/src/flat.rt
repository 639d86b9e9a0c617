//! Proofs as steps.
use mw_flat::flatten;
use mw_forms::{boxed, read};
use mw_heap::{Heap, Memory};
use std::alloc::Global;

// A proof of three steps.
const PROOF: &[u8] = b"(contraction #1=(pequal* x x) ((expansion (por* #1# #1#) ((theorem #1#)))))";

const STEPS: &[u8] = b"(STEP 1 THEOREM (PEQUAL* X X) NIL NIL)
(STEP 2 EXPANSION (POR* (PEQUAL* X X) (PEQUAL* X X)) (1) NIL)
(STEP 3 CONTRACTION (PEQUAL* X X) (2) NIL)
";

// A proof that has one subproof twice, and extras.
const SHARED: &[u8] = b"(cut (por* b c) (#1=(axiom (por* a b)) #1#) 7)";

const SHARED_STEPS: &[u8] = b"(STEP 1 AXIOM (POR* A B) NIL NIL)
(STEP 2 CUT (POR* B C) (1 1) 7)
";

// Whether the proof in this text is just these steps, the last of which has this number.
fn is_written(heap: &mut Heap, proof: &[u8], steps: &[u8], number: u64) -> Result<bool, Memory> {
    let proof = read(heap, proof)?;
    let mut written = Vec::new(heap.alloc());
    let numbers = flatten(heap, &[proof], &mut written)?;
    Ok(written.as_slice() == steps && numbers.as_slice() == [number].as_slice())
}

// The same on a new heap.
fn writes(alloc: Global, proof: &[u8], steps: &[u8], number: u64) -> Result<bool, Memory> {
    let mut heap = boxed(alloc)?;
    is_written(&mut heap, proof, steps, number)
}

#[test]
fn a_proof_comes_after_its_subproofs(rt: HostRuntime) {
    assert!(rt; writes(rt.alloc(), PROOF, STEPS, 3) == Ok(true));
}

#[test]
fn a_shared_subproof_is_one_step(rt: HostRuntime) {
    assert!(rt; writes(rt.alloc(), SHARED, SHARED_STEPS, 2) == Ok(true));
}
