//! A proof that labels make 2^60 parts of sixty.
use std::alloc::{AllocError, Global};

// The proof of which each part cites the one before it twice, down to an axiom.
fn doubled_proof(alloc: Global) -> Result<String, AllocError> {
    let mut proof = String::from_str(alloc, "(axiom (pequal* x x))")?;
    for k in 1..61 {
        proof = format!(in alloc;
            "(contraction (pequal* x x) ((cut (por* (pequal* x x) (pequal* x x)) \
            ((expansion (por* (pequal* y y) (pequal* x x)) (#{k}={proof})) \
            (expansion (por* (pnot* (pequal* y y)) (pequal* x x)) (#{k}#))))))"
        )?;
    }
    Ok(proof)
}

/// The book that shows a variable equal to itself by that proof.
pub fn book_of_the_proof(alloc: Global) -> Result<String, AllocError> {
    let proof = doubled_proof(alloc)?;
    format!(in alloc; "(verify q (pequal* x x) {proof})")
}
