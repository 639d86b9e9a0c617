//! The theory's checker as a judge.
ghost use Rattle.mw_kernel.specs.Proofs.{judged_for};

use crate::judging::refusal_of_proof;
use mw_heap::{Heap, Memory, Ref, Refusal};
use mw_machine::Machine;
use mw_term::Marks;
use mw_theory::{Judge, Theory};

/// What runs the theory's checker, where that is not the built-in one, and with how many units it does for each proof.
#[derive(Drop)]
pub struct Checker {
    pub(crate) machine: Machine,
    pub steps: u64,
}

impl Judge for Checker {
    ghost ready = { λ c os. Unit {0} };

    ghost limit = { λ c. c.steps };

    ghost judges = { λ c os. judged_for c.steps };

    fn refusal(
        &mut self,
        heap: &mut Heap,
        formula: Ref,
        proof: Ref,
        theory: &Theory,
        marks: &mut Marks,
    ) -> Result<Option<Refusal>, Memory> {
        refusal_of_proof(
            heap,
            formula,
            proof,
            theory,
            marks,
            &mut self.machine,
            self.steps,
        )
    }
}
