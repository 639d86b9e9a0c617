//! The rewriter of derivations.
ghost use Rattle.std.specs.Prelude.{◌≡◌, ◌≤◌, length, IfOk};
ghost use Rattle.mw_heap.specs.Objects.{object_at, IsIn, Grows};
ghost use Rattle.mw_term.specs.Marking.{AreMarks};
ghost use Rattle.mw_rules.specs.Basis.{IsBasisIn};
ghost use Rattle.mw_proof.specs.Judging.{basis_over};
ghost use Rattle.mw_lower.specs.Proofs.{HasEquality};
ghost use Rattle.mw_lower.specs.Turned.{IsTurned};

use crate::parts::parts;
use crate::walk::turn_all;
use indexmap::IndexMap;
use mw_heap::{Heap, Memory, Ref};
use mw_proof::{Rewriter, Rewritten};
use mw_rules::Basis;
use mw_term::{Arity, Marks};

/// Turns derivations to proofs by the twelve methods. What is such a proof already stays.
#[derive(Clone, Copy, Debug)]
pub struct Lower;

impl Rewriter for Lower {
    ghost use Rattle.mw_commands.specs.Commands.Derivation.{Turns};

    ghost turns = { Turns };

    fn rewrite(
        &mut self,
        heap: &mut Heap,
        proof: Ref,
        basis: &Basis,
        marks: &mut Marks,
        arity: &Arity,
    ) -> Rewritten {
        match turned(heap, proof, basis, marks, arity) {
            Ok(Some(q)) => {
                heap.in_range(q);
                Rewritten::Proof(q)
            }
            Ok(None) => Rewritten::Keep,
            Err(_) => Rewritten::Memory,
        }
    }
}

// What the object becomes, where the marks come to reach to the end of the heap.
fn turned(
    heap: &mut Heap,
    proof: Ref,
    basis: &Basis,
    marks: &mut Marks,
    arity: &Arity,
) -> Result<Option<Ref>, Memory>
    requires within { IsIn heap.old.objects proof }
    requires basis { IsBasisIn heap.old.objects basis.now }
    requires equality { HasEquality (basis_over heap.old.objects arity.now basis.now) }
    requires marked { AreMarks arity.now heap.old.objects marks.old }
    ensures grows { Grows heap.old.objects heap.new.objects }
    ensures marked { AreMarks arity.now heap.new.objects marks.new }
    ensures kept { length marks.old ≤ length marks.new }
    ensures turned { IfOk result (λ o. IsTurned (basis_over heap.old.objects arity.now basis.now) heap.new.objects o (object_at heap.old.objects proof)) }
{
    let below = heap.mark();
    marks.extend(heap, arity, below)?;
    let Some(parts) = parts(heap, proof, marks)? else {
        return Ok(None);
    };
    let mut known = IndexMap::new(heap.alloc());
    turn_all(heap, proof, parts.as_slice(), &mut known, basis, marks)
}
