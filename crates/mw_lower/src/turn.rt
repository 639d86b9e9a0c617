//! One derivation.
ghost use Rattle.std.specs.Prelude.{◌≡◌, ◌<◌, length, IfOk};
ghost use Rattle.mw_heap.specs.Objects.{object_at, IsIn, Grows};
ghost use Rattle.mw_term.specs.Marking.{AreMarks};
ghost use Rattle.mw_model.specs.Terms.Term.{ArityTable};
ghost use Rattle.mw_rules.specs.Basis.{IsBasisIn};
ghost use Rattle.mw_proof.specs.Judging.{basis_over};
ghost use Rattle.mw_lower.specs.Proofs.{HasEquality};
ghost use Rattle.mw_lower.specs.Turned.{AreSubproofsTurned, IsTurned};

use crate::further::further_of;
use crate::further_step::further_step;
use crate::method::method_step;
use crate::subproofs::turned_members;
use indexmap::IndexMap;
use mw_heap::{Heap, Memory, Ref};
use mw_proof::members_of;
use mw_rules::Basis;
use mw_term::{Marks, is_formula};

/// What the object becomes, where it is known what its subproofs become; nothing where it is no derivation.
pub(crate) fn turn(
    heap: &mut Heap,
    p: Ref,
    turned: &IndexMap<Ref, Ref>,
    basis: &Basis,
    marks: &Marks,
) -> Result<Option<Ref>, Memory>
    requires marks { (A : ArityTable) × AreMarks A heap.old.objects marks.now }
    requires within { p < length marks.now }
    requires basis { IsBasisIn heap.old.objects basis.now }
    requires equality { (A : ArityTable) → HasEquality (basis_over heap.old.objects A basis.now) }
    requires known { (A : ArityTable) → AreMarks A heap.old.objects marks.now → AreSubproofsTurned (basis_over heap.old.objects A basis.now) heap.old.objects turned.now.entries (object_at heap.old.objects p) }
    ensures grows { Grows heap.old.objects heap.new.objects }
    ensures turned { IfOk result (λ o. (A : ArityTable) → AreMarks A heap.old.objects marks.now → IsTurned (basis_over heap.old.objects A basis.now) heap.new.objects o (object_at heap.old.objects p)) }
{
    let Some(step) = members_of(heap, p) else {
        return Ok(None);
    };
    if !is_formula(marks, step.conclusion) {
        return Ok(None);
    }
    let Some(proofs) = turned_members(heap, step.subproofs, turned)? else {
        return Ok(None);
    };
    match further_of(heap, step.method) {
        Some(rule) => further_step(heap, rule, step, proofs.as_slice()),
        None => method_step(heap, p, step, proofs.as_slice(), basis, marks),
    }
}
