//! The walk over what a derivation is made of.
ghost use Rattle.std.specs.Prelude.{◌≡◌, length, IfOk};
ghost use Rattle.mw_heap.specs.Objects.{object_at, IsIn, Grows};
ghost use Rattle.mw_term.specs.Marking.{AreMarks};
ghost use Rattle.mw_model.specs.Terms.Term.{ArityTable};
ghost use Rattle.mw_rules.specs.Basis.{IsBasisIn};
ghost use Rattle.mw_proof.specs.Judging.{basis_over};
ghost use Rattle.mw_lower.specs.Parts.{AreParts};
ghost use Rattle.mw_lower.specs.Proofs.{HasEquality};
ghost use Rattle.mw_lower.specs.Turned.{IsTurned};

use crate::turn::turn;
use indexmap::IndexMap;
use mw_heap::{Heap, Memory, Ref};
use mw_rules::Basis;
use mw_term::Marks;

/// What a derivation becomes, from what it is made of; what each part becomes is noted in a map. It ends at the first part that is no
/// derivation: then the whole is none.
pub(crate) fn turn_all(
    heap: &mut Heap,
    proof: Ref,
    parts: &[Ref],
    turned: &mut IndexMap<Ref, Ref>,
    basis: &Basis,
    marks: &Marks,
) -> Result<Option<Ref>, Memory>
    requires marks { (A : ArityTable) × AreMarks A heap.old.objects marks.now }
    requires all { length marks.now ≡ length heap.old.objects }
    requires parts { AreParts heap.old.objects proof parts.now }
    requires basis { IsBasisIn heap.old.objects basis.now }
    requires equality { (A : ArityTable) → HasEquality (basis_over heap.old.objects A basis.now) }
    ensures grows { Grows heap.old.objects heap.new.objects }
    ensures turned { IfOk result (λ o. (A : ArityTable) → AreMarks A heap.old.objects marks.now → IsTurned (basis_over heap.old.objects A basis.now) heap.new.objects o (object_at heap.old.objects proof)) }
{
    for p in parts {
        heap.order();
        let Some(q) = turn(heap, *p, turned, basis, marks)? else {
            return Ok(None);
        };
        turned.insert(*p, q)?;
    }
    Ok(turned.get(&proof).copied())
}
