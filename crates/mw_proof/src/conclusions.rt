//! The conclusions of subproofs.
ghost use Rattle.std.specs.Prelude.{◌<◌, length, IfOk, IfSome};
ghost use Rattle.mw_model.specs.Terms.Term.{ArityTable};
ghost use Rattle.mw_term.specs.Marking.{AreMarks};
ghost use Rattle.mw_proof.specs.Gathered.{AreIn, AddsMembers};
ghost use Rattle.mw_proof.specs.Judging.{IsAnswer};

use indexmap::IndexSet;
use mw_heap::{Heap, Memory, Ref, View};
use mw_term::{Marks, is_formula};

/// The conclusions of a proper list of objects, where there are at most `most` and each is a formula; then the objects are added to those
/// found. It looks at one more cell of the list at most. The error is out of memory.
pub fn conclusions_of(
    heap: &Heap,
    subproofs: Ref,
    found: &mut IndexSet<Ref>,
    marks: &Marks,
    most: Option<usize>,
) -> Result<Option<Vec<Ref>>, Memory>
    requires marks { (A : ArityTable) × AreMarks A heap.now.objects marks.now }
    requires within { subproofs < length marks.now }
    requires all_within { AreIn heap.now.objects found.old.keys }
    ensures answer { (A : ArityTable) → AreMarks A heap.now.objects marks.now → IfOk result (IsAnswer A heap.now.objects subproofs most) }
    ensures found { IfOk result (λ o. IfSome o (λ cs. AddsMembers heap.now.objects subproofs found.old.keys found.new.keys)) }
{
    let mut conclusions = Vec::new(heap.alloc());
    let mut rest = subproofs;
    while let View::Pair(p, more) = heap.view(rest) {
        if most == Some(conclusions.len()) {
            return Ok(None);
        }
        let Some(conclusion) = heap.second_of(p) else {
            return Ok(None);
        };
        if !is_formula(marks, conclusion) {
            return Ok(None);
        }
        conclusions.push(conclusion)?;
        found.insert(p)?;
        rest = more;
    }
    if heap.is_nil(Some(rest)) {
        Ok(Some(conclusions))
    } else {
        Ok(None)
    }
}
