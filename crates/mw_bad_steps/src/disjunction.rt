//! Disjunctions of any number of formulas.
ghost use Rattle.std.specs.Prelude.{◌≡◌, All, IfOk};
ghost use Rattle.mw_model.specs.Laws.RulesInduction.{disjunction_object};
ghost use Rattle.mw_heap.specs.Objects.{object_at, IsIn, Grows};
ghost use Rattle.mw_heap.specs.Lists.{list_object};

use crate::formulas::or;
use mw_heap::{Heap, Memory, Ref};

/// The formula: A1 or .. or An, for these formulas; NIL where there are none.
pub(crate) fn disjunction(heap: &mut Heap, members: &[Ref]) -> Result<Ref, Memory>
    requires { All (IsIn heap.old.objects) members.now }
    ensures grows { Grows heap.old.objects heap.new.objects }
    ensures within { IfOk result (λ r. IsIn heap.new.objects r) }
    ensures made { IfOk result (λ r. object_at heap.new.objects r ≡ disjunction_object (list_object heap.old.objects members.now)) }
{
    if members.is_empty() {
        return heap.nil();
    }
    let last = members.len() - 1;
    let mut made = members[last];
    for index in (0..last).rev() {
        made = or(heap, members[index], made)?;
    }
    Ok(made)
}
