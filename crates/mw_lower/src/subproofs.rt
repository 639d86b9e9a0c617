//! Proofs in the place of subproofs.
ghost use Rattle.std.specs.Prelude.{◌≡◌, All, length, IfOk, IfSome, option_map};
ghost use Rattle.mw_heap.specs.Objects.{object_at, IsIn};
ghost use Rattle.mw_proof.specs.Judging.{Basis};
ghost use Rattle.mw_lower.specs.Turned.{AreMembersTurned, IsListTurned};

use indexmap::IndexMap;
use mw_heap::{Heap, Memory, Ref, View};

/// What stands in the place of the members of a proper list of derivations; nothing where it is no such list.
pub(crate) fn turned_members(
    heap: &Heap,
    list: Ref,
    turned: &IndexMap<Ref, Ref>,
) -> Result<Option<Vec<Ref>>, Memory>
    requires { IsIn heap.now.objects list }
    ensures turned { IfOk result (λ o. (b : Basis) → AreMembersTurned b heap.now.objects turned.now.entries (object_at heap.now.objects list) → IsListTurned b heap.now.objects (object_at heap.now.objects list) (option_map (λ v. v.items) o)) }
    ensures within { (b : Basis) → AreMembersTurned b heap.now.objects turned.now.entries (object_at heap.now.objects list) → IfOk result (λ o. IfSome o (λ v. All (IsIn heap.now.objects) v.items)) }
{
    let mut proofs = Vec::new(heap.alloc());
    let mut rest = list;
    while let View::Pair(p, more) = heap.view(rest) {
        let Some(q) = turned.get(&p) else {
            return Ok(None);
        };
        proofs.push(*q)?;
        rest = more;
    }
    if heap.is_nil(Some(rest)) {
        Ok(Some(proofs))
    } else {
        Ok(None)
    }
}
