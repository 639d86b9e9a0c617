//! Lists that grow at their front.
ghost use Rattle.std.specs.Prelude.{◌≡◌, All, IfOk, OnErr, map};
ghost use Rattle.mw_model.specs.Terms.Object.{Natural, Pair};
ghost use Rattle.mw_heap.specs.Objects.{object_at, IsIn, Grows};
ghost use Rattle.mw_theory.specs.Knowledge.{put_all};

use mw_heap::{Heap, Memory, Ref};

/// The list with one more member, in front: so the newest axiom or theorem comes first.
pub(crate) fn with_front(heap: &mut Heap, x: Ref, list: Ref) -> Result<Ref, Memory>
    requires member { IsIn heap.old.objects x }
    requires list { IsIn heap.old.objects list }
    ensures grows { Grows heap.old.objects heap.new.objects }
    ensures made { IfOk result (λ r. IsIn heap.new.objects r × (object_at heap.new.objects r ≡ Pair (object_at heap.old.objects x) (object_at heap.old.objects list))) }
    ensures err { OnErr result (heap.new.objects ≡ heap.old.objects) }
{
    heap.cons(x, list)
}

/// The list with these in front, the last one foremost.
pub(crate) fn with_all(heap: &mut Heap, members: &[Ref], list: Ref) -> Result<Ref, Memory>
    requires members { All (IsIn heap.old.objects) members.now }
    requires list { IsIn heap.old.objects list }
    ensures grows { Grows heap.old.objects heap.new.objects }
    ensures made { IfOk result (λ r. IsIn heap.new.objects r × (object_at heap.new.objects r ≡ put_all (map (object_at heap.old.objects) members.now) (object_at heap.old.objects list))) }
{
    let mut list = list;
    for member in members {
        list = with_front(heap, *member, list)?;
    }
    Ok(list)
}

/// The list with the pair (name . count) in front.
pub(crate) fn with_pair(heap: &mut Heap, name: Ref, count: u64, list: Ref) -> Result<Ref, Memory>
    requires name { IsIn heap.old.objects name }
    requires list { IsIn heap.old.objects list }
    ensures grows { Grows heap.old.objects heap.new.objects }
    ensures made { IfOk result (λ r. IsIn heap.new.objects r × (object_at heap.new.objects r ≡ Pair (Pair (object_at heap.old.objects name) (Natural count)) (object_at heap.old.objects list))) }
{
    let count = heap.nat(count as u128)?;
    let entry = heap.cons(name, count)?;
    heap.cons(entry, list)
}
