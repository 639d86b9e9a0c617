//! The parts of pairs, by their references.
ghost use Rattle.std.specs.Prelude.{◌≡◌, true};
ghost use Rattle.mw_model.specs.Terms.Object.{Pair};
ghost use Rattle.mw_model.specs.Values.Primitive.{is_pair};
ghost use Rattle.mw_heap.specs.Objects.{object_at, IsIn};

use mw_heap::{Heap, Ref, View};

/// The parts of a pair.
pub(crate) fn parts_of(heap: &Heap, x: Ref) -> (Ref, Ref)
    requires within { IsIn heap.now.objects x }
    requires pair { is_pair (object_at heap.now.objects x) ≡ true }
    ensures first { IsIn heap.now.objects result.0 }
    ensures second { IsIn heap.now.objects result.1 }
    ensures parts { object_at heap.now.objects x ≡ Pair (object_at heap.now.objects result.0) (object_at heap.now.objects result.1) }
{
    match heap.view(x) {
        View::Pair(first, second) => (first, second),
        _ => unreachable!(),
    }
}
