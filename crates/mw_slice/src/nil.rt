//! Parts that may be missing.
ghost use Rattle.std.specs.Prelude.{◌≡◌};
ghost use Rattle.mw_heap.specs.Objects.{object_at, IsIn};
ghost use Rattle.mw_heap.specs.Parts.{part_at, IsPart};
ghost use Rattle.mw_slice.specs.Slices.{IsNil};

use mw_heap::{Heap, Ref};

// The part, and NIL where it is missing.
pub(crate) fn or_nil(heap: &Heap, part: Option<Ref>, nil: Ref) -> Ref
    requires within { IsPart heap.now.objects part }
    requires nil { IsNil heap.now.objects nil }
    ensures within { IsIn heap.now.objects result }
    ensures same { object_at heap.now.objects result ≡ part_at heap.now.objects part }
{
    let _ = heap;
    match part {
        Some(x) => x,
        None => nil,
    }
}
