//! The forms of lists.
ghost use Rattle.std.specs.Prelude.{◌≡◌};
ghost use Rattle.mw_model.specs.Terms.Object.{has_members};
ghost use Rattle.mw_model.specs.Laws.RulesInduction.{is_list_object};
ghost use Rattle.mw_heap.specs.Objects.{object_at, IsIn};

use mw_heap::{Heap, Ref, View};

/// Whether it is a proper list.
pub fn is_list(heap: &Heap, x: Ref) -> bool
    requires { IsIn heap.now.objects x }
    ensures { result ≡ is_list_object (object_at heap.now.objects x) }
{
    let mut rest = x;
    while let View::Pair(_, more) = heap.view(rest) {
        rest = more;
    }
    heap.is_nil(Some(rest))
}

/// Whether it is a proper list of this number of members.
pub fn has_members(heap: &Heap, x: Ref, count: u64) -> bool
    requires { IsIn heap.now.objects x }
    ensures { result ≡ has_members count (object_at heap.now.objects x) }
{
    let mut rest = x;
    let mut left = count;
    while let View::Pair(_, more) = heap.view(rest) {
        if left == 0 {
            return false;
        }
        left -= 1;
        rest = more;
    }
    left == 0 && heap.is_nil(Some(rest))
}
