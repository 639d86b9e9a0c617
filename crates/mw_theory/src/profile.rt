//! The profile that an event asks for.
ghost use Rattle.std.specs.Prelude.{◌≡◌, option_map};
ghost use Rattle.mw_model.specs.Events.Fate.{profile_of as profile_asked};
ghost use Rattle.mw_heap.specs.Objects.{object_at, IsIn};
ghost use Rattle.mw_heap.specs.Variants.{profile_of};

use mw_heap::{Heap, Profile, Ref, View};

/// The profile of this number, 1 or 2; nothing of any other object.
pub fn profile_numbered(heap: &Heap, number: Ref) -> Option<Profile>
    requires { IsIn heap.now.objects number }
    ensures { option_map profile_of result ≡ profile_asked (object_at heap.now.objects number) }
{
    match heap.view(number) {
        View::Nat(1) => Some(Profile::One),
        View::Nat(2) => Some(Profile::Two),
        _ => None,
    }
}
