//! Objects that are symbols.
ghost use Rattle.std.specs.Prelude.{◌≡◌};
ghost use Rattle.mw_model.specs.Values.Primitive.{is_symbol};
ghost use Rattle.mw_heap.specs.Objects.{object_at, IsIn};

use mw_heap::{Heap, Ref, View};

/// Whether an object is a symbol.
pub fn is_symbol(heap: &Heap, x: Ref) -> bool
    requires { IsIn heap.now.objects x }
    ensures { result ≡ is_symbol (object_at heap.now.objects x) }
{
    matches!(heap.view(x), View::Symbol)
}
