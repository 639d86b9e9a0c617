//! Marks of the heap.
ghost use Rattle.std.specs.Prelude.{◌≡◌, max};

use mw_heap::Mark;

/// The later of two marks.
pub(crate) fn later(a: Mark, b: Mark) -> Mark
    ensures { result ≡ max a b }
{
    if a.cells() < b.cells() { b } else { a }
}
