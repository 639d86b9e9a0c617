//! The marks of a heap in whose terms no function is called.
ghost use Rattle.std.specs.Prelude.{◌≡◌, [], IfOk, length};
ghost use Rattle.mw_term.specs.Marking.{AreMarks};

use mw_heap::{Heap, Memory};
use mw_term::{Arity, Marks, mark_terms};

pub(crate) fn marks_of(heap: &Heap) -> Result<Marks, Memory>
    ensures marked { IfOk result (AreMarks [] heap.now.objects) }
    ensures length { IfOk result (λ m. length m ≡ length heap.now.objects) }
{
    mark_terms(heap.alloc(), heap, &Arity::new(heap.alloc()), heap.mark())
}
