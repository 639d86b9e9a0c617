//! Pairs that were met lately.
ghost use Rattle.std.specs.Prelude.{◌≡◌, IfOk};
ghost use Rattle.mw_model.specs.Terms.Object.{Pair};
ghost use Rattle.mw_heap.specs.Objects.{object_at, IsIn, Grows};

use mw_heap::{Heap, Memory, Ref, View};
use mw_lex::Slots;

/// The pair of these parts. One that was met lately costs one comparison.
pub(crate) fn pair(pairs: &mut Slots, heap: &mut Heap, first: Ref, rest: Ref) -> Result<Ref, Memory>
    requires first_in { IsIn heap.old.objects first }
    requires rest_in { IsIn heap.old.objects rest }
    ensures grows { Grows heap.old.objects heap.new.objects }
    ensures made { IfOk result (λ r. IsIn heap.new.objects r × (object_at heap.new.objects r ≡ Pair (object_at heap.old.objects first) (object_at heap.old.objects rest))) }
{
    let slot = first.index().wrapping_mul(31).wrapping_add(rest.index());
    if let Some(place) = pairs.get(heap, slot) {
        if let View::Pair(its_first, its_rest) = heap.view(place) {
            if its_first == first && its_rest == rest {
                return Ok(place);
            }
        }
    }
    let made = heap.cons(first, rest)?;
    pairs.note(slot, made);
    Ok(made)
}
