//! The place of a step.
ghost use Rattle.std.specs.Prelude.{◌≡◌, map, IfOk};
ghost use Rattle.mw_model.specs.Terms.Object.{Natural, NIL};
ghost use Rattle.mw_heap.specs.Objects.{object_at, IsIn, Grows};
ghost use Rattle.mw_commands.specs.Commands.ExplanationSteps.{listed};

use mw_heap::{Heap, Memory, Ref};

/// The list of these numbers.
pub(crate) fn place_shown(heap: &mut Heap, place: &[u64]) -> Result<Ref, Memory>
    ensures grows { Grows heap.old.objects heap.new.objects }
    ensures within { IfOk result (λ r. IsIn heap.new.objects r) }
    ensures made { IfOk result (λ r. object_at heap.new.objects r ≡ listed (map Natural place.now)) }
{
    let mut list = heap.nil()?;
    for index in (0..place.len()).rev() {
        let number = heap.nat(place[index] as u128)?;
        list = heap.cons(number, list)?;
    }
    Ok(list)
}
