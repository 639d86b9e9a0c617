//! Calls of a block in actuals of its calls.
ghost use Rattle.std.specs.Prelude.{◌≡◌, List, IfOk, OnOk};
ghost use Rattle.mw_model.specs.Values.Definition.{Function};
ghost use Rattle.mw_model.specs.Events.Obligation.{some_nested};
ghost use Rattle.mw_heap.specs.Objects.{object_at, IsIn};
ghost use Rattle.mw_term.specs.Parts.{names_at};
ghost use Rattle.mw_define.specs.Collecting.{AreFoundCalls, HasNames, found_calls};
ghost use Rattle.mw_define.specs.Knowing.{AreKnown};

use crate::item::FoundCall;
use crate::known::Known;
use crate::mention::mentions_some;
use crate::piece::Piece;
use mw_heap::{Heap, Memory};

// Whether a function of the block is called in an actual of one of the calls. Each call takes a look, and so does each piece of its
// actuals that was not looked at before.
pub(crate) fn are_nested(
    heap: &Heap,
    calls: &[FoundCall],
    known: &mut Known,
    looks_left: &mut u64,
) -> Result<bool, Memory>
    requires calls { AreFoundCalls heap.now.objects (names_at heap.now.objects known.old.names.keys) calls.now }
    requires known { AreKnown heap.now.objects known.old.names.keys known.old }
    ensures known { OnOk result (AreKnown heap.now.objects known.old.names.keys known.new) }
    ensures nested { IfOk result (λ b. (B : List Function) → HasNames B (names_at heap.now.objects known.old.names.keys) → b ≡ some_nested B (found_calls B heap.now.objects calls.now)) }
{
    for call in calls {
        if mentions_some(heap, Piece::Terms(call.actuals), known, looks_left)? {
            return Ok(true);
        }
    }
    Ok(false)
}
