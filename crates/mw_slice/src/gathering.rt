//! What an event asks for.
ghost use Rattle.std.specs.Prelude.{◌≡◌, ◌||◌, OnOk};
ghost use Rattle.mw_heap.specs.Objects.{object_at, IsIn};
ghost use Rattle.mw_slice.specs.Indexed.{IsIndexed, objects_in, firsts_in};
ghost use Rattle.mw_slice.specs.Supports.{Support, notes, cells_ask, event_asks, IsBasis};

use crate::basis::Basis;
use crate::event::{proofs_of, rest};
use crate::indexed::IndexedHeap;
use crate::nil::or_nil;
use crate::part::Part;
use crate::walk::gather;
use mw_heap::{Memory, Ref, Word};

// Adds what the cells of an event ask for. A theorem's name is passed over.
fn gather_cells(indexed: &IndexedHeap<'_>, event: Ref, basis: &mut Basis) -> Result<(), Memory>
    requires within { IsIn (objects_in indexed.now) event }
    requires indexed { IsIndexed indexed.now }
    requires basis { IsBasis (objects_in indexed.now) (firsts_in indexed.now) basis.old }
    ensures basis { OnOk result (IsBasis (objects_in indexed.now) (firsts_in indexed.now) basis.new) }
    ensures supports { OnOk result ((s : Support) → notes (objects_in indexed.now) basis.new s ≡ (notes (objects_in indexed.now) basis.old s || cells_ask s (object_at (objects_in indexed.now) event))) }
{
    let IndexedHeap { heap, nil, .. } = *indexed;
    if !heap.is_headed(event, Word::Verify) {
        return gather(indexed, Part::Cell(event), basis);
    }
    let first = or_nil(heap, heap.car(event), nil);
    let others = rest(heap, nil, rest(heap, nil, event));
    gather(indexed, Part::Cell(first), basis)?;
    gather(indexed, Part::Cell(others), basis)
}

/// Adds what an event asks for.
pub(crate) fn gather_event(
    indexed: &IndexedHeap<'_>,
    event: Ref,
    basis: &mut Basis,
) -> Result<(), Memory>
    requires within { IsIn (objects_in indexed.now) event }
    requires indexed { IsIndexed indexed.now }
    requires basis { IsBasis (objects_in indexed.now) (firsts_in indexed.now) basis.old }
    ensures basis { OnOk result (IsBasis (objects_in indexed.now) (firsts_in indexed.now) basis.new) }
    ensures supports { OnOk result ((s : Support) → notes (objects_in indexed.now) basis.new s ≡ (notes (objects_in indexed.now) basis.old s || event_asks (objects_in indexed.now) (firsts_in indexed.now) s (object_at (objects_in indexed.now) event))) }
{
    gather_cells(indexed, event, basis)?;
    match proofs_of(indexed.heap, indexed.nil, event) {
        Some(part) => gather(indexed, part, basis),
        None => Ok(()),
    }
}
