//! A walk over a part of an event, each part of it once.
ghost use Rattle.std.specs.Prelude.{◌≡◌, ℕ, ◌||◌, List, [], ◌∷◌, ◌++◌, OnOk};
ghost use Rattle.mw_heap.specs.Objects.{object_at, IsIn};
ghost use Rattle.mw_slice.specs.Parts.{cell_of};
ghost use Rattle.mw_slice.specs.Indexed.{IsIndexed, objects_in, firsts_in};
ghost use Rattle.mw_slice.specs.Supports.{Support, has, notes, asks, names_theorem, IsBasis};
ghost use Rattle.mw_slice.specs.Walks.{IsEntered, Meets};
ghost use Rattle.mw_slice.specs.declared.part.Part.{Part};

use crate::basis::Basis;
use crate::firsts::place_of;
use crate::indexed::IndexedHeap;
use crate::nil::or_nil;
use crate::part::Part;
use mw_heap::{Heap, Memory, Ref, View, Word};

// Has two parts wait.
fn push_two(waiting: &mut Vec<Part>, part: Part, next: Part) -> Result<(), Memory>
    ensures { OnOk result (waiting.new.items ≡ waiting.old.items ++ part ∷ next ∷ []) }
{
    waiting.push(part)?;
    waiting.push(next)?;
    Ok(())
}

// Has the parts of a part wait: those of a pair, the subproofs of a proof, and the proofs of a list.
fn enter(heap: &Heap, part: Part, waiting: &mut Vec<Part>) -> Result<(), Memory>
    requires { IsIn heap.now.objects (cell_of part) }
    ensures { OnOk result ((firsts : List (ℕ × ℕ)) → IsEntered heap.now.objects firsts part waiting.old.items waiting.new.items) }
{
    match part {
        Part::Cell(x) => match heap.view(x) {
            View::Pair(first, rest) => push_two(waiting, Part::Cell(rest), Part::Cell(first)),
            _ => Ok(()),
        },
        Part::Proof(x) => match heap.third_of(x) {
            Some(subproofs) => {
                waiting.push(Part::Proofs(subproofs))?;
                Ok(())
            }
            None => Ok(()),
        },
        Part::Proofs(x) => match heap.view(x) {
            View::Pair(first, rest) => push_two(waiting, Part::Proofs(rest), Part::Proof(first)),
            _ => Ok(()),
        },
    }
}

// Notes where the theorem is first proved that a step by THEOREM names.
fn note(indexed: &IndexedHeap<'_>, part: Part, basis: &mut Basis) -> Result<(), Memory>
    requires within { IsIn (objects_in indexed.now) (cell_of part) }
    requires indexed { IsIndexed indexed.now }
    ensures parts { OnOk result ((p : Part) → has basis.new p ≡ has basis.old p) }
    ensures supports { OnOk result ((s : Support) → notes (objects_in indexed.now) basis.new s ≡ (notes (objects_in indexed.now) basis.old s || names_theorem (objects_in indexed.now) (firsts_in indexed.now) s part)) }
{
    let IndexedHeap { heap, nil, firsts } = *indexed;
    let Part::Proof(step) = part else {
        return Ok(());
    };
    if !heap.is_headed(step, Word::Theorem) {
        return Ok(());
    }
    let formula = or_nil(heap, heap.second_of(step), nil);
    if let Some(place) = place_of(heap, firsts, formula) {
        basis.places.insert(place)?;
    }
    Ok(())
}

// Meets a part, which is noted and entered the first time.
fn meet(
    indexed: &IndexedHeap<'_>,
    part: Part,
    basis: &mut Basis,
    waiting: &mut Vec<Part>,
) -> Result<(), Memory>
    requires within { IsIn (objects_in indexed.now) (cell_of part) }
    requires indexed { IsIndexed indexed.now }
    ensures { OnOk result (Meets (objects_in indexed.now) (firsts_in indexed.now) part basis.old basis.new waiting.old.items waiting.new.items) }
{
    if !basis.insert(part)? {
        return Ok(());
    }
    note(indexed, part, basis)?;
    enter(indexed.heap, part, waiting)
}

/// Adds to a basis what a part asks for.
pub(crate) fn gather(indexed: &IndexedHeap<'_>, root: Part, basis: &mut Basis) -> Result<(), Memory>
    requires within { IsIn (objects_in indexed.now) (cell_of root) }
    requires indexed { IsIndexed indexed.now }
    requires basis { IsBasis (objects_in indexed.now) (firsts_in indexed.now) basis.old }
    ensures basis { OnOk result (IsBasis (objects_in indexed.now) (firsts_in indexed.now) basis.new) }
    ensures supports { OnOk result ((s : Support) → notes (objects_in indexed.now) basis.new s ≡ (notes (objects_in indexed.now) basis.old s || asks (objects_in indexed.now) (firsts_in indexed.now) s root)) }
{
    let mut waiting = Vec::new(indexed.heap.alloc());
    waiting.push(root)?;
    while let Some(part) = waiting.pop() {
        meet(indexed, part, basis, &mut waiting)?;
    }
    Ok(())
}
