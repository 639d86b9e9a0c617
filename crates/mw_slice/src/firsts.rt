//! Where formulas are first proved.
ghost use Rattle.std.specs.Prelude.{◌≡◌, ℕ, ◌<◌, false, [], length, cond, Some, None, OnOk};
ghost use Rattle.mw_model.specs.Terms.Object.{Object};
ghost use Rattle.mw_heap.specs.Objects.{object_at, IsIn, Grows};
ghost use Rattle.mw_slice.specs.Events.{AreIn, objects_of};
ghost use Rattle.mw_slice.specs.Firsts.{AreFirsts, IsIndex, NamesNone, proves, first_or, first_by};
ghost use Rattle.mw_slice.specs.Heaps.{heap_of};

use crate::Copies;
use crate::added::Added;
use crate::copying::copy_part;
use crate::heaps::Heaps;
use indexmap::IndexMap;
use mw_heap::{Heap, Memory, Ref, Word};

/// Where the formula is first proved, if it is.
pub(crate) fn place_of(heap: &Heap, firsts: &IndexMap<Ref, u64>, formula: Ref) -> Option<u64>
    requires within { IsIn heap.now.objects formula }
    requires firsts { AreFirsts heap.now.objects firsts.now.entries }
    ensures { result ≡ first_by heap.now.objects firsts.now.entries (object_at heap.now.objects formula) }
{
    heap.order();
    firsts.get(&formula).copied()
}

// Notes the place of an event, if it is the first to prove its formula. That is copied to the heap `to`.
fn note_first(
    from: &Heap,
    event: Ref,
    place: u64,
    to: &mut Heap,
    copies: &mut Copies,
    firsts: &mut IndexMap<Ref, u64>,
) -> Result<(), Memory>
    requires within { IsIn from.now.objects event }
    requires firsts { AreFirsts to.old.objects firsts.old.entries }
    ensures grows { Grows to.old.objects to.new.objects }
    ensures firsts { OnOk result (AreFirsts to.new.objects firsts.new.entries) }
    ensures noted { OnOk result ((c : Object) → first_by to.new.objects firsts.new.entries c ≡ first_or (first_by to.old.objects firsts.old.entries c) (cond (proves c (object_at from.now.objects event)) (Some place) None)) }
{
    if !from.is_headed(event, Word::Verify) {
        return Ok(());
    }
    let formula = copy_part(from, from.third_of(event), to, copies)?;
    to.order();
    if place_of(to, firsts, formula).is_none() {
        firsts.insert(formula, place)?;
    }
    Ok(())
}

// Whether an object of the heap is headed by the word of the steps that name a theorem: else no proof in it names one.
fn names_theorem(heap: &Heap) -> bool
    ensures { result ≡ false → NamesNone heap.now.objects }
{
    heap.order();
    for index in 0..heap.mark().cells() {
        if heap.is_headed(heap.nth(index), Word::Theorem) {
            return true;
        }
    }
    false
}

// Whether one of the heaps has such an object.
fn some_names_theorem(heaps: &Heaps) -> bool
    ensures { result ≡ false → (k : ℕ) → k < length heaps.now → NamesNone (heap_of heaps.now k) }
{
    for place in 0..heaps.len() {
        if names_theorem(heaps.get(place)) {
            return true;
        }
    }
    false
}

/// Notes of each formula that a step of an event names the place of the first event that proves it. Where no step names one, no formula
/// is copied.
pub(crate) fn note_firsts(
    heaps: &Heaps,
    added: &[Added],
    to: &mut Heap,
    copies: &mut Copies,
    firsts: &mut IndexMap<Ref, u64>,
) -> Result<(), Memory>
    requires within { AreIn heaps.now added.now }
    requires none { firsts.old.entries ≡ [] }
    ensures grows { Grows to.old.objects to.new.objects }
    ensures firsts { OnOk result (AreFirsts to.new.objects firsts.new.entries) }
    ensures index { OnOk result (IsIndex to.new.objects firsts.new.entries (objects_of heaps.now added.now)) }
{
    if !some_names_theorem(heaps) {
        return Ok(());
    }
    for (place, event) in added.iter().enumerate() {
        let from = heaps.get(event.heap);
        note_first(from, event.event, place as u64, to, copies, firsts)?;
    }
    Ok(())
}
