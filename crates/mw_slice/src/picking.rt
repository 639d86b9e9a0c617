//! The events that a theorem rests on.
ghost use Rattle.std.specs.Prelude.{◌≡◌, ℕ, ◌<◌, suc, cond, true, false, ◌||◌, ◌∷◌, [], ◌++◌, length, reverse, Some, None, IfOk, IfSome, OnOk, MatchOption};
ghost use Rattle.mw_model.specs.Terms.Object.{Object, is_name, name_of_bytes};
ghost use Rattle.mw_commands.specs.Commands.Slice.{begins_with, some_passes, target, first_proof, is_idle, IsSlice};
ghost use Rattle.mw_commands.proofs.SlicePlaces.{is_wanted, changes, collected, slice_places};
ghost use Rattle.mw_heap.specs.Objects.{object_at, IsIn, Grows};
ghost use Rattle.mw_slice.specs.Candidates.{IsCandidate, event_of};
ghost use Rattle.mw_slice.specs.Events.{AreIn, objects_of};
ghost use Rattle.mw_slice.specs.Firsts.{AreFirsts, IsIndex};
ghost use Rattle.mw_slice.specs.Supports.{Support, has, notes, event_asks, is_asked_for, IsInside, IsBasis};
ghost use Rattle.mw_slice.specs.declared.part.Part.{Part};

use crate::Copies;
use crate::added::Added;
use crate::basis::Basis;
use crate::candidate::Candidate;
use crate::copying::copy;
use crate::event::{is_idle, is_theorem, sets_profile};
use crate::firsts::note_firsts;
use crate::gathering::gather_event;
use crate::heaps::{Heaps, heap_with_words};
use crate::indexed::IndexedHeap;
use crate::names::adds_met;
use indexmap::IndexMap;
use mw_heap::{Heap, Memory, Ref, Word};

// The place of the first theorem of this name.
fn target(heaps: &Heaps, added: &[Added], name: &[u8]) -> Option<usize>
    requires within { AreIn heaps.now added.now }
    requires name { is_name name.now ≡ true }
    ensures within { IfSome result (λ place. place < length added.now) }
    ensures target { result ≡ target (objects_of heaps.now added.now) (name_of_bytes name.now) }
{
    for (place, event) in added.iter().enumerate() {
        if is_theorem(heaps.get(event.heap), event.event, name) {
            return Some(place);
        }
    }
    None
}

// Whether one of the events is a switch.
fn has_switch(heaps: &Heaps, added: &[Added]) -> bool
    requires { AreIn heaps.now added.now }
    ensures { result ≡ some_passes (begins_with "SWITCH") (objects_of heaps.now added.now) }
{
    for event in added {
        if heaps.get(event.heap).is_headed(event.event, Word::Switch) {
            return true;
        }
    }
    false
}

// Keeps an event, unless it leaves every theory as it is.
fn keep_change(heap: &Heap, event: Ref, place: u64, places: &mut Vec<u64>) -> Result<(), Memory>
    requires { IsIn heap.now.objects event }
    ensures { OnOk result (places.new.items ≡ cond (is_idle (object_at heap.now.objects event)) places.old.items (places.old.items ++ place ∷ [])) }
{
    if !is_idle(heap, event) {
        places.push(place)?;
    }
    Ok(())
}

// Up to the goal, the places from the last one down of the events that change the theory.
fn changing(heaps: &Heaps, added: &[Added], goal: usize) -> Result<Vec<u64>, Memory>
    requires within { AreIn heaps.now added.now }
    requires goal { goal < length added.now }
    ensures { IfOk result (λ v. reverse v.items ≡ collected (changes (objects_of heaps.now added.now)) (suc goal) []) }
{
    let mut places = Vec::new(heaps.alloc());
    for place in (0..goal + 1).rev() {
        let event = added[place];
        keep_change(
            heaps.get(event.heap),
            event.event,
            place as u64,
            &mut places,
        )?;
    }
    Ok(places)
}

// Whether the event is the goal, sets the second profile, proves or defines what is asked for. The names that it adds are copied to the
// heap `to`.
fn is_asked_for(
    candidate: &Candidate<'_>,
    goal: u64,
    to: &mut Heap,
    copies: &mut Copies,
    basis: &Basis,
) -> Result<bool, Memory>
    requires within { IsCandidate candidate.now }
    requires inside { IsInside to.old.objects basis.now }
    ensures grows { Grows to.old.objects to.new.objects }
    ensures asked { IfOk result (λ b. b ≡ is_asked_for to.new.objects basis.now goal (event_of candidate.now) candidate.now.place) }
{
    let Candidate { heap, event, place } = *candidate;
    if place == goal || sets_profile(heap, event, 2) || basis.places.contains(&place) {
        return Ok(true);
    }
    adds_met(heap, event, to, copies, basis)
}

// Copies an event to the heap `to`, and gathers there what it asks for.
fn gather_copied(
    candidate: &Candidate<'_>,
    to: &mut Heap,
    copies: &mut Copies,
    firsts: &IndexMap<Ref, u64>,
    basis: &mut Basis,
) -> Result<(), Memory>
    requires within { IsCandidate candidate.now }
    requires firsts { AreFirsts to.old.objects firsts.now.entries }
    requires basis { IsBasis to.old.objects firsts.now.entries basis.old }
    ensures grows { Grows to.old.objects to.new.objects }
    ensures basis { OnOk result (IsBasis to.new.objects firsts.now.entries basis.new) }
    ensures supports { OnOk result ((s : Support) → notes to.new.objects basis.new s ≡ (notes to.new.objects basis.old s || event_asks to.new.objects firsts.now.entries s (event_of candidate.now))) }
{
    let nil = to.nil()?;
    let copied = copy(candidate.heap, candidate.event, to, copies)?;
    let indexed = IndexedHeap {
        heap: to,
        nil,
        firsts,
    };
    gather_event(&indexed, copied, basis)
}

// Keeps an event, if it is asked for: it is copied to the heap `to`, and what it asks for is gathered there.
fn keep(
    candidate: &Candidate<'_>,
    goal: u64,
    to: &mut Heap,
    copies: &mut Copies,
    firsts: &IndexMap<Ref, u64>,
    basis: &mut Basis,
    places: &mut Vec<u64>,
) -> Result<(), Memory>
    requires within { IsCandidate candidate.now }
    requires firsts { AreFirsts to.old.objects firsts.now.entries }
    requires basis { IsBasis to.old.objects firsts.now.entries basis.old }
    ensures grows { Grows to.old.objects to.new.objects }
    ensures basis { OnOk result (IsBasis to.new.objects firsts.now.entries basis.new) }
    ensures supports { OnOk result ((s : Support) → notes to.new.objects basis.new s ≡ cond (is_asked_for to.new.objects basis.old goal (event_of candidate.now) candidate.now.place) (notes to.new.objects basis.old s || event_asks to.new.objects firsts.now.entries s (event_of candidate.now)) (notes to.new.objects basis.old s)) }
    ensures places { OnOk result (places.new.items ≡ cond (is_asked_for to.new.objects basis.old goal (event_of candidate.now) candidate.now.place) (places.old.items ++ candidate.now.place ∷ []) places.old.items) }
{
    if is_asked_for(candidate, goal, to, copies, basis)? {
        gather_copied(candidate, to, copies, firsts, basis)?;
        places.push(candidate.place)?;
    }
    Ok(())
}

// Up to the goal, the places from the last one down of the events that it rests on, over the places where formulas are first proved and a
// basis that has nothing yet.
fn needed_from(
    heaps: &Heaps,
    added: &[Added],
    goal: usize,
    to: &mut Heap,
    copies: &mut Copies,
    firsts: &IndexMap<Ref, u64>,
    basis: &mut Basis,
) -> Result<Vec<u64>, Memory>
    requires within { AreIn heaps.now added.now }
    requires firsts { AreFirsts to.old.objects firsts.now.entries }
    requires index { IsIndex to.old.objects firsts.now.entries (objects_of heaps.now added.now) }
    requires goal { goal < length added.now }
    requires no_parts { (p : Part) → has basis.old p ≡ false }
    requires no_supports { (s : Support) → notes to.old.objects basis.old s ≡ false }
    ensures { IfOk result (λ v. reverse v.items ≡ collected (is_wanted (objects_of heaps.now added.now) goal) (suc goal) []) }
{
    let mut places = Vec::new(heaps.alloc());
    for place in (0..goal + 1).rev() {
        let event = added[place];
        let candidate = Candidate {
            heap: heaps.get(event.heap),
            event: event.event,
            place: place as u64,
        };
        keep(
            &candidate,
            goal as u64,
            to,
            copies,
            firsts,
            basis,
            &mut places,
        )?;
    }
    Ok(places)
}

// The same, where these places are noted and the basis is made.
fn needed_over(
    heaps: &Heaps,
    added: &[Added],
    goal: usize,
    to: &mut Heap,
    copies: &mut Copies,
    firsts: &mut IndexMap<Ref, u64>,
) -> Result<Vec<u64>, Memory>
    requires within { AreIn heaps.now added.now }
    requires none { firsts.old.entries ≡ [] }
    requires goal { goal < length added.now }
    ensures { IfOk result (λ v. reverse v.items ≡ collected (is_wanted (objects_of heaps.now added.now) goal) (suc goal) []) }
{
    note_firsts(heaps, added, to, copies, firsts)?;
    let mut basis = Basis::new(heaps.alloc())?;
    needed_from(heaps, added, goal, to, copies, firsts, &mut basis)
}

// The same, where formulas and the events that are kept are copied to the heap `to`.
fn needed_in(heaps: &Heaps, added: &[Added], goal: usize, to: &mut Heap) -> Result<Vec<u64>, Memory>
    requires within { AreIn heaps.now added.now }
    requires goal { goal < length added.now }
    ensures { IfOk result (λ v. reverse v.items ≡ collected (is_wanted (objects_of heaps.now added.now) goal) (suc goal) []) }
{
    let mut copies = Copies::new(heaps.alloc());
    let mut firsts = IndexMap::new(heaps.alloc());
    needed_over(heaps, added, goal, to, &mut copies, &mut firsts)
}

// Up to the goal, the places from the last one down of the events that it rests on.
fn needed(heaps: &Heaps, added: &[Added], goal: usize) -> Result<Vec<u64>, Memory>
    requires within { AreIn heaps.now added.now }
    requires goal { goal < length added.now }
    ensures { IfOk result (λ v. reverse v.items ≡ collected (is_wanted (objects_of heaps.now added.now) goal) (suc goal) []) }
{
    let mut to = heap_with_words(heaps.alloc())?;
    needed_in(heaps, added, goal, &mut to)
}

// The places in the other order.
fn reversed(places: Vec<u64>) -> Vec<u64>
    ensures { result.items ≡ reverse places.items }
{
    let mut places = places;
    places.as_mut_slice().reverse();
    places
}

// The places of the slice for a goal.
fn slice(heaps: &Heaps, added: &[Added], goal: usize) -> Result<Vec<u64>, Memory>
    requires within { AreIn heaps.now added.now }
    requires goal { goal < length added.now }
    ensures { IfOk result (λ v. v.items ≡ slice_places (objects_of heaps.now added.now) goal) }
{
    if has_switch(heaps, &added[..goal]) {
        return Ok(reversed(changing(heaps, added, goal)?));
    }
    Ok(reversed(needed(heaps, added, goal)?))
}

/// The places of the slice for the first theorem of this name; nothing where there is none.
pub(crate) fn pick(heaps: &Heaps, added: &[Added], name: &[u8]) -> Result<Option<Vec<u64>>, Memory>
    requires within { AreIn heaps.now added.now }
    requires name { is_name name.now ≡ true }
    ensures { IfOk result (λ places. MatchOption places (target (objects_of heaps.now added.now) (name_of_bytes name.now) ≡ None) (λ v. (goal : ℕ) × (target (objects_of heaps.now added.now) (name_of_bytes name.now) ≡ Some goal) × IsSlice (objects_of heaps.now added.now) goal v.items)) }
{
    match target(heaps, added, name) {
        Some(goal) => Ok(Some(slice(heaps, added, goal)?)),
        None => Ok(None),
    }
}
