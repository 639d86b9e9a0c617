//! Places of objects that were met lately.
ghost use Rattle.std.specs.Prelude.{IfSome};
ghost use Rattle.mw_heap.specs.Objects.{IsIn};

use mw_heap::{Heap, Ref};
use std::alloc::Global;

// How many slots there are: 16 kilobytes, so that they stay in the processor's cache.
const SLOTS: usize = 4096;

/// In each slot the place of an object that was met lately. A heap may have another object there by now, or none: a caller looks at
/// what stands there before it trusts it.
#[derive(Drop)]
pub struct Slots {
    places: Vec<Ref>,
}

impl Slots {
    /// No places.
    pub fn new(alloc: Global) -> Slots {
        Slots {
            places: Vec::new(alloc),
        }
    }

    /// The place in a slot, if the heap has an object there.
    pub fn get(&self, heap: &Heap, slot: usize) -> Option<Ref>
        ensures { IfSome result (λ r. IsIn heap.now.objects r) }
    {
        let place = *self.places.get(slot % SLOTS)?;
        if place.index() < heap.mark().cells() {
            Some(place)
        } else {
            None
        }
    }

    /// Puts a place into a slot. If memory runs out it is not noted, which costs time alone.
    pub fn note(&mut self, slot: usize, place: Ref) {
        if self.places.is_empty() {
            let _ = self.places.resize(SLOTS, place);
        }
        let slot = slot % SLOTS;
        if slot < self.places.len() {
            self.places[slot] = place;
        }
    }
}
