//! Heaps of bounded size.
ghost use Rattle.std.specs.Prelude.{◌≡◌, ◌<◌, ◌≤◌, false, [], length, get_or, IfOk, OnOk, OnErr};
ghost use Rattle.mw_heap.specs.Objects.{object_at, IsIn};
ghost use Rattle.mw_slice.specs.Heaps.{AllGrow, AllStay, IsNew, IsCut, object_in};

use crate::Copies;
use crate::added::Added;
use crate::copying::copy_or_cut;
use mw_heap::{Heap, Mark, Memory, Ref};
use std::alloc::Global;
use std::marker::Model;

/// Objects in several heaps, none of which grows much past a bound: the table of a small heap stays in the processor's cache, where
/// that of one heap for all events of a book would not. Seen as the lists of their objects.
#[derive(Drop)]
pub(crate) struct Heaps {
    heaps: Vec<Heap>,
    alloc: Global,
}

// The cells from which on a heap gets no more events: its tables take half a megabyte.
const MANY: usize = 1 << 14;

impl Model for Heaps {
    ghost use Rattle.std.specs.Prelude.{List, map};
    ghost use Rattle.std.specs.Coded.{coded_list};
    ghost use Rattle.mw_model.specs.Terms.Object.{Object};
    ghost use Rattle.mw_heap.specs.Code.{coded_object};
    ghost use Rattle.mw_slice.specs.Heaps.{objects_each};

    ghost Value = { List (List Object) };

    ghost coded = { coded_list (coded_list coded_object) };

    ghost view = { λ h. objects_each h.heaps.items };
}

// An empty heap, in a box, so that the proofs of its owner are short.
fn boxed(alloc: Global) -> Result<Box<Heap>, Memory> {
    let heap = Heap::new(alloc)?;
    Ok(Box::new(alloc, heap)?)
}

/// A heap that finds the words of events by their places.
pub(crate) fn heap_with_words(alloc: Global) -> Result<Box<Heap>, Memory> {
    let mut heap = boxed(alloc)?;
    heap.keep_words()?;
    Ok(heap)
}

impl Heaps {
    /// No heaps.
    pub fn new(alloc: Global) -> Heaps
        ensures { result ≡ [] }
    {
        Heaps {
            heaps: Vec::new(alloc),
            alloc,
        }
    }

    /// Where its memory comes from.
    pub fn alloc(&self) -> Global {
        self.alloc
    }

    /// The number of heaps.
    pub fn len(&self) -> usize
        ensures { result ≡ length self.now }
    {
        self.heaps.len()
    }

    /// A heap by its place.
    pub fn get(&self, place: usize) -> &Heap
        requires { place < length self.now }
        ensures { result.now.objects ≡ get_or self.now place [] }
    {
        &self.heaps[place]
    }

    // Whether the last heap gets no more events.
    fn is_full(&self) -> bool
        ensures { result ≡ false → 0 < length self.now }
    {
        match self.heaps.last() {
            Some(heap) => heap.mark().cells() >= MANY,
            None => true,
        }
    }

    // Begins a heap, with room for its events.
    fn begin(&mut self) -> Result<(), Memory>
        ensures stay { AllStay self.old self.new }
        ensures some { OnOk result (0 < length self.new) }
    {
        let mut heap = heap_with_words(self.alloc)?;
        heap.make_room(MANY);
        self.heaps.push(Box::into_inner(heap))?;
        Ok(())
    }

    // The place of the heap that the next event goes to.
    fn open(&mut self) -> Result<usize, Memory>
        ensures stay { AllStay self.old self.new }
        ensures place { IfOk result (λ k. k < length self.new) }
    {
        if self.is_full() {
            self.begin()?;
        }
        Ok(self.heaps.len() - 1)
    }

    // Copies an event from another heap to the one at a place.
    fn copy_to(
        &mut self,
        place: usize,
        from: &Heap,
        x: Ref,
        copies: &mut Copies,
    ) -> Result<Added, Memory>
        requires place { place < length self.old }
        requires within { IsIn from.now.objects x }
        ensures grow { AllGrow self.old self.new }
        ensures placed { IfOk result (IsNew self.old self.new) }
        ensures made { IfOk result (λ a. object_in self.new a ≡ object_at from.now.objects x) }
        ensures err { OnErr result (AllStay self.old self.new) }
    {
        let heap = &mut self.heaps[place];
        let start = heap.mark();
        let event = copy_or_cut(from, x, heap, copies)?;
        Ok(Added {
            heap: place,
            start,
            event,
        })
    }

    /// Copies an event from another heap to the last one, or to a new one where that is full. The error is out of memory: the
    /// heaps are then as they were, but for a new one.
    pub fn copy(&mut self, from: &Heap, x: Ref, copies: &mut Copies) -> Result<Added, Memory>
        requires { IsIn from.now.objects x }
        ensures grow { AllGrow self.old self.new }
        ensures placed { IfOk result (IsNew self.old self.new) }
        ensures made { IfOk result (λ a. object_in self.new a ≡ object_at from.now.objects x) }
        ensures err { OnErr result (AllStay self.old self.new) }
    {
        let place = self.open()?;
        self.copy_to(place, from, x, copies)
    }

    /// Cuts the heap at a place back to a mark.
    pub fn cut_back(&mut self, place: usize, to: Mark)
        requires place { place < length self.old }
        requires to { to ≤ length (get_or self.old place []) }
        ensures { IsCut self.old self.new place to }
    {
        let heap = &mut self.heaps[place];
        heap.cut_back(to);
    }
}
