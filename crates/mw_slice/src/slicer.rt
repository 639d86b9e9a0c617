//! The accepted events of a book.
ghost use Rattle.std.specs.Prelude.{◌≡◌, ◌≢◌, ◌<◌, ℕ, [], ◌∷◌, ◌++◌, List, length, true, IfOk, OnOk, OnErr};
ghost use Rattle.mw_model.specs.Terms.Object.{Object, is_name, name_of_bytes};
ghost use Rattle.mw_commands.specs.Commands.Slice.{event_at};
ghost use Rattle.mw_heap.specs.Objects.{object_at, IsIn};
ghost use Rattle.mw_slice.specs.Picked.{IsPicked};
ghost use Rattle.mw_slice.specs.Slices.{events_of, heap_at};

use crate::added::Added;
use crate::heaps::Heaps;
use crate::picking::pick;
use crate::{Copies, Picked, Positions};
use mw_heap::{Heap, Memory, Ref};
use std::alloc::Global;
use std::marker::Model;

/// The events of a list, in heaps of their own.
#[derive(Drop)]
pub struct Slicer {
    heaps: Heaps,
    added: Vec<Added>,
    // what `add` notes while it copies an event
    copies: Copies,
}

impl Model for Slicer {
    ghost use Rattle.mw_slice.specs.Slices.{Slices, coded_slices, places_of};
    ghost use Rattle.mw_slice.specs.Heaps.{AreInOrder};

    ghost Value = { Slices };

    ghost coded = { coded_slices };

    ghost view = { λ s. record { heaps = s.heaps; events = places_of s.added.items } };

    ghost invariant = { λ s. AreInOrder s.heaps s.added.items };
}

impl Slicer {
    /// No events.
    pub fn new(alloc: Global) -> Slicer
        ensures { events_of result ≡ [] }
    {
        Slicer {
            heaps: Heaps::new(alloc),
            added: Vec::new(alloc),
            copies: Copies::new(alloc),
        }
    }

    /// Copies an event from another heap and adds it at the end. It takes time in proportion to the distinct cells of the event. The
    /// error is out of memory: the events are then as they were, and so are their heaps.
    pub fn add(&mut self, from: &Heap, event: Ref) -> Result<(), Memory>
        requires within { IsIn from.now.objects event }
        ensures added { OnOk result (events_of self.new ≡ events_of self.old ++ object_at from.now.objects event ∷ []) }
        ensures err { OnErr result (events_of self.new ≡ events_of self.old) }
        ensures heaps { OnErr result ((j : ℕ) → j < length self.old.events → heap_at self.new j ≡ heap_at self.old j) }
    {
        self.added.reserve(1)?;
        let added = self.heaps.copy(from, event, &mut self.copies)?;
        self.added.push(added)?;
        Ok(())
    }

    /// Drops the event that was added last, and what its heap has for it alone.
    pub fn take_back(&mut self)
        requires { events_of self.old ≢ [] }
        ensures { (es : List Object) (e : Object) → events_of self.old ≡ es ++ e ∷ [] → events_of self.new ≡ es }
    {
        if let Some(last) = self.added.pop() {
            self.heaps.cut_back(last.heap, last.start);
        }
    }

    /// The places of the events that the first theorem of this name rests on, and its own. Of each event it looks at the name and the
    /// names that it adds, and then it takes time in proportion to the distinct cells of those that are picked; for a step by THEOREM it
    /// looks once at each cell that `add` copied, and where there is such a step, at the formula of each theorem.
    pub fn pick(&self, name: &[u8]) -> Picked
        requires { is_name name.now ≡ true }
        ensures { IsPicked (events_of self.now) (name_of_bytes name.now) result }
    {
        match pick(&self.heaps, self.added.as_slice(), name) {
            Ok(Some(places)) => Picked::Events(Positions::new(places)),
            Ok(None) => Picked::Absent,
            Err(Memory) => Picked::Memory,
        }
    }

    /// The heap of the event at a place, counted from 0.
    pub fn heap(&self, position: u64) -> &Heap
        requires { position < length (events_of self.now) }
        ensures { result.now.objects ≡ heap_at self.now position }
    {
        self.heaps.get(self.added[position as usize].heap)
    }

    /// The event at a place, counted from 0, in its heap.
    pub fn event(&self, position: u64) -> Ref
        requires { position < length (events_of self.now) }
        ensures within { IsIn (heap_at self.now position) result }
        ensures event { object_at (heap_at self.now position) result ≡ event_at (events_of self.now) position }
    {
        self.added[position as usize].event
    }
}
