//! What the events that are kept rest on.
ghost use Rattle.std.specs.Prelude.{◌≡◌, List, false, IfOk, OnOk};
ghost use Rattle.mw_model.specs.Terms.Object.{Object};
ghost use Rattle.mw_heap.specs.Objects.{object_at, IsIn};
ghost use Rattle.mw_slice.specs.Supports.{Support, Named, has, notes, IsInside};
ghost use Rattle.mw_slice.specs.Walks.{Inserts};
ghost use Rattle.mw_slice.specs.declared.part.Part.{Part};

use crate::part::Part;
use indexmap::IndexSet;
use mw_heap::{Heap, Memory, Ref};
use std::alloc::Global;

/// The parts that were met in the events kept so far, each entered once, and the places of the theorems that their proofs name.
#[derive(Drop)]
pub(crate) struct Basis {
    pub cells: IndexSet<Ref>,
    pub proofs: IndexSet<Ref>,
    pub lists: IndexSet<Ref>,
    pub places: IndexSet<u64>,
}

impl Basis {
    // Nothing. It is boxed, so that the proofs of its owner are short.
    pub fn new(alloc: Global) -> Result<Box<Basis>, Memory>
        ensures parts { IfOk result (λ b. (p : Part) → has b.value p ≡ false) }
        ensures supports { IfOk result (λ b. (os : List Object) (s : Support) → notes os b.value s ≡ false) }
    {
        let basis = Basis {
            cells: IndexSet::new(alloc),
            proofs: IndexSet::new(alloc),
            lists: IndexSet::new(alloc),
            places: IndexSet::new(alloc),
        };
        Ok(Box::new(alloc, basis)?)
    }

    // Meets a part, and tells whether that is new.
    pub fn insert(&mut self, part: Part) -> Result<bool, Memory>
        ensures { IfOk result (Inserts part self.old self.new) }
    {
        let is_new = match part {
            Part::Cell(x) => self.cells.insert(x)?,
            Part::Proof(x) => self.proofs.insert(x)?,
            Part::Proofs(x) => self.lists.insert(x)?,
        };
        Ok(is_new)
    }

    // Whether it is an atom that was met.
    pub fn has_name(&self, heap: &Heap, x: Ref) -> bool
        requires within { IsIn heap.now.objects x }
        requires inside { IsInside heap.now.objects self.now }
        ensures { result ≡ notes heap.now.objects self.now (Named (object_at heap.now.objects x)) }
    {
        heap.order();
        !heap.is_pair(Some(x)) && self.cells.contains(&x)
    }
}
