//! What is kept of a theory.
ghost use Rattle.std.specs.Prelude.{◌≡◌, OnOk, OnErr};
ghost use Rattle.mw_model.specs.Values.Definition.{Block};
ghost use Rattle.mw_model.specs.Events.Theory.{IsSound};
ghost use Rattle.mw_model.specs.Events.Admission.{add_to_theory};
ghost use Rattle.mw_heap.specs.Objects.{object_at, IsIn, Grows};
ghost use Rattle.mw_theory.specs.Knowledge.{parts_of, meant, with_theorem, IsHeld};
ghost use Rattle.mw_theory.specs.Defining.{IsNewBlock, HasOtherCode};

use crate::adding::{Addition, Lists, add_block};
use crate::front::with_front;
use mw_code::Table;
use mw_heap::{Heap, Memory, Profile, Ref};
use mw_preamble::{Definition, Entries};
use mw_rules::Known;
use mw_term::{Arity, Watch};

/// A theory, beside the heap that has its objects.
#[derive(Drop)]
pub struct Theory {
    pub profile: Profile,
    pub known_axioms: Known,
    pub known_theorems: Known,
    pub arity: Arity,
    /// What a new name could make other terms and formulas of.
    pub(crate) watch: Watch,
    // the same as lists in the heap
    pub axioms: Ref,
    pub theorems: Ref,
    pub arity_list: Ref,
    pub(crate) entries: Entries,
    // It is boxed, so that the proofs of its owners are short.
    pub table: Box<Table>,
    // the name of a function; none for the built-in checker
    pub checker: Option<Ref>,
    pub level: u64,
    // whether it is the initial theory of the first profile
    pub(crate) is_initial: bool,
}

impl Theory {
    /// Puts a theorem in front of the others. If memory runs out, the theory stays.
    pub fn add_theorem(&mut self, heap: &mut Heap, formula: Ref) -> Result<(), Memory>
        requires held { IsHeld heap.old.objects self.old }
        requires within { IsIn heap.old.objects formula }
        requires sound { IsSound (with_theorem (meant heap.old.objects (parts_of self.old)) (object_at heap.old.objects formula)) }
        ensures grows { Grows heap.old.objects heap.new.objects }
        ensures held { OnOk result (IsHeld heap.new.objects self.new) }
        ensures theory { OnOk result (meant heap.new.objects (parts_of self.new) ≡ with_theorem (meant heap.old.objects (parts_of self.old)) (object_at heap.old.objects formula)) }
        ensures arity { OnOk result (self.new.arity ≡ self.old.arity) }
        ensures watch { OnOk result (self.new.watch ≡ self.old.watch) }
        ensures err { OnErr result (self.new ≡ self.old) }
    {
        let theorems = with_front(heap, formula, self.theorems)?;
        self.known_theorems.add(formula)?;
        self.theorems = theorems;
        self.is_initial = false;
        Ok(())
    }

    /// Adds a block of definitions with the list of its axioms; the watch is left to be settled. If memory runs out, the theory stays; its
    /// code may be laid out anew.
    pub fn add_definitions(
        &mut self,
        heap: &mut Heap,
        block: &[Definition],
        axioms: Ref,
    ) -> Result<(), Memory>
        requires held { IsHeld heap.old.objects self.old }
        requires block { (B : Block) × IsNewBlock heap.old.objects (parts_of self.old) block.now axioms B }
        ensures grows { Grows heap.old.objects heap.new.objects }
        ensures held { OnOk result (IsHeld heap.new.objects self.new) }
        ensures theory { (B : Block) → IsNewBlock heap.old.objects (parts_of self.old) block.now axioms B → OnOk result (meant heap.new.objects (parts_of self.new) ≡ add_to_theory (meant heap.old.objects (parts_of self.old)) B) }
        ensures watch { OnOk result (self.new.watch ≡ self.old.watch) }
        ensures err { OnErr result (HasOtherCode self.old self.new) }
    {
        let members = heap.list_members(axioms)?;
        let lists = add_block(
            heap,
            &Addition {
                block,
                axioms: members.as_slice(),
            },
            Lists {
                axioms: self.axioms,
                arity_list: self.arity_list,
            },
            &mut self.arity,
            &mut self.entries,
            &mut self.table,
            &mut self.known_axioms,
        )?;
        self.axioms = lists.axioms;
        self.arity_list = lists.arity_list;
        self.is_initial = false;
        Ok(())
    }
}
