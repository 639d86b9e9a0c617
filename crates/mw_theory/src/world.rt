//! A theory in its heap, and how it changes.
ghost use Rattle.std.specs.Prelude.{◌≡◌, ◌≤◌, ◌+◌, max, List, length, take, IfOk, OnOk, OnErr};
ghost use Rattle.mw_model.specs.Terms.Object.{Object};
ghost use Rattle.mw_model.specs.Terms.Term.{ArityTable};
ghost use Rattle.mw_model.specs.Values.Primitive.{One, Two, name_of};
ghost use Rattle.mw_model.specs.Values.Definition.{Block};
ghost use Rattle.mw_model.specs.Events.Theory.{initial, IsSound};
ghost use Rattle.mw_model.specs.Events.Admission.{add_to_theory};
ghost use Rattle.mw_heap.specs.Objects.{object_at, IsIn};
ghost use Rattle.mw_term.specs.Marking.{AreMarks};
ghost use Rattle.mw_term.specs.Settling.{IsWatch};
ghost use Rattle.mw_theory.specs.Worlds.{theory_in, IsWorld};
ghost use Rattle.mw_theory.specs.Knowledge.{parts_of, meant, with_theorem, with_checker, IsNameIn, IsHeld};
ghost use Rattle.mw_preamble.specs.declared.definition.Definition.{Definition};
ghost use Rattle.mw_theory.specs.Defining.{IsNewBlockIn};

use crate::beginning::begin;
use crate::mark::later;
use crate::theory::Theory;
use crate::waking::settle;
use mw_heap::{Heap, Mark, Memory, Profile, Ref, looks_for};
use mw_preamble::Definition;
use mw_term::Marks;
use std::alloc::Global;

/// A sound theory, and the heap that has its objects.
#[derive(Drop)]
pub struct World {
    pub heap: Heap,
    /// How much of the heap the theory needs.
    pub(crate) needed: Mark,
    pub theory: Theory,
    /// Which objects of the heap are terms and formulas under the arity table.
    pub marks: Marks,
}

impl World {
    /// The initial theory of the first profile.
    pub fn new(alloc: Global) -> Result<World, Memory>
        ensures world { IfOk result IsWorld }
        ensures theory { IfOk result (λ w. theory_in w ≡ initial One) }
        ensures room { IfOk result (λ w. length w.heap.objects ≡ w.needed) }
    {
        let mut heap = boxed_heap(alloc)?;
        let theory = begin_first(&mut heap)?;
        Ok(World::over(Box::into_inner(heap), theory))
    }

    // A theory over the heap that has its objects, none of which has a mark.
    fn over(heap: Heap, theory: Theory) -> World
        requires held { IsHeld heap.objects theory }
        requires watched { IsWatch theory.arity heap.objects theory.watch }
        ensures world { IsWorld result }
        ensures theory { theory_in result ≡ meant heap.objects (parts_of theory) }
        ensures room { length result.heap.objects ≡ result.needed }
    {
        World {
            needed: heap.mark(),
            marks: Marks::new(heap.alloc()),
            heap,
            theory,
        }
    }

    /// Allows an event as many looks at cells as its own cells give it. Answers how many these are.
    pub fn allow_looks(&mut self) -> u64
        requires world { IsWorld self.old }
        ensures world { IsWorld self.new }
        ensures objects { self.new.heap.objects ≡ self.old.heap.objects }
        ensures rest { self.new ≡ record self.old { heap = self.new.heap } }
    {
        let cells = self.heap.mark().cells().saturating_sub(self.needed.cells());
        let looks = looks_for(cells);
        self.heap.allow_looks(looks);
        looks
    }

    /// Adds a theorem. Of the objects that the theory does not need, only those that came before it stay.
    pub(crate) fn add_theorem(&mut self, formula: Ref) -> Result<(), Memory>
        requires world { IsWorld self.old }
        requires within { IsIn self.old.heap.objects formula }
        requires sound { IsSound (with_theorem (theory_in self.old) (object_at self.old.heap.objects formula)) }
        ensures world { IsWorld self.new }
        ensures theory { OnOk result (theory_in self.new ≡ with_theorem (theory_in self.old) (object_at self.old.heap.objects formula)) }
        ensures err { OnErr result (theory_in self.new ≡ theory_in self.old) }
    {
        self.cut_past(formula);
        self.theory.add_theorem(&mut self.heap, formula)?;
        self.needed = self.heap.mark();
        Ok(())
    }

    // Forgets what stands after the list of the axioms of a block and all that the theory needs. The parts of the block are parts of its
    // axioms, and so they stand before that list.
    fn cut_behind(&mut self, axioms: Ref)
        requires world { IsWorld self.old }
        requires within { IsIn self.old.heap.objects axioms }
        ensures world { IsWorld self.new }
        ensures block { (ds : List Definition) (B : Block) → IsNewBlockIn self.old ds axioms B → IsNewBlockIn self.new ds axioms B }
        ensures theory { theory_in self.new ≡ theory_in self.old }
        ensures needed { self.new.needed ≡ self.old.needed }
    {
        self.heap.order();
        self.cut_past(axioms);
    }

    // Forgets what stands after an object and all that the theory needs.
    fn cut_past(&mut self, x: Ref)
        requires world { IsWorld self.old }
        requires within { IsIn self.old.heap.objects x }
        ensures world { IsWorld self.new }
        ensures objects { self.new.heap.objects ≡ take (max (x + 1) self.old.needed) self.old.heap.objects }
        ensures within { IsIn self.new.heap.objects x }
        ensures same { object_at self.new.heap.objects x ≡ object_at self.old.heap.objects x }
        ensures theory { theory_in self.new ≡ theory_in self.old }
        ensures needed { self.new.needed ≡ self.old.needed }
    {
        let end = self.heap.mark_after(x);
        self.cut_to(later(end, self.needed));
    }

    /// Adds a block of definitions with the list of its axioms. Of the objects that the theory does not need, only those that came before
    /// this list stay. The marks that the new names may change are made anew.
    pub(crate) fn add_definitions(
        &mut self,
        block: &[Definition],
        axioms: Ref,
    ) -> Result<(), Memory>
        requires world { IsWorld self.old }
        requires block { (B : Block) × IsNewBlockIn self.old block.now axioms B }
        ensures world { IsWorld self.new }
        ensures theory { (B : Block) → IsNewBlockIn self.old block.now axioms B → OnOk result (theory_in self.new ≡ add_to_theory (theory_in self.old) B) }
        ensures err { OnErr result (theory_in self.new ≡ theory_in self.old) }
        ensures err_needed { OnErr result (self.new.needed ≡ self.old.needed) }
    {
        self.cut_behind(axioms);
        self.theory.add_definitions(&mut self.heap, block, axioms)?;
        self.needed = self.heap.mark();
        settle(
            &mut self.theory.watch,
            &mut self.marks,
            &self.heap,
            &self.theory.arity,
            block,
        );
        Ok(())
    }

    /// Begins the initial theory of the second profile in place of the theory. The objects that were needed stay in the heap: the new theory
    /// has nearly all of them.
    pub(crate) fn begin_second(&mut self) -> Result<(), Memory>
        requires world { IsWorld self.old }
        ensures world { IsWorld self.new }
        ensures theory { OnOk result (theory_in self.new ≡ initial Two) }
        ensures err { OnErr result (theory_in self.new ≡ theory_in self.old) }
    {
        let theory = begin(&mut self.heap, Profile::Two)?;
        self.go_on_with(theory);
        Ok(())
    }

    /// Makes the function of this name the checker, at the next level. Of the objects that the theory does not need, only those that came
    /// before the name stay. Past the greatest level that a number of 64 bits holds the answer is out of memory, and the theory stays.
    pub fn set_checker(&mut self, name: Ref) -> Result<(), Memory>
        requires world { IsWorld self.old }
        requires name { IsNameIn self.old.heap.objects name }
        requires sound { IsSound (with_checker (theory_in self.old) (name_of (object_at self.old.heap.objects name))) }
        ensures world { IsWorld self.new }
        ensures theory { OnOk result (theory_in self.new ≡ with_checker (theory_in self.old) (name_of (object_at self.old.heap.objects name))) }
        ensures err { OnErr result (theory_in self.new ≡ theory_in self.old) }
    {
        let Some(level) = self.theory.level.checked_add(1) else {
            return Err(Memory);
        };
        self.cut_past(name);
        self.theory.checker = Some(name);
        self.theory.level = level;
        self.theory.is_initial = false;
        self.needed = self.heap.mark();
        Ok(())
    }

    // Puts a theory in the place of the one that there is. All that the heap holds is needed then, and no object has a mark.
    fn go_on_with(&mut self, theory: Theory)
        requires held { IsHeld self.old.heap.objects theory }
        requires watched { IsWatch theory.arity self.old.heap.objects theory.watch }
        ensures world { IsWorld self.new }
        ensures theory { theory_in self.new ≡ meant self.old.heap.objects (parts_of theory) }
    {
        self.theory = theory;
        self.marks = Marks::new(self.heap.alloc());
        self.needed = self.heap.mark();
    }

    /// Forgets the objects that the theory does not need.
    pub fn cut(&mut self)
        requires world { IsWorld self.old }
        ensures world { IsWorld self.new }
        ensures objects { self.new.heap.objects ≡ take self.old.needed self.old.heap.objects }
        ensures theory_kept { self.new.theory ≡ self.old.theory }
        ensures theory { theory_in self.new ≡ theory_in self.old }
        ensures needed { self.new.needed ≡ self.old.needed }
        ensures room { length self.new.heap.objects ≡ self.new.needed }
    {
        self.cut_to(self.needed);
    }

    /// Forgets the objects from a mark on, which the theory does not need.
    pub fn cut_to(&mut self, to: Mark)
        requires world { IsWorld self.old }
        requires needed { self.old.needed ≤ to }
        requires within { to ≤ length self.old.heap.objects }
        ensures world { IsWorld self.new }
        ensures objects { self.new.heap.objects ≡ take to self.old.heap.objects }
        ensures theory_kept { self.new.theory ≡ self.old.theory }
        ensures theory { theory_in self.new ≡ theory_in self.old }
        ensures needed { self.new.needed ≡ self.old.needed }
    {
        cut_marks(&mut self.marks, to);
        self.heap.cut_back(to);
    }
}

// An empty heap, in a box, so that the proofs of its owner are short.
fn boxed_heap(alloc: Global) -> Result<Box<Heap>, Memory> {
    let heap = Heap::new(alloc)?;
    Ok(Box::new(alloc, heap)?)
}

// The initial theory of the first profile, in a heap that has the words first, and finds them by their places.
fn begin_first(heap: &mut Heap) -> Result<Theory, Memory>
    ensures held { IfOk result (IsHeld heap.new.objects) }
    ensures watched { IfOk result (λ t. IsWatch t.arity heap.new.objects t.watch) }
    ensures theory { IfOk result (λ t. meant heap.new.objects (parts_of t) ≡ initial One) }
{
    heap.keep_words()?;
    begin(heap, Profile::One)
}

// Forgets the marks of the objects from there on, since the heap forgets these.
fn cut_marks(marks: &mut Marks, to: Mark)
    ensures few { length marks.new ≤ to }
    ensures marked { (A : ArityTable) (os : List Object) → AreMarks A os marks.old → AreMarks A os marks.new }
{
    marks.cut(to);
}
