//! Marks that stay right as names come.
ghost use Rattle.std.specs.Prelude.{◌≡◌, ℕ, ◌+◌, ◌<◌, ◌≤◌, ◌⊎◌, List, [], length, false, IfOk, OnOk};
ghost use Rattle.mw_model.specs.Terms.Object.{Object};
ghost use Rattle.mw_model.specs.Terms.Term.{ArityTable};
ghost use Rattle.mw_heap.specs.Objects.{IsIn};
ghost use Rattle.mw_term.specs.Marking.{AreMarks};
ghost use Rattle.mw_term.specs.Bodies.{AreBodies};
ghost use Rattle.mw_term.specs.Watching.{mark_in, IsOneOf};
ghost use Rattle.mw_term.specs.Settling.{Waits, IsSettling, IsAwake, IsWatch, WakesNoted, WakesIfChanged};

use crate::Arity;
use crate::bodies::Bodies;
use crate::cell_mark::CellMark;
use crate::marks::{Marks, mark_cell};
use crate::notes::Notes;
use crate::noting::note_reasons;
use crate::work::Work;
use mw_heap::{Heap, Memory, Ref, looks_for};
use std::alloc::Global;
use std::collections::BTreeSet;

/// Of the first objects of a heap, what could make other terms and formulas of them: each is noted with the names and the parts that it
/// waits for. So a new name has only those marked anew that it may change. `IsWatch` says for which heap and table the notes are right:
/// as the heap grows they stay so, and where names come `wake` and `settle` make them so again, and the marks with them.
#[derive(Drop)]
pub struct Watch {
    // of each object that is watched, whether its mark lasts, whatever names come
    lasting: Vec<bool>,
    notes: Notes,
    // those that are to be marked anew, the first one first
    waiting: BTreeSet<Ref>,
    // the looks at cells that marking anew may still take
    looks_left: u64,
    alloc: Global,
}

// How often an object is marked anew at most: it is noted with four parts at most, each of which changes four times at most, and once with
// a name.
const MOST_TIMES: usize = 17;

impl Watch {
    /// A watch of no objects. It takes no memory.
    pub fn new(alloc: Global) -> Watch
        ensures { (A : ArityTable) (os : List Object) → IsWatch A os result }
    {
        Watch {
            lasting: Vec::new(alloc),
            notes: Notes::new(alloc),
            waiting: BTreeSet::new(alloc),
            looks_left: 0,
            alloc,
        }
    }

    /// Has all objects wait that are noted with a symbol or a part, since that has changed. The one error is out of memory.
    pub fn wake(&mut self, part: Ref) -> Result<(), Memory>
        ensures { OnOk result (WakesNoted self.old self.new part) }
    {
        let cells = self.notes.take(part);
        add_all(&mut self.waiting, cells.as_slice())
    }

    /// Makes the marks right under a table that has new names, once all that is noted with these was woken, and marks and notes the other
    /// objects of the heap. It takes time in proportion to the objects that wait and those that have come, and to the walks of `mark_terms`.
    /// The error is running out of memory, also where these walks take more looks than the objects that are watched allow, and at once
    /// after `give_up`. Then neither the marks nor the notes are right any more: `give_up` forgets them.
    pub fn settle(&mut self, marks: &mut Marks, heap: &Heap, arity: &Arity) -> Result<(), Memory>
        requires marked { (A : ArityTable) × (AreMarks A heap.now.objects marks.old × IsAwake A arity.now heap.now.objects self.old) }
        ensures marked { OnOk result (AreMarks arity.now heap.now.objects marks.new) }
        ensures watch { OnOk result (IsWatch arity.now heap.now.objects self.new) }
    {
        if marks.is_without_memory {
            return Err(Memory);
        }
        let had = self.lasting.len();
        if marks.len() < had {
            return Err(Memory);
        }
        marks.cells.truncate(had);
        let end = heap.mark().cells();
        let looks = looks_for(end - had) / 4;
        let mut work = Work::new(self.alloc, self.looks_left.saturating_add(looks));
        let mut bodies = Bodies::new(self.alloc);
        self.mark_waiting(&mut marks.cells, heap, arity, &mut bodies, &mut work)?;
        self.mark_others(&mut marks.cells, heap, arity, end, &mut bodies, &mut work)?;
        self.looks_left = work.looks_left;
        Ok(())
    }

    // Marks the objects that wait, and those that come to wait, the first one first.
    fn mark_waiting(
        &mut self,
        cells: &mut Vec<CellMark>,
        heap: &Heap,
        arity: &Arity,
        bodies: &mut Bodies,
        work: &mut Work,
    ) -> Result<(), Memory>
        requires size { length cells.old.items ≡ length self.old.lasting.items }
        requires settling { IsSettling arity.now heap.now.objects (mark_in cells.old.items) self.old (Waits self.old) }
        requires bodies { AreBodies heap.now.objects bodies.old.found.entries }
        ensures size { OnOk result (length cells.new.items ≡ length self.new.lasting.items) }
        ensures settling { OnOk result (IsSettling arity.now heap.now.objects (mark_in cells.new.items) self.new (Waits self.new)) }
        ensures none { OnOk result (self.new.waiting.keys ≡ []) }
        ensures bodies { OnOk result (AreBodies heap.now.objects bodies.new.found.entries) }
    {
        let turns = cells.len().saturating_mul(MOST_TIMES);
        for _ in 0..turns.saturating_add(1) {
            if !self.mark_first(cells, heap, arity, bodies, work)? {
                return Ok(());
            }
        }
        Err(Memory)
    }

    // Marks the first object that waits, if one does. It answers whether one did.
    fn mark_first(
        &mut self,
        cells: &mut Vec<CellMark>,
        heap: &Heap,
        arity: &Arity,
        bodies: &mut Bodies,
        work: &mut Work,
    ) -> Result<bool, Memory>
        requires size { length cells.old.items ≡ length self.old.lasting.items }
        requires settling { IsSettling arity.now heap.now.objects (mark_in cells.old.items) self.old (Waits self.old) }
        requires bodies { AreBodies heap.now.objects bodies.old.found.entries }
        ensures size { OnOk result (length cells.new.items ≡ length self.new.lasting.items) }
        ensures settling { OnOk result (IsSettling arity.now heap.now.objects (mark_in cells.new.items) self.new (Waits self.new)) }
        ensures none { IfOk result (λ waited. waited ≡ false → self.new.waiting.keys ≡ []) }
        ensures bodies { OnOk result (AreBodies heap.now.objects bodies.new.found.entries) }
    {
        let Some(x) = self.waiting.pop_first() else {
            return Ok(false);
        };
        if x.index() < cells.len() {
            self.mark_anew(cells, heap, arity, x, bodies, work)?;
        }
        Ok(true)
    }

    // Marks an object anew, before all that wait, and wakes what is noted with it where its mark changes.
    fn mark_anew(
        &mut self,
        cells: &mut Vec<CellMark>,
        heap: &Heap,
        arity: &Arity,
        x: Ref,
        bodies: &mut Bodies,
        work: &mut Work,
    ) -> Result<(), Memory>
        requires size { length cells.old.items ≡ length self.old.lasting.items }
        requires within { x < length cells.old.items }
        requires first { (y : ℕ) → Waits self.old y → x ≤ y }
        requires settling { IsSettling arity.now heap.now.objects (mark_in cells.old.items) self.old (λ y. (y ≡ x) ⊎ Waits self.old y) }
        requires bodies { AreBodies heap.now.objects bodies.old.found.entries }
        ensures size { OnOk result (length cells.new.items ≡ length self.new.lasting.items) }
        ensures settling { OnOk result (IsSettling arity.now heap.now.objects (mark_in cells.new.items) self.new (Waits self.new)) }
        ensures bodies { OnOk result (AreBodies heap.now.objects bodies.new.found.entries) }
    {
        let at = x.index();
        let marks = &cells.as_slice()[..at];
        let mark = mark_cell(heap, arity, marks, x, bodies, work)?;
        let lasts = note_reasons(
            &mut self.notes,
            self.lasting.as_slice(),
            heap,
            arity,
            marks,
            x,
            &mark,
        )?;
        self.wake_if_changed(x, &cells[at], &mark)?;
        cells[at] = mark;
        self.lasting[at] = lasts;
        Ok(())
    }

    // Has all objects wait that are noted with a part, where its mark has changed.
    fn wake_if_changed(
        &mut self,
        part: Ref,
        before: &CellMark,
        after: &CellMark,
    ) -> Result<(), Memory>
        ensures { OnOk result (WakesIfChanged self.old self.new part before.now after.now) }
    {
        if !before.differs_from(after) {
            return Ok(());
        }
        self.wake(part)
    }

    // Marks the objects up to an index that have no marks.
    fn mark_others(
        &mut self,
        cells: &mut Vec<CellMark>,
        heap: &Heap,
        arity: &Arity,
        end: usize,
        bodies: &mut Bodies,
        work: &mut Work,
    ) -> Result<(), Memory>
        requires size { length cells.old.items ≡ length self.old.lasting.items }
        requires settling { IsSettling arity.now heap.now.objects (mark_in cells.old.items) self.old (Waits self.old) }
        requires none { self.old.waiting.keys ≡ [] }
        requires to { end ≤ length heap.now.objects }
        requires bodies { AreBodies heap.now.objects bodies.old.found.entries }
        ensures marked { OnOk result (AreMarks arity.now heap.now.objects cells.new.items) }
        ensures watch { OnOk result (IsWatch arity.now heap.now.objects self.new) }
    {
        for i in cells.len()..end {
            self.mark_next(cells, heap, arity, heap.nth(i), bodies, work)?;
        }
        Ok(())
    }

    // Gives the object that comes after those with marks its own.
    fn mark_next(
        &mut self,
        cells: &mut Vec<CellMark>,
        heap: &Heap,
        arity: &Arity,
        x: Ref,
        bodies: &mut Bodies,
        work: &mut Work,
    ) -> Result<(), Memory>
        requires size { length cells.old.items ≡ length self.old.lasting.items }
        requires next { x ≡ length cells.old.items }
        requires within { IsIn heap.now.objects x }
        requires settling { IsSettling arity.now heap.now.objects (mark_in cells.old.items) self.old (Waits self.old) }
        requires none { self.old.waiting.keys ≡ [] }
        requires bodies { AreBodies heap.now.objects bodies.old.found.entries }
        ensures size { OnOk result ((length cells.new.items ≡ x + 1) × (length self.new.lasting.items ≡ x + 1)) }
        ensures settling { OnOk result (IsSettling arity.now heap.now.objects (mark_in cells.new.items) self.new (Waits self.new)) }
        ensures none { OnOk result (self.new.waiting.keys ≡ []) }
        ensures bodies { OnOk result (AreBodies heap.now.objects bodies.new.found.entries) }
    {
        let marks = cells.as_slice();
        let mark = mark_cell(heap, arity, marks, x, bodies, work)?;
        let lasts = note_reasons(
            &mut self.notes,
            self.lasting.as_slice(),
            heap,
            arity,
            marks,
            x,
            &mark,
        )?;
        cells.push(mark)?;
        self.lasting.push(lasts)?;
        Ok(())
    }
}

/// Forgets all notes, and all marks for ever: no object gets a mark any more.
pub fn give_up(watch: &mut Watch, marks: &mut Marks)
    ensures marked { (A : ArityTable) (os : List Object) → AreMarks A os marks.new }
    ensures watch { (A : ArityTable) (os : List Object) → IsWatch A os watch.new }
{
    let alloc = watch.alloc;
    *watch = Watch::new(alloc);
    *marks = Marks::without_memory(alloc);
}

// Adds these to a set.
fn add_all(set: &mut BTreeSet<Ref>, cells: &[Ref]) -> Result<(), Memory>
    ensures { OnOk result ((x : ℕ) → IsOneOf set.old.keys x ⊎ IsOneOf cells.now x → IsOneOf set.new.keys x) }
{
    for cell in cells {
        set.insert(*cell)?;
    }
    Ok(())
}
