//! Marks of objects.
ghost use Rattle.std.specs.Prelude.{◌≡◌, ◌<◌, ◌≤◌, true, List, [], length, take, IfOk, OnOk, OnErr};
ghost use Rattle.mw_model.specs.Terms.Object.{Object, Pair};
ghost use Rattle.mw_model.specs.Terms.Term.{ArityTable};
ghost use Rattle.mw_model.specs.Values.Primitive.{is_symbol};
ghost use Rattle.mw_model.specs.Laws.Rules.{is_term_object, is_formula_object};
ghost use Rattle.mw_heap.specs.Objects.{object_at, IsIn};
ghost use Rattle.mw_term.specs.Marking.{AreMarks, mark_of_object};
ghost use Rattle.mw_term.specs.Bodies.{AreBodies};

use crate::Arity;
use crate::bodies::Bodies;
use crate::cell_mark::{CellMark, mark_at};
use crate::head::is_lambda_head;
use crate::list::{are_more_terms, is_call, is_formula_list, is_lambda_call};
use crate::names::is_variable_symbol;
use crate::work::Work;
use mw_heap::{Heap, Mark, Memory, Ref, View, looks_for};
use std::alloc::Global;
use std::marker::Model;

// The mark of the symbol x.
fn mark_symbol(heap: &Heap, x: Ref) -> CellMark
    requires within { IsIn heap.now.objects x }
    requires symbol { is_symbol (object_at heap.now.objects x) ≡ true }
    ensures { (A : ArityTable) → result ≡ mark_of_object A (object_at heap.now.objects x) }
{
    CellMark::no_formula(is_variable_symbol(heap, x), heap.is_nil(Some(x)))
}

// The mark of the pair of first and rest, whose marks stand.
fn mark_pair(
    heap: &Heap,
    arity: &Arity,
    marks: &[CellMark],
    first: Ref,
    rest: Ref,
    bodies: &mut Bodies,
    work: &mut Work,
) -> Result<CellMark, Memory>
    requires marked { AreMarks arity.now heap.now.objects marks.now }
    requires first { first < length marks.now }
    requires rest { rest < length marks.now }
    requires bodies { AreBodies heap.now.objects bodies.old.found.entries }
    ensures mark { IfOk result (λ m. m ≡ mark_of_object arity.now (Pair (object_at heap.now.objects first) (object_at heap.now.objects rest))) }
    ensures bodies { OnOk result (AreBodies heap.now.objects bodies.new.found.entries) }
{
    let head = mark_at(marks, first);
    let actuals = mark_at(marks, rest);
    let is_terms = are_more_terms(head, actuals);
    match heap.view(first) {
        View::Nat(_) => Ok(CellMark::no_formula(false, is_terms)),
        View::Symbol => Ok(CellMark::new(
            is_call(heap, arity, first, rest, actuals.is_terms(), work)?,
            is_terms,
            is_formula_list(heap, marks, first, rest),
            is_lambda_head(heap, marks, first, rest, bodies, work)?,
        )),
        View::Pair(_, tail) => Ok(CellMark::no_formula(
            is_lambda_call(heap, head.is_head(), tail, actuals.is_terms(), rest, work)?,
            is_terms,
        )),
    }
}

/// The mark of x, where the marks of the objects before it stand.
pub(crate) fn mark_cell(
    heap: &Heap,
    arity: &Arity,
    marks: &[CellMark],
    x: Ref,
    bodies: &mut Bodies,
    work: &mut Work,
) -> Result<CellMark, Memory>
    requires within { IsIn heap.now.objects x }
    requires marked { AreMarks arity.now heap.now.objects marks.now }
    requires before { x ≤ length marks.now }
    requires bodies { AreBodies heap.now.objects bodies.old.found.entries }
    ensures mark { IfOk result (λ m. m ≡ mark_of_object arity.now (object_at heap.now.objects x)) }
    ensures bodies { OnOk result (AreBodies heap.now.objects bodies.new.found.entries) }
{
    match heap.view(x) {
        View::Nat(_) => Ok(CellMark::no_formula(false, false)),
        View::Symbol => Ok(mark_symbol(heap, x)),
        View::Pair(first, rest) => mark_pair(heap, arity, marks, first, rest, bodies, work),
    }
}

// Adds the marks of the objects up to an index. What stood stays, whatever comes.
fn mark_up_to(
    cells: &mut Vec<CellMark>,
    heap: &Heap,
    arity: &Arity,
    end: usize,
    bodies: &mut Bodies,
    work: &mut Work,
) -> Result<(), Memory>
    requires marked { AreMarks arity.now heap.now.objects cells.old.items }
    requires from { length cells.old.items ≤ end }
    requires to { end ≤ length heap.now.objects }
    requires bodies { AreBodies heap.now.objects bodies.old.found.entries }
    ensures marked { OnOk result (AreMarks arity.now heap.now.objects cells.new.items) }
    ensures length { OnOk result (length cells.new.items ≡ end) }
    ensures kept { take (length cells.old.items) cells.new.items ≡ cells.old.items }
    ensures bodies { OnOk result (AreBodies heap.now.objects bodies.new.found.entries) }
{
    for i in cells.len()..end {
        let mark = mark_cell(heap, arity, cells.as_slice(), heap.nth(i), bodies, work)?;
        cells.push(mark)?;
    }
    Ok(())
}

/// What the first objects of a heap are under an arity table: terms, formulas or neither. Seen as a list of marks, of which `AreMarks`
/// says for which heap and table they hold: as the heap grows they stay right, and `extend` adds those of the new objects. A `Watch` makes
/// them right under a table with new names.
#[derive(Drop)]
pub struct Marks {
    pub(crate) cells: Vec<CellMark>,
    // whether memory ran out as they were made right: then no object gets a mark
    pub(crate) is_without_memory: bool,
    alloc: Global,
}

impl Model for Marks {
    ghost use Rattle.std.specs.Prelude.{List};
    ghost use Rattle.std.specs.Coded.{coded_list};
    ghost use Rattle.mw_term.specs.Marking.{ObjectMark, coded_mark};

    ghost Value = { List ObjectMark };

    ghost coded = { coded_list coded_mark };

    ghost view = { λ m. m.cells.items };
}

/// The marks of the objects of the heap below a mark. It takes time in proportion to them, to the formals and the variables of each
/// distinct head of a lambda call, and to the size of each distinct body of one once; a body is walked again only if its variables were
/// forgotten because of those that came between. Where these share so much that it would be more than an allowance, it is answered as out
/// of memory.
pub fn mark_terms(alloc: Global, heap: &Heap, arity: &Arity, below: Mark) -> Result<Marks, Memory>
    requires { below ≤ length heap.now.objects }
    ensures marked { IfOk result (AreMarks arity.now heap.now.objects) }
    ensures length { IfOk result (λ m. length m ≡ below) }
{
    let mut marks = Marks::new(alloc);
    marks.extend(heap, arity, below)?;
    Ok(marks)
}

impl Marks {
    /// The marks of no objects.
    pub fn new(alloc: Global) -> Marks
        ensures { result ≡ [] }
    {
        Marks {
            cells: Vec::new(alloc),
            is_without_memory: false,
            alloc,
        }
    }

    /// The marks of no objects, to which none are added: `extend` answers out of memory.
    pub(crate) fn without_memory(alloc: Global) -> Marks
        ensures { result ≡ [] }
    {
        Marks {
            cells: Vec::new(alloc),
            is_without_memory: true,
            alloc,
        }
    }

    /// The number of objects that have marks.
    pub fn len(&self) -> usize
        ensures { result ≡ length self.now }
    {
        self.cells.len()
    }

    /// Adds the marks of the objects of the heap below a mark, at the cost of `mark_terms` for these. The error is out of memory, also if
    /// the allowance of `mark_terms` is used up, and always after `give_up`. Then the marks stay.
    pub fn extend(&mut self, heap: &Heap, arity: &Arity, below: Mark) -> Result<(), Memory>
        requires marked { AreMarks arity.now heap.now.objects self.old }
        requires from { length self.old ≤ below }
        requires to { below ≤ length heap.now.objects }
        ensures marked { OnOk result (AreMarks arity.now heap.now.objects self.new) }
        ensures length { OnOk result (length self.new ≡ below) }
        ensures err { OnErr result (self.new ≡ self.old) }
    {
        if self.is_without_memory {
            return Err(Memory);
        }
        let had = self.cells.len();
        // each look searches a table, which is as much work as four comparisons
        let looks = looks_for(below.cells() - had) / 4;
        let mut work = Work::new(self.alloc, looks);
        let mut bodies = Bodies::new(self.alloc);
        let done = mark_up_to(
            &mut self.cells,
            heap,
            arity,
            below.cells(),
            &mut bodies,
            &mut work,
        );
        if done.is_err() {
            self.cells.truncate(had);
        }
        done
    }

    /// Forgets the marks of the objects from a mark on, since the heap forgets these.
    pub fn cut(&mut self, to: Mark)
        ensures { self.new ≡ take to self.old }
    {
        self.cells.truncate(to.cells());
    }
}

/// Whether an object is a term.
pub fn is_term(marks: &Marks, x: Ref) -> bool
    requires { x < length marks.now }
    ensures { (A : ArityTable) (os : List Object) → AreMarks A os marks.now → result ≡ is_term_object A (object_at os x) }
{
    mark_at(marks.cells.as_slice(), x).is_term()
}

/// Whether an object is a formula.
pub fn is_formula(marks: &Marks, x: Ref) -> bool
    requires { x < length marks.now }
    ensures { (A : ArityTable) (os : List Object) → AreMarks A os marks.now → result ≡ is_formula_object A (object_at os x) }
{
    mark_at(marks.cells.as_slice(), x).is_formula()
}
