//! Whether a cell is an instance of a term, with nothing made.
ghost use Rattle.std.specs.Prelude.{◌≡◌, [], None, IfOk, OnOk};
ghost use Rattle.mw_model.specs.Terms.Object.{same_object};
ghost use Rattle.mw_model.specs.Laws.Rules.{substitute_object};
ghost use Rattle.mw_heap.specs.Objects.{object_at, IsIn};
ghost use Rattle.mw_subst.specs.Sigma.{sigma_object, AreIn};
ghost use Rattle.mw_subst.specs.Memo.{AreUnique, IsPartIn};
ghost use Rattle.mw_subst.specs.Instances.{IsEntered, IsTaken};
ghost use Rattle.mw_subst.specs.declared.part.Part.TheVariants.{Term, Terms};

use crate::Sigma;
use crate::memo::Memo;
use crate::part::Part;
use crate::walk::image;
use mw_heap::{Heap, Memory, Ref, View, Word};

// Whether y can be the instance of a term. What that comes to for the terms in it waits.
fn enter_term(
    heap: &Heap,
    sigma: &Sigma,
    x: Ref,
    y: Ref,
    waiting: &mut Vec<(Part, Ref)>,
) -> Result<bool, Memory>
    requires within { IsIn heap.now.objects x }
    requires sigma { AreIn heap.now.objects sigma.now }
    requires instance { IsIn heap.now.objects y }
    ensures { IfOk result (λ b. IsEntered heap.now.objects (sigma_object heap.now.objects sigma.now) (Term x, y) waiting.old.items waiting.new.items b) }
{
    let View::Pair(head, actuals) = heap.view(x) else {
        return Ok(heap.same(image(heap, sigma, x), y));
    };
    if heap.is_word(Some(head), Word::Quote) {
        return Ok(heap.same(x, y));
    }
    let View::Pair(first, rest) = heap.view(y) else {
        return Ok(false);
    };
    if !heap.same(head, first) {
        return Ok(false);
    }
    waiting.push((Part::Terms(actuals), rest))?;
    Ok(true)
}

// Whether y can be the list of the instances of terms. What that comes to for the first and the rest waits.
fn enter_terms(
    heap: &Heap,
    sigma: &Sigma,
    x: Ref,
    y: Ref,
    waiting: &mut Vec<(Part, Ref)>,
) -> Result<bool, Memory>
    requires within { IsIn heap.now.objects x }
    requires instance { IsIn heap.now.objects y }
    ensures { IfOk result (λ b. IsEntered heap.now.objects (sigma_object heap.now.objects sigma.now) (Terms x, y) waiting.old.items waiting.new.items b) }
{
    let View::Pair(term, terms) = heap.view(x) else {
        return Ok(heap.is_word(Some(y), Word::Nil));
    };
    let View::Pair(first, rest) = heap.view(y) else {
        return Ok(false);
    };
    waiting.push((Part::Terms(terms), rest))?;
    waiting.push((Part::Term(term), first))?;
    Ok(true)
}

fn enter(
    heap: &Heap,
    sigma: &Sigma,
    part: &Part,
    y: Ref,
    waiting: &mut Vec<(Part, Ref)>,
) -> Result<bool, Memory>
    requires within { IsPartIn heap.now.objects part.now }
    requires sigma { AreIn heap.now.objects sigma.now }
    requires instance { IsIn heap.now.objects y }
    ensures { IfOk result (λ b. IsEntered heap.now.objects (sigma_object heap.now.objects sigma.now) (part.now, y) waiting.old.items waiting.new.items b) }
{
    match *part {
        Part::Term(x) => enter_term(heap, sigma, x, y, waiting),
        Part::Terms(x) => enter_terms(heap, sigma, x, y, waiting),
    }
}

// Whether y can be the instance of a part: where the part came before, only the cell that it had to be then. A new part takes a look.
fn take_up(
    heap: &mut Heap,
    sigma: &Sigma,
    part: Part,
    y: Ref,
    noted: &mut Memo,
    waiting: &mut Vec<(Part, Ref)>,
) -> Result<bool, Memory>
    requires within { IsPartIn heap.old.objects part }
    requires sigma { AreIn heap.old.objects sigma.now }
    requires instance { IsIn heap.old.objects y }
    requires unique { AreUnique noted.old.terms noted.old.lists }
    ensures objects { heap.new.objects ≡ heap.old.objects }
    ensures unique { OnOk result (AreUnique noted.new.terms noted.new.lists) }
    ensures taken { IfOk result (λ b. IsTaken heap.old.objects (sigma_object heap.old.objects sigma.now) (part, y) noted.old noted.new waiting.old.items waiting.new.items b) }
{
    if let Some(cell) = noted.find(part) {
        return Ok(cell == y);
    }
    heap.take_look()?;
    noted.add(part, y)?;
    enter(heap, sigma, &part, y, waiting)
}

// Whether y is the term x with the terms of a substitution. Which cell each part of x has to be is taken up one part after another.
fn compare(heap: &mut Heap, x: Ref, sigma: &Sigma, y: Ref, noted: &mut Memo) -> Result<bool, Memory>
    requires within { IsIn heap.old.objects x }
    requires sigma { AreIn heap.old.objects sigma.now }
    requires instance { IsIn heap.old.objects y }
    requires no_terms { noted.old.terms ≡ [] }
    requires no_lists { noted.old.lists ≡ [] }
    ensures objects { heap.new.objects ≡ heap.old.objects }
    ensures instance { IfOk result (λ b. b ≡ same_object (substitute_object (sigma_object heap.old.objects sigma.now) (object_at heap.old.objects x)) (object_at heap.old.objects y)) }
{
    heap.order();
    let mut waiting = Vec::new(sigma.alloc());
    waiting.push((Part::Term(x), y))?;
    while let Some((part, cell)) = waiting.pop() {
        if !take_up(heap, sigma, part, cell, noted, &mut waiting)? {
            return Ok(false);
        }
    }
    Ok(true)
}

/// Whether y is the term x with the terms of a substitution for its variables. Nothing is made. It takes a look, from those that the heap
/// allows, for each cell that it comes to as a term and for each that it comes to as a list of terms; and it ends at the first that
/// differs. The errors are out of memory, and that no look is left.
pub fn is_instance(heap: &mut Heap, x: Ref, sigma: &Sigma, y: Ref) -> Result<bool, Memory>
    requires within { IsIn heap.old.objects x }
    requires sigma { AreIn heap.old.objects sigma.now }
    requires instance { IsIn heap.old.objects y }
    ensures objects { heap.new.objects ≡ heap.old.objects }
    ensures instance { IfOk result (λ b. b ≡ same_object (substitute_object (sigma_object heap.old.objects sigma.now) (object_at heap.old.objects x)) (object_at heap.old.objects y)) }
{
    let mut noted = Memo::lent(heap);
    let is = compare(heap, x, sigma, y, &mut noted)?;
    noted.give_back(heap);
    Ok(is)
}
