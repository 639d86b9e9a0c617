//! Substitution in a term.
ghost use Rattle.std.specs.Prelude.{◌≡◌, ◌+◌, ◌<◌, ◌≤◌, ℕ, true, None, List, [], length, IfOk, OnOk, OnErr};
ghost use Rattle.mw_model.specs.Terms.Object.{symbol, same_object};
ghost use Rattle.mw_model.specs.Laws.Rules.{substitute_object, image_object};
ghost use Rattle.mw_heap.specs.Objects.{object_at, IsIn, Grows};
ghost use Rattle.mw_subst.specs.Sigma.{sigma_object, AreIn};
ghost use Rattle.mw_subst.specs.Memo.{AreMade, AreUnique, IsPartIn, found};
ghost use Rattle.mw_subst.specs.Steps.{IsStep, Advances};
ghost use Rattle.mw_subst.specs.Reached.{AreReached, HasAllReached};
ghost use Rattle.mw_subst.specs.declared.part.Part.TheVariants.{Term, Terms};

use crate::memo::Memo;
use crate::part::Part;
use crate::{Sigma, Steps};
use mw_heap::{Heap, Memory, Ref, View, Word};
use std::marker::Brand;
use std::sync::ledger::{Blank, Ledger};

// What is made of a part, or a part of it that has to come first.
enum Progress {
    Made(Ref),
    Wants(Part),
}

// What stands for an object that is no pair.
pub(crate) fn image(heap: &Heap, sigma: &Sigma, x: Ref) -> Ref
    requires within { IsIn heap.now.objects x }
    requires sigma { AreIn heap.now.objects sigma.now }
    ensures within { IsIn heap.now.objects result }
    ensures image { object_at heap.now.objects result ≡ image_object (sigma_object heap.now.objects sigma.now) (object_at heap.now.objects x) }
{
    heap.order();
    match sigma.find(x) {
        Some(term) => term,
        None => x,
    }
}

fn step_term(heap: &mut Heap, sigma: &Sigma, memo: &Memo, x: Ref) -> Result<Progress, Memory>
    requires within { IsIn heap.old.objects x }
    requires sigma { AreIn heap.old.objects sigma.now }
    requires made { AreMade heap.old.objects (sigma_object heap.old.objects sigma.now) memo.now.terms memo.now.lists }
    ensures grows { Grows heap.old.objects heap.new.objects }
    ensures step { IfOk result (λ s. IsStep heap.old.objects heap.new.objects (sigma_object heap.old.objects sigma.now) memo.now.terms memo.now.lists (Term x) s) }
{
    let View::Pair(head, actuals) = heap.view(x) else {
        return Ok(Progress::Made(image(heap, sigma, x)));
    };
    if heap.is_word(Some(head), Word::Quote) {
        return Ok(Progress::Made(x));
    }
    heap.order();
    match memo.find(Part::Terms(actuals)) {
        Some(rest) => Ok(Progress::Made(heap.cons(head, rest)?)),
        None => Ok(Progress::Wants(Part::Terms(actuals))),
    }
}

fn step_terms(heap: &mut Heap, sigma: &Sigma, memo: &Memo, x: Ref) -> Result<Progress, Memory>
    requires within { IsIn heap.old.objects x }
    requires made { AreMade heap.old.objects (sigma_object heap.old.objects sigma.now) memo.now.terms memo.now.lists }
    ensures grows { Grows heap.old.objects heap.new.objects }
    ensures step { IfOk result (λ s. IsStep heap.old.objects heap.new.objects (sigma_object heap.old.objects sigma.now) memo.now.terms memo.now.lists (Terms x) s) }
{
    let View::Pair(first, rest) = heap.view(x) else {
        return Ok(Progress::Made(heap.nil()?));
    };
    let Some(a) = memo.find(Part::Term(first)) else {
        return Ok(Progress::Wants(Part::Term(first)));
    };
    let Some(d) = memo.find(Part::Terms(rest)) else {
        return Ok(Progress::Wants(Part::Terms(rest)));
    };
    heap.order();
    Ok(Progress::Made(heap.cons(a, d)?))
}

fn take_step(heap: &mut Heap, sigma: &Sigma, memo: &Memo, part: &Part) -> Result<Progress, Memory>
    requires within { IsPartIn heap.old.objects part.now }
    requires sigma { AreIn heap.old.objects sigma.now }
    requires made { AreMade heap.old.objects (sigma_object heap.old.objects sigma.now) memo.now.terms memo.now.lists }
    ensures grows { Grows heap.old.objects heap.new.objects }
    ensures step { IfOk result (λ s. IsStep heap.old.objects heap.new.objects (sigma_object heap.old.objects sigma.now) memo.now.terms memo.now.lists part.now s) }
{
    match *part {
        Part::Term(x) => step_term(heap, sigma, memo, x),
        Part::Terms(x) => step_terms(heap, sigma, memo, x),
    }
}

// Looks at a part: puts it away with what it wants first on top, or keeps what was made of it. A cell takes a step as it first comes
// on the path. It never waits there as both kinds of part, since each cell on the path is below those before it.
fn advance<L: Ledger>(
    heap: &mut Heap,
    sigma: &Sigma,
    memo: &mut Memo,
    path: &mut Vec<Part>,
    part: Part,
    steps: &mut Steps<L>,
) -> Result<(), Memory>
    requires within { IsPartIn heap.old.objects part }
    requires sigma { AreIn heap.old.objects sigma.now }
    requires made { AreMade heap.old.objects (sigma_object heap.old.objects sigma.now) memo.old.terms memo.old.lists }
    requires new { found memo.old.terms memo.old.lists part ≡ None }
    requires unique { AreUnique memo.old.terms memo.old.lists }
    ensures grows { Grows heap.old.objects heap.new.objects }
    ensures unique { OnOk result (AreUnique memo.new.terms memo.new.lists) }
    ensures advanced { OnOk result (Advances heap.old.objects heap.new.objects (sigma_object heap.old.objects sigma.now) memo.old memo.new path.old.items path.new.items part steps.old steps.new) }
    ensures err { OnErr result (steps.new ≡ steps.old) }
{
    heap.take_look()?;
    match take_step(heap, sigma, memo, &part)? {
        Progress::Wants(inner) => {
            let is_new = memo.find(inner.other_kind()).is_none();
            path.push(part)?;
            path.push(inner)?;
            if is_new {
                steps.tick();
            }
        }
        Progress::Made(made) => memo.add(part, made)?,
    }
    Ok(())
}

// What is made of the term x, with all its parts made before it.
fn make<L: Ledger>(
    heap: &mut Heap,
    x: Ref,
    sigma: &Sigma,
    memo: &mut Memo,
    steps: &mut Steps<L>,
) -> Result<Ref, Memory>
    requires within { IsIn heap.old.objects x }
    requires sigma { AreIn heap.old.objects sigma.now }
    requires no_terms { memo.old.terms ≡ [] }
    requires no_lists { memo.old.lists ≡ [] }
    ensures grows { Grows heap.old.objects heap.new.objects }
    ensures within { IfOk result (λ r. IsIn heap.new.objects r) }
    ensures made { IfOk result (λ r. object_at heap.new.objects r ≡ substitute_object (sigma_object heap.old.objects sigma.now) (object_at heap.old.objects x)) }
    ensures all { OnOk result ((cells : List ℕ) × AreReached heap.old.objects x cells × HasAllReached heap.old.objects x cells × (steps.new ≡ steps.old + length cells)) }
    ensures each { (cells : List ℕ) × AreReached heap.old.objects x cells × (steps.new ≡ steps.old + length cells) }
    ensures most { steps.new ≤ steps.old + (x + 1) }
{
    let mut path = Vec::new(sigma.alloc());
    path.push(Part::Term(x))?;
    steps.tick();
    while let Some(part) = path.pop() {
        advance(heap, sigma, memo, &mut path, part, steps)?;
    }
    match memo.find(Part::Term(x)) {
        Some(made) => Ok(made),
        None => unreachable!(),
    }
}

/// The term x with the terms of a substitution for its variables. It takes one step for each cell that it reaches, however often that
/// stands in x, and no other step. It reaches the term x; with a term (h . r) the list r, unless h is QUOTE; and with a list (a . r) the
/// term a and the list r. It looks at no cell more than five times, and takes each look from those that the heap allows. If memory runs
/// out, or no look is left, each step was for another cell that it reaches.
pub fn substitute_counted<L: Ledger>(
    heap: &mut Heap,
    x: Ref,
    sigma: &Sigma,
    steps: &mut Steps<L>,
) -> Result<Ref, Memory>
    requires within { IsIn heap.old.objects x }
    requires sigma { AreIn heap.old.objects sigma.now }
    ensures grows { Grows heap.old.objects heap.new.objects }
    ensures within { IfOk result (λ r. IsIn heap.new.objects r) }
    ensures made { IfOk result (λ r. object_at heap.new.objects r ≡ substitute_object (sigma_object heap.old.objects sigma.now) (object_at heap.old.objects x)) }
    ensures all { OnOk result ((cells : List ℕ) × AreReached heap.old.objects x cells × HasAllReached heap.old.objects x cells × (steps.new ≡ steps.old + length cells)) }
    ensures each { (cells : List ℕ) × AreReached heap.old.objects x cells × (steps.new ≡ steps.old + length cells) }
    ensures most { steps.new ≤ steps.old + (x + 1) }
{
    let mut memo = Memo::lent(heap);
    let made = make(heap, x, sigma, &mut memo, steps)?;
    memo.give_back(heap);
    Ok(made)
}

// The same over a ledger that nobody reads.
fn substitute_uncounted<L: Ledger>(
    heap: &mut Heap,
    x: Ref,
    sigma: &Sigma,
    blank: Blank,
) -> Result<Ref, Memory>
    requires within { IsIn heap.old.objects x }
    requires sigma { AreIn heap.old.objects sigma.now }
    requires name { blank.name ≡ L.name }
    requires parts { blank.parts ≡ L.parts }
    requires some { 0 < blank.parts }
    ensures grows { Grows heap.old.objects heap.new.objects }
    ensures within { IfOk result (λ r. IsIn heap.new.objects r) }
    ensures made { IfOk result (λ r. object_at heap.new.objects r ≡ substitute_object (sigma_object heap.old.objects sigma.now) (object_at heap.old.objects x)) }
{
    let mut steps = Steps::<L>::new(blank);
    substitute_counted(heap, x, sigma, &mut steps)
}

/// The term x with the terms of a substitution for its variables, at the cost of `substitute_counted`.
pub fn substitute(heap: &mut Heap, x: Ref, sigma: &Sigma) -> Result<Ref, Memory>
    requires within { IsIn heap.old.objects x }
    requires sigma { AreIn heap.old.objects sigma.now }
    ensures grows { Grows heap.old.objects heap.new.objects }
    ensures within { IfOk result (λ r. IsIn heap.new.objects r) }
    ensures made { IfOk result (λ r. object_at heap.new.objects r ≡ substitute_object (sigma_object heap.old.objects sigma.now) (object_at heap.old.objects x)) }
{
    substitute_uncounted::<Brand>(heap, x, sigma, Blank::new(1))
}
