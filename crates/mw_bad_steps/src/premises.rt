//! The premises that an induction has to have.
ghost use Rattle.std.specs.Prelude.{◌≡◌, ◌∷◌, true, All, IfOk, OnOk};
ghost use Rattle.mw_model.specs.Terms.Object.{Pair, NIL};
ghost use Rattle.mw_model.specs.Laws.Rules.{not_object, substitute_formula_object};
ghost use Rattle.mw_model.specs.Laws.RulesInduction.{disjunction_object, hypotheses_object, steps_object, premises_object};
ghost use Rattle.mw_heap.specs.Objects.{object_at, IsIn, Grows};
ghost use Rattle.mw_subst.specs.Pairs.{is_list_of_pairs};
ghost use Rattle.mw_induct.specs.Pairs.{are_lists_of_pairs, are_cases_of_pairs, IsLikeFormula};
ghost use Rattle.mw_bad_steps.specs.Cases.{AreCases};
ghost use Rattle.mw_bad_steps.specs.Members.{members_in};
ghost use Rattle.mw_bad_steps.specs.Premises.{PutsObjects};

use crate::cases::Cases;
use crate::conclusions::first_and_rest;
use crate::disjunction::disjunction;
use crate::falls::put_measured;
use crate::formulas::not;
use crate::instance::instance;
use mw_heap::{Heap, Memory, Ref, View, list_of};

// The formula: not A/s.
fn hypothesis(heap: &mut Heap, a: Ref, s: Ref) -> Result<Ref, Memory>
    requires within { IsIn heap.old.objects a }
    requires substitution { IsIn heap.old.objects s }
    requires pairs { is_list_of_pairs (object_at heap.old.objects s) ≡ true }
    requires formula { IsLikeFormula (object_at heap.old.objects a) }
    ensures grows { Grows heap.old.objects heap.new.objects }
    ensures within { IfOk result (λ r. IsIn heap.new.objects r) }
    ensures made { IfOk result (λ r. object_at heap.new.objects r ≡ not_object (substitute_formula_object (object_at heap.old.objects s) (object_at heap.old.objects a))) }
{
    let made = instance(heap, a, s)?;
    not(heap, made)
}

// Puts not A/s for each substitution s of a list.
fn put_hypotheses(
    heap: &mut Heap,
    a: Ref,
    substitutions: Ref,
    members: &mut Vec<Ref>,
) -> Result<(), Memory>
    requires within { IsIn heap.old.objects a }
    requires substitutions { IsIn heap.old.objects substitutions }
    requires pairs { are_lists_of_pairs (object_at heap.old.objects substitutions) ≡ true }
    requires formula { IsLikeFormula (object_at heap.old.objects a) }
    requires members { All (IsIn heap.old.objects) members.old.items }
    ensures grows { Grows heap.old.objects heap.new.objects }
    ensures put { OnOk result (PutsObjects heap.old.objects heap.new.objects members.old.items members.new.items (members_in (hypotheses_object (object_at heap.old.objects a) (object_at heap.old.objects substitutions)))) }
{
    let mut rest = substitutions;
    while let View::Pair(s, more) = heap.view(rest) {
        let made = hypothesis(heap, a, s)?;
        members.push(made)?;
        rest = more;
    }
    Ok(())
}

// Puts the members of a list.
fn put_members(heap: &Heap, list: Ref, members: &mut Vec<Ref>) -> Result<(), Memory>
    requires list { IsIn heap.now.objects list }
    requires members { All (IsIn heap.now.objects) members.old.items }
    ensures { OnOk result (PutsObjects heap.now.objects heap.now.objects members.old.items members.new.items (members_in (object_at heap.now.objects list))) }
{
    let mut rest = list;
    while let View::Pair(first, more) = heap.view(rest) {
        members.push(first)?;
        rest = more;
    }
    Ok(())
}

// The first premise: A or q1 or .. or qn, for the conditions.
fn base(heap: &mut Heap, a: Ref, conditions: Ref) -> Result<Ref, Memory>
    requires within { IsIn heap.old.objects a }
    requires conditions { IsIn heap.old.objects conditions }
    ensures grows { Grows heap.old.objects heap.new.objects }
    ensures within { IfOk result (λ r. IsIn heap.new.objects r) }
    ensures made { IfOk result (λ r. object_at heap.new.objects r ≡ disjunction_object (Pair (object_at heap.old.objects a) (object_at heap.old.objects conditions))) }
{
    let mut members = Vec::new(heap.alloc());
    members.push(a)?;
    put_members(heap, conditions, &mut members)?;
    disjunction(heap, &members)
}

// The premise of a case: A or not q or not A/s or .., for its condition q and its substitutions.
fn step(heap: &mut Heap, a: Ref, condition: Ref, substitutions: Ref) -> Result<Ref, Memory>
    requires within { IsIn heap.old.objects a }
    requires condition { IsIn heap.old.objects condition }
    requires substitutions { IsIn heap.old.objects substitutions }
    requires pairs { are_lists_of_pairs (object_at heap.old.objects substitutions) ≡ true }
    requires formula { IsLikeFormula (object_at heap.old.objects a) }
    ensures grows { Grows heap.old.objects heap.new.objects }
    ensures within { IfOk result (λ r. IsIn heap.new.objects r) }
    ensures made { IfOk result (λ r. object_at heap.new.objects r ≡ disjunction_object (Pair (object_at heap.old.objects a) (Pair (not_object (object_at heap.old.objects condition)) (hypotheses_object (object_at heap.old.objects a) (object_at heap.old.objects substitutions))))) }
{
    let mut members = Vec::new(heap.alloc());
    let negation = not(heap, condition)?;
    members.push(a)?;
    members.push(negation)?;
    put_hypotheses(heap, a, substitutions, &mut members)?;
    disjunction(heap, &members)
}

// Puts the premise of each case.
fn put_steps(heap: &mut Heap, a: Ref, cases: &Cases, premises: &mut Vec<Ref>) -> Result<(), Memory>
    requires within { IsIn heap.old.objects a }
    requires cases { AreCases heap.old.objects cases.now }
    requires formula { IsLikeFormula (object_at heap.old.objects a) }
    requires premises { All (IsIn heap.old.objects) premises.old.items }
    ensures grows { Grows heap.old.objects heap.new.objects }
    ensures put { OnOk result (PutsObjects heap.old.objects heap.new.objects premises.old.items premises.new.items (members_in (steps_object (object_at heap.old.objects a) (object_at heap.old.objects cases.now.conditions) (object_at heap.old.objects cases.now.substitutions) NIL))) }
{
    let nil = cases.nil;
    let mut conditions = cases.conditions;
    let mut left = cases.substitutions;
    while let View::Pair(condition, more) = heap.view(conditions) {
        let (substitutions, others) = first_and_rest(heap, left, nil);
        let made = step(heap, a, condition, substitutions)?;
        premises.push(made)?;
        conditions = more;
        left = others;
    }
    Ok(())
}

// Puts the first premise and those of the cases.
fn put_based(heap: &mut Heap, a: Ref, cases: &Cases, premises: &mut Vec<Ref>) -> Result<(), Memory>
    requires within { IsIn heap.old.objects a }
    requires cases { AreCases heap.old.objects cases.now }
    requires formula { IsLikeFormula (object_at heap.old.objects a) }
    requires premises { All (IsIn heap.old.objects) premises.old.items }
    ensures grows { Grows heap.old.objects heap.new.objects }
    ensures put { OnOk result (PutsObjects heap.old.objects heap.new.objects premises.old.items premises.new.items (disjunction_object (Pair (object_at heap.old.objects a) (object_at heap.old.objects cases.now.conditions)) ∷ members_in (steps_object (object_at heap.old.objects a) (object_at heap.old.objects cases.now.conditions) (object_at heap.old.objects cases.now.substitutions) NIL))) }
{
    let first = base(heap, a, cases.conditions)?;
    premises.push(first)?;
    put_steps(heap, a, cases, premises)
}

/// The list of the premises of an induction that concludes the formula A, by a measure, conditions, and for each condition a list of
/// substitutions. What is made takes looks from those that the heap allows; the error is out of memory, also where no look is left.
pub fn premises_of_induction(
    heap: &mut Heap,
    a: Ref,
    measure: Ref,
    conditions: Ref,
    cases: Ref,
) -> Result<Ref, Memory>
    requires within { IsIn heap.old.objects a }
    requires measure { IsIn heap.old.objects measure }
    requires conditions { IsIn heap.old.objects conditions }
    requires cases { IsIn heap.old.objects cases }
    requires pairs { are_cases_of_pairs (object_at heap.old.objects cases) ≡ true }
    requires formula { IsLikeFormula (object_at heap.old.objects a) }
    ensures grows { Grows heap.old.objects heap.new.objects }
    ensures within { IfOk result (λ r. IsIn heap.new.objects r) }
    ensures made { IfOk result (λ r. object_at heap.new.objects r ≡ premises_object (object_at heap.old.objects a) (object_at heap.old.objects measure) (object_at heap.old.objects conditions) (object_at heap.old.objects cases)) }
{
    let nil = heap.nil()?;
    let all = Cases {
        conditions,
        substitutions: cases,
        nil,
    };
    let mut premises = Vec::new(heap.alloc());
    put_based(heap, a, &all, &mut premises)?;
    put_measured(heap, measure, &all, &mut premises)?;
    list_of(heap, &premises)
}
