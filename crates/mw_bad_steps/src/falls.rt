//! The premises of an induction that speak of its measure.
ghost use Rattle.std.specs.Prelude.{◌≡◌, ◌∷◌, true, All, IfOk, OnOk};
ghost use Rattle.mw_model.specs.Terms.Object.{symbol, list3, NIL};
ghost use Rattle.mw_model.specs.Laws.Rules.{substitute_object};
ghost use Rattle.mw_model.specs.Laws.RulesInduction.{true_object, ordinal_object, fall_object, falls_object, all_falls_object};
ghost use Rattle.mw_heap.specs.Objects.{object_at, IsIn, Grows};
ghost use Rattle.mw_subst.specs.Pairs.{is_list_of_pairs};
ghost use Rattle.mw_induct.specs.Pairs.{are_lists_of_pairs};
ghost use Rattle.mw_bad_steps.specs.Cases.{AreCases};
ghost use Rattle.mw_bad_steps.specs.Members.{members_in};
ghost use Rattle.mw_bad_steps.specs.Premises.{PutsObjects};

use crate::cases::Cases;
use crate::conclusions::first_and_rest;
use crate::formulas::{equal, not, or, quoted};
use crate::instance::instance;
use mw_heap::{Heap, Memory, Ref, View, Word, form_of};

// The formula: t = 't.
fn is_true(heap: &mut Heap, t: Ref) -> Result<Ref, Memory>
    requires { IsIn heap.old.objects t }
    ensures grows { Grows heap.old.objects heap.new.objects }
    ensures within { IfOk result (λ r. IsIn heap.new.objects r) }
    ensures made { IfOk result (λ r. object_at heap.new.objects r ≡ true_object (object_at heap.old.objects t)) }
{
    let truth = heap.word(Word::T)?;
    let constant = quoted(heap, truth)?;
    equal(heap, t, constant)
}

// The formula: (ordp m) = 't.
fn ordinal(heap: &mut Heap, measure: Ref) -> Result<Ref, Memory>
    requires { IsIn heap.old.objects measure }
    ensures grows { Grows heap.old.objects heap.new.objects }
    ensures within { IfOk result (λ r. IsIn heap.new.objects r) }
    ensures made { IfOk result (λ r. object_at heap.new.objects r ≡ ordinal_object (object_at heap.old.objects measure)) }
{
    let call = form_of(heap, Word::Ordp, &[measure])?;
    is_true(heap, call)
}

// The formula: (ord< m/s m) = 't.
fn lower(heap: &mut Heap, measure: Ref, s: Ref) -> Result<Ref, Memory>
    requires within { IsIn heap.old.objects measure }
    requires substitution { IsIn heap.old.objects s }
    requires pairs { is_list_of_pairs (object_at heap.old.objects s) ≡ true }
    ensures grows { Grows heap.old.objects heap.new.objects }
    ensures within { IfOk result (λ r. IsIn heap.new.objects r) }
    ensures made { IfOk result (λ r. object_at heap.new.objects r ≡ true_object (list3 (symbol "ORD<") (substitute_object (object_at heap.old.objects s) (object_at heap.old.objects measure)) (object_at heap.old.objects measure))) }
{
    let under = instance(heap, measure, s)?;
    let below = form_of(heap, Word::OrdLess, &[under, measure])?;
    is_true(heap, below)
}

// The formula: not q or (ord< m/s m) = 't.
fn fall(heap: &mut Heap, measure: Ref, condition: Ref, s: Ref) -> Result<Ref, Memory>
    requires within { IsIn heap.old.objects measure }
    requires condition { IsIn heap.old.objects condition }
    requires substitution { IsIn heap.old.objects s }
    requires pairs { is_list_of_pairs (object_at heap.old.objects s) ≡ true }
    ensures grows { Grows heap.old.objects heap.new.objects }
    ensures within { IfOk result (λ r. IsIn heap.new.objects r) }
    ensures made { IfOk result (λ r. object_at heap.new.objects r ≡ fall_object (object_at heap.old.objects measure) (object_at heap.old.objects condition) (object_at heap.old.objects s)) }
{
    let second = lower(heap, measure, s)?;
    let first = not(heap, condition)?;
    or(heap, first, second)
}

// Puts the premise that the measure falls, for each substitution of a case.
fn put_falls(
    heap: &mut Heap,
    measure: Ref,
    condition: Ref,
    substitutions: Ref,
    premises: &mut Vec<Ref>,
) -> Result<(), Memory>
    requires within { IsIn heap.old.objects measure }
    requires condition { IsIn heap.old.objects condition }
    requires substitutions { IsIn heap.old.objects substitutions }
    requires pairs { are_lists_of_pairs (object_at heap.old.objects substitutions) ≡ true }
    requires premises { All (IsIn heap.old.objects) premises.old.items }
    ensures grows { Grows heap.old.objects heap.new.objects }
    ensures put { OnOk result (PutsObjects heap.old.objects heap.new.objects premises.old.items premises.new.items (members_in (falls_object (object_at heap.old.objects measure) (object_at heap.old.objects condition) (object_at heap.old.objects substitutions) NIL))) }
{
    let mut rest = substitutions;
    while let View::Pair(s, more) = heap.view(rest) {
        let made = fall(heap, measure, condition, s)?;
        premises.push(made)?;
        rest = more;
    }
    Ok(())
}

// Puts the premises that the measure falls, for each case.
fn put_all_falls(
    heap: &mut Heap,
    measure: Ref,
    cases: &Cases,
    premises: &mut Vec<Ref>,
) -> Result<(), Memory>
    requires within { IsIn heap.old.objects measure }
    requires cases { AreCases heap.old.objects cases.now }
    requires premises { All (IsIn heap.old.objects) premises.old.items }
    ensures grows { Grows heap.old.objects heap.new.objects }
    ensures put { OnOk result (PutsObjects heap.old.objects heap.new.objects premises.old.items premises.new.items (members_in (all_falls_object (object_at heap.old.objects measure) (object_at heap.old.objects cases.now.conditions) (object_at heap.old.objects cases.now.substitutions)))) }
{
    let nil = cases.nil;
    let mut conditions = cases.conditions;
    let mut left = cases.substitutions;
    while let View::Pair(condition, more) = heap.view(conditions) {
        let (substitutions, others) = first_and_rest(heap, left, nil);
        put_falls(heap, measure, condition, substitutions, premises)?;
        conditions = more;
        left = others;
    }
    Ok(())
}

/// Puts the premises that the measure is an ordinal, and that it falls in each case.
pub(crate) fn put_measured(
    heap: &mut Heap,
    measure: Ref,
    cases: &Cases,
    premises: &mut Vec<Ref>,
) -> Result<(), Memory>
    requires within { IsIn heap.old.objects measure }
    requires cases { AreCases heap.old.objects cases.now }
    requires premises { All (IsIn heap.old.objects) premises.old.items }
    ensures grows { Grows heap.old.objects heap.new.objects }
    ensures put { OnOk result (PutsObjects heap.old.objects heap.new.objects premises.old.items premises.new.items (ordinal_object (object_at heap.old.objects measure) ∷ members_in (all_falls_object (object_at heap.old.objects measure) (object_at heap.old.objects cases.now.conditions) (object_at heap.old.objects cases.now.substitutions)))) }
{
    let first = ordinal(heap, measure)?;
    premises.push(first)?;
    put_all_falls(heap, measure, cases, premises)
}
