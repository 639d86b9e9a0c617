//! Calls of functions and of lambdas.
ghost use Rattle.std.specs.Prelude.{◌≡◌, ◌<◌, ◌+◌, ◌&&◌, ◌||◌, not, eqb, true, false, cond, length, Some, None, option_map, IfOk, option_and_then};
ghost use Rattle.mw_model.specs.Terms.Object.{Object, Pair, named, same_name, list3};
ghost use Rattle.mw_model.specs.Terms.Term.{Term, is_closed};
ghost use Rattle.mw_model.specs.Terms.Reading.{term_of};
ghost use Rattle.mw_model.specs.Values.Primitive.{is_pair, is_symbol, name_of};
ghost use Rattle.mw_model.specs.Events.Expansion.{Other, expanded, expanded_each, form};
ghost use Rattle.mw_heap.specs.Objects.{object_at, IsIn, Grows};
ghost use Rattle.mw_term.specs.Parts.{names_at, AreSymbols};
ghost use Rattle.mw_translate.specs.Checked.{takes as takes_count, call_made, head_made, IsMade};
ghost use Rattle.mw_translate.specs.Contexts.{arities, entries};
ghost use Rattle.mw_translate.specs.Meaning.{of_term};
ghost use Rattle.mw_translate.specs.Memo.{AreMade, IsStep, IsStepOf};
ghost use Rattle.mw_translate.specs.declared.part.Kind.TheVariants as kind;

use crate::build::list_of_three;
use crate::context::{Context, takes};
use crate::made::Made;
use crate::part::{Kind, Part};
use crate::progress::Progress;
use mw_heap::{Heap, Memory, Ref, View, Word};
use mw_term::{Formals, take_searches};

// Whether a function may be called with this many actuals. IF takes three, whatever else a table says of it.
fn is_call(heap: &Heap, context: &Context<'_>, function: Ref, count: u64) -> bool
    requires within { IsIn heap.now.objects function }
    requires symbol { is_symbol (object_at heap.now.objects function) ≡ true }
    ensures { result ≡ (takes_count (arities context.now) (name_of (object_at heap.now.objects function)) count && (not (same_name (name_of (object_at heap.now.objects function)) (named "IF")) || eqb count 3)) }
{
    takes(context, heap.name_of(function), count)
        && (!heap.is_word(Some(function), Word::If) || count == 3)
}

// (head . actuals), if the function may be called with this many.
fn checked_call(
    heap: &mut Heap,
    context: &Context<'_>,
    head: Ref,
    actuals: Made,
) -> Result<Progress, Memory>
    requires head_in { IsIn heap.old.objects head }
    requires symbol { is_symbol (object_at heap.old.objects head) ≡ true }
    requires actuals_in { IsIn heap.old.objects actuals.object }
    ensures grows { Grows heap.old.objects heap.new.objects }
    ensures made { IfOk result (IsMade heap.new.objects (call_made (arities context.now) (name_of (object_at heap.old.objects head)) (object_at heap.old.objects actuals.object) actuals.count)) }
{
    if !is_call(heap, context, head, actuals.count) {
        return Ok(Progress::Fails);
    }
    Ok(Progress::Made(Made {
        object: heap.cons(head, actuals.object)?,
        count: 0,
    }))
}

// A call of a function, whose name is not the word of an abbreviation.
pub(crate) fn step_call(
    heap: &mut Heap,
    context: &Context<'_>,
    head: Ref,
    rest: Ref,
) -> Result<Progress, Memory>
    requires head_in { IsIn heap.old.objects head }
    requires symbol { is_symbol (object_at heap.old.objects head) ≡ true }
    requires rest_in { IsIn heap.old.objects rest }
    requires no_quote { same_name (name_of (object_at heap.old.objects head)) (named "QUOTE") ≡ false }
    requires made { AreMade (arities context.now) heap.old.objects (entries context.now) }
    ensures grows { Grows heap.old.objects heap.new.objects }
    ensures step { IfOk result (IsStep (arities context.now) heap.old.objects heap.new.objects (entries context.now) (of_term (arities context.now) (option_and_then (form Other (name_of (object_at heap.old.objects head))) (expanded_each (object_at heap.old.objects rest)))) (rest + 1)) }
{
    let terms = Part::new(Kind::Terms, rest);
    match context.memo.find(&terms) {
        Some(actuals) => checked_call(heap, context, head, actuals),
        None => Ok(Progress::Wants(terms)),
    }
}

// A call of a lambda.
pub(crate) fn step_lambda(
    heap: &mut Heap,
    context: &Context<'_>,
    x: Ref,
    head: Ref,
    rest: Ref,
) -> Result<Progress, Memory>
    requires within { IsIn heap.old.objects x }
    requires head_in { IsIn heap.old.objects head }
    requires rest_in { IsIn heap.old.objects rest }
    requires head_before { head < x }
    requires rest_before { rest < x }
    requires call { object_at heap.old.objects x ≡ Pair (object_at heap.old.objects head) (object_at heap.old.objects rest) }
    requires pair { is_pair (object_at heap.old.objects head) ≡ true }
    requires made { AreMade (arities context.now) heap.old.objects (entries context.now) }
    ensures grows { Grows heap.old.objects heap.new.objects }
    ensures step { IfOk result (IsStepOf (arities context.now) heap.old.objects heap.new.objects (entries context.now) kind.Term x) }
{
    let lambda = Part::new(Kind::Head, head);
    let terms = Part::new(Kind::Terms, rest);
    match context.memo.find_both(&lambda, &terms) {
        Ok((a, b)) => {
            if a.count != b.count {
                return Ok(Progress::Fails);
            }
            Ok(Progress::Made(Made {
                object: heap.cons(a.object, b.object)?,
                count: 0,
            }))
        }
        Err(wanted) => Ok(Progress::Wants(wanted)),
    }
}

// The number of formals; None if the term has other variables. Takes from the heap's looks what was looked at, here and for the formals.
fn closing_count(
    heap: &mut Heap,
    formals: &Formals,
    term: Ref,
    looks_left: u64,
) -> Result<Option<u64>, Memory>
    requires within { IsIn heap.old.objects term }
    requires symbols { AreSymbols heap.old.objects formals.now }
    ensures same { heap.new.objects ≡ heap.old.objects }
    ensures count { (t : Term) → term_of (object_at heap.old.objects term) ≡ Some t → IfOk result (λ o. o ≡ cond (is_closed (names_at heap.old.objects formals.now) t) (Some (length formals.now)) None) }
{
    let mut looks_left = looks_left;
    if !formals.closes_counted(heap, term, &mut looks_left)? {
        return Ok(None);
    }
    take_searches(heap, u64::MAX.saturating_sub(looks_left))?;
    Ok(Some(formals.len() as u64))
}

// The number of formals in a list; None if it is not a list of formals, or the body has other variables. Formals and bodies that several
// heads share are walked once for each head.
fn closing_formals(heap: &mut Heap, list: Ref, body: Ref) -> Result<Option<u64>, Memory>
    requires list_in { IsIn heap.old.objects list }
    requires body_in { IsIn heap.old.objects body }
    ensures same { heap.new.objects ≡ heap.old.objects }
    ensures count { (lambda : Object) (t : Term) → term_of (object_at heap.old.objects body) ≡ Some t → IfOk result (λ o. head_made lambda (object_at heap.old.objects list) (object_at heap.old.objects body) t ≡ option_map (λ n. (list3 lambda (object_at heap.old.objects list) (object_at heap.old.objects body), n)) o) }
{
    let mut looks_left = u64::MAX;
    match Formals::of_list_counted(heap, list, &mut looks_left)? {
        Some(formals) => closing_count(heap, &formals, body, looks_left),
        None => Ok(None),
    }
}

// The head (lambda xs body), if xs is a list of formals and the body has no other variables.
fn closed_head(heap: &mut Heap, lambda: Ref, list: Ref, body: Ref) -> Result<Progress, Memory>
    requires lambda_in { IsIn heap.old.objects lambda }
    requires list_in { IsIn heap.old.objects list }
    requires body_in { IsIn heap.old.objects body }
    ensures grows { Grows heap.old.objects heap.new.objects }
    ensures head { (t : Term) → term_of (object_at heap.old.objects body) ≡ Some t → IfOk result (IsMade heap.new.objects (head_made (object_at heap.old.objects lambda) (object_at heap.old.objects list) (object_at heap.old.objects body) t)) }
{
    let Some(count) = closing_formals(heap, list, body)? else {
        return Ok(Progress::Fails);
    };
    Ok(Progress::Made(Made {
        object: list_of_three(heap, lambda, list, body)?,
        count,
    }))
}

// The head of a lambda call.
pub(crate) fn step_head(heap: &mut Heap, context: &Context<'_>, x: Ref) -> Result<Progress, Memory>
    requires within { IsIn heap.old.objects x }
    requires made { AreMade (arities context.now) heap.old.objects (entries context.now) }
    ensures grows { Grows heap.old.objects heap.new.objects }
    ensures step { IfOk result (IsStepOf (arities context.now) heap.old.objects heap.new.objects (entries context.now) kind.Head x) }
{
    let View::Pair(lambda, members) = heap.view(x) else {
        return Ok(Progress::Fails);
    };
    let Some(two) = heap.two_members(members) else {
        return Ok(Progress::Fails);
    };
    if !heap.is_word(Some(lambda), Word::Lambda) {
        return Ok(Progress::Fails);
    }
    let term = Part::new(Kind::Term, two.1);
    match context.memo.find(&term) {
        Some(made) => closed_head(heap, lambda, two.0, made.object),
        None => Ok(Progress::Wants(term)),
    }
}
