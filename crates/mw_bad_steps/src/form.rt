//! Whether an object has the form of a term or of a formula, whatever names it calls.
ghost use Rattle.std.specs.Prelude.{◌≡◌, ◌&&◌, not, true, false, IfOk, IfSome, MatchOption, is_some};
ghost use Rattle.mw_model.specs.Terms.Object.{Object, same_object, has_members, symbol, list3};
ghost use Rattle.mw_model.specs.Terms.Reading.{term_of, terms_of, formula_of};
ghost use Rattle.mw_model.specs.Values.Primitive.{is_symbol};
ghost use Rattle.mw_heap.specs.Objects.{object_at, IsIn};
ghost use Rattle.mw_bad_steps.specs.Forms.{has_form, reference, IsFormIn, IsCall, IsEntered, are_names};

use crate::lists::has_members;
use mw_heap::{Heap, Memory, Ref, View, Word};

/// What an object may have the form of.
#[derive(Clone, Copy)]
pub enum Form {
    Term(Ref),
    Terms(Ref),
    Formula(Ref),
}

// Whether it is a proper list of symbols.
fn are_names(heap: &Heap, x: Ref) -> bool
    requires { IsIn heap.now.objects x }
    ensures { result ≡ are_names (object_at heap.now.objects x) }
{
    let mut rest = x;
    while let View::Pair(name, more) = heap.view(rest) {
        let View::Symbol = heap.view(name) else {
            return false;
        };
        rest = more;
    }
    heap.is_nil(Some(rest))
}

// Whether it is a call of IF of other than three actuals.
fn is_uneven_if(heap: &Heap, head: Ref, actuals: Ref) -> bool
    requires head_in { IsIn heap.now.objects head }
    requires actuals_in { IsIn heap.now.objects actuals }
    ensures { result ≡ (same_object (object_at heap.now.objects head) (symbol "IF") && not (has_members 3 (object_at heap.now.objects actuals))) }
{
    heap.is_word(Some(head), Word::If) && !has_members(heap, actuals, 3)
}

// Whether a list that begins with a symbol can be a term. Its actuals wait.
fn enter_call(
    heap: &Heap,
    x: Ref,
    head: Ref,
    actuals: Ref,
    waiting: &mut Vec<Form>,
) -> Result<bool, Memory>
    requires call { IsCall heap.now.objects x head actuals }
    requires symbol { is_symbol (object_at heap.now.objects head) ≡ true }
    ensures { IfOk result (IsEntered heap.now.objects x (is_some (term_of (object_at heap.now.objects x))) waiting.old.items waiting.new.items) }
{
    if heap.is_word(Some(head), Word::Quote) {
        return Ok(has_members(heap, actuals, 1));
    }
    if is_uneven_if(heap, head, actuals) {
        return Ok(false);
    }
    waiting.push(Form::Terms(actuals))?;
    Ok(true)
}

// The formals and the body of a list (LAMBDA formals body).
fn lambda_parts(heap: &Heap, x: Ref) -> Option<(Ref, Ref)>
    requires { IsIn heap.now.objects x }
    ensures within { IfSome result (λ p. IsIn heap.now.objects p.0 × IsIn heap.now.objects p.1) }
    ensures parts { MatchOption result ((xs b : Object) → same_object (object_at heap.now.objects x) (list3 (symbol "LAMBDA") xs b) ≡ false) (λ p. object_at heap.now.objects x ≡ list3 (symbol "LAMBDA") (object_at heap.now.objects p.0) (object_at heap.now.objects p.1)) }
{
    heap.members_after(x, Word::Lambda)
}

// Whether a list that begins with a list can be a term. Its body and its actuals wait.
fn enter_lambda(
    heap: &Heap,
    x: Ref,
    head: Ref,
    actuals: Ref,
    waiting: &mut Vec<Form>,
) -> Result<bool, Memory>
    requires call { IsCall heap.now.objects x head actuals }
    requires pair { is_symbol (object_at heap.now.objects head) ≡ false }
    ensures { IfOk result (IsEntered heap.now.objects x (is_some (term_of (object_at heap.now.objects x))) waiting.old.items waiting.new.items) }
{
    let Some((formals, body)) = lambda_parts(heap, head) else {
        return Ok(false);
    };
    if !are_names(heap, formals) {
        return Ok(false);
    }
    waiting.push(Form::Terms(actuals))?;
    waiting.push(Form::Term(body))?;
    Ok(true)
}

// Whether it can be a term.
fn enter_term(heap: &Heap, x: Ref, waiting: &mut Vec<Form>) -> Result<bool, Memory>
    requires { IsIn heap.now.objects x }
    ensures { IfOk result (IsEntered heap.now.objects x (is_some (term_of (object_at heap.now.objects x))) waiting.old.items waiting.new.items) }
{
    match heap.view(x) {
        View::Pair(head, actuals) => match heap.view(head) {
            View::Symbol => enter_call(heap, x, head, actuals, waiting),
            _ => enter_lambda(heap, x, head, actuals, waiting),
        },
        View::Symbol => Ok(true),
        View::Nat(_) => Ok(false),
    }
}

// Whether it can be a list of terms.
fn enter_terms(heap: &Heap, x: Ref, waiting: &mut Vec<Form>) -> Result<bool, Memory>
    requires { IsIn heap.now.objects x }
    ensures { IfOk result (IsEntered heap.now.objects x (is_some (terms_of (object_at heap.now.objects x))) waiting.old.items waiting.new.items) }
{
    let View::Pair(first, rest) = heap.view(x) else {
        return Ok(heap.is_nil(Some(x)));
    };
    waiting.push(Form::Terms(rest))?;
    waiting.push(Form::Term(first))?;
    Ok(true)
}

// Whether it can be a formula.
fn enter_formula(heap: &Heap, x: Ref, waiting: &mut Vec<Form>) -> Result<bool, Memory>
    requires { IsIn heap.now.objects x }
    ensures { IfOk result (IsEntered heap.now.objects x (is_some (formula_of (object_at heap.now.objects x))) waiting.old.items waiting.new.items) }
{
    if let Some((a, b)) = heap.members_after(x, Word::Pequal) {
        waiting.push(Form::Term(a))?;
        waiting.push(Form::Term(b))?;
        return Ok(true);
    }
    if let Some((f, g)) = heap.members_after(x, Word::Por) {
        waiting.push(Form::Formula(f))?;
        waiting.push(Form::Formula(g))?;
        return Ok(true);
    }
    let Some(f) = heap.member_after(x, Word::Pnot) else {
        return Ok(false);
    };
    waiting.push(Form::Formula(f))?;
    Ok(true)
}

// Whether it can have this form. Its parts wait.
fn enter(heap: &Heap, form: Form, waiting: &mut Vec<Form>) -> Result<bool, Memory>
    requires { IsFormIn heap.now.objects form }
    ensures { IfOk result (IsEntered heap.now.objects (reference form) (has_form heap.now.objects form) waiting.old.items waiting.new.items) }
{
    match form {
        Form::Term(x) => enter_term(heap, x, waiting),
        Form::Terms(x) => enter_terms(heap, x, waiting),
        Form::Formula(x) => enter_formula(heap, x, waiting),
    }
}

/// Whether an object has this form. Each part takes a look from those that the heap allows, as often as it stands in it: the error is
/// out of memory, also where no look is left.
pub fn has_form(heap: &mut Heap, form: Form) -> Result<bool, Memory>
    requires { IsFormIn heap.old.objects form }
    ensures objects { heap.new.objects ≡ heap.old.objects }
    ensures form { IfOk result (λ b. b ≡ has_form heap.old.objects form) }
{
    let mut waiting = Vec::new(heap.alloc());
    waiting.push(form)?;
    while let Some(next) = waiting.pop() {
        heap.take_look()?;
        if !enter(heap, next, &mut waiting)? {
            return Ok(false);
        }
    }
    Ok(true)
}
