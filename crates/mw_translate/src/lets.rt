//! Calls of lambdas that LET and LET* stand for.
ghost use Rattle.std.specs.Prelude.{◌≡◌, ◌<◌, ◌+◌, List, length, true, false, Some, IfOk, IfSome, OnOk, MatchOption};
ghost use Rattle.mw_model.specs.Terms.Object.{Name, NIL};
ghost use Rattle.mw_model.specs.Terms.Term.{Term, Terms, ArityTable, variables, are_formals, is_term, are_terms, names_object, term_object, terms_object};
ghost use Rattle.mw_model.specs.Values.Primitive.{is_symbol};
ghost use Rattle.mw_model.specs.Terms.Reading.{term_of};
ghost use Rattle.mw_model.specs.Events.Expansion.{without};
ghost use Rattle.mw_heap.specs.Objects.{object_at, IsIn, Grows};
ghost use Rattle.mw_term.specs.Parts.{names_at, AreSymbols};
ghost use Rattle.mw_translate.specs.Lets.{append_object, prepend, extended_object, AreAllIn, AddsOther, IsLet};

use crate::build::{call_of_two, list_of_one};
use mw_heap::{Heap, Memory, Ref, Word};
use mw_term::{Formals, take_searches, vars_counted};

// Adds the variable x, unless it is a formal.
fn add_other(heap: &Heap, formals: &Formals, others: &mut Vec<Ref>, x: Ref) -> Result<(), Memory>
    requires within { IsIn heap.now.objects x }
    requires symbol { is_symbol (object_at heap.now.objects x) ≡ true }
    requires symbols { AreSymbols heap.now.objects formals.now }
    requires others { AreSymbols heap.now.objects others.old.items }
    ensures { OnOk result (AddsOther heap.now.objects (names_at heap.now.objects formals.now) others.old.items others.new.items x) }
{
    if formals.contains(heap, x) {
        return Ok(());
    }
    others.push(x)?;
    Ok(())
}

// The free variables of a term other than the formals. Each cell that is looked at takes a look.
fn other_variables(
    heap: &Heap,
    formals: &Formals,
    term: Ref,
    looks_left: &mut u64,
) -> Result<Vec<Ref>, Memory>
    requires within { IsIn heap.now.objects term }
    requires symbols { AreSymbols heap.now.objects formals.now }
    ensures symbols { IfOk result (λ v. AreSymbols heap.now.objects v.items) }
    ensures others { IfOk result (λ v. (t : Term) → term_of (object_at heap.now.objects term) ≡ Some t → names_at heap.now.objects v.items ≡ without (variables t) (names_at heap.now.objects formals.now)) }
{
    let mut others = Vec::new(heap.alloc());
    let variables = vars_counted(heap, term, looks_left)?;
    for x in variables.as_slice() {
        add_other(heap, formals, &mut others, *x)?;
    }
    Ok(others)
}

/// Makes the list of these members, in order, followed by those of another list. The one error is out of memory.
pub fn put_before(heap: &mut Heap, front: Vec<Ref>, back: Ref) -> Result<Ref, Memory>
    requires front_in { AreAllIn heap.old.objects front.items }
    requires back_in { IsIn heap.old.objects back }
    ensures grows { Grows heap.old.objects heap.new.objects }
    ensures made { IfOk result (λ r. IsIn heap.new.objects r × (object_at heap.new.objects r ≡ prepend heap.old.objects front.items (object_at heap.old.objects back))) }
{
    let mut front = front;
    let mut list = back;
    while let Some(member) = front.pop() {
        list = heap.cons(member, list)?;
    }
    Ok(list)
}

// The list of the members of one list, followed by those of another.
fn append(heap: &mut Heap, front: Ref, back: Ref) -> Result<Ref, Memory>
    requires front_in { IsIn heap.old.objects front }
    requires back_in { IsIn heap.old.objects back }
    ensures grows { Grows heap.old.objects heap.new.objects }
    ensures made { IfOk result (λ r. IsIn heap.new.objects r × (object_at heap.new.objects r ≡ append_object (object_at heap.old.objects front) (object_at heap.old.objects back))) }
{
    let members = heap.list_members(front)?;
    put_before(heap, members, back)
}

// The call of a lambda with these formals and actuals, each followed by the others.
fn joined_call(
    heap: &mut Heap,
    names: Ref,
    values: Ref,
    others: Ref,
    body: Ref,
) -> Result<Ref, Memory>
    requires names_in { IsIn heap.old.objects names }
    requires values_in { IsIn heap.old.objects values }
    requires others_in { IsIn heap.old.objects others }
    requires body_in { IsIn heap.old.objects body }
    ensures grows { Grows heap.old.objects heap.new.objects }
    ensures made { IfOk result (λ r. IsIn heap.new.objects r × (object_at heap.new.objects r ≡ extended_object (object_at heap.old.objects names) (object_at heap.old.objects values) (object_at heap.old.objects others) (object_at heap.old.objects body))) }
{
    let formals = append(heap, names, others)?;
    let actuals = append(heap, values, others)?;
    let head = call_of_two(heap, Word::Lambda, formals, body)?;
    heap.cons(head, actuals)
}

// The call of a lambda with these formals and actuals, and further formals whose actuals are themselves.
fn extended_call(
    heap: &mut Heap,
    names: Ref,
    values: Ref,
    others: Vec<Ref>,
    body: Ref,
) -> Result<Ref, Memory>
    requires names_in { IsIn heap.old.objects names }
    requires values_in { IsIn heap.old.objects values }
    requires others_in { AreAllIn heap.old.objects others.items }
    requires body_in { IsIn heap.old.objects body }
    ensures grows { Grows heap.old.objects heap.new.objects }
    ensures made { IfOk result (λ r. IsIn heap.new.objects r × (object_at heap.new.objects r ≡ extended_object (object_at heap.old.objects names) (object_at heap.old.objects values) (prepend heap.old.objects others.items NIL) (object_at heap.old.objects body))) }
{
    let nil = heap.nil()?;
    let list = put_before(heap, others, nil)?;
    joined_call(heap, names, values, list, body)
}

// The searches that a new cell counts as.
const SEARCHES_FOR_A_CELL: u64 = 8;

// A formal and an actual.
const CELLS_FOR_A_BINDING: u64 = 2;

// The list of the body, the head with its formals, the call, the lists of a name and a value in a LET*, NIL and LAMBDA.
const CELLS_FOR_A_CALL: u64 = 8;

// The searches that the cells of a LET count as, by the numbers of its bindings and of other variables.
fn searches_for_cells(bindings: usize, others: usize) -> u64 {
    (bindings as u64)
        .saturating_mul(CELLS_FOR_A_BINDING)
        .saturating_add(others as u64)
        .saturating_add(CELLS_FOR_A_CALL)
        .saturating_mul(SEARCHES_FOR_A_CELL)
}

// The free variables of a term other than the formals. Takes from the heap's looks what was looked at, here and for the formals, and what
// all cells count as that the LET makes after this.
fn counted_others(
    heap: &mut Heap,
    formals: &Formals,
    term: Ref,
    looks_left: u64,
) -> Result<Vec<Ref>, Memory>
    requires within { IsIn heap.old.objects term }
    requires symbols { AreSymbols heap.old.objects formals.now }
    ensures same { heap.new.objects ≡ heap.old.objects }
    ensures symbols { IfOk result (λ v. AreSymbols heap.old.objects v.items) }
    ensures others { IfOk result (λ v. (t : Term) → term_of (object_at heap.old.objects term) ≡ Some t → names_at heap.old.objects v.items ≡ without (variables t) (names_at heap.old.objects formals.now)) }
{
    let mut looks_left = looks_left;
    let others = other_variables(heap, formals, term, &mut looks_left)?;
    let looked = u64::MAX.saturating_sub(looks_left);
    let made = searches_for_cells(formals.len(), others.len());
    take_searches(heap, looked.saturating_add(made))?;
    Ok(others)
}

// The free variables of the body besides the names; None if these are not formals. Names and bodies that several calls share are walked
// once for each call.
fn variables_besides(heap: &mut Heap, names: Ref, body: Ref) -> Result<Option<Vec<Ref>>, Memory>
    requires names_in { IsIn heap.old.objects names }
    requires body_in { IsIn heap.old.objects body }
    ensures same { heap.new.objects ≡ heap.old.objects }
    ensures symbols { IfOk result (λ o. IfSome o (λ v. AreSymbols heap.old.objects v.items)) }
    ensures others { (xs : List Name) (b : Term) → object_at heap.old.objects names ≡ names_object xs → term_of (object_at heap.old.objects body) ≡ Some b → IfOk result (λ o. MatchOption o (are_formals xs ≡ false) (λ v. (are_formals xs ≡ true) × (names_at heap.old.objects v.items ≡ without (variables b) xs))) }
{
    let mut looks_left = u64::MAX;
    let Some(formals) = Formals::of_list_counted(heap, names, &mut looks_left)? else {
        return Ok(None);
    };
    Ok(Some(counted_others(heap, &formals, body, looks_left)?))
}

// The call of a lambda whose formals are the names and the other variables of the body; None if the names are not formals.
pub(crate) fn let_call(
    heap: &mut Heap,
    names: Ref,
    values: Ref,
    body: Ref,
) -> Result<Option<Ref>, Memory>
    requires names_in { IsIn heap.old.objects names }
    requires values_in { IsIn heap.old.objects values }
    requires body_in { IsIn heap.old.objects body }
    ensures grows { Grows heap.old.objects heap.new.objects }
    ensures within { IfOk result (λ o. IfSome o (IsIn heap.new.objects)) }
    ensures made { (A : ArityTable) (xs : List Name) (ts : Terms) (b : Term) → object_at heap.old.objects names ≡ names_object xs → object_at heap.old.objects values ≡ terms_object ts → object_at heap.old.objects body ≡ term_object b → is_term A b ≡ true → IfOk result (IsLet heap.new.objects xs ts b) }
{
    let Some(others) = variables_besides(heap, names, body)? else {
        return Ok(None);
    };
    Ok(Some(extended_call(heap, names, values, others, body)?))
}
