//! Marks of pairs, from the marks of their parts.
ghost use Rattle.std.specs.Prelude.{◌≡◌, ◌<◌, ◌&&◌, length, true, eqb, is_some, IfOk};
ghost use Rattle.mw_model.specs.Terms.Object.{Object, Pair};
ghost use Rattle.mw_model.specs.Terms.Term.{ArityTable};
ghost use Rattle.mw_model.specs.Values.Primitive.{is_symbol};
ghost use Rattle.mw_model.specs.Laws.Rules.{is_term_object, is_formula_object};
ghost use Rattle.mw_heap.specs.Objects.{object_at, IsIn};
ghost use Rattle.mw_term.specs.Marking.{AreMarks, term_count, formal_count, is_negation, is_binary};
ghost use Rattle.mw_term.specs.Parts.{is_single, wanted, length_of};

use crate::Arity;
use crate::cell_mark::{CellMark, mark_at};
use crate::work::Work;
use mw_heap::{Heap, Memory, Ref, View, Word};

// Whether a pair is a list of terms, by the marks of its parts.
pub(crate) fn are_more_terms(first: &CellMark, rest: &CellMark) -> bool
    ensures { result ≡ (first.now.is_term && rest.now.is_terms) }
{
    first.is_term() && rest.is_terms()
}

// Whether a list has this many members. It takes a look at each.
fn has_length(heap: &Heap, list: Ref, length: u64, work: &mut Work) -> Result<bool, Memory>
    requires { IsIn heap.now.objects list }
    ensures { IfOk result (λ b. b ≡ eqb length (length_of (object_at heap.now.objects list))) }
{
    let mut rest = list;
    for _ in 0..length {
        work.take_look()?;
        match heap.view(rest) {
            View::Pair(_, more) => rest = more,
            _ => return Ok(false),
        }
    }
    Ok(!heap.is_pair(Some(rest)))
}

// Whether two lists have as many members. It takes a look at each pair of them.
fn are_as_long(heap: &Heap, first: Ref, second: Ref, work: &mut Work) -> Result<bool, Memory>
    requires first { IsIn heap.now.objects first }
    requires second { IsIn heap.now.objects second }
    ensures { IfOk result (λ b. b ≡ eqb (length_of (object_at heap.now.objects first)) (length_of (object_at heap.now.objects second))) }
{
    let mut others = second;
    let mut rest = first;
    while let View::Pair(_, more) = heap.view(rest) {
        work.take_look()?;
        let View::Pair(_, more_others) = heap.view(others) else {
            return Ok(false);
        };
        rest = more;
        others = more_others;
    }
    Ok(!heap.is_pair(Some(others)))
}

// Whether a pair is a lambda call: its head begins with a symbol, `tail` is the head's rest, and `rest` are the actuals.
pub(crate) fn is_lambda_call(
    heap: &Heap,
    is_head: bool,
    tail: Ref,
    are_terms: bool,
    rest: Ref,
    work: &mut Work,
) -> Result<bool, Memory>
    requires tail { IsIn heap.now.objects tail }
    requires rest { IsIn heap.now.objects rest }
    ensures { (A : ArityTable) (l : Object) → is_head ≡ is_some (formal_count A (Pair l (object_at heap.now.objects tail))) → are_terms ≡ is_some (term_count A (object_at heap.now.objects rest)) → IfOk result (λ b. b ≡ is_term_object A (Pair (Pair l (object_at heap.now.objects tail)) (object_at heap.now.objects rest))) }
{
    if !is_head {
        return Ok(false);
    }
    if !are_terms {
        return Ok(false);
    }
    match heap.view(tail) {
        View::Pair(formals, _) => are_as_long(heap, formals, rest, work),
        _ => Ok(false),
    }
}

// A proper list of one member.
fn is_single_list(heap: &Heap, x: Ref) -> bool
    requires { IsIn heap.now.objects x }
    ensures { result ≡ is_single (object_at heap.now.objects x) }
{
    match heap.view(x) {
        View::Pair(_, end) => heap.is_nil(Some(end)),
        _ => false,
    }
}

// How many actuals a call of a function of this arity needs, where it may be called.
fn wanted_count(arity: Option<u64>, is_if: bool) -> Option<u64>
    ensures { result ≡ wanted arity is_if }
{
    let count = arity?;
    if !is_if || count == 3 {
        Some(count)
    } else {
        None
    }
}

// Whether (function . rest) is a term.
pub(crate) fn is_call(
    heap: &Heap,
    arity: &Arity,
    function: Ref,
    rest: Ref,
    are_terms: bool,
    work: &mut Work,
) -> Result<bool, Memory>
    requires function_within { IsIn heap.now.objects function }
    requires symbol { is_symbol (object_at heap.now.objects function) ≡ true }
    requires within { IsIn heap.now.objects rest }
    requires terms { are_terms ≡ is_some (term_count arity.now (object_at heap.now.objects rest)) }
    ensures { IfOk result (λ b. b ≡ is_term_object arity.now (Pair (object_at heap.now.objects function) (object_at heap.now.objects rest))) }
{
    if heap.is_word(Some(function), Word::Quote) {
        return Ok(is_single_list(heap, rest));
    }
    if !are_terms {
        return Ok(false);
    }
    let name = heap.name_of(function);
    work.take_looks_at(name)?;
    match wanted_count(arity.lookup(name), heap.is_word(Some(function), Word::If)) {
        Some(count) => has_length(heap, rest, count, work),
        None => Ok(false),
    }
}

// Whether a list of this head and one object is a formula.
fn is_negation_of(heap: &Heap, head: Ref, part: &CellMark) -> bool
    requires { IsIn heap.now.objects head }
    ensures { result ≡ is_negation (object_at heap.now.objects head) part.now }
{
    heap.is_word(Some(head), Word::Pnot) && part.is_formula()
}

// Whether a list of this head and two objects is a formula.
fn is_binary_of(heap: &Heap, head: Ref, first: &CellMark, second: &CellMark) -> bool
    requires { IsIn heap.now.objects head }
    ensures { result ≡ is_binary (object_at heap.now.objects head) first.now second.now }
{
    if heap.is_word(Some(head), Word::Pequal) {
        return first.is_term() && second.is_term();
    }
    heap.is_word(Some(head), Word::Por) && first.is_formula() && second.is_formula()
}

// Whether (head . rest) is a formula.
pub(crate) fn is_formula_list(heap: &Heap, marks: &[CellMark], head: Ref, rest: Ref) -> bool
    requires head_within { IsIn heap.now.objects head }
    requires within { IsIn heap.now.objects rest }
    requires marked { rest < length marks.now }
    ensures { (A : ArityTable) → AreMarks A heap.now.objects marks.now → result ≡ is_formula_object A (Pair (object_at heap.now.objects head) (object_at heap.now.objects rest)) }
{
    let View::Pair(a, more) = heap.view(rest) else {
        return false;
    };
    let first = mark_at(marks, a);
    match heap.view(more) {
        View::Pair(b, end) => {
            heap.is_nil(Some(end)) && is_binary_of(heap, head, first, mark_at(marks, b))
        }
        _ => heap.is_nil(Some(more)) && is_negation_of(heap, head, first),
    }
}
