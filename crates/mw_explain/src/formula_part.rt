//! Looking for the first part that keeps an object from being a formula.
ghost use Rattle.std.specs.Prelude.{◌≡◌, ◌<◌, false, List, length, IfSome, option_map};
ghost use Rattle.mw_model.specs.Terms.Object.{Object};
ghost use Rattle.mw_model.specs.Terms.Term.{ArityTable};
ghost use Rattle.mw_model.specs.Laws.Rules.{is_formula_object};
ghost use Rattle.mw_heap.specs.Objects.{object_at};
ghost use Rattle.mw_term.specs.Marking.{AreMarks};
ghost use Rattle.mw_commands.specs.Commands.ExplanationTerms.{bad_formula};
ghost use Rattle.mw_explain.specs.FormulaParts.{first_bad, IsNegated, LeadsOn};

use crate::term_part::bad_term;
use mw_heap::{Heap, Ref, View, Word};
use mw_term::{Arity, Marks, is_formula, is_term};

// Where to look on: in a part that should be a term, or a formula, or nowhere.
#[derive(Clone, Copy)]
pub enum Next {
    Nothing,
    InTerm(Ref),
    InFormula(Ref),
}

// The first of two parts that is not good.
fn first_bad(a: Ref, a_is_good: bool, b: Ref, b_is_good: bool) -> Option<Ref>
    ensures { result ≡ first_bad a_is_good b_is_good a b }
{
    if !a_is_good {
        Some(a)
    } else if !b_is_good {
        Some(b)
    } else {
        None
    }
}

// This part, if it is not a formula.
fn in_negation(marks: &Marks, a: Ref) -> Next
    requires { a < length marks.now }
    ensures { (A : ArityTable) (os : List Object) → AreMarks A os marks.now → IsNegated A os a result }
{
    if is_formula(marks, a) {
        Next::Nothing
    } else {
        Next::InFormula(a)
    }
}

// Where to look on in an object that is not a formula.
fn next_part(heap: &Heap, marks: &Marks, x: Ref) -> Next
    requires marks { (A : ArityTable) × AreMarks A heap.now.objects marks.now }
    requires within { x < length marks.now }
    ensures { (A : ArityTable) → AreMarks A heap.now.objects marks.now → is_formula_object A (object_at heap.now.objects x) ≡ false → LeadsOn A heap.now.objects x result }
{
    let View::Pair(head, members) = heap.view(x) else {
        return Next::Nothing;
    };
    let View::Pair(a, others) = heap.view(members) else {
        return Next::Nothing;
    };
    let View::Pair(b, _) = heap.view(others) else {
        if heap.is_word(Some(head), Word::Pnot) {
            return in_negation(marks, a);
        }
        return Next::Nothing;
    };
    if heap.is_word(Some(head), Word::Pequal) {
        return match first_bad(a, is_term(marks, a), b, is_term(marks, b)) {
            Some(part) => Next::InTerm(part),
            None => Next::Nothing,
        };
    }
    if heap.is_word(Some(head), Word::Por) {
        return match first_bad(a, is_formula(marks, a), b, is_formula(marks, b)) {
            Some(part) => Next::InFormula(part),
            None => Next::Nothing,
        };
    }
    Next::Nothing
}

/// The first part of an object that should be a term or a formula and is not, what is inside a part before the part itself, from left to
/// right; none of a formula. The marks are under the table. It takes no memory.
pub fn bad_formula(heap: &Heap, arity: &Arity, marks: &Marks, x: Ref) -> Option<Ref>
    requires marked { AreMarks arity.now heap.now.objects marks.now }
    requires within { x < length marks.now }
    ensures bad { option_map (object_at heap.now.objects) result ≡ bad_formula arity.now (object_at heap.now.objects x) }
    ensures within { IfSome result (λ p. p < length marks.now) }
{
    if is_formula(marks, x) {
        return None;
    }
    let mut at = x;
    loop {
        match next_part(heap, marks, at) {
            Next::Nothing => return Some(at),
            Next::InTerm(part) => return bad_term(heap, arity, marks, part),
            Next::InFormula(part) => at = part,
        }
    }
}
