//! Looking for the first part that should be a term and is not.
ghost use Rattle.std.specs.Prelude.{◌≡◌, ◌<◌, false, length, IfSome, option_map};
ghost use Rattle.mw_model.specs.Terms.Term.{ArityTable};
ghost use Rattle.mw_model.specs.Laws.Rules.{is_term_object};
ghost use Rattle.mw_heap.specs.Objects.{object_at, IsIn};
ghost use Rattle.mw_term.specs.Marking.{AreMarks};
ghost use Rattle.mw_commands.specs.Commands.ExplanationTerms.{bad_term};
ghost use Rattle.mw_explain.specs.TermParts.{IsFirstMember, IsThird, Leads, is_called};

use mw_heap::{Heap, Ref, View, Word};
use mw_term::{Arity, Marks, is_term};

// The first member of a list that is not a term.
fn first_no_term(heap: &Heap, marks: &Marks, list: Ref) -> Option<Ref>
    requires marks { (A : ArityTable) × AreMarks A heap.now.objects marks.now }
    requires within { list < length marks.now }
    ensures { (A : ArityTable) → AreMarks A heap.now.objects marks.now → IsFirstMember A heap.now.objects list result }
{
    let mut rest = list;
    while let View::Pair(first, more) = heap.view(rest) {
        if !is_term(marks, first) {
            return Some(first);
        }
        rest = more;
    }
    None
}

// The third member of a list, where it has one.
pub(crate) fn third_member(heap: &Heap, x: Ref) -> Option<Ref>
    requires { IsIn heap.now.objects x }
    ensures { IsThird heap.now.objects x result }
{
    let View::Pair(_, rest) = heap.view(x) else {
        return None;
    };
    let View::Pair(_, rest) = heap.view(rest) else {
        return None;
    };
    let View::Pair(third, _) = heap.view(rest) else {
        return None;
    };
    Some(third)
}

// Whether it is a symbol other than QUOTE that the table has.
fn is_called(heap: &Heap, arity: &Arity, head: Ref) -> bool
    requires { IsIn heap.now.objects head }
    ensures { result ≡ is_called arity.now (object_at heap.now.objects head) }
{
    match heap.view(head) {
        View::Symbol => {
            !heap.is_word(Some(head), Word::Quote) && arity.lookup(heap.name_of(head)).is_some()
        }
        _ => false,
    }
}

// Where to look on in an object that is not a term.
fn bad_inside(heap: &Heap, arity: &Arity, marks: &Marks, x: Ref) -> Option<Ref>
    requires marked { AreMarks arity.now heap.now.objects marks.now }
    requires within { x < length marks.now }
    ensures { is_term_object arity.now (object_at heap.now.objects x) ≡ false → Leads arity.now heap.now.objects x result }
{
    let View::Pair(head, actuals) = heap.view(x) else {
        return None;
    };
    if is_called(heap, arity, head) {
        return first_no_term(heap, marks, actuals);
    }
    let Some(body) = third_member(heap, head) else {
        return None;
    };
    if !is_term(marks, body) {
        return Some(body);
    }
    first_no_term(heap, marks, actuals)
}

/// The first part of an object that should be a term and is not, what is inside a part before the part itself, from left to right; nothing
/// of a term. A call by a name that the table does not have is not looked into. The marks are under the table. It takes no memory.
pub fn bad_term(heap: &Heap, arity: &Arity, marks: &Marks, x: Ref) -> Option<Ref>
    requires marked { AreMarks arity.now heap.now.objects marks.now }
    requires within { x < length marks.now }
    ensures bad { option_map (object_at heap.now.objects) result ≡ bad_term arity.now (object_at heap.now.objects x) }
    ensures within { IfSome result (λ p. p < length marks.now) }
{
    if is_term(marks, x) {
        return None;
    }
    let mut at = x;
    while let Some(part) = bad_inside(heap, arity, marks, at) {
        at = part;
    }
    Some(at)
}
