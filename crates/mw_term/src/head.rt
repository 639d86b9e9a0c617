//! Heads of lambda calls.
ghost use Rattle.std.specs.Prelude.{◌≡◌, ◌<◌, length, is_some, IfOk, OnOk};
ghost use Rattle.mw_model.specs.Terms.Object.{Pair};
ghost use Rattle.mw_model.specs.Terms.Term.{ArityTable};
ghost use Rattle.mw_heap.specs.Objects.{object_at, IsIn};
ghost use Rattle.mw_term.specs.Marking.{AreMarks, formal_count};
ghost use Rattle.mw_term.specs.Bodies.{AreBodies};

use crate::bodies::Bodies;
use crate::cell_mark::{CellMark, mark_at};
use crate::formals::formal_set;
use crate::free::is_closed_body;
use crate::work::Work;
use mw_heap::{Heap, Memory, Ref, View, Word};

// Whether (word . rest) is the head of a lambda call.
pub(crate) fn is_lambda_head(
    heap: &Heap,
    marks: &[CellMark],
    word: Ref,
    rest: Ref,
    bodies: &mut Bodies,
    work: &mut Work,
) -> Result<bool, Memory>
    requires word_within { IsIn heap.now.objects word }
    requires within { IsIn heap.now.objects rest }
    requires marked { rest < length marks.now }
    requires bodies { AreBodies heap.now.objects bodies.old.found.entries }
    ensures head { (A : ArityTable) → AreMarks A heap.now.objects marks.now → IfOk result (λ b. b ≡ is_some (formal_count A (Pair (object_at heap.now.objects word) (object_at heap.now.objects rest)))) }
    ensures bodies { OnOk result (AreBodies heap.now.objects bodies.new.found.entries) }
{
    if !heap.is_word(Some(word), Word::Lambda) {
        return Ok(false);
    }
    let View::Pair(list, tail) = heap.view(rest) else {
        return Ok(false);
    };
    let View::Pair(body, end) = heap.view(tail) else {
        return Ok(false);
    };
    if !heap.is_nil(Some(end)) {
        return Ok(false);
    }
    if !mark_at(marks, body).is_term() {
        return Ok(false);
    }
    match formal_set(heap, list, work)? {
        Some(formals) => is_closed_body(heap, &formals, body, bodies, work),
        None => Ok(false),
    }
}
