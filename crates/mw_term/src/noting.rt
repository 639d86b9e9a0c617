//! What could make a cell pass a test that it does not pass.
ghost use Rattle.std.specs.Prelude.{◌≡◌, ℕ, ◌⊎◌, ◌<◌, ◌≤◌, true, false, length, None, IfOk, OnOk};
ghost use Rattle.mw_model.specs.Terms.Object.{Name, Symbol};
ghost use Rattle.mw_model.specs.Terms.Term.{ArityTable, arity_of, is_function_name};
ghost use Rattle.mw_model.specs.Values.Primitive.{is_symbol};
ghost use Rattle.mw_heap.specs.Objects.{object_at, IsIn};
ghost use Rattle.mw_term.specs.Marking.{AreMarks};
ghost use Rattle.mw_term.specs.Watching.{Test, passes, right_mark, Lasts, Reason, IsNoted, IsNotedUnless, KeepsNotes, IsLastingIn, begins_formula, looks_at_members, IsPartWatched, AreMembersWatched};

use crate::Arity;
use crate::cell_mark::{CellMark, mark_at};
use crate::names::is_function_symbol;
use crate::notes::Notes;
use mw_heap::{Heap, Memory, Ref, View, Word};

// Notes a cell with a part, unless the mark of that lasts, whatever names come. It answers whether it does.
fn note_unless_lasting(
    notes: &mut Notes,
    lasting: &[bool],
    part: Ref,
    cell: Ref,
) -> Result<bool, Memory>
    requires { part < length lasting.now }
    ensures watched { IfOk result (λ lasts. IsLastingIn lasting.now part ⊎ IsNotedUnless lasts notes.new.by_part.entries cell part) }
    ensures kept { OnOk result (KeepsNotes notes.old.by_part.entries notes.new.by_part.entries) }
{
    if lasting[part.index()] {
        return Ok(true);
    }
    notes.add(part, cell)?;
    Ok(false)
}

// Notes a call with its head, where that is the name of a function that has no arity yet. It answers whether it is none.
fn note_name(
    notes: &mut Notes,
    heap: &Heap,
    arity: &Arity,
    head: Ref,
    cell: Ref,
) -> Result<bool, Memory>
    requires within { IsIn heap.now.objects head }
    requires symbol { is_symbol (object_at heap.now.objects head) ≡ true }
    ensures named { (f : Name) → object_at heap.now.objects head ≡ Symbol f → is_function_name f ≡ true → arity_of arity.now f ≡ None → IfOk result (λ lasts. IsNotedUnless lasts notes.new.by_part.entries cell head) }
    ensures kept { OnOk result (KeepsNotes notes.old.by_part.entries notes.new.by_part.entries) }
{
    if !is_function_symbol(heap, head) {
        return Ok(true);
    }
    if arity.lookup(heap.name_of(head)).is_some() {
        return Ok(true);
    }
    notes.add(head, cell)?;
    Ok(false)
}

// Notes a pair with its rest, where that is no list of terms, and else with its first part. It answers whether what it waits for lasts.
fn note_part(
    notes: &mut Notes,
    lasting: &[bool],
    heap: &Heap,
    arity: &Arity,
    marks: &[CellMark],
    cell: Ref,
    first: Ref,
    rest: Ref,
) -> Result<bool, Memory>
    requires marked { AreMarks arity.now heap.now.objects marks.now }
    requires first { first < length marks.now }
    requires rest { rest < length marks.now }
    requires first_known { first < length lasting.now }
    requires rest_known { rest < length lasting.now }
    ensures watched { IfOk result (λ lasts. IsPartWatched arity.now heap.now.objects (IsLastingIn lasting.now) (IsNotedUnless lasts notes.new.by_part.entries cell) first rest) }
    ensures kept { OnOk result (KeepsNotes notes.old.by_part.entries notes.new.by_part.entries) }
{
    if !mark_at(marks, rest).is_terms() {
        return note_unless_lasting(notes, lasting, rest, cell);
    }
    match heap.view(first) {
        View::Symbol => note_name(notes, heap, arity, first, cell),
        _ => note_unless_lasting(notes, lasting, first, cell),
    }
}

// Whether a formula may begin with this head.
fn begins_formula(heap: &Heap, head: Ref) -> bool
    requires { IsIn heap.now.objects head }
    ensures { result ≡ begins_formula (object_at heap.now.objects head) }
{
    heap.is_word(Some(head), Word::Pequal)
        || heap.is_word(Some(head), Word::Pnot)
        || heap.is_word(Some(head), Word::Por)
}

// Whether what a pair with this head and this mark is may depend on the first two members of its rest.
fn looks_at_members(heap: &Heap, head: Ref, mark: &CellMark) -> bool
    requires { IsIn heap.now.objects head }
    ensures { result ≡ looks_at_members (object_at heap.now.objects head) mark.now }
{
    (begins_formula(heap, head) && !mark.is_formula())
        || (heap.is_word(Some(head), Word::Lambda) && !mark.is_head())
}

// Notes a pair with the first two members of its rest, where it may be a formula or a head by them. It answers whether what it waits for
// lasts.
fn note_members(
    notes: &mut Notes,
    lasting: &[bool],
    heap: &Heap,
    mark: &CellMark,
    cell: Ref,
    first: Ref,
    rest: Ref,
) -> Result<bool, Memory>
    requires within { IsIn heap.now.objects cell }
    requires first { IsIn heap.now.objects first }
    requires rest { IsIn heap.now.objects rest }
    requires known { rest < length lasting.now }
    ensures watched { (A : ArityTable) → mark.now ≡ right_mark A heap.now.objects cell → IfOk result (λ lasts. AreMembersWatched A heap.now.objects (IsLastingIn lasting.now) (IsNotedUnless lasts notes.new.by_part.entries cell) cell first rest) }
    ensures kept { OnOk result (KeepsNotes notes.old.by_part.entries notes.new.by_part.entries) }
{
    heap.order();
    if !looks_at_members(heap, first, mark) {
        return Ok(true);
    }
    let View::Pair(member, more) = heap.view(rest) else {
        return Ok(true);
    };
    let lasts = note_unless_lasting(notes, lasting, member, cell)?;
    let View::Pair(second, _) = heap.view(more) else {
        return Ok(lasts);
    };
    let second_lasts = note_unless_lasting(notes, lasting, second, cell)?;
    Ok(lasts && second_lasts)
}

/// Notes a cell with all that could make it pass a test that it does not pass. It answers whether nothing can: then its mark lasts,
/// whatever names come. The one error is out of memory.
pub(crate) fn note_reasons(
    notes: &mut Notes,
    lasting: &[bool],
    heap: &Heap,
    arity: &Arity,
    marks: &[CellMark],
    cell: Ref,
    mark: &CellMark,
) -> Result<bool, Memory>
    requires within { IsIn heap.now.objects cell }
    requires marked { AreMarks arity.now heap.now.objects marks.now }
    requires before { cell ≤ length marks.now }
    requires known { cell ≤ length lasting.now }
    requires lasting { (w : ℕ) → w < cell → IsLastingIn lasting.now w → Lasts arity.now (object_at heap.now.objects w) }
    requires mark { mark.now ≡ right_mark arity.now heap.now.objects cell }
    ensures reasons { OnOk result ((k : Test) → passes arity.now (object_at heap.now.objects cell) k ≡ false → Reason arity.now heap.now.objects (right_mark arity.now heap.now.objects) (IsNoted notes.new.by_part.entries) cell k) }
    ensures lasts { IfOk result (λ lasts. lasts ≡ true → Lasts arity.now (object_at heap.now.objects cell)) }
    ensures kept { OnOk result (KeepsNotes notes.old.by_part.entries notes.new.by_part.entries) }
{
    heap.order();
    let View::Pair(first, rest) = heap.view(cell) else {
        return Ok(true);
    };
    let part_lasts = note_part(notes, lasting, heap, arity, marks, cell, first, rest)?;
    let members_last = note_members(notes, lasting, heap, mark, cell, first, rest)?;
    Ok(part_lasts && members_last)
}
