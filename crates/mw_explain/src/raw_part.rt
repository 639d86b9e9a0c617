//! Looking for the first part that keeps a raw term from expanding to a term.
ghost use Rattle.std.specs.Prelude.{◌≡◌, ◌++◌, None, length, is_some, option_map, IfOk, IfSome};
ghost use Rattle.mw_model.specs.Events.Expansion.{expand};
ghost use Rattle.mw_heap.specs.Objects.{object_at, IsIn, Grows};
ghost use Rattle.mw_commands.specs.Commands.ExplanationTerms.{bad_raw};
ghost use Rattle.mw_explain.specs.RawParts.{AreBefore, IsFirstBad, LeadsRaw};

use crate::raw_parts::parts_of;
use mw_heap::{Heap, Memory, Ref, looks_for};
use mw_term::Arity;
use mw_translate::{Expanded, expand_under};

// Whether a raw term expands to a term.
fn expands(heap: &mut Heap, raw: Ref, newer: &Arity, older: &Arity) -> Result<bool, Memory>
    requires { IsIn heap.old.objects raw }
    ensures grows { Grows heap.old.objects heap.new.objects }
    ensures expands { IfOk result (λ b. b ≡ is_some (expand (newer.now ++ older.now) (object_at heap.old.objects raw))) }
{
    match expand_under(heap, raw, newer, older) {
        Expanded::Term(_) => Ok(true),
        Expanded::NotTerm => Ok(false),
        Expanded::Memory => Err(Memory),
    }
}

// The first of these parts that does not expand to a term.
fn first_bad(
    heap: &mut Heap,
    parts: &[Ref],
    newer: &Arity,
    older: &Arity,
) -> Result<Option<Ref>, Memory>
    requires { AreBefore (length heap.old.objects) parts.now }
    ensures grows { Grows heap.old.objects heap.new.objects }
    ensures bad { IfOk result (IsFirstBad (newer.now ++ older.now) heap.old.objects parts.now) }
{
    for part in parts {
        if !expands(heap, *part, newer, older)? {
            return Ok(Some(*part));
        }
    }
    Ok(None)
}

// Where to look on in what does not expand to a term.
fn next_bad(
    heap: &mut Heap,
    x: Ref,
    newer: &Arity,
    older: &Arity,
    looks_left: &mut u64,
) -> Result<Option<Ref>, Memory>
    requires { IsIn heap.old.objects x }
    ensures grows { Grows heap.old.objects heap.new.objects }
    ensures leads { IfOk result (λ o. expand (newer.now ++ older.now) (object_at heap.old.objects x) ≡ None → LeadsRaw (newer.now ++ older.now) heap.old.objects x o) }
{
    let parts = parts_of(heap, newer, older, x, looks_left)?;
    first_bad(heap, parts.as_slice(), newer, older)
}

/// The first part that keeps a raw term from expanding to a term under two arity tables, the newer one in front: what is inside a part
/// comes before the part itself, from left to right. None of a raw term that expands. A call by a name that neither table has is not
/// looked into. On the way down each part that is met is expanded, which takes looks as in `expand_under`; the search for the parts may
/// look at as many cells again as the heap allows for its size. The error is out of memory.
pub fn bad_raw(
    heap: &mut Heap,
    raw: Ref,
    newer: &Arity,
    older: &Arity,
) -> Result<Option<Ref>, Memory>
    requires { IsIn heap.old.objects raw }
    ensures grows { Grows heap.old.objects heap.new.objects }
    ensures within { IfOk result (λ o. IfSome o (IsIn heap.old.objects)) }
    ensures bad { IfOk result (λ o. option_map (object_at heap.old.objects) o ≡ bad_raw (newer.now ++ older.now) (object_at heap.old.objects raw)) }
{
    if expands(heap, raw, newer, older)? {
        return Ok(None);
    }
    let mut looks_left = looks_for(heap.mark().cells());
    let mut at = raw;
    while let Some(part) = next_bad(heap, at, newer, older, &mut looks_left)? {
        at = part;
    }
    Ok(Some(at))
}
