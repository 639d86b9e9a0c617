//! The tests of a block of functions: each is made for all of them before the next.
ghost use Rattle.std.specs.Prelude.{◌≡◌, ◌++◌, ◌∷◌, [], length, true, false, None, Some, List, IfOk, MatchOption, if◌then◌else◌};
ghost use Rattle.mw_model.specs.Terms.Object.{Name};
ghost use Rattle.mw_model.specs.Terms.Reading.{that};
ghost use Rattle.mw_model.specs.Terms.Term.{are_distinct};
ghost use Rattle.mw_model.specs.Events.Admission.{formals_of};
ghost use Rattle.mw_model.specs.Events.Expansion.{expand};
ghost use Rattle.mw_heap.specs.Objects.{object_at, IsIn, Grows};
ghost use Rattle.mw_term.specs.Parts.{names_at, AreSymbols};
ghost use Rattle.mw_translate.specs.Expands.{ArePairsOfSymbols, pair_names, with_pairs};
ghost use Rattle.mw_define.specs.Blocks.{IsDraftIn, AreDraftsIn, names_of_drafts, formals_of_drafts, AreNames, IsCounted, Each2, IsExpansion, Expands, ExpandsNone, HasNoTerm, is_next_name, function_at, is_closed_at, IsExpanded, AreExpanded, IsClosedEntry, are_closed_at};

use crate::admitted::Entry;
use crate::draft::Draft;
use crate::names::is_new_name;
use indexmap::IndexSet;
use mw_heap::{Heap, Memory, Ref, looks_for};
use mw_term::{Arity, Formals, is_among_symbols};
use mw_translate::{Expanded, arities_of, expand, expand_under};

/// Adds x where it is a new name that is not there yet, and says whether it is. The error is out of memory.
pub fn add_name(
    heap: &Heap,
    names: &mut IndexSet<Ref>,
    x: Ref,
    arity: &Arity,
) -> Result<bool, Memory>
    requires within { IsIn heap.now.objects x }
    requires symbols { AreSymbols heap.now.objects names.old.keys }
    ensures new { IfOk result (λ b. b ≡ is_next_name arity.now (names_at heap.now.objects names.old.keys) (object_at heap.now.objects x)) }
    ensures added { IfOk result (λ b. names.new.keys ≡ (if b then names.old.keys ++ x ∷ [] else names.old.keys)) }
{
    if !is_new_name(heap, x, arity) {
        return Ok(false);
    }
    if is_among_symbols(heap, names, x) {
        return Ok(false);
    }
    names.insert(x)?;
    Ok(true)
}

// The names of the drafts, where each is new and none comes twice.
pub(crate) fn names_of(
    heap: &Heap,
    drafts: &[Draft],
    arity: &Arity,
) -> Result<Option<IndexSet<Ref>>, Memory>
    requires { AreDraftsIn heap.now.objects drafts.now }
    ensures { IfOk result (λ o. MatchOption o (that are_distinct (names_of_drafts arity.now heap.now.objects drafts.now) ≡ None) (λ s. AreNames arity.now heap.now.objects drafts.now s.keys)) }
{
    let mut names = IndexSet::new(heap.alloc());
    for draft in drafts {
        if !add_name(heap, &mut names, draft.name, arity)? {
            return Ok(None);
        }
    }
    Ok(Some(names))
}

// How many formals a list has, where it is one of formals. Each takes a look.
fn count_of(heap: &Heap, list: Ref, looks_left: &mut u64) -> Result<Option<u64>, Memory>
    requires { IsIn heap.now.objects list }
    ensures { IfOk result (λ o. MatchOption o (formals_of (object_at heap.now.objects list) ≡ None) (λ n. (xs : List Name) × (formals_of (object_at heap.now.objects list) ≡ Some xs) × (n ≡ length xs))) }
{
    match Formals::of_list_counted(heap, list, looks_left)? {
        Some(formals) => Ok(Some(formals.len() as u64)),
        None => Ok(None),
    }
}

// The names of the drafts with how many formals each has, where each has a list of formals. The functions may share their formals, which
// are walked for each, here and when the block is closed, compiled and added: so a sixteenth of the looks is allowed, each with a search
// in a table.
pub(crate) fn pairs_of(heap: &Heap, drafts: &[Draft]) -> Result<Option<Vec<(Ref, u64)>>, Memory>
    requires { AreDraftsIn heap.now.objects drafts.now }
    ensures { IfOk result (λ o. MatchOption o (formals_of_drafts heap.now.objects drafts.now ≡ None) (λ v. Each2 (IsCounted heap.now.objects) drafts.now v.items)) }
{
    let mut pairs = Vec::new(heap.alloc());
    let mut looks_left = looks_for(heap.mark().cells()) / 16;
    for draft in drafts {
        let Some(count) = count_of(heap, draft.formals, &mut looks_left)? else {
            return Ok(None);
        };
        pairs.push((draft.name, count))?;
    }
    Ok(Some(pairs))
}

/// What a raw body expands to under two tables, the newer one in front, where that is a term. It takes looks as `expand_under` does. The
/// error is out of memory.
pub fn expanded_body(
    heap: &mut Heap,
    raw: Ref,
    newer: &Arity,
    older: &Arity,
) -> Result<Option<Ref>, Memory>
    requires { IsIn heap.old.objects raw }
    ensures grows { Grows heap.old.objects heap.new.objects }
    ensures expanded { IfOk result (λ o. MatchOption o (expand (newer.now ++ older.now) (object_at heap.old.objects raw) ≡ None) (IsExpansion (newer.now ++ older.now) heap.new.objects (object_at heap.old.objects raw))) }
{
    match expand_under(heap, raw, newer, older) {
        Expanded::Term(term) => Ok(Some(term)),
        Expanded::NotTerm => Ok(None),
        Expanded::Memory => Err(Memory),
    }
}

// What a raw measure expands to, where that is a term.
fn expanded_measure(heap: &mut Heap, raw: Ref, arity: &Arity) -> Result<Option<Ref>, Memory>
    requires { IsIn heap.old.objects raw }
    ensures grows { Grows heap.old.objects heap.new.objects }
    ensures expanded { IfOk result (λ o. MatchOption o (expand arity.now (object_at heap.old.objects raw) ≡ None) (IsExpansion arity.now heap.new.objects (object_at heap.old.objects raw))) }
{
    match expand(heap, raw, arity, &[]) {
        Expanded::Term(term) => Ok(Some(term)),
        Expanded::NotTerm => Ok(None),
        Expanded::Memory => Err(Memory),
    }
}

// The draft with its body expanded under both tables, and its measure under the older one, where both are terms.
fn expand_draft(
    heap: &mut Heap,
    draft: Draft,
    newer: &Arity,
    older: &Arity,
) -> Result<Option<Draft>, Memory>
    requires { IsDraftIn heap.old.objects draft }
    ensures grows { Grows heap.old.objects heap.new.objects }
    ensures expanded { IfOk result (λ o. MatchOption o (ExpandsNone (newer.now ++ older.now) older.now heap.old.objects draft) (Expands (newer.now ++ older.now) older.now heap.old.objects heap.new.objects draft)) }
{
    let Some(body) = expanded_body(heap, draft.body, newer, older)? else {
        return Ok(None);
    };
    let Some(measure) = expanded_measure(heap, draft.measure, older)? else {
        return Ok(None);
    };
    Ok(Some(Draft {
        name: draft.name,
        formals: draft.formals,
        body,
        measure,
    }))
}

// Each draft with its body and its measure expanded, where all are terms.
fn expand_each(
    heap: &mut Heap,
    drafts: &[Draft],
    newer: &Arity,
    older: &Arity,
) -> Result<Option<Vec<Draft>>, Memory>
    requires { AreDraftsIn heap.old.objects drafts.now }
    ensures grows { Grows heap.old.objects heap.new.objects }
    ensures expanded { IfOk result (λ o. MatchOption o (HasNoTerm (newer.now ++ older.now) older.now heap.old.objects drafts.now) (λ v. Each2 (Expands (newer.now ++ older.now) older.now heap.old.objects heap.new.objects) drafts.now v.items)) }
{
    let mut expanded = Vec::new(heap.alloc());
    for draft in drafts {
        let Some(next) = expand_draft(heap, *draft, newer, older)? else {
            return Ok(None);
        };
        expanded.push(next)?;
    }
    Ok(Some(expanded))
}

// The same, where the bodies may call functions of these names, with these numbers of arguments, besides those of the table.
pub(crate) fn expand_all(
    heap: &mut Heap,
    drafts: &[Draft],
    pairs: &[(Ref, u64)],
    arity: &Arity,
) -> Result<Option<Vec<Draft>>, Memory>
    requires within { AreDraftsIn heap.old.objects drafts.now }
    requires symbols { ArePairsOfSymbols heap.old.objects pairs.now }
    requires distinct { are_distinct (pair_names heap.old.objects pairs.now) ≡ true }
    ensures grows { Grows heap.old.objects heap.new.objects }
    ensures expanded { IfOk result (λ o. MatchOption o (HasNoTerm (with_pairs heap.old.objects pairs.now arity.now) arity.now heap.old.objects drafts.now) (λ v. Each2 (Expands (with_pairs heap.old.objects pairs.now arity.now) arity.now heap.old.objects heap.new.objects) drafts.now v.items)) }
{
    match arities_of(heap, pairs) {
        Ok(newer) => expand_each(heap, drafts, &newer, arity),
        Err(_) => Err(Memory),
    }
}

// Whether the body and the measure have no variables but these formals.
fn closes_both(heap: &Heap, formals: &Formals, expanded: Draft) -> Result<bool, Memory>
    requires expanded { IsExpanded heap.now.objects expanded }
    requires symbols { AreSymbols heap.now.objects formals.now }
    requires formals { names_at heap.now.objects formals.now ≡ (function_at heap.now.objects expanded).formals }
    ensures { IfOk result (λ b. b ≡ is_closed_at heap.now.objects expanded) }
{
    if !formals.closes(heap, expanded.body)? {
        return Ok(false);
    }
    formals.closes(heap, expanded.measure)
}

// Whether the body and the measure have no variables but the formals of the draft.
fn is_closed(heap: &Heap, expanded: Draft) -> Result<bool, Memory>
    requires { IsExpanded heap.now.objects expanded }
    ensures { IfOk result (λ b. b ≡ is_closed_at heap.now.objects expanded) }
{
    let Some(formals) = Formals::of_list(heap, expanded.formals)? else {
        unreachable!()
    };
    closes_both(heap, &formals, expanded)
}

// The entry of an expanded draft, where it is closed.
fn close(heap: &Heap, expanded: Draft) -> Result<Option<Entry>, Memory>
    requires { IsExpanded heap.now.objects expanded }
    ensures { IfOk result (λ o. MatchOption o (is_closed_at heap.now.objects expanded ≡ false) (IsClosedEntry heap.now.objects expanded)) }
{
    if !is_closed(heap, expanded)? {
        return Ok(None);
    }
    Ok(Some(Entry {
        name: expanded.name,
        formals: expanded.formals,
        body: expanded.body,
    }))
}

// The entries of expanded drafts, where all are closed.
pub(crate) fn close_all(heap: &Heap, expanded: &[Draft]) -> Result<Option<Vec<Entry>>, Memory>
    requires { AreExpanded heap.now.objects expanded.now }
    ensures { IfOk result (λ o. MatchOption o (are_closed_at heap.now.objects expanded.now ≡ false) (λ v. Each2 (IsClosedEntry heap.now.objects) expanded.now v.items)) }
{
    let mut entries = Vec::new(heap.alloc());
    for draft in expanded {
        let Some(entry) = close(heap, *draft)? else {
            return Ok(None);
        };
        entries.push(entry)?;
    }
    Ok(Some(entries))
}
