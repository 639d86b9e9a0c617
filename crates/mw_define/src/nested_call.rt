//! The first call of a block in whose actuals the block is called.
ghost use Rattle.std.specs.Prelude.{◌≡◌, List, [], true, map, Some, IfOk, OnOk};
ghost use Rattle.mw_model.specs.Terms.Term.{Term};
ghost use Rattle.mw_model.specs.Terms.Reading.{term_of};
ghost use Rattle.mw_model.specs.Values.Definition.{Function};
ghost use Rattle.mw_model.specs.Events.Obligation.{collect};
ghost use Rattle.mw_heap.specs.Objects.{object_at, IsIn, Grows};
ghost use Rattle.mw_term.specs.Parts.{names_at};
ghost use Rattle.mw_define.specs.Blocks.{draft_at, AreDraftsIn, AreNames, Each2, IsCounted, functions_at};
ghost use Rattle.mw_define.specs.Collecting.{AreFoundCalls, HasNames, found_calls};
ghost use Rattle.mw_define.specs.Knowing.{AreKnown};
ghost use Rattle.mw_define.specs.NestedCall.{HaveNoMeasures, IsFirstFound, IsFirstNested, IsNestedFrom, measures_expand};
ghost use Rattle.mw_define.specs.Owed.{AreBlock};

use crate::block::{expand_all, names_of, pairs_of};
use crate::collect::find_calls;
use crate::draft::Draft;
use crate::item::FoundCall;
use crate::known::Known;
use crate::mention::mentions_some;
use crate::piece::Piece;
use indexmap::IndexSet;
use mw_heap::{Heap, Memory, Ref};
use mw_term::{Arity, take_searches};

/// A call of a function of a block: the number of the function whose body has it, from 1 on, the name that it calls and the list of its
/// actuals.
#[derive(Clone, Copy, Debug, PartialEq, Eq)]
pub struct NestedCall {
    pub number: u64,
    pub name: Ref,
    pub actuals: Ref,
}

// The most looks at the actuals of one function's calls, as in what a block owes.
const MOST_LOOKS: u64 = 1 << 24;

// The first of these calls in whose actuals a function of the block is called. Each call takes a look, and so does each piece of its
// actuals that was not looked at before.
fn first_nested(
    heap: &Heap,
    calls: &[FoundCall],
    known: &mut Known,
    looks_left: &mut u64,
) -> Result<Option<FoundCall>, Memory>
    requires calls { AreFoundCalls heap.now.objects (names_at heap.now.objects known.old.names.keys) calls.now }
    requires known { AreKnown heap.now.objects known.old.names.keys known.old }
    ensures known { OnOk result (AreKnown heap.now.objects known.old.names.keys known.new) }
    ensures nested { IfOk result (λ o. (B : List Function) → HasNames B (names_at heap.now.objects known.old.names.keys) → IsFirstFound B heap.now.objects (found_calls B heap.now.objects calls.now) o) }
{
    for call in calls {
        if mentions_some(heap, Piece::Terms(call.actuals), known, looks_left)? {
            return Ok(Some(*call));
        }
    }
    Ok(None)
}

// The first call of the block in a term in whose actuals a function of the block is called.
fn nested_in(heap: &mut Heap, term: Ref, known: &mut Known) -> Result<Option<FoundCall>, Memory>
    requires within { IsIn heap.old.objects term }
    requires read { (t : Term) × (term_of (object_at heap.old.objects term) ≡ Some t) }
    requires known { AreKnown heap.old.objects known.old.names.keys known.old }
    ensures grows { Grows heap.old.objects heap.new.objects }
    ensures known { OnOk result (AreKnown heap.new.objects known.old.names.keys known.new) }
    ensures nested { IfOk result (λ o. (B : List Function) (t : Term) → HasNames B (names_at heap.old.objects known.old.names.keys) → term_of (object_at heap.old.objects term) ≡ Some t → IsFirstFound B heap.new.objects (collect B [] t) o) }
{
    let calls = find_calls(heap, term, known)?;
    let mut looks_left = MOST_LOOKS;
    let nested = first_nested(heap, calls.as_slice(), known, &mut looks_left)?;
    take_searches(heap, MOST_LOOKS.saturating_sub(looks_left))?;
    Ok(nested)
}

// The first nested call of a block.
fn find_nested(
    heap: &mut Heap,
    block: &[Draft],
    known: &mut Known,
) -> Result<Option<NestedCall>, Memory>
    requires block { AreBlock heap.old.objects known.old.names.keys block.now }
    requires known { AreKnown heap.old.objects known.old.names.keys known.old }
    ensures grows { Grows heap.old.objects heap.new.objects }
    ensures nested { IfOk result (IsFirstNested (functions_at heap.old.objects block.now) heap.new.objects) }
{
    for (index, function) in block.iter().enumerate() {
        let nested = nested_in(heap, function.body, known)?;
        if let Some(call) = nested {
            let number = index as u64 + 1;
            return Ok(Some(NestedCall {
                number,
                name: call.name,
                actuals: call.actuals,
            }));
        }
    }
    Ok(None)
}

// The same, where nothing is known of the block yet.
fn find_nested_of(
    heap: &mut Heap,
    names: IndexSet<Ref>,
    block: &[Draft],
) -> Result<Option<NestedCall>, Memory>
    requires { AreBlock heap.old.objects names.keys block.now }
    ensures grows { Grows heap.old.objects heap.new.objects }
    ensures nested { IfOk result (IsFirstNested (functions_at heap.old.objects block.now) heap.new.objects) }
{
    let mut known = Known::new(names, heap.alloc());
    find_nested(heap, block, &mut known)
}

// The first nested call of the functions of these drafts, whose names and formals passed, by the number of formals of each name.
fn nested_counted(
    heap: &mut Heap,
    names: IndexSet<Ref>,
    drafts: &[Draft],
    pairs: &[(Ref, u64)],
    arity: &Arity,
) -> Result<Option<NestedCall>, Memory>
    requires within { AreDraftsIn heap.old.objects drafts.now }
    requires names { AreNames arity.now heap.old.objects drafts.now names.keys }
    requires counted { Each2 (IsCounted heap.old.objects) drafts.now pairs.now }
    requires measures { measures_expand arity.now heap.old.objects drafts.now ≡ true }
    ensures grows { Grows heap.old.objects heap.new.objects }
    ensures nested { IfOk result (IsNestedFrom arity.now (map (draft_at heap.old.objects) drafts.now) heap.new.objects) }
{
    match expand_all(heap, drafts, pairs, arity)? {
        Some(block) => find_nested_of(heap, names, block.as_slice()),
        None => Ok(None),
    }
}

// The same, where their names passed.
fn nested_named(
    heap: &mut Heap,
    names: IndexSet<Ref>,
    drafts: &[Draft],
    arity: &Arity,
) -> Result<Option<NestedCall>, Memory>
    requires within { AreDraftsIn heap.old.objects drafts.now }
    requires names { AreNames arity.now heap.old.objects drafts.now names.keys }
    requires measures { measures_expand arity.now heap.old.objects drafts.now ≡ true }
    ensures grows { Grows heap.old.objects heap.new.objects }
    ensures nested { IfOk result (IsNestedFrom arity.now (map (draft_at heap.old.objects) drafts.now) heap.new.objects) }
{
    let Some(pairs) = pairs_of(heap, drafts)? else {
        return Ok(None);
    };
    nested_counted(heap, names, drafts, pairs.as_slice(), arity)
}

// The same, of any drafts whose measures expand to terms.
fn nested_among(
    heap: &mut Heap,
    drafts: &[Draft],
    arity: &Arity,
) -> Result<Option<NestedCall>, Memory>
    requires within { AreDraftsIn heap.old.objects drafts.now }
    requires measures { measures_expand arity.now heap.old.objects drafts.now ≡ true }
    ensures grows { Grows heap.old.objects heap.new.objects }
    ensures nested { IfOk result (IsNestedFrom arity.now (map (draft_at heap.old.objects) drafts.now) heap.new.objects) }
{
    match names_of(heap, drafts, arity)? {
        Some(names) => nested_named(heap, names, drafts, arity),
        None => Ok(None),
    }
}

// The drafts with NIL for their measures.
fn without_measures(heap: &mut Heap, drafts: &[Draft]) -> Result<Vec<Draft>, Memory>
    ensures grows { Grows heap.old.objects heap.new.objects }
    ensures made { IfOk result (λ v. HaveNoMeasures heap.new.objects drafts.now v.items) }
{
    let nil = heap.nil()?;
    let mut plain = Vec::new(heap.alloc());
    for draft in drafts {
        plain.push(Draft {
            name: draft.name,
            formals: draft.formals,
            body: draft.body,
            measure: nil,
        })?;
    }
    Ok(plain)
}

/// The first call of a block of functions in whose actuals a function of the block is called, in the bodies of these drafts one after
/// another; nothing where there is none, or where a body does not expand to a term. It says nothing where a name is not new or comes
/// twice, or where a list is none of formals. It takes looks as `admit_block` does. The error is out of memory.
pub fn first_nested_call(
    heap: &mut Heap,
    drafts: &[Draft],
    arity: &Arity,
) -> Result<Option<NestedCall>, Memory>
    requires { AreDraftsIn heap.old.objects drafts.now }
    ensures grows { Grows heap.old.objects heap.new.objects }
    ensures nested { IfOk result (IsNestedFrom arity.now (map (draft_at heap.old.objects) drafts.now) heap.new.objects) }
{
    let plain = without_measures(heap, drafts)?;
    nested_among(heap, plain.as_slice(), arity)
}
