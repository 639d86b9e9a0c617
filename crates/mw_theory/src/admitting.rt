//! Functions that an event defines.
ghost use Rattle.std.specs.Prelude.{◌≡◌, ◌≤◌, length, slice_get, map, Some, IfOk, IfSome};
ghost use Rattle.mw_heap.specs.Objects.{Grows};
ghost use Rattle.mw_define.specs.BlockTests.{IsBlockOf, IsBlockOfWithin};
ghost use Rattle.mw_theory.specs.Admitting.{AreWithin, AreBefore, drafts_given, function_of_entry};

use crate::mark::later;
use mw_define::{
    Admitted, Draft, Entry, admit_block, admit_block_within, admit_function, admit_function_within,
};
use mw_heap::{Heap, Mark, Memory, Ref};
use mw_preamble::Definition;
use mw_term::Arity;
use std::alloc::Global;

/// The functions that an event defines: one, or those of a list.
#[derive(Clone, Copy)]
pub enum Drafts {
    One(Draft),
    All(Ref),
}

/// Tests these functions under an arity table: what they owe and add, or the first test that fails.
pub fn admit(heap: &mut Heap, drafts: Drafts, arity: &Arity) -> Admitted
    requires { AreWithin heap.old.objects drafts }
    ensures grows { Grows heap.old.objects heap.new.objects }
    ensures admitted { IsBlockOf arity.now (drafts_given heap.old.objects drafts) heap.new.objects result }
{
    match drafts {
        Drafts::One(draft) => admit_function(heap, draft, arity),
        Drafts::All(definitions) => admit_block(heap, definitions, arity),
    }
}

/// Tests these functions for an event that has proofs for at most this number of obligations: as `admit`, but for the last test, that no more are
/// owed, whose refusal is Count. Once there is one too many, no further ones are made.
pub fn admit_within(heap: &mut Heap, drafts: Drafts, arity: &Arity, most: u64) -> Admitted
    requires { AreWithin heap.old.objects drafts }
    ensures grows { Grows heap.old.objects heap.new.objects }
    ensures admitted { IsBlockOfWithin (Some most) arity.now (drafts_given heap.old.objects drafts) heap.new.objects result }
{
    match drafts {
        Drafts::One(draft) => admit_function_within(heap, draft, arity, most),
        Drafts::All(definitions) => admit_block_within(heap, definitions, arity, most),
    }
}

/// The number of objects up to the last one of these definitions, to go back to: what stands after it is none of theirs.
pub fn mark_after(heap: &Heap, drafts: &Drafts) -> Mark
    requires { AreWithin heap.now.objects drafts.now }
    ensures before { AreBefore result drafts.now }
    ensures within { result ≤ length heap.now.objects }
{
    match *drafts {
        Drafts::One(draft) => {
            let names = later(heap.mark_after(draft.name), heap.mark_after(draft.formals));
            let terms = later(heap.mark_after(draft.body), heap.mark_after(draft.measure));
            later(names, terms)
        }
        Drafts::All(definitions) => heap.mark_after(definitions),
    }
}

// The function of an entry.
fn function_of(entry: Entry) -> Definition
    ensures { result ≡ function_of_entry entry }
{
    Definition::Function {
        name: entry.name,
        formals: entry.formals,
        body: entry.body,
    }
}

/// The functions of these entries.
pub fn functions_of(alloc: Global, entries: &[Entry]) -> Result<Vec<Definition>, Memory>
    ensures { IfOk result (λ v. v.items ≡ map function_of_entry entries.now) }
{
    let mut functions = Vec::new(alloc);
    for entry in entries {
        functions.push(function_of(*entry))?;
    }
    Ok(functions)
}

/// The witness of this name and these variables, whose body the entry has.
pub fn witness_of(name: Ref, bound: Ref, free: Ref, entries: &[Entry]) -> Definition
    requires { length entries.now ≡ 1 }
    ensures { IfSome (slice_get entries.now 0) (λ e. result ≡ Definition.Witness name bound free e.body) }
{
    Definition::Witness {
        name,
        bound,
        free,
        body: entries[0].body,
    }
}
