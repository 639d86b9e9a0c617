//! Admission of blocks of functions.
ghost use Rattle.std.specs.Prelude.{◌∷◌, [], map, Some, IfOk};
ghost use Rattle.mw_model.specs.Events.Admission.{some_drafts};
ghost use Rattle.mw_heap.specs.Objects.{object_at, IsIn, Grows};
ghost use Rattle.mw_define.specs.Blocks.{draft_at, IsDraftIn, AreDraftsIn, AreNames, Each2, IsCounted};
ghost use Rattle.mw_define.specs.Owed.{AreBlock};
ghost use Rattle.mw_define.specs.BlockTests.{IsBlock, IsBlockOf, IsBlockWithin, IsBlockOfWithin, IsExpandedBlock};

use crate::admitted::{Admitted, Owed};
use crate::block::{close_all, expand_all, names_of, pairs_of};
use crate::draft::Draft;
use crate::drafts::read_drafts;
use crate::listed::Listed;
use crate::listing::{list_axioms, list_obligations};
use indexmap::IndexSet;
use mw_heap::{Heap, Memory, Ref, Refusal};
use mw_term::Arity;

// The block of these expanded drafts, whose last tests are to be made.
fn admit_expanded(
    heap: &mut Heap,
    names: IndexSet<Ref>,
    block: &[Draft],
    most: Option<u64>,
) -> Result<Admitted, Memory>
    requires { AreBlock heap.old.objects names.keys block.now }
    ensures grows { Grows heap.old.objects heap.new.objects }
    ensures admitted { IfOk result (IsExpandedBlock most heap.old.objects heap.new.objects block.now) }
{
    let Some(entries) = close_all(heap, block)? else {
        return Ok(Admitted::Refused(Refusal::Variables));
    };
    // before the obligations, so that the heap can forget these and keep the axioms
    let axioms = list_axioms(heap, block)?;
    match list_obligations(heap, names, block, most)? {
        Listed::Nested => Ok(Admitted::Refused(Refusal::Nested)),
        Listed::TooMany => Ok(Admitted::Refused(Refusal::Count)),
        Listed::Formulas(obligations) => Ok(Admitted::Obligations(Owed {
            obligations,
            axioms,
            entries,
        })),
    }
}

// The block of these drafts, whose names and formals passed, by the number of formals of each name.
fn admit_counted(
    heap: &mut Heap,
    names: IndexSet<Ref>,
    drafts: &[Draft],
    pairs: &[(Ref, u64)],
    arity: &Arity,
    most: Option<u64>,
) -> Result<Admitted, Memory>
    requires within { AreDraftsIn heap.old.objects drafts.now }
    requires names { AreNames arity.now heap.old.objects drafts.now names.keys }
    requires counted { Each2 (IsCounted heap.old.objects) drafts.now pairs.now }
    ensures grows { Grows heap.old.objects heap.new.objects }
    ensures admitted { IfOk result (IsBlockWithin most arity.now (map (draft_at heap.old.objects) drafts.now) heap.new.objects) }
{
    match expand_all(heap, drafts, pairs, arity)? {
        Some(block) => admit_expanded(heap, names, block.as_slice(), most),
        None => Ok(Admitted::Refused(Refusal::Term)),
    }
}

// The block of these drafts, whose names passed.
fn admit_named(
    heap: &mut Heap,
    names: IndexSet<Ref>,
    drafts: &[Draft],
    arity: &Arity,
    most: Option<u64>,
) -> Result<Admitted, Memory>
    requires within { AreDraftsIn heap.old.objects drafts.now }
    requires names { AreNames arity.now heap.old.objects drafts.now names.keys }
    ensures grows { Grows heap.old.objects heap.new.objects }
    ensures admitted { IfOk result (IsBlockWithin most arity.now (map (draft_at heap.old.objects) drafts.now) heap.new.objects) }
{
    let Some(pairs) = pairs_of(heap, drafts)? else {
        return Ok(Admitted::Refused(Refusal::Formals));
    };
    admit_counted(heap, names, drafts, pairs.as_slice(), arity, most)
}

// The block of these drafts.
fn admit_drafts(
    heap: &mut Heap,
    drafts: &[Draft],
    arity: &Arity,
    most: Option<u64>,
) -> Result<Admitted, Memory>
    requires { AreDraftsIn heap.old.objects drafts.now }
    ensures grows { Grows heap.old.objects heap.new.objects }
    ensures admitted { IfOk result (IsBlockWithin most arity.now (map (draft_at heap.old.objects) drafts.now) heap.new.objects) }
{
    match names_of(heap, drafts, arity)? {
        Some(names) => admit_named(heap, names, drafts, arity, most),
        None => Ok(Admitted::Refused(Refusal::Name)),
    }
}

// The block of a list of drafts.
fn admit_list(
    heap: &mut Heap,
    defs: Ref,
    arity: &Arity,
    most: Option<u64>,
) -> Result<Admitted, Memory>
    requires { IsIn heap.old.objects defs }
    ensures grows { Grows heap.old.objects heap.new.objects }
    ensures admitted { IfOk result (IsBlockOfWithin most arity.now (some_drafts (object_at heap.old.objects defs)) heap.new.objects) }
{
    match read_drafts(heap, defs)? {
        Some(drafts) => admit_drafts(heap, drafts.as_slice(), arity, most),
        None => Ok(Admitted::Refused(Refusal::Event)),
    }
}

/// Tests a block of functions that may call each other: `defs` is a list of one or more lists (NAME FORMALS BODY MEASURE), with a raw
/// body and a raw measure. The first test that fails, each made for all of them before the next, is the reason of the refusal: that
/// `defs` is such a list, that the names are new and none comes twice, that each has a list of formals, that the bodies expand to
/// terms, where the functions may be called, and the measures to terms, where they may not, that both have no variables but the
/// formals, and that no function of the block is called in an actual of a call of one. Where all pass it answers the obligations, in
/// order and each once, the axioms, and the entries. A body in which the search for calls comes to more than 2^24 parts is answered as out
/// of memory, and so is a block that takes more looks than the heap allows.
pub fn admit_block(heap: &mut Heap, defs: Ref, arity: &Arity) -> Admitted
    requires { IsIn heap.old.objects defs }
    ensures grows { Grows heap.old.objects heap.new.objects }
    ensures admitted { IsBlockOf arity.now (some_drafts (object_at heap.old.objects defs)) heap.new.objects result }
{
    match admit_list(heap, defs, arity, None) {
        Ok(admitted) => admitted,
        Err(_) => Admitted::Memory,
    }
}

/// Tests a block as `admit_block` does, for an event that has proofs for at most `most` obligations: the last test is that no more are
/// owed, and its refusal is Count. Once there is one too many, no further ones are made.
pub fn admit_block_within(heap: &mut Heap, defs: Ref, arity: &Arity, most: u64) -> Admitted
    requires { IsIn heap.old.objects defs }
    ensures grows { Grows heap.old.objects heap.new.objects }
    ensures admitted { IsBlockOfWithin (Some most) arity.now (some_drafts (object_at heap.old.objects defs)) heap.new.objects result }
{
    match admit_list(heap, defs, arity, Some(most)) {
        Ok(admitted) => admitted,
        Err(_) => Admitted::Memory,
    }
}

/// Tests a function that may call itself, given by its name, the list of its formals, its raw body and its raw measure, as
/// `admit_block` does a block of it alone.
pub fn admit_function(heap: &mut Heap, draft: Draft, arity: &Arity) -> Admitted
    requires { IsDraftIn heap.old.objects draft }
    ensures grows { Grows heap.old.objects heap.new.objects }
    ensures admitted { IsBlock arity.now (draft_at heap.old.objects draft ∷ []) heap.new.objects result }
{
    match admit_drafts(heap, &[draft], arity, None) {
        Ok(admitted) => admitted,
        Err(_) => Admitted::Memory,
    }
}

/// Tests a function as `admit_function` does, for an event that has proofs for at most `most` obligations, as `admit_block_within` does.
pub fn admit_function_within(heap: &mut Heap, draft: Draft, arity: &Arity, most: u64) -> Admitted
    requires { IsDraftIn heap.old.objects draft }
    ensures grows { Grows heap.old.objects heap.new.objects }
    ensures admitted { IsBlockWithin (Some most) arity.now (draft_at heap.old.objects draft ∷ []) heap.new.objects result }
{
    match admit_drafts(heap, &[draft], arity, Some(most)) {
        Ok(admitted) => admitted,
        Err(_) => Admitted::Memory,
    }
}
