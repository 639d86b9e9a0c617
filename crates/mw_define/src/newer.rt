//! The arities of the functions that drafts give.
ghost use Rattle.std.specs.Prelude.{◌≡◌, true, map, Some, IfOk, MatchOption};
ghost use Rattle.mw_model.specs.Terms.Term.{are_distinct};
ghost use Rattle.mw_term.specs.Parts.{names_at, AreSymbols};
ghost use Rattle.mw_define.specs.Blocks.{draft_at, AreDraftsIn, draft_names};
ghost use Rattle.mw_define.specs.BlockTests.{the_names};
ghost use Rattle.mw_define.specs.Newer.{HasNoArities, AreArities};

use crate::block::{names_of, pairs_of};
use crate::draft::Draft;
use mw_heap::{Heap, Memory};
use mw_term::Arity;
use mw_translate::arities_of;

// The same, where the names passed.
fn arities_of_named(heap: &Heap, drafts: &[Draft], arity: &Arity) -> Result<Option<Arity>, Memory>
    requires within { AreDraftsIn heap.now.objects drafts.now }
    requires named { the_names arity.now (map (draft_at heap.now.objects) drafts.now) ≡ Some (names_at heap.now.objects (draft_names drafts.now)) }
    requires symbols { AreSymbols heap.now.objects (draft_names drafts.now) }
    requires distinct { are_distinct (names_at heap.now.objects (draft_names drafts.now)) ≡ true }
    ensures { IfOk result (λ o. MatchOption o (HasNoArities arity.now (map (draft_at heap.now.objects) drafts.now)) (AreArities arity.now (map (draft_at heap.now.objects) drafts.now))) }
{
    let Some(pairs) = pairs_of(heap, drafts)? else {
        return Ok(None);
    };
    let newer = arities_of(heap, pairs.as_slice())?;
    Ok(Some(newer))
}

/// The arities of the functions of these drafts, the last one newest, where the names are new and none comes twice, and each has a list
/// of formals; else nothing. The error is out of memory, also where the lists of formals take more looks than the heap allows for its
/// size.
pub fn arities_of_drafts(
    heap: &Heap,
    drafts: &[Draft],
    arity: &Arity,
) -> Result<Option<Arity>, Memory>
    requires { AreDraftsIn heap.now.objects drafts.now }
    ensures { IfOk result (λ o. MatchOption o (HasNoArities arity.now (map (draft_at heap.now.objects) drafts.now)) (AreArities arity.now (map (draft_at heap.now.objects) drafts.now))) }
{
    let names = names_of(heap, drafts, arity)?;
    let Some(_) = names else {
        return Ok(None);
    };
    arities_of_named(heap, drafts, arity)
}
