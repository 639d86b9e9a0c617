//! Lists of definitions as an event gives them.
ghost use Rattle.std.specs.Prelude.{◌≡◌, Some, None, map, IfOk, MatchOption, is_some};
ghost use Rattle.mw_model.specs.Events.Admission.{some_drafts, drafts_of, draft_of};
ghost use Rattle.mw_heap.specs.Objects.{object_at, IsIn};
ghost use Rattle.mw_define.specs.Blocks.{draft_at, IsDraftIn, AreDraftsIn};

use crate::draft::Draft;
use mw_heap::{Heap, Memory, Ref, View};

// The draft of a list of four.
fn read_draft(heap: &Heap, x: Ref) -> Option<Draft>
    requires { IsIn heap.now.objects x }
    ensures { MatchOption result (draft_of (object_at heap.now.objects x) ≡ None) (λ d. IsDraftIn heap.now.objects d × (draft_of (object_at heap.now.objects x) ≡ Some (draft_at heap.now.objects d))) }
{
    let View::Pair(name, rest) = heap.view(x) else {
        return None;
    };
    let View::Pair(formals, rest) = heap.view(rest) else {
        return None;
    };
    let View::Pair(body, rest) = heap.view(rest) else {
        return None;
    };
    let View::Pair(measure, end) = heap.view(rest) else {
        return None;
    };
    if !heap.is_nil(Some(end)) {
        return None;
    }
    Some(Draft {
        name,
        formals,
        body,
        measure,
    })
}

// The drafts of a list.
fn drafts_of(heap: &Heap, list: Ref) -> Result<Option<Vec<Draft>>, Memory>
    requires { IsIn heap.now.objects list }
    ensures { IfOk result (λ o. MatchOption o (drafts_of (object_at heap.now.objects list) ≡ None) (λ v. AreDraftsIn heap.now.objects v.items × (drafts_of (object_at heap.now.objects list) ≡ Some (map (draft_at heap.now.objects) v.items)))) }
{
    let mut drafts = Vec::new(heap.alloc());
    let mut rest = list;
    while let View::Pair(first, more) = heap.view(rest) {
        let Some(draft) = read_draft(heap, first) else {
            return Ok(None);
        };
        drafts.push(draft)?;
        rest = more;
    }
    if heap.is_nil(Some(rest)) {
        Ok(Some(drafts))
    } else {
        Ok(None)
    }
}

/// The drafts of a list of one or more of them; nothing where it is none. The error is out of memory.
pub fn read_drafts(heap: &Heap, defs: Ref) -> Result<Option<Vec<Draft>>, Memory>
    requires { IsIn heap.now.objects defs }
    ensures { IfOk result (λ o. MatchOption o (some_drafts (object_at heap.now.objects defs) ≡ None) (λ v. AreDraftsIn heap.now.objects v.items × (some_drafts (object_at heap.now.objects defs) ≡ Some (map (draft_at heap.now.objects) v.items)))) }
{
    if !heap.is_pair(Some(defs)) {
        return Ok(None);
    }
    drafts_of(heap, defs)
}

/// Whether this is a list of one or more drafts. The error is out of memory.
pub fn are_drafts(heap: &Heap, defs: Ref) -> Result<bool, Memory>
    requires { IsIn heap.now.objects defs }
    ensures { IfOk result (λ b. b ≡ is_some (some_drafts (object_at heap.now.objects defs))) }
{
    let drafts = read_drafts(heap, defs)?;
    Ok(drafts.is_some())
}
