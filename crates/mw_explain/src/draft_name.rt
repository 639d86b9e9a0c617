//! The first draft whose name is not new or stands earlier.
ghost use Rattle.std.specs.Prelude.{◌∷◌, [], map, IfOk};
ghost use Rattle.mw_model.specs.Terms.Object.{Natural};
ghost use Rattle.mw_heap.specs.Objects.{object_at, IsIn, Grows};
ghost use Rattle.mw_define.specs.Blocks.{draft_at, AreDraftsIn};
ghost use Rattle.mw_commands.specs.Commands.Explanation.{bad_name};
ghost use Rattle.mw_commands.specs.Commands.ExplanationTerms.{arity_shown};
ghost use Rattle.mw_explain.specs.Drafts.{IsBadName};
ghost use Rattle.mw_bad_steps.specs.Shown.{Shows};

use crate::putting_first::put_number;
use crate::shown_part::arity_shown;
use indexmap::IndexSet;
use mw_define::{Draft, add_name};
use mw_heap::{Heap, Memory, Ref};
use mw_term::Arity;

// A name that is refused, and the number of its draft, from 1 on.
#[derive(Clone, Copy)]
pub(crate) struct BadName {
    pub number: u64,
    pub name: Ref,
}

// The first name of the drafts that is not new or stands earlier.
fn first_bad_name(heap: &Heap, drafts: &[Draft], arity: &Arity) -> Result<Option<BadName>, Memory>
    requires { AreDraftsIn heap.now.objects drafts.now }
    ensures { IfOk result (IsBadName arity.now heap.now.objects drafts.now) }
{
    let mut names = IndexSet::new(heap.alloc());
    for (index, draft) in drafts.iter().enumerate() {
        if !add_name(heap, &mut names, draft.name, arity)? {
            let number = index as u64 + 1;
            return Ok(Some(BadName {
                number,
                name: draft.name,
            }));
        }
    }
    Ok(None)
}

// What is shown of the names of the drafts: of the first that is refused its number, itself, and its arity where it has one.
pub(crate) fn names_shown(
    heap: &mut Heap,
    drafts: &[Draft],
    arity: &Arity,
) -> Result<Vec<Ref>, Memory>
    requires { AreDraftsIn heap.old.objects drafts.now }
    ensures grows { Grows heap.old.objects heap.new.objects }
    ensures shown { IfOk result (λ v. Shows heap.new.objects v.items (bad_name arity.now [] 1 (map (draft_at heap.old.objects) drafts.now))) }
{
    match first_bad_name(heap, drafts, arity)? {
        Some(bad) => name_shown(heap, bad, arity),
        None => Ok(Vec::new(heap.alloc())),
    }
}

// The number, the name, and its arity where it has one.
fn name_shown(heap: &mut Heap, bad: BadName, arity: &Arity) -> Result<Vec<Ref>, Memory>
    requires { IsIn heap.old.objects bad.name }
    ensures grows { Grows heap.old.objects heap.new.objects }
    ensures shown { IfOk result (λ v. Shows heap.new.objects v.items (Natural bad.number ∷ object_at heap.old.objects bad.name ∷ arity_shown arity.now (object_at heap.old.objects bad.name))) }
{
    let mut shown = arity_shown(heap, arity, bad.name)?;
    shown.insert(0, bad.name)?;
    put_number(heap, bad.number, shown)
}
