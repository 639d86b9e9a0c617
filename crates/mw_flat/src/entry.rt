//! Which events a log may have.
ghost use Rattle.std.specs.Prelude.{◌≡◌, IfOk, is_some};
ghost use Rattle.mw_commands.specs.Commands.Log.{natural_of, naturals_of, entry_of};
ghost use Rattle.mw_heap.specs.Objects.{object_at, IsIn};
ghost use Rattle.mw_theory.specs.Words.{IsEvent};

use mw_define::are_drafts;
use mw_heap::{Heap, Memory, Ref, View};
use mw_theory::Event;

// Whether an object is a natural.
fn is_natural(heap: &Heap, x: Ref) -> bool
    requires { IsIn heap.now.objects x }
    ensures { result ≡ is_some (natural_of (object_at heap.now.objects x)) }
{
    matches!(heap.view(x), View::Nat(_))
}

// Whether an object is a proper list of naturals.
fn are_naturals(heap: &Heap, list: Ref) -> bool
    requires { IsIn heap.now.objects list }
    ensures { result ≡ is_some (naturals_of (object_at heap.now.objects list)) }
{
    let mut rest = list;
    while let View::Pair(first, more) = heap.view(rest) {
        if !is_natural(heap, first) {
            return false;
        }
        rest = more;
    }
    heap.is_nil(Some(rest))
}

/// Whether the event at x has one of the five forms: the word of one, and numbers where its proofs would stand. The error is out of memory.
pub(crate) fn is_entry(heap: &Heap, x: Ref, event: Event) -> Result<bool, Memory>
    requires within { IsIn heap.now.objects x }
    requires event { IsEvent heap.now.objects x event }
    ensures { IfOk result (λ b. b ≡ is_some (entry_of (object_at heap.now.objects x))) }
{
    heap.in_range(x);
    match event {
        Event::Verify { proof, .. } => Ok(is_natural(heap, proof)),
        Event::Define { proofs, .. } => Ok(are_naturals(heap, proofs)),
        Event::DefineAll {
            definitions,
            proofs,
        } => Ok(are_drafts(heap, definitions)? && are_naturals(heap, proofs)),
        Event::Skolem { .. } | Event::Profile(_) => Ok(true),
        Event::Switch(_) | Event::Eval(_) | Event::Print(_) => Ok(false),
    }
}
