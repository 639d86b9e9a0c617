//! What an event is.
ghost use Rattle.std.specs.Prelude.{◌≡◌, ◌<◌, ◌&&◌, true, false, IfSome};
ghost use Rattle.mw_model.specs.Terms.Object.{Object, Symbol, is_name, name_of_bytes, same_object, has_members, second_of, car, cdr};
ghost use Rattle.mw_commands.specs.Commands.Slice.{begins_with, is_idle, sets_profile, theorems_named};
ghost use Rattle.mw_heap.specs.Objects.{object_at, IsIn};
ghost use Rattle.mw_heap.specs.Words.{word_object};
ghost use Rattle.mw_slice.specs.Parts.{cell_of, occurs_in};
ghost use Rattle.mw_slice.specs.Events.{theorems_of};
ghost use Rattle.mw_slice.specs.Slices.{IsNil};

use crate::nil::or_nil;
use crate::part::Part;
use mw_heap::{Heap, Ref, View, Word};

/// Whether the event sets the profile of this number.
pub(crate) fn sets_profile(heap: &Heap, event: Ref, number: u128) -> bool
    requires within { IsIn heap.now.objects event }
    requires some { 0 < number }
    ensures { result ≡ sets_profile number (object_at heap.now.objects event) }
{
    heap.is_headed(event, Word::Profile) && heap.number(heap.second_of(event)) == number
}

/// Whether the event leaves every theory as it is.
pub(crate) fn is_idle(heap: &Heap, event: Ref) -> bool
    requires { IsIn heap.now.objects event }
    ensures { result ≡ is_idle (object_at heap.now.objects event) }
{
    heap.is_headed(event, Word::Eval)
        || heap.is_headed(event, Word::Print)
        || sets_profile(heap, event, 1)
}

/// Whether the event is a theorem of this name.
pub(crate) fn is_theorem(heap: &Heap, event: Ref, name: &[u8]) -> bool
    requires within { IsIn heap.now.objects event }
    requires name { is_name name.now ≡ true }
    ensures { result ≡ (begins_with "VERIFY" (object_at heap.now.objects event) && same_object (second_of (object_at heap.now.objects event)) (Symbol (name_of_bytes name.now))) }
{
    heap.is_headed(event, Word::Verify) && heap.is_named(heap.second_of(event), name)
}

/// What comes after the first member of a list.
pub(crate) fn rest(heap: &Heap, nil: Ref, list: Ref) -> Ref
    requires within { IsIn heap.now.objects list }
    requires nil { IsNil heap.now.objects nil }
    ensures within { IsIn heap.now.objects result }
    ensures same { object_at heap.now.objects result ≡ cdr (object_at heap.now.objects list) }
{
    or_nil(heap, heap.cdr(list), nil)
}

// Whether the list has this number of members.
fn has_members(heap: &Heap, list: Ref, count: usize) -> bool
    requires { IsIn heap.now.objects list }
    ensures { result ≡ has_members count (object_at heap.now.objects list) }
{
    let mut list = list;
    for _ in 0..count {
        match heap.view(list) {
            View::Pair(_, rest) => list = rest,
            _ => return false,
        }
    }
    heap.is_nil(Some(list))
}

// Whether the event begins with the word and has this number of members.
fn is_event(heap: &Heap, event: Ref, word: Word, count: usize) -> bool
    requires { IsIn heap.now.objects event }
    ensures { result ≡ (same_object (car (object_at heap.now.objects event)) (word_object word) && has_members count (object_at heap.now.objects event)) }
{
    heap.is_headed(event, word) && has_members(heap, event, count)
}

/// The proof, or the proofs, of an event that has some.
pub(crate) fn proofs_of(heap: &Heap, nil: Ref, event: Ref) -> Option<Part>
    requires within { IsIn heap.now.objects event }
    requires nil { IsNil heap.now.objects nil }
    ensures within { IfSome result (λ p. IsIn heap.now.objects (cell_of p)) }
    ensures no_cell { IfSome result (λ p. (x : Object) → occurs_in heap.now.objects x p ≡ false) }
    ensures theorems { theorems_of heap.now.objects result ≡ theorems_named (object_at heap.now.objects event) }
{
    let third_on = rest(heap, nil, rest(heap, nil, event));
    if is_event(heap, event, Word::Verify, 4) {
        return Some(Part::Proof(or_nil(heap, heap.second_of(third_on), nil)));
    }
    if is_event(heap, event, Word::Define, 6) {
        let fifth_on = rest(heap, nil, rest(heap, nil, third_on));
        return Some(Part::Proofs(or_nil(heap, heap.second_of(fifth_on), nil)));
    }
    if is_event(heap, event, Word::DefineAll, 3) {
        return Some(Part::Proofs(or_nil(heap, heap.car(third_on), nil)));
    }
    None
}
