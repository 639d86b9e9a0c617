//! The events, by their members.
ghost use Rattle.std.specs.Prelude.{◌≡◌, false, MatchOption, None};
ghost use Rattle.mw_model.specs.Events.Fate.{event_word, is_out_of_range};
ghost use Rattle.mw_heap.specs.Objects.{object_at, IsIn};
ghost use Rattle.mw_theory.specs.EventWords.{are_members_of};
ghost use Rattle.mw_theory.specs.Words.{IsEvent, IsEventOf};

use mw_heap::{Heap, Ref, View, Word};

/// An event, by its members after its word, in order.
#[derive(Clone, Copy)]
pub enum Event {
    /// A theorem with its proof.
    Verify {
        name: Ref,
        formula: Ref,
        proof: Ref,
    },
    /// A function, with the proofs of its obligations.
    Define {
        name: Ref,
        formals: Ref,
        body: Ref,
        measure: Ref,
        proofs: Ref,
    },
    /// A witness.
    Skolem {
        name: Ref,
        bound: Ref,
        free: Ref,
        body: Ref,
    },
    /// A switch to the checker of this name.
    Switch(Ref),
    /// A term to be evaluated.
    Eval(Ref),
    /// An object to be shown.
    Print(Ref),
    /// Functions that may call each other, with the proofs of their obligations.
    DefineAll {
        definitions: Ref,
        proofs: Ref,
    },
    /// A profile, by its number.
    Profile(Ref),
}

// The event of this word with these members, where it is the word of an event and they are as many as it has.
fn event_with(heap: &Heap, word: Word, members: Ref) -> Option<Event>
    requires { IsIn heap.now.objects members }
    ensures { MatchOption result (are_members_of word (object_at heap.now.objects members) ≡ false) (IsEventOf heap.now.objects word members) }
{
    match word {
        Word::Verify => {
            let m = heap.three_members(members)?;
            Some(Event::Verify {
                name: m.0,
                formula: m.1,
                proof: m.2,
            })
        }
        Word::Define => {
            let m = heap.five_members(members)?;
            Some(Event::Define {
                name: m.0,
                formals: m.1,
                body: m.2,
                measure: m.3,
                proofs: m.4,
            })
        }
        Word::Skolem => {
            let m = heap.four_members(members)?;
            Some(Event::Skolem {
                name: m.0,
                bound: m.1,
                free: m.2,
                body: m.3,
            })
        }
        Word::DefineAll => {
            let m = heap.two_members(members)?;
            Some(Event::DefineAll {
                definitions: m.0,
                proofs: m.1,
            })
        }
        Word::Switch => Some(Event::Switch(heap.one_member(members)?)),
        Word::Eval => Some(Event::Eval(heap.one_member(members)?)),
        Word::Print => Some(Event::Print(heap.one_member(members)?)),
        Word::Profile => Some(Event::Profile(heap.one_member(members)?)),
        _ => None,
    }
}

/// The event that an object is, by its word and the number of its members; None if it is not an event.
pub fn event_of(heap: &Heap, x: Ref) -> Option<Event>
    requires { IsIn heap.now.objects x }
    ensures event { MatchOption result (event_word (object_at heap.now.objects x) ≡ None) (IsEvent heap.now.objects x) }
    ensures in_range { is_out_of_range (object_at heap.now.objects x) ≡ false }
{
    let View::Pair(first, members) = heap.view(x) else {
        return None;
    };
    match heap.word_at(first) {
        Some(word) => event_with(heap, word, members),
        None => None,
    }
}
