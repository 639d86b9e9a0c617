//! How many members an event has to have.
ghost use Rattle.std.specs.Prelude.{◌≡◌, option_map};
ghost use Rattle.mw_model.specs.Events.Fate.{member_count};
ghost use Rattle.mw_heap.specs.Objects.{object_at, IsIn};
ghost use Rattle.mw_heap.specs.Words.{word_object};
ghost use Rattle.mw_theory.specs.EventWords.{word_at, word_begun};

use mw_heap::{Heap, Ref, View, Word};

// How many members an event of this word has, the word among them; nothing of a word of no event.
#[tactic(auto, using(crate::proofs::EventWords::wanted_by))]
fn member_count(word: Word) -> Option<u64>
    ensures { result ≡ option_map member_count (word_at (word_object word)) }
{
    match word {
        Word::Verify => Some(4),
        Word::Define => Some(6),
        Word::Skolem => Some(5),
        Word::DefineAll => Some(3),
        Word::Switch => Some(2),
        Word::Eval => Some(2),
        Word::Print => Some(2),
        Word::Profile => Some(2),
        _ => None,
    }
}

/// How many members the word of events wants that an object begins with, the word among them; nothing where it begins with none.
pub fn members_wanted(heap: &Heap, x: Ref) -> Option<u64>
    requires { IsIn heap.now.objects x }
    ensures { result ≡ option_map member_count (word_begun (object_at heap.now.objects x)) }
{
    let View::Pair(first, _) = heap.view(x) else {
        return None;
    };
    match heap.word_at(first) {
        Some(word) => member_count(word),
        None => None,
    }
}
