//! The members of an event that its line shows.
ghost use Rattle.std.specs.Prelude.{◌≡◌, true, Option, option_map};
ghost use Rattle.mw_model.specs.Terms.Object.{Pair};
ghost use Rattle.mw_model.specs.Values.Primitive.{is_symbol, name_of};
ghost use Rattle.mw_model.specs.Terms.Term.{is_among};
ghost use Rattle.mw_model.specs.Reports.Report.{labelled_words, symbol_text, label_text};
ghost use Rattle.mw_heap.specs.Objects.{object_at, IsIn};
ghost use Rattle.mw_read.specs.Shown.{shown_text, symbol_itself, IsShown, ShowsEvent};

use mw_heap::{Heap, Ref, View, Word};

/// The word and the label of an event, each where the line shows it.
pub fn shown(heap: &Heap, event: Ref) -> (Option<Ref>, Option<Ref>)
    requires { IsIn heap.now.objects event }
    ensures { ShowsEvent heap.now.objects result.0 result.1 (object_at heap.now.objects event) }
{
    let View::Pair(word, rest) = heap.view(event) else {
        return (None, None);
    };
    (symbol(heap, word), label(heap, word, rest))
}

// The second member of an event that begins with a word, where the line shows it.
fn label(heap: &Heap, word: Ref, rest: Ref) -> Option<Ref>
    requires word { IsIn heap.now.objects word }
    requires rest { IsIn heap.now.objects rest }
    ensures within { IsShown heap.now.objects result }
    ensures shown { shown_text heap.now.objects result ≡ label_text (Pair (object_at heap.now.objects word) (object_at heap.now.objects rest)) }
{
    match (heap.view(word), heap.view(rest)) {
        (View::Symbol, View::Pair(x, _)) if is_labelled(heap, word) => symbol(heap, x),
        _ => None,
    }
}

// Whether the line of an event that begins with this word shows the second member.
fn is_labelled(heap: &Heap, word: Ref) -> bool
    requires within { IsIn heap.now.objects word }
    requires symbol { is_symbol (object_at heap.now.objects word) ≡ true }
    ensures { result ≡ is_among (name_of (object_at heap.now.objects word)) labelled_words }
{
    heap.is_word(Some(word), Word::Verify)
        || heap.is_word(Some(word), Word::Define)
        || heap.is_word(Some(word), Word::Skolem)
        || heap.is_word(Some(word), Word::Switch)
}

// The object, where it is a symbol.
fn symbol(heap: &Heap, x: Ref) -> Option<Ref>
    requires { IsIn heap.now.objects x }
    ensures within { IsShown heap.now.objects result }
    ensures shown { shown_text heap.now.objects result ≡ symbol_text (object_at heap.now.objects x) }
    ensures itself { option_map (object_at heap.now.objects) result ≡ symbol_itself (object_at heap.now.objects x) }
{
    match heap.view(x) {
        View::Symbol => Some(x),
        _ => None,
    }
}
