//! Symbols that are variables, and those that are names of functions.
ghost use Rattle.std.specs.Prelude.{◌≡◌, ◌&&◌, true};
ghost use Rattle.std.specs.List.{list_any};
ghost use Rattle.mw_model.specs.Terms.Object.{same_object};
ghost use Rattle.mw_model.specs.Terms.Term.{is_variable, is_function_name};
ghost use Rattle.mw_model.specs.Values.Primitive.{is_symbol, name_of};
ghost use Rattle.mw_heap.specs.Objects.{object_at, IsIn};
ghost use Rattle.mw_heap.specs.Words.{word_object};

use mw_heap::{Heap, Ref, View, Word};

// The symbols that are no names of functions: words of the logic, but for IF, and words of abbreviations.
const OTHER_WORDS: [Word; 18] = [
    Word::Nil,
    Word::T,
    Word::Quote,
    Word::Lambda,
    Word::Pequal,
    Word::Pnot,
    Word::Por,
    Word::And,
    Word::Or,
    Word::Cond,
    Word::List,
    Word::Let,
    Word::LetStar,
    Word::First,
    Word::Second,
    Word::Third,
    Word::Fourth,
    Word::Fifth,
];

// Whether a symbol is a variable.
pub(crate) fn is_variable_symbol(heap: &Heap, x: Ref) -> bool
    requires within { IsIn heap.now.objects x }
    requires symbol { is_symbol (object_at heap.now.objects x) ≡ true }
    ensures { result ≡ is_variable (name_of (object_at heap.now.objects x)) }
{
    !heap.is_word(Some(x), Word::T) && !heap.is_nil(Some(x))
}

/// Whether x is the name of a function: a symbol that is no word of the logic but IF, and no word of an abbreviation.
#[tactic(auto, using(crate::proofs::FunctionNames::no_word))]
pub fn is_function_symbol(heap: &Heap, x: Ref) -> bool
    requires { IsIn heap.now.objects x }
    ensures { result ≡ (is_symbol (object_at heap.now.objects x) && is_function_name (name_of (object_at heap.now.objects x))) }
{
    match heap.view(x) {
        // Most names are no words at all, which their place tells at once.
        View::Symbol => heap.word_at(x).is_none() || !is_one_of(heap, x, &OTHER_WORDS),
        _ => false,
    }
}

// Whether it is one of the words.
fn is_one_of(heap: &Heap, x: Ref, words: &[Word]) -> bool
    requires { IsIn heap.now.objects x }
    ensures { result ≡ list_any (λ word. same_object (object_at heap.now.objects x) (word_object word)) words.now }
{
    words.iter().any(|word| heap.is_word(Some(x), *word))
}
