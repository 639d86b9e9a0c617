//! What a step may use.
ghost use Rattle.std.specs.Prelude.{◌≡◌, true};
ghost use Rattle.mw_model.specs.Terms.Object.{is_name, name_of_bytes};
ghost use Rattle.mw_heap.specs.Words.{word_bytes};
ghost use Rattle.mw_translate.specs.Checked.{takes};
ghost use Rattle.mw_translate.specs.Contexts.{arities};

use crate::memo::Memo;
use crate::table::look_up;
use mw_heap::Word;
use mw_term::Arity;

/// The arities of functions by two tables, the newer one in front, and what was made of parts so far.
#[derive(Clone, Copy)]
pub(crate) struct Context<'a> {
    pub newer: &'a Arity,
    pub older: &'a Arity,
    pub memo: &'a Memo,
}

// Whether the function of this name takes this many arguments.
pub(crate) fn takes(context: &Context<'_>, name: &[u8], count: u64) -> bool
    requires { is_name name.now ≡ true }
    ensures { result ≡ takes (arities context.now) (name_of_bytes name.now) count }
{
    match look_up(context.newer, context.older, name) {
        Some(arity) => arity == count,
        None => false,
    }
}

// Whether the function that a word names takes this many arguments.
pub(crate) fn word_takes(context: &Context<'_>, word: Word, count: u64) -> bool
    ensures { result ≡ takes (arities context.now) (name_of_bytes (word_bytes word)) count }
{
    takes(context, word.name(), count)
}
