//! Which objects are substitutions under an arity table.
ghost use Rattle.std.specs.Prelude.{◌≡◌, ◌<◌, ◌&&◌, length};
ghost use Rattle.mw_model.specs.Terms.Object.{car, cdr};
ghost use Rattle.mw_model.specs.Terms.Term.{ArityTable};
ghost use Rattle.mw_model.specs.Values.Primitive.{is_pair};
ghost use Rattle.mw_model.specs.Laws.Rules.{is_variable_object, is_term_object, is_substitution_object};
ghost use Rattle.mw_heap.specs.Objects.{object_at, IsIn};
ghost use Rattle.mw_term.specs.Marking.{AreMarks};

use crate::names::is_variable_symbol;
use crate::{Marks, is_term};
use mw_heap::{Heap, Ref, View};

/// Whether an object is a substitution: a proper list of pairs (variable . term).
pub fn is_substitution(heap: &Heap, marks: &Marks, s: Ref) -> bool
    requires within { IsIn heap.now.objects s }
    requires marked { s < length marks.now }
    ensures { (A : ArityTable) → AreMarks A heap.now.objects marks.now → result ≡ is_substitution_object A (object_at heap.now.objects s) }
{
    let mut rest = s;
    while let View::Pair(pair, more) = heap.view(rest) {
        if !is_pair_of_substitution(heap, marks, pair) {
            return false;
        }
        rest = more;
    }
    heap.is_nil(Some(rest))
}

// Whether it is a pair (variable . term).
fn is_pair_of_substitution(heap: &Heap, marks: &Marks, pair: Ref) -> bool
    requires within { IsIn heap.now.objects pair }
    requires marked { pair < length marks.now }
    ensures { (A : ArityTable) → AreMarks A heap.now.objects marks.now → result ≡ (is_pair (object_at heap.now.objects pair) && (is_variable_object (car (object_at heap.now.objects pair)) && is_term_object A (cdr (object_at heap.now.objects pair)))) }
{
    match heap.view(pair) {
        View::Pair(variable, term) => is_variable(heap, variable) && is_term(marks, term),
        _ => false,
    }
}

// Whether it is a variable.
fn is_variable(heap: &Heap, x: Ref) -> bool
    requires { IsIn heap.now.objects x }
    ensures { result ≡ is_variable_object (object_at heap.now.objects x) }
{
    match heap.view(x) {
        View::Symbol => is_variable_symbol(heap, x),
        _ => false,
    }
}
