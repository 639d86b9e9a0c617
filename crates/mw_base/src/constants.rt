//! Objects of constants.
ghost use Rattle.std.specs.Prelude.{◌≡◌};
ghost use Rattle.mw_model.specs.Terms.Object.{second_of};
ghost use Rattle.mw_model.specs.Laws.Rules.{is_constant_object, are_constant_objects};
ghost use Rattle.mw_heap.specs.Objects.{object_at, IsIn};
ghost use Rattle.mw_heap.specs.Parts.{part_at, IsPart};

use mw_heap::{Heap, Ref, View, Word};

/// Whether it is a constant, (quote c).
#[tactic(auto, using(crate::proofs::ConstantTests::is_constant_object_at))]
pub fn is_constant(heap: &Heap, x: Ref) -> bool
    requires { IsIn heap.now.objects x }
    ensures { result ≡ is_constant_object (object_at heap.now.objects x) }
{
    let View::Pair(head, rest) = heap.view(x) else {
        return false;
    };
    match heap.view(rest) {
        View::Pair(_, end) => heap.is_word(Some(head), Word::Quote) && heap.is_nil(Some(end)),
        _ => false,
    }
}

/// Whether it is a proper list of constants.
pub fn are_constants(heap: &Heap, x: Ref) -> bool
    requires { IsIn heap.now.objects x }
    ensures { result ≡ are_constant_objects (object_at heap.now.objects x) }
{
    let mut rest = x;
    while let View::Pair(first, others) = heap.view(rest) {
        if !is_constant(heap, first) {
            return false;
        }
        rest = others;
    }
    heap.is_nil(Some(rest))
}

// What the constant is of; nothing where there is no constant.
pub(crate) fn unquoted(heap: &Heap, x: Option<Ref>) -> Option<Ref>
    requires { IsPart heap.now.objects x }
    ensures within { IsPart heap.now.objects result }
    ensures value { part_at heap.now.objects result ≡ second_of (part_at heap.now.objects x) }
{
    heap.second_of(x?)
}
