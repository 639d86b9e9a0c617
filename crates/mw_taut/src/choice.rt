//! Choices, as lists in a heap.
ghost use Rattle.std.specs.Prelude.{◌≡◌, [], ◌∷◌, ◌++◌, All, map, slice_get, IfOk};
ghost use Rattle.mw_model.specs.Terms.Object.{Pair, truth_of};
ghost use Rattle.mw_heap.specs.Objects.{object_at, IsIn};
ghost use Rattle.mw_taut.specs.Making.{Makes};
ghost use Rattle.mw_taut.specs.Cases.{choice_list, is_true};

use mw_heap::{Heap, Memory, Ref, Word};

// T or NIL.
fn truth(heap: &mut Heap, value: bool) -> Result<Ref, Memory>
    ensures { Makes IsIn object_at heap.old.objects heap.new.objects result (truth_of value) }
{
    if value {
        heap.word(Word::T)
    } else {
        heap.nil()
    }
}

// The pair (equation . value) before the rest of a list.
fn choice_before(heap: &mut Heap, equation: Ref, value: bool, rest: Ref) -> Result<Ref, Memory>
    requires equation_in { IsIn heap.old.objects equation }
    requires rest_in { IsIn heap.old.objects rest }
    ensures { Makes IsIn object_at heap.old.objects heap.new.objects result (Pair (Pair (object_at heap.old.objects equation) (truth_of value)) (object_at heap.old.objects rest)) }
{
    let value = truth(heap, value)?;
    let pair = heap.cons(equation, value)?;
    heap.cons(pair, rest)
}

// Whether an equation is chosen to be true.
fn is_true(chosen: &[bool], k: usize) -> bool
    ensures { result ≡ is_true (slice_get chosen.now k) }
{
    match chosen.get(k) {
        Some(value) => *value,
        None => false,
    }
}

/// The choice as a list of pairs (equation . value). The value of an equation that has not been chosen is false.
pub(crate) fn choice_list(
    heap: &mut Heap,
    equations: &[Ref],
    chosen: &[bool],
) -> Result<Ref, Memory>
    requires { All (IsIn heap.old.objects) equations.now }
    ensures { Makes IsIn object_at heap.old.objects heap.new.objects result (choice_list (map (object_at heap.old.objects) equations.now) chosen.now) }
{
    let mut list = heap.nil()?;
    let mut k = equations.len();
    while k > 0 {
        k -= 1;
        list = choice_before(heap, equations[k], is_true(chosen, k), list)?;
    }
    Ok(list)
}

/// The choices with one more.
pub(crate) fn with_value(heap: &Heap, chosen: &[bool], value: bool) -> Result<Vec<bool>, Memory>
    ensures { IfOk result (λ v. v.items ≡ chosen.now ++ value ∷ []) }
{
    let mut longer = Vec::from_slice(heap.alloc(), chosen)?;
    longer.push(value)?;
    Ok(longer)
}
