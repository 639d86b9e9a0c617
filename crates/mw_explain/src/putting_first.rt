//! What is shown, with one more in front.
ghost use Rattle.std.specs.Prelude.{◌≡◌, ◌∷◌, true, List, IfOk};
ghost use Rattle.mw_model.specs.Terms.Object.{Object, Natural, Symbol, name_of_bytes, is_name};
ghost use Rattle.mw_heap.specs.Objects.{Grows};
ghost use Rattle.mw_bad_steps.specs.Shown.{Shows};

use mw_heap::{Heap, Memory, Ref};

// With a number in front.
pub(crate) fn put_number(heap: &mut Heap, number: u64, shown: Vec<Ref>) -> Result<Vec<Ref>, Memory>
    ensures grows { Grows heap.old.objects heap.new.objects }
    ensures shown { IfOk result (λ v. (xs : List Object) → Shows heap.old.objects shown.items xs → Shows heap.new.objects v.items (Natural number ∷ xs)) }
{
    let mut shown = shown;
    let first = heap.nat(u128::from(number))?;
    shown.insert(0, first)?;
    Ok(shown)
}

// With a symbol in front.
pub(crate) fn put_symbol(heap: &mut Heap, name: &[u8], shown: Vec<Ref>) -> Result<Vec<Ref>, Memory>
    requires { is_name name.now ≡ true }
    ensures grows { Grows heap.old.objects heap.new.objects }
    ensures shown { IfOk result (λ v. (xs : List Object) → Shows heap.old.objects shown.items xs → Shows heap.new.objects v.items (Symbol (name_of_bytes name.now) ∷ xs)) }
{
    let mut shown = shown;
    let first = heap.symbol(name)?;
    shown.insert(0, first)?;
    Ok(shown)
}
