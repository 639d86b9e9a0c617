//! Objects that the tests of several crates are made of. A part that is not in the heap is answered as out of memory, so that
//! no caller has to prove that its parts are there.
#![tactic(auto)]

ghost use Rattle.std.specs.Prelude.{◌≡◌, ◌↔◌, true, [], All, IsTrue, IfOk, OnOk};
ghost use Rattle.mw_model.specs.Terms.Object.{Symbol, Pair, is_name, name_of_bytes};
ghost use Rattle.mw_heap.specs.Objects.{object_at, IsIn, Grows};
ghost use Rattle.mw_heap.specs.Lists.{list_object};

mod reading;

use mw_heap::{Heap, Memory, Ref, list_of};
pub use reading::{read, read_four, read_three, read_two};
use std::alloc::Global;

/// A heap with no objects, in a box. The error is out of memory.
pub fn boxed(alloc: Global) -> Result<Box<Heap>, Memory>
    ensures { IfOk result (λ heap. heap.value.objects ≡ []) }
{
    let heap = Heap::new(alloc)?;
    Ok(Box::new(alloc, heap)?)
}

/// Whether the heap has an object of this reference.
pub fn is_in(heap: &Heap, x: Ref) -> bool
    ensures { IsTrue result ↔ IsIn heap.now.objects x }
{
    x.index() < heap.mark().cells()
}

/// Whether the heap has an object of each of these references.
pub fn are_in(heap: &Heap, xs: &[Ref]) -> bool
    ensures { result ≡ true → All (IsIn heap.now.objects) xs.now }
{
    for x in xs {
        if !is_in(heap, *x) {
            return false;
        }
    }
    true
}

/// The pair of two objects. The error is out of memory, or a part that is not in the heap.
pub fn pair(heap: &mut Heap, first: Ref, second: Ref) -> Result<Ref, Memory>
    ensures grows { Grows heap.old.objects heap.new.objects }
    ensures within { OnOk result (IsIn heap.old.objects first × IsIn heap.old.objects second) }
    ensures made { IfOk result (λ r. IsIn heap.new.objects r × (object_at heap.new.objects r ≡ Pair (object_at heap.old.objects first) (object_at heap.old.objects second))) }
{
    if is_in(heap, first) && is_in(heap, second) {
        heap.cons(first, second)
    } else {
        Err(Memory)
    }
}

/// The list of the symbol of this name and of these parts. The error is out of memory, or a part that is not in the heap.
pub fn form(heap: &mut Heap, head: &[u8], parts: &[Ref]) -> Result<Ref, Memory>
    requires { is_name head.now ≡ true }
    ensures grows { Grows heap.old.objects heap.new.objects }
    ensures within { OnOk result (All (IsIn heap.old.objects) parts.now) }
    ensures made { IfOk result (λ r. IsIn heap.new.objects r × (object_at heap.new.objects r ≡ Pair (Symbol (name_of_bytes head.now)) (list_object heap.old.objects parts.now))) }
{
    if are_in(heap, parts) {
        let rest = list_of(heap, parts)?;
        let head = heap.symbol(head)?;
        heap.cons(head, rest)
    } else {
        Err(Memory)
    }
}
