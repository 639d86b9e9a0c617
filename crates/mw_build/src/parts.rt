//! What is made of the parts that a piece takes.
ghost use Rattle.std.specs.Prelude.{◌≡◌, map, get_or, IfOk, OnOk};
ghost use Rattle.mw_model.specs.Terms.Object.{NIL, Pair, Symbol, name_of_bytes};
ghost use Rattle.mw_heap.specs.Objects.{object_at, IsIn, Grows};
ghost use Rattle.mw_heap.specs.PrimitiveNames.{primitive_bytes};
ghost use Rattle.mw_build.specs.Pieces.{list_of, name_of};
ghost use Rattle.mw_build.specs.Stacks.{AreIn, newest, stack_of};

use crate::piece::Variable;
use mw_heap::{Heap, Memory, Primitive, Ref, list_of};

// The part of this number, NIL where there is none.
pub(crate) fn part_at(heap: &mut Heap, parts: &[Ref], number: usize) -> Result<Ref, Memory>
    requires { AreIn heap.old.objects parts.now }
    ensures grows { Grows heap.old.objects heap.new.objects }
    ensures made { IfOk result (λ r. IsIn heap.new.objects r × (object_at heap.new.objects r ≡ get_or (map (object_at heap.old.objects) parts.now) number NIL)) }
{
    match parts.get(number) {
        Some(part) => Ok(*part),
        None => heap.nil(),
    }
}

// The newest on a stack, NIL where it is empty.
pub(crate) fn newest(heap: &mut Heap, stack: &mut Vec<Ref>) -> Result<Ref, Memory>
    requires { AreIn heap.old.objects stack.old.items }
    ensures grows { Grows heap.old.objects heap.new.objects }
    ensures made { IfOk result (λ r. IsIn heap.new.objects r × (object_at heap.new.objects r ≡ newest (stack_of heap.old.objects stack.old.items))) }
{
    match stack.pop() {
        Some(last) => Ok(last),
        None => heap.nil(),
    }
}

// The symbol that a variable is.
pub(crate) fn symbol(heap: &mut Heap, variable: Variable) -> Result<Ref, Memory>
    ensures grows { Grows heap.old.objects heap.new.objects }
    ensures made { IfOk result (λ r. IsIn heap.new.objects r × (object_at heap.new.objects r ≡ Symbol (name_of variable))) }
{
    heap.symbol(variable.name())
}

// The pair of the first two.
pub(crate) fn pair(heap: &mut Heap, parts: &[Ref]) -> Result<Ref, Memory>
    requires { AreIn heap.old.objects parts.now }
    ensures grows { Grows heap.old.objects heap.new.objects }
    ensures made { IfOk result (λ r. IsIn heap.new.objects r × (object_at heap.new.objects r ≡ Pair (get_or (map (object_at heap.old.objects) parts.now) 0 NIL) (get_or (map (object_at heap.old.objects) parts.now) 1 NIL))) }
{
    let first = part_at(heap, parts, 0)?;
    let second = part_at(heap, parts, 1)?;
    heap.cons(first, second)
}

// The list of a primitive's name and of these.
pub(crate) fn call(heap: &mut Heap, primitive: Primitive, parts: &[Ref]) -> Result<Ref, Memory>
    requires { AreIn heap.old.objects parts.now }
    ensures grows { Grows heap.old.objects heap.new.objects }
    ensures made { IfOk result (λ r. IsIn heap.new.objects r × (object_at heap.new.objects r ≡ Pair (Symbol (name_of_bytes (primitive_bytes primitive))) (list_of (map (object_at heap.old.objects) parts.now)))) }
{
    let arguments = list_of(heap, parts)?;
    let head = heap.symbol(primitive.name())?;
    heap.cons(head, arguments)
}
