//! Axioms of definitions.
ghost use Rattle.std.specs.Prelude.{◌≡◌, IfOk};
ghost use Rattle.mw_model.specs.Terms.Object.{Pair};
ghost use Rattle.mw_model.specs.Laws.Rules.{equal_object, not_object};
ghost use Rattle.mw_heap.specs.Objects.{object_at, IsIn, Grows};
ghost use Rattle.mw_define.specs.Axioms.{quoted_nil, chosen_object, choice_object};

use mw_heap::{Heap, Memory, Ref, Word};
use mw_translate::{call_of_one, call_of_two, quoted_symbol};

// The call of a lambda with the bound variable and the free ones on the witness and the free ones.
fn chosen(heap: &mut Heap, name: Ref, formals: Ref, free: Ref, body: Ref) -> Result<Ref, Memory>
    requires name_in { IsIn heap.old.objects name }
    requires formals_in { IsIn heap.old.objects formals }
    requires free_in { IsIn heap.old.objects free }
    requires body_in { IsIn heap.old.objects body }
    ensures grows { Grows heap.old.objects heap.new.objects }
    ensures made { IfOk result (λ r. IsIn heap.new.objects r × (object_at heap.new.objects r ≡ chosen_object (object_at heap.old.objects name) (object_at heap.old.objects formals) (object_at heap.old.objects free) (object_at heap.old.objects body))) }
{
    let call = heap.cons(name, free)?;
    let actuals = heap.cons(call, free)?;
    let head = call_of_two(heap, Word::Lambda, formals, body)?;
    heap.cons(head, actuals)
}

// x = 'nil.
pub(crate) fn equal_nil(heap: &mut Heap, x: Ref) -> Result<Ref, Memory>
    requires { IsIn heap.old.objects x }
    ensures grows { Grows heap.old.objects heap.new.objects }
    ensures made { IfOk result (λ r. IsIn heap.new.objects r × (object_at heap.new.objects r ≡ equal_object (object_at heap.old.objects x) quoted_nil)) }
{
    let nil = quoted_symbol(heap, Word::Nil)?;
    call_of_two(heap, Word::Pequal, x, nil)
}

// not x = 'nil.
fn not_nil(heap: &mut Heap, x: Ref) -> Result<Ref, Memory>
    requires { IsIn heap.old.objects x }
    ensures grows { Grows heap.old.objects heap.new.objects }
    ensures made { IfOk result (λ r. IsIn heap.new.objects r × (object_at heap.new.objects r ≡ not_object (equal_object (object_at heap.old.objects x) quoted_nil))) }
{
    let fails = equal_nil(heap, x)?;
    call_of_one(heap, Word::Pnot, fails)
}

// body = 'nil or not (the body with the witness for the bound variable) = 'nil.
pub(crate) fn choice_axiom(
    heap: &mut Heap,
    name: Ref,
    formals: Ref,
    free: Ref,
    body: Ref,
) -> Result<Ref, Memory>
    requires name_in { IsIn heap.old.objects name }
    requires formals_in { IsIn heap.old.objects formals }
    requires free_in { IsIn heap.old.objects free }
    requires body_in { IsIn heap.old.objects body }
    ensures grows { Grows heap.old.objects heap.new.objects }
    ensures made { IfOk result (λ r. IsIn heap.new.objects r × (object_at heap.new.objects r ≡ choice_object (object_at heap.old.objects name) (object_at heap.old.objects formals) (object_at heap.old.objects free) (object_at heap.old.objects body))) }
{
    let call = chosen(heap, name, formals, free, body)?;
    let holds = not_nil(heap, call)?;
    let none = equal_nil(heap, body)?;
    call_of_two(heap, Word::Por, none, holds)
}

// (name . formals) = body.
pub(crate) fn function_axiom(
    heap: &mut Heap,
    name: Ref,
    formals: Ref,
    body: Ref,
) -> Result<Ref, Memory>
    requires name_in { IsIn heap.old.objects name }
    requires formals_in { IsIn heap.old.objects formals }
    requires body_in { IsIn heap.old.objects body }
    ensures grows { Grows heap.old.objects heap.new.objects }
    ensures made { IfOk result (λ r. IsIn heap.new.objects r × (object_at heap.new.objects r ≡ equal_object (Pair (object_at heap.old.objects name) (object_at heap.old.objects formals)) (object_at heap.old.objects body))) }
{
    let call = heap.cons(name, formals)?;
    call_of_two(heap, Word::Pequal, call, body)
}
