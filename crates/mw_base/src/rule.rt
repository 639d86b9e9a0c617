//! The rule of proof that computes a primitive function at constants.
ghost use Rattle.std.specs.Prelude.{◌≡◌, true};
ghost use Rattle.mw_model.specs.Laws.Rules.{is_call_with_value, is_that_value, primitive_value, unquoted, object_is_base_eval};
ghost use Rattle.mw_model.specs.Values.Primitive.{is_symbol, name_of};
ghost use Rattle.mw_heap.specs.Objects.{object_at, IsIn, Grows};
ghost use Rattle.mw_heap.specs.Parts.{part_at, IsPart};
ghost use Rattle.mw_heap.specs.Variants.{profile_of};

use crate::compare::is_value;
use crate::constants::{are_constants, is_constant, unquoted};
use mw_heap::{Heap, Memory, Primitive, Profile, Ref, View, Word};

/// Conclude (f 'c1 .. 'cn) = 'v, where f is a primitive function of the profile, or IF, and v its value at c1 .. cn. The value
/// is not made but compared, so that the heap stays as it is and no memory is wanted.
pub fn base_eval(heap: &mut Heap, conclusion: Ref, profile: Profile) -> Result<bool, Memory>
    requires { IsIn heap.old.objects conclusion }
    ensures answer { result ≡ Ok (object_is_base_eval (profile_of profile) (object_at heap.old.objects conclusion)) }
    ensures unchanged { heap.new.objects ≡ heap.old.objects }
    ensures grows { Grows heap.old.objects heap.new.objects }
{
    Ok(is_base_eval(heap, conclusion, profile))
}

// The rule, on a heap that is only looked at.
fn is_base_eval(heap: &Heap, conclusion: Ref, profile: Profile) -> bool
    requires { IsIn heap.now.objects conclusion }
    ensures { result ≡ object_is_base_eval (profile_of profile) (object_at heap.now.objects conclusion) }
{
    let Some((call, value)) = heap.equal_parts(Some(conclusion)) else {
        return false;
    };
    let Some(constant) = value else {
        return false;
    };
    is_constant(heap, constant) && is_call_with_value(heap, call, heap.second_of(constant), profile)
}

// Whether x is a call of a primitive function, or of IF, at constants, with the value v.
fn is_call_with_value(heap: &Heap, x: Option<Ref>, v: Option<Ref>, profile: Profile) -> bool
    requires x_within { IsPart heap.now.objects x }
    requires v_within { IsPart heap.now.objects v }
    ensures { result ≡ is_call_with_value (profile_of profile) (part_at heap.now.objects x) (part_at heap.now.objects v) }
{
    let Some(x) = x else {
        return false;
    };
    let View::Pair(f, args) = heap.view(x) else {
        return false;
    };
    match heap.view(f) {
        View::Symbol => are_constants(heap, args) && has_value(heap, f, args, v, profile),
        _ => false,
    }
}

// Whether the symbol f names a primitive function, or IF, whose value at the constants is v.
fn has_value(heap: &Heap, f: Ref, args: Ref, v: Option<Ref>, profile: Profile) -> bool
    requires f_in { IsIn heap.now.objects f }
    requires f_symbol { is_symbol (object_at heap.now.objects f) ≡ true }
    requires args_in { IsIn heap.now.objects args }
    requires v_within { IsPart heap.now.objects v }
    ensures { result ≡ is_that_value (primitive_value (profile_of profile) (name_of (object_at heap.now.objects f)) (unquoted (object_at heap.now.objects args))) (part_at heap.now.objects v) }
{
    match Primitive::named(heap.name_of(f), profile) {
        Some(p) => {
            let a = unquoted(heap, heap.car(args));
            let b = unquoted(heap, heap.second_of(args));
            let c = unquoted(heap, heap.third_of(args));
            is_value(heap, p, a, b, c, v)
        }
        None => false,
    }
}
