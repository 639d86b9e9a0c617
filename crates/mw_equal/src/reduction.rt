//! A lambda call equals its body with the arguments for the formals.
ghost use Rattle.std.specs.Prelude.{◌≡◌, [], IfOk, OnOk};
ghost use Rattle.mw_model.specs.Terms.Object.{Pair, same_object, second_of};
ghost use Rattle.mw_model.specs.Laws.Rules.{beta_object, actuals_object, object_is_beta};
ghost use Rattle.mw_heap.specs.Objects.{object_at, IsIn, Grows};
ghost use Rattle.mw_heap.specs.Parts.{part_at, IsPart};
ghost use Rattle.mw_subst.specs.Sigma.{sigma_object, AreIn};

use crate::shapes::members;
use mw_heap::{Heap, Memory, Ref, View, take_look};
use mw_subst::{Sigma, is_instance, substitute};
use mw_term::take_searches;

/// Whether the conclusion is: ((lambda (x1 .. xn) b) t1 .. tn) = b with t1 .. tn for x1 .. xn. Nothing is made, but NIL where a part is
/// missing; the only error is being out of memory.
pub fn beta(heap: &mut Heap, conclusion: Ref) -> Result<bool, Memory>
    requires { IsIn heap.old.objects conclusion }
    ensures grows { Grows heap.old.objects heap.new.objects }
    ensures answer { IfOk result (λ b. b ≡ object_is_beta (object_at heap.old.objects conclusion)) }
{
    let Some((call, right)) = heap.equal_parts(Some(conclusion)) else {
        return Ok(false);
    };
    let Some(call) = call else {
        return Ok(false);
    };
    let View::Pair(function, arguments) = heap.view(call) else {
        return Ok(false);
    };
    let View::Pair(_, _) = heap.view(function) else {
        return Ok(false);
    };
    let right = present(heap, right)?;
    is_reduced(heap, function, arguments, right)
}

// Whether it is the body of the function of a lambda call with the arguments for its formals.
fn is_reduced(heap: &mut Heap, function: Ref, arguments: Ref, x: Ref) -> Result<bool, Memory>
    requires within { IsIn heap.old.objects function }
    requires arguments_within { IsIn heap.old.objects arguments }
    requires reduced_within { IsIn heap.old.objects x }
    ensures grows { Grows heap.old.objects heap.new.objects }
    ensures reduced { IfOk result (λ b. b ≡ same_object (object_at heap.old.objects x) (beta_object (Pair (object_at heap.old.objects function) (object_at heap.old.objects arguments)))) }
{
    let body = present(heap, heap.third_of(function))?;
    let sigma = actuals_of(heap, function, arguments)?;
    is_instance(heap, body, &sigma, x)
}

/// The body of the function of a lambda call with the arguments for its formals. The only error is being out of memory.
pub fn reduced(heap: &mut Heap, function: Ref, arguments: Ref) -> Result<Ref, Memory>
    requires within { IsIn heap.old.objects function }
    requires arguments_within { IsIn heap.old.objects arguments }
    ensures grows { Grows heap.old.objects heap.new.objects }
    ensures reduced { IfOk result (λ r. IsIn heap.new.objects r × (object_at heap.new.objects r ≡ beta_object (Pair (object_at heap.old.objects function) (object_at heap.old.objects arguments)))) }
{
    let body = present(heap, heap.third_of(function))?;
    let sigma = actuals_of(heap, function, arguments)?;
    substitute(heap, body, &sigma)
}

// The arguments for the formals of the function of a lambda call. Each takes a look from those that the heap allows.
fn actuals_of(heap: &mut Heap, function: Ref, arguments: Ref) -> Result<Sigma, Memory>
    requires within { IsIn heap.old.objects function }
    requires arguments_within { IsIn heap.old.objects arguments }
    ensures objects { heap.new.objects ≡ heap.old.objects }
    ensures within { IfOk result (λ s. AreIn heap.old.objects s) }
    ensures actuals { IfOk result (λ s. sigma_object heap.old.objects s ≡ actuals_object (second_of (object_at heap.old.objects function)) (object_at heap.old.objects arguments)) }
{
    let mut sigma = Sigma::new(heap.alloc());
    put_actuals(heap, function, arguments, &mut sigma)?;
    Ok(sigma)
}

// Puts the arguments for the formals of the function of a lambda call into a substitution of nothing.
fn put_actuals(
    heap: &mut Heap,
    function: Ref,
    arguments: Ref,
    sigma: &mut Sigma,
) -> Result<(), Memory>
    requires within { IsIn heap.old.objects function }
    requires arguments_within { IsIn heap.old.objects arguments }
    requires empty { sigma.old ≡ [] }
    ensures objects { heap.new.objects ≡ heap.old.objects }
    ensures within { OnOk result (AreIn heap.old.objects sigma.new) }
    ensures actuals { OnOk result (sigma_object heap.old.objects sigma.new ≡ actuals_object (second_of (object_at heap.old.objects function)) (object_at heap.old.objects arguments)) }
{
    let mut looks_left = u64::MAX;
    put_each(
        heap,
        heap.second_of(function),
        arguments,
        sigma,
        &mut looks_left,
    )?;
    take_searches(heap, u64::MAX.saturating_sub(looks_left))
}

// Puts the arguments for these formals into a substitution of nothing. Each takes a look: many calls may share them.
fn put_each(
    heap: &Heap,
    formals: Option<Ref>,
    arguments: Ref,
    sigma: &mut Sigma,
    looks_left: &mut u64,
) -> Result<(), Memory>
    requires within { IsPart heap.now.objects formals }
    requires arguments_within { IsIn heap.now.objects arguments }
    requires empty { sigma.old ≡ [] }
    ensures within { OnOk result (AreIn heap.now.objects sigma.new) }
    ensures actuals { OnOk result (sigma_object heap.now.objects sigma.new ≡ actuals_object (part_at heap.now.objects formals) (object_at heap.now.objects arguments)) }
{
    let Some(mut formals) = formals else {
        return Ok(());
    };
    let mut arguments = arguments;
    while let Some(((x, more_formals), (t, more_arguments))) = members(heap, formals, arguments) {
        take_look(looks_left)?;
        sigma.put(x, t)?;
        formals = more_formals;
        arguments = more_arguments;
    }
    Ok(())
}

// A part as an object of the heap: NIL where there is none.
fn present(heap: &mut Heap, x: Option<Ref>) -> Result<Ref, Memory>
    requires { IsPart heap.old.objects x }
    ensures grows { Grows heap.old.objects heap.new.objects }
    ensures made { IfOk result (λ r. IsIn heap.new.objects r × (object_at heap.new.objects r ≡ part_at heap.old.objects x)) }
{
    match x {
        Some(x) => Ok(x),
        None => heap.nil(),
    }
}
