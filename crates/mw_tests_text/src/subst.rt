//! Substitutions that are put together and read, and terms under them.
ghost use Rattle.std.specs.Prelude.{◌≡◌, ◌+◌, ◌<◌, ◌≤◌, [], ◌∷◌, IfOk};
ghost use Rattle.mw_heap.specs.Objects.{IsIn};

use crate::shared::holds;
use mw_forms::{are_in, form, read_four, read_two};
use mw_heap::{Heap, Memory, Ref, looks_for};
use mw_subst::{Sigma, Steps, is_instance, sigma_of, substitute, substitute_counted};
use std::alloc::Global;
use std::marker::Brand;
use std::sync::ledger::{Blank, Ledger};

// Whether y is found for x, and nothing for y, where the pairs are (x . y) and (x . x).
fn puts_both(sigma: &mut Sigma, x: Ref, y: Ref) -> Result<bool, Memory> {
    sigma.put(x, y)?;
    sigma.put(x, x)?;
    Ok([sigma.find(x) == Some(y), sigma.find(y).is_none()] == [true; 2])
}

// The same for X and Y.
fn finds_the_first(heap: &mut Heap) -> Result<bool, Memory> {
    let (x, y) = read_two(heap, b"(X Y)")?;
    let mut sigma = Sigma::new(heap.alloc());
    puts_both(&mut sigma, x, y)
}

// The first term for the variable x in the substitution ((x . y) (x . x)).
fn first_term(heap: &mut Heap, x: Ref, y: Ref) -> Result<Option<Ref>, Memory>
    requires x_in { IsIn heap.old.objects x }
    requires y_in { IsIn heap.old.objects y }
{
    let nil = heap.nil()?;
    let later = heap.cons(x, x)?;
    let rest = heap.cons(later, nil)?;
    let first = heap.cons(x, y)?;
    let s = heap.cons(first, rest)?;
    Ok(sigma_of(heap, s)?.find(x))
}

// Whether Y is read as the first term for X.
fn reads_the_first(heap: &mut Heap) -> Result<bool, Memory> {
    let (x, y) = read_two(heap, b"(X Y)")?;
    Ok(first_term(heap, x, y) == Ok(Some(y)))
}

#[test]
fn the_first_pair_counts(rt: HostRuntime) {
    assert!(rt; holds(rt.alloc(), finds_the_first));
    assert!(rt; holds(rt.alloc(), reads_the_first));
}

// The substitution of one variable.
fn of_one(alloc: Global, variable: Ref, term: Ref) -> Result<Sigma, Memory>
    ensures { IfOk result (λ sigma. sigma ≡ (variable, term) ∷ []) }
{
    let mut sigma = Sigma::new(alloc);
    sigma.put(variable, term)?;
    Ok(sigma)
}

// The object x with the term for one variable.
fn with_term(heap: &mut Heap, x: Ref, variable: Ref, term: Ref) -> Result<Ref, Memory>
    requires within { IsIn heap.old.objects x }
    requires variable_in { IsIn heap.old.objects variable }
    requires term_in { IsIn heap.old.objects term }
{
    let sigma = of_one(heap.alloc(), variable, term)?;
    substitute(heap, x, &sigma)
}

// Whether (F X 'X) with 'A for X is (F 'A 'X).
fn substitutes(heap: &mut Heap) -> Result<bool, Memory> {
    let (x, quoted_a, before, after) = read_four(heap, b"(X 'A (F X 'X) (F 'A 'X))")?;
    Ok(with_term(heap, before, x, quoted_a) == Ok(after))
}

#[test]
fn variables_become_terms(rt: HostRuntime) {
    assert!(rt; holds(rt.alloc(), substitutes));
}

// Whether (F X) with 'A for X is (F 'A) where this number of looks is allowed. The error is that they are too few.
fn substitutes_within(heap: &mut Heap, looks: u64) -> Result<bool, Memory> {
    let (x, quoted_a, before, after) = read_four(heap, b"(X 'A (F X) (F 'A))")?;
    heap.allow_looks(looks);
    Ok(with_term(heap, before, x, quoted_a)? == after)
}

// Whether it is refused where no look is allowed and where one too few is, and made where as many are as it takes, and where as many as an
// event may take. The call is looked at twice, its list three times, and X and NIL once each.
fn takes_seven_looks(heap: &mut Heap) -> Result<bool, Memory> {
    Ok(
        [
            Ok(substitutes_within(heap, 0).is_err()),
            Ok(substitutes_within(heap, 6).is_err()),
            substitutes_within(heap, 7),
            substitutes_within(heap, looks_for(4)),
        ] == [Ok(true); 4],
    )
}

#[test]
fn looks_past_those_allowed_are_out_of_memory(rt: HostRuntime) {
    assert!(rt; holds(rt.alloc(), takes_seven_looks));
}

// The call of CONS on an object twice, repeated this number of times.
fn doubled(heap: &mut Heap, x: Ref, times: u32) -> Result<Ref, Memory> {
    let mut all = x;
    for _ in 0..times {
        all = form(heap, b"CONS", &[all, all])?;
    }
    Ok(all)
}

// One of the first 200 objects with the term for one variable, which takes no more than 200 steps.
fn with_term_counted<L: Ledger>(
    heap: &mut Heap,
    x: Ref,
    variable: Ref,
    term: Ref,
    steps: &mut Steps<L>,
) -> Result<Ref, Memory>
    requires within { IsIn heap.old.objects x }
    requires variable_in { IsIn heap.old.objects variable }
    requires term_in { IsIn heap.old.objects term }
    requires early { x < 200 }
    ensures { steps.new ≤ steps.old + 200 }
{
    let sigma = of_one(heap.alloc(), variable, term)?;
    substitute_counted(heap, x, &sigma, steps)
}

// The same over a ledger that nobody reads.
fn with_term_uncounted<L: Ledger>(
    heap: &mut Heap,
    x: Ref,
    variable: Ref,
    term: Ref,
    blank: Blank,
) -> Result<Ref, Memory>
    requires within { IsIn heap.old.objects x }
    requires variable_in { IsIn heap.old.objects variable }
    requires term_in { IsIn heap.old.objects term }
    requires early { x < 200 }
    requires name { blank.name ≡ L.name }
    requires parts { blank.parts ≡ L.parts }
    requires some { 0 < blank.parts }
{
    let mut steps = Steps::<L>::new(blank);
    with_term_counted(heap, x, variable, term, &mut steps)
}

// Whether X doubled 41 times, with '1 for X, is '1 doubled as often. As a tree the term has 2 ^ 41 variables.
fn substitutes_in_shared(heap: &mut Heap) -> Result<bool, Memory> {
    let (x, one) = read_two(heap, b"(X '1)")?;
    let before = doubled(heap, x, 41)?;
    if !are_in(heap, &[before, x, one]) || before.index() >= 200 {
        return Err(Memory);
    }
    let made = with_term_uncounted::<Brand>(heap, before, x, one, Blank::new(1))?;
    Ok(doubled(heap, one, 41) == Ok(made))
}

#[test]
fn shared_parts_are_looked_at_once(rt: HostRuntime) {
    assert!(rt; holds(rt.alloc(), substitutes_in_shared));
}

// Whether y is the object x with the term for one variable.
fn is_with_term(heap: &mut Heap, x: Ref, variable: Ref, term: Ref, y: Ref) -> Result<bool, Memory>
    requires within { IsIn heap.old.objects x }
    requires variable_in { IsIn heap.old.objects variable }
    requires term_in { IsIn heap.old.objects term }
    requires instance { IsIn heap.old.objects y }
{
    let sigma = of_one(heap.alloc(), variable, term)?;
    is_instance(heap, x, &sigma, y)
}

// Whether the test that the first of two terms with 'A for X is the second gives the expected answer.
fn tells_instance(heap: &mut Heap, text: &[u8], expected: bool) -> Result<bool, Memory> {
    let (x, quoted_a, before, after) = read_four(heap, text)?;
    Ok(is_with_term(heap, before, x, quoted_a, after)? == expected)
}

// Whether (F X 'X) with 'A for X is (F 'A 'X), and whether it is (F 'A 'A).
fn compares(heap: &mut Heap) -> Result<bool, Memory> {
    Ok(
        [
            tells_instance(heap, b"(X 'A (F X 'X) (F 'A 'X))", true),
            tells_instance(heap, b"(X 'A (F X 'X) (F 'A 'A))", false),
        ] == [Ok(true); 2],
    )
}

#[test]
fn instances_are_compared(rt: HostRuntime) {
    assert!(rt; holds(rt.alloc(), compares));
}

// Whether X doubled 41 times, with 'A for X, is 'A doubled as often.
fn compares_doubled(heap: &mut Heap) -> Result<bool, Memory> {
    let (x, quoted_a) = read_two(heap, b"(X 'A)")?;
    let before = doubled(heap, x, 41)?;
    let after = doubled(heap, quoted_a, 41)?;
    if !are_in(heap, &[before, x, quoted_a, after]) {
        return Err(Memory);
    }
    is_with_term(heap, before, x, quoted_a, after)
}

// The same, and whether (CONS X X) is (CONS 'A X).
fn compares_shared(heap: &mut Heap) -> Result<bool, Memory> {
    Ok(
        [
            compares_doubled(heap),
            tells_instance(heap, b"(X 'A (CONS X X) (CONS 'A X))", false),
        ] == [Ok(true); 2],
    )
}

#[test]
fn instances_with_shared_parts_are_compared(rt: HostRuntime) {
    assert!(rt; holds(rt.alloc(), compares_shared));
}
