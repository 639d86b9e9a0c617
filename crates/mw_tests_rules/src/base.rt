//! Each primitive function once, and the rule that computes them where it holds and where it does not.
ghost use Rattle.std.specs.Prelude.{◌≡◌, length};
ghost use Rattle.mw_base.specs.Answers.{arity};

use mw_base::{Applied, Truths, apply, base_eval};
use mw_forms::{are_in, boxed, read, read_four, read_three, read_two};
use mw_heap::{Heap, Memory, Primitive, Profile, Ref};
use std::test::Fail;

// The value of a primitive function at these arguments.
fn value(heap: &mut Heap, p: Primitive, args: &[Ref]) -> Applied
    requires { length args.now ≡ arity p }
{
    if !are_in(heap, args) {
        return Applied::Memory;
    }
    let Ok(truths) = Truths::new(heap) else {
        return Applied::Memory;
    };
    apply(heap, p, args, &truths)
}

// Whether CONS, CAR, CDR and CONSP have the expected values.
fn takes_pairs_apart(heap: &mut Heap) -> Result<[bool; 4], Memory> {
    let (nil, a, both) = read_three(heap, b"(NIL 2 (2))")?;
    Ok([
        value(heap, Primitive::Cons, &[a, nil]) == Applied::Value(both),
        value(heap, Primitive::Car, &[both]) == Applied::Value(a),
        value(heap, Primitive::Cdr, &[both]) == Applied::Value(nil),
        value(heap, Primitive::Consp, &[a]) == Applied::Value(nil),
    ])
}

// Whether SYMBOLP, SYMBOL-<, EQUAL and IF have the expected values.
fn tells_symbols(heap: &mut Heap) -> Result<[bool; 4], Memory> {
    let (t, nil) = read_two(heap, b"(T NIL)")?;
    Ok([
        value(heap, Primitive::Symbolp, &[t]) == Applied::Value(t),
        value(heap, Primitive::SymbolLess, &[nil, t]) == Applied::Value(t),
        value(heap, Primitive::Equal, &[t, nil]) == Applied::Value(nil),
        value(heap, Primitive::If, &[nil, nil, t]) == Applied::Value(t),
    ])
}

// Whether NATP, <, + and - have the expected values.
fn computes_numbers(heap: &mut Heap) -> Result<[bool; 4], Memory> {
    let (t, zero, a, four) = read_four(heap, b"(T 0 2 4)")?;
    Ok([
        value(heap, Primitive::Natp, &[a]) == Applied::Value(t),
        value(heap, Primitive::Less, &[t, a]) == Applied::Value(t),
        value(heap, Primitive::Plus, &[a, a]) == Applied::Value(four),
        value(heap, Primitive::Minus, &[a, four]) == Applied::Value(zero),
    ])
}

// What the rule says of the formula of a text.
fn holds(heap: &mut Heap, formula: &[u8], profile: Profile) -> Result<bool, Memory> {
    let c = read(heap, formula)?;
    base_eval(heap, c, profile)
}

// Whether * has the expected value, and none where it would be too large; and whether the rule gives (* '2 '2) = '4 in profile Two, but
// not in profile One, and not (* '2 '2) = '2.
fn computes_products(heap: &mut Heap) -> Result<[bool; 4], Memory> {
    let (a, four, most) = read_three(heap, b"(2 4 340282366920938463463374607431768211455)")?;
    Ok([
        value(heap, Primitive::Times, &[a, a]) == Applied::Value(four),
        value(heap, Primitive::Times, &[most, a]) == Applied::Overflow,
        holds(heap, b"(PEQUAL* (* '2 '2) '4)", Profile::Two)?
            && !holds(heap, b"(PEQUAL* (* '2 '2) '4)", Profile::One)?,
        !holds(heap, b"(PEQUAL* (* '2 '2) '2)", Profile::Two)?,
    ])
}

fn primitives(heap: &mut Heap) -> Result<[[bool; 4]; 4], Memory> {
    Ok([
        takes_pairs_apart(heap)?,
        tells_symbols(heap)?,
        computes_numbers(heap)?,
        computes_products(heap)?,
    ])
}

#[test]
fn primitive_functions_have_the_expected_values(rt: HostRuntime) -> Result<(), Fail> {
    let mut heap = boxed(rt.alloc())?;
    assert_eq!(rt; primitives(&mut heap)?, [[true; 4]; 4]);
    Ok(())
}
