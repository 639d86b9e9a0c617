//! Terms that are run.
ghost use Rattle.std.specs.Prelude.{IfOk};
ghost use Rattle.mw_heap.specs.Objects.{Grows};
ghost use Rattle.mw_tests_functions.specs.Tested.{IsSomeTerm};

use mw_heap::{Heap, Memory, Ref};

/// How a term is made.
#[derive(Clone, Copy)]
pub(crate) enum Recipe {
    /// (CAR (CAR .. '0)), with the given number of calls.
    Nested(usize),
    /// The sum of a natural with itself, and so on, the given number of times: both sides of a sum are one term.
    Doubled(u128, usize),
}

impl Recipe {
    // The term. The error is out of memory.
    pub(crate) fn term(self, heap: &mut Heap) -> Result<Ref, Memory>
        ensures grows { Grows heap.old.objects heap.new.objects }
        ensures term { IfOk result (IsSomeTerm heap.new.objects) }
    {
        match self {
            Recipe::Nested(depth) => nested(heap, depth),
            Recipe::Doubled(n, times) => doubled(heap, n, times),
        }
    }
}

// The constant 'n. The error is out of memory.
fn constant(heap: &mut Heap, n: u128) -> Result<Ref, Memory>
    ensures grows { Grows heap.old.objects heap.new.objects }
    ensures term { IfOk result (IsSomeTerm heap.new.objects) }
{
    let nil = heap.nil()?;
    let n = heap.nat(n)?;
    let rest = heap.cons(n, nil)?;
    let quote = heap.symbol(b"QUOTE")?;
    heap.cons(quote, rest)
}

// The term (CAR x). The error is out of memory.
fn car_of(heap: &mut Heap, x: Ref) -> Result<Ref, Memory>
    requires { IsSomeTerm heap.old.objects x }
    ensures grows { Grows heap.old.objects heap.new.objects }
    ensures term { IfOk result (IsSomeTerm heap.new.objects) }
{
    let nil = heap.nil()?;
    let actuals = heap.cons(x, nil)?;
    let car = heap.symbol(b"CAR")?;
    heap.cons(car, actuals)
}

// The term (+ x y). The error is out of memory.
fn sum_of(heap: &mut Heap, x: Ref, y: Ref) -> Result<Ref, Memory>
    requires first { IsSomeTerm heap.old.objects x }
    requires second { IsSomeTerm heap.old.objects y }
    ensures grows { Grows heap.old.objects heap.new.objects }
    ensures term { IfOk result (IsSomeTerm heap.new.objects) }
{
    let nil = heap.nil()?;
    let last = heap.cons(y, nil)?;
    let actuals = heap.cons(x, last)?;
    let plus = heap.symbol(b"+")?;
    heap.cons(plus, actuals)
}

// The term (CAR (CAR .. '0)), with the given number of calls. The error is out of memory.
fn nested(heap: &mut Heap, depth: usize) -> Result<Ref, Memory>
    ensures grows { Grows heap.old.objects heap.new.objects }
    ensures term { IfOk result (IsSomeTerm heap.new.objects) }
{
    let mut term = constant(heap, 0)?;
    for _ in 0..depth {
        term = car_of(heap, term)?;
    }
    Ok(term)
}

// The sum of n with itself, and so on, the given number of times: both sides of a sum are one term. The error is out of memory.
fn doubled(heap: &mut Heap, n: u128, times: usize) -> Result<Ref, Memory>
    ensures grows { Grows heap.old.objects heap.new.objects }
    ensures term { IfOk result (IsSomeTerm heap.new.objects) }
{
    let mut term = constant(heap, n)?;
    for _ in 0..times {
        term = sum_of(heap, term, term)?;
    }
    Ok(term)
}
