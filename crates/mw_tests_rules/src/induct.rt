//! Premises of an induction that hold, and premises that do not.
ghost use Rattle.mw_heap.specs.Objects.{IsIn};

use crate::marked::marks_of;
use mw_forms::{boxed, read_three};
use mw_heap::{Heap, Memory, Ref};
use mw_induct::premises_hold;
use mw_term::is_formula;
use std::test::Fail;

// Whether these two are the premises of an induction that concludes the first.
fn hold(heap: &mut Heap, extras: Ref, f: Ref, second: Ref) -> Result<bool, Memory>
    requires extras { IsIn heap.old.objects extras }
    requires first { IsIn heap.old.objects f }
    requires second { IsIn heap.old.objects second }
{
    let marks = marks_of(heap)?;
    if !is_formula(&marks, f) {
        return Err(Memory);
    }
    premises_hold(heap, f, extras, &[f, second], &marks)
}

// Whether of these objects, which are a measure, conditions and cases, and two formulas, the formulas are the premises.
fn are_premises(heap: &mut Heap, objects: &[u8]) -> Result<bool, Memory> {
    let (extras, f, second) = read_three(heap, objects)?;
    hold(heap, extras, f, second)
}

// By the measure '0 and no cases the premises are: X = X, and '0 is an ordinal. The second may not be another.
fn hold_with_and_without_ordinal(heap: &mut Heap) -> Result<(bool, bool), Memory> {
    Ok((
        are_premises(heap, b"(('0 () ()) (PEQUAL* X X) (PEQUAL* (ORDP '0) 'T))")?,
        are_premises(heap, b"(('0 () ()) (PEQUAL* X X) (PEQUAL* X X))")?,
    ))
}

#[test]
fn the_measure_is_an_ordinal(rt: HostRuntime) -> Result<(), Fail> {
    let mut heap = boxed(rt.alloc())?;
    assert_eq!(rt; hold_with_and_without_ordinal(&mut heap)?, (true, false));
    Ok(())
}
