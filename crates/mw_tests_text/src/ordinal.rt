//! The test of ordinals and their order, at ordinals and at what is none.
use crate::shared::holds;
use mw_forms::{read, read_two};
use mw_heap::{Heap, Memory};
use mw_ordinal::{is_ordinal, ordinal_less};

// Whether the test for an ordinal gives the expected answer on the datum of a text.
fn tells_ordinal(heap: &mut Heap, text: &[u8], expected: bool) -> Result<bool, Memory> {
    let x = read(heap, text)?;
    Ok(is_ordinal(heap, x) == expected)
}

// Whether the order gives the expected answer on the first two members of a list.
fn tells_below(heap: &mut Heap, text: &[u8], expected: bool) -> Result<bool, Memory> {
    let (x, y) = read_two(heap, text)?;
    Ok(ordinal_less(heap, x, y) == expected)
}

// Whether w ^ w + w is an ordinal, and w + w as a sum of two terms; and whether 1 is below w, w below w ^ w + w, and the other way.
fn orders(heap: &mut Heap) -> Result<bool, Memory> {
    Ok(
        [
            tells_ordinal(heap, b"((((1 . 1) . 0) . 1) . ((1 . 1) . 0))", true),
            tells_ordinal(heap, b"((1 . 1) . ((1 . 1) . 0))", false),
            tells_below(heap, b"(1 ((1 . 1) . 0))", true),
            tells_below(heap, b"(#1=((1 . 1) . 0) ((#1# . 1) . #1#))", true),
            tells_below(heap, b"(((#1=((1 . 1) . 0) . 1) . #1#) #1#)", false),
        ] == [Ok(true); 5],
    )
}

// Whether w and w ^ 0 are ordinals, as they are written, and whether 5 is below w, and w * 2 below w + 9.
fn written_ordinals(heap: &mut Heap) -> Result<bool, Memory> {
    Ok(
        [
            tells_ordinal(heap, b"((1 . 1) . 0)", true),
            tells_ordinal(heap, b"((0 . 1) . 0)", false),
            tells_below(heap, b"(5 ((1 . 1) . 0))", true),
            tells_below(heap, b"(((1 . 2) . 0) ((1 . 1) . 9))", false),
        ] == [Ok(true); 4],
    )
}

#[test]
fn omega_is_above_naturals(rt: HostRuntime) {
    assert!(rt; holds(rt.alloc(), orders));
}

#[test]
fn written_ordinals_are_in_order(rt: HostRuntime) {
    assert!(rt; holds(rt.alloc(), written_ordinals));
}
