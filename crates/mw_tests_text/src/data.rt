//! Data, whose texts have labels where they are long.
use crate::shared::{add_long_list, ends_with_text, holds, shared_pairs};
use mw_forms::read;
use mw_heap::{Heap, Memory};
use mw_print::write_datum;

// Whether the datum of a text is written as this text, after what was written before, with labels from 7 to the one before `next`.
fn is_written(heap: &mut Heap, text: &[u8], next: u32) -> Result<bool, Memory> {
    let x = read(heap, text)?;
    let mut out = b"> ".to_vec(heap.alloc())?;
    let unused = write_datum(heap, x, 7, &mut out)?;
    Ok(unused == next && ends_with_text(out.as_slice(), text))
}

// The same where a list of 20,000 times A stands between two other texts.
fn is_long_written(
    heap: &mut Heap,
    before: &[u8],
    after: &[u8],
    next: u32,
) -> Result<bool, Memory> {
    let mut text = Vec::new(heap.alloc());
    add_long_list(&mut text, before, 19999, after)?;
    is_written(heap, text.as_slice(), next)
}

// A short datum has no labels, though a part of it repeats. The long list comes twice: as two members, as a member and the rest, and
// first as the rest of a list; and at last in a part that repeats, where it repeats within.
fn writes_data(heap: &mut Heap) -> Result<bool, Memory> {
    Ok(
        [
            is_written(heap, b"((A) (A))", 7),
            is_long_written(heap, b"(#7=(A", b") #7#)", 8),
            is_long_written(heap, b"(#7=(A", b") . #7#)", 8),
            is_long_written(heap, b"((B . #7=(A", b")) . #7#)", 8),
            is_long_written(heap, b"(#7=(#8=(A", b") . #8#) #7#)", 9),
        ] == [Ok(true); 5],
    )
}

#[test]
fn data_are_written(rt: HostRuntime) {
    assert!(rt; holds(rt.alloc(), writes_data));
}

// Whether this number of bytes is written for a datum whose text would not fit in memory, with label 1000 unused then.
fn writes_shared(heap: &mut Heap) -> Result<bool, Memory> {
    let x = shared_pairs(heap)?;
    let mut out = Vec::new(heap.alloc());
    let unused = write_datum(heap, x, 1, &mut out)?;
    Ok(out.len() == 14776 && unused == 1000)
}

#[test]
fn shared_data_are_written(rt: HostRuntime) {
    assert!(rt; holds(rt.alloc(), writes_shared));
}
