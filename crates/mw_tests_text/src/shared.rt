//! What several files of tests use: tests on a new heap, texts and objects that are long, and whether a text was written.
ghost use Rattle.std.specs.Prelude.{IfOk};
ghost use Rattle.mw_heap.specs.Objects.{IsIn};

use mw_forms::{boxed, is_in, pair};
use mw_heap::{Heap, Memory, Ref};
use std::alloc::Global;

/// Whether what a test looks for on a new heap is so.
pub(crate) fn holds<F: FnOnce(&mut Heap) -> Result<bool, Memory>>(alloc: Global, test: F) -> bool
    requires { F.IsAlwaysCallable test }
{
    match boxed(alloc) {
        Ok(mut heap) => test(&mut heap) == Ok(true),
        Err(Memory) => false,
    }
}

/// Whether bytes are those of "> " and of a text after it.
pub(crate) fn ends_with_text(out: &[u8], text: &[u8]) -> bool {
    out.starts_with(b"> ") && out.ends_with(text) && out.len() == 2 + text.len()
}

/// Adds to a text these bytes, then the member A of a list, repeated this number of times, and these bytes.
pub(crate) fn add_long_list(
    text: &mut Vec<u8>,
    before: &[u8],
    count: usize,
    after: &[u8],
) -> Result<(), Memory> {
    text.extend_from_slice(before)?;
    for _ in 0..count {
        text.extend_from_slice(b" A")?;
    }
    text.extend_from_slice(after)?;
    Ok(())
}

/// A thousand pairs, each of the one before it twice: a datum whose text would fill no memory.
pub(crate) fn shared_pairs(heap: &mut Heap) -> Result<Ref, Memory>
    ensures { IfOk result (λ x. IsIn heap.new.objects x) }
{
    let mut x = heap.symbol(b"A")?;
    for _ in 0..1000 {
        x = pair(heap, x, x)?;
    }
    if is_in(heap, x) { Ok(x) } else { Err(Memory) }
}
