//! The steps of all proofs.
ghost use Rattle.std.specs.Prelude.{◌≡◌, ℕ, List, ◌++◌, map, All, OnOk};
ghost use Rattle.mw_model.specs.Texts.Pieces.{InOrder, numbered};
ghost use Rattle.mw_commands.specs.Commands.Flattening.{IsStepLine};
ghost use Rattle.mw_heap.specs.Objects.{object_at, IsIn};

use crate::step::write_step;
use indexmap::IndexSet;
use mw_heap::{Heap, Memory, Ref, looks_for};

// The most bytes of the steps of an event, which are held until it is judged: 64 megabytes.
const MOST_BYTES: usize = 1 << 26;

// How many more for each step: more than most take, so that a long proof is never refused for its length.
const BYTES_FOR_A_STEP: usize = 1 << 10;

// Room for most steps.
const LINE: usize = 256;

// Puts a line after what `out` has. It takes its bytes of those that are left.
fn put_line(line: &[u8], left: &mut usize, out: &mut Vec<u8>) -> Result<(), Memory>
    ensures put { OnOk result (out.new.items ≡ out.old.items ++ line.now) }
    ensures longer { (more : List ℕ) × (out.new.items ≡ out.old.items ++ more) }
{
    let Some(rest) = left.checked_sub(line.len()) else {
        return Err(Memory);
    };
    *left = rest;
    out.extend_from_slice(line)?;
    Ok(())
}

/// Writes the step of each of these proofs, in order, after what `out` has. Many steps may share one long list of subproofs, or one long
/// conclusion, which each writes. So the numbers in all lists are counted, and the bytes: past 2^24 numbers, and 64 more for each proof, or
/// 2^26 bytes, and 2^10 more for each proof, the error is out of memory too.
pub(crate) fn write_steps(
    heap: &Heap,
    complete: &IndexSet<Ref>,
    out: &mut Vec<u8>,
) -> Result<(), Memory>
    requires { All (IsIn heap.now.objects) complete.now.keys }
    ensures steps { OnOk result ((text : List ℕ) × InOrder (IsStepLine (map (object_at heap.now.objects) complete.now.keys)) (numbered 1 (map (object_at heap.now.objects) complete.now.keys)) text × (out.new.items ≡ out.old.items ++ text)) }
    ensures longer { (more : List ℕ) × (out.new.items ≡ out.old.items ++ more) }
{
    let mut left = looks_for(complete.len()) / 4;
    let mut bytes = complete
        .len()
        .saturating_mul(BYTES_FOR_A_STEP)
        .saturating_add(MOST_BYTES);
    let mut line = Vec::with_capacity(heap.alloc(), LINE)?;
    for (place, x) in complete.as_slice().iter().enumerate() {
        write_step(heap, complete, *x, place as u64 + 1, &mut left, &mut line)?;
        put_line(line.as_slice(), &mut bytes, out)?;
    }
    Ok(())
}
