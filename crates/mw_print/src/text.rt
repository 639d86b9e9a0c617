//! The text of an object.
ghost use Rattle.std.specs.Prelude.{◌≡◌, [], ◌∷◌, ◌++◌, All, IfOk, OnOk};
ghost use Rattle.mw_model.specs.Terms.Object.{Pair};
ghost use Rattle.mw_model.specs.Texts.Printing.{text_of};
ghost use Rattle.mw_heap.specs.Objects.{IsIn, object_at};
ghost use Rattle.mw_print.specs.Parts.{IsPart, Writes};

use crate::atom::{write_atom, write_end};
use crate::part::Part;
use mw_heap::{Heap, Memory, Ref, View};
use std::alloc::Global;

// Writes a byte, and leaves to be written the text of `first`, and after it what follows with `rest` after it.
fn write_open(
    byte: u8,
    first: Ref,
    rest: Ref,
    parts: &mut Vec<Part>,
    out: &mut Vec<u8>,
) -> Result<(), Memory>
    ensures parts { OnOk result (parts.new.items ≡ (parts.old.items ++ Part.Tail rest ∷ []) ++ Part.Text first ∷ []) }
    ensures byte { OnOk result (out.new.items ≡ out.old.items ++ byte ∷ []) }
{
    out.push(byte)?;
    parts.push(Part::Tail(rest))?;
    parts.push(Part::Text(first))?;
    Ok(())
}

// Writes a part, or of a pair's its first byte, and leaves the rest as parts.
fn write_part(
    heap: &Heap,
    part: Part,
    parts: &mut Vec<Part>,
    out: &mut Vec<u8>,
) -> Result<(), Memory>
    requires part { IsPart heap.now.objects part }
    requires parts { All (IsPart heap.now.objects) parts.old.items }
    ensures { OnOk result (Writes heap.now.objects part parts.old.items parts.new.items out.old.items out.new.items) }
{
    match part {
        Part::Text(x) => match heap.view(x) {
            View::Pair(first, rest) => write_open(b'(', first, rest, parts, out),
            _ => write_atom(heap, x, out),
        },
        Part::Tail(x) => match heap.view(x) {
            View::Pair(first, rest) => write_open(b' ', first, rest, parts, out),
            _ => write_end(heap, x, out),
        },
    }
}

// Room for what is still to be written of most texts.
const PARTS: usize = 16;

// The text of an object, by a stack of what is still to be written. Room for all of a text of at most 65,536 bytes is made at once.
pub(crate) fn text(heap: &Heap, alloc: Global, x: Ref) -> Result<Vec<u8>, Memory>
    requires { IsIn heap.now.objects x }
    ensures { IfOk result (λ text. text.items ≡ text_of (object_at heap.now.objects x)) }
{
    let mut out = Vec::with_capacity(alloc, heap.lengths(x).0 as usize)?;
    let mut parts = Vec::with_capacity(alloc, PARTS)?;
    parts.push(Part::Text(x))?;
    while let Some(part) = parts.pop() {
        write_part(heap, part, &mut parts, &mut out)?;
    }
    Ok(out)
}
