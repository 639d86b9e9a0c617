//! The text of naturals and symbols, and how a list ends.
ghost use Rattle.std.specs.Prelude.{◌≡◌, ◌++◌, false, OnOk};
ghost use Rattle.mw_model.specs.Values.Primitive.{is_pair};
ghost use Rattle.mw_model.specs.Texts.Printing.{numeral, tail_text, text_of};
ghost use Rattle.mw_heap.specs.Objects.{IsIn, object_at};

use crate::name::write_name;
use itoa::Buffer;
use mw_heap::{Heap, Memory, Ref, View};

// Writes a natural in decimal digits.
pub(crate) fn write_natural(n: u128, out: &mut Vec<u8>) -> Result<(), Memory>
    ensures { OnOk result (out.new.items ≡ out.old.items ++ numeral n) }
{
    let mut buffer = Buffer::new();
    out.extend_from_slice(buffer.format(n).as_bytes())?;
    Ok(())
}

// Writes the text of a natural or a symbol.
pub(crate) fn write_atom(heap: &Heap, x: Ref, out: &mut Vec<u8>) -> Result<(), Memory>
    requires within { IsIn heap.now.objects x }
    requires atom { is_pair (object_at heap.now.objects x) ≡ false }
    ensures { OnOk result (out.new.items ≡ out.old.items ++ text_of (object_at heap.now.objects x)) }
{
    match heap.view(x) {
        View::Nat(n) => write_natural(n, out),
        View::Symbol => write_name(heap.name_of(x), out),
        View::Pair(..) => unreachable!(),
    }
}

// Writes how a list ends of which the natural or symbol is the rest.
pub(crate) fn write_end(heap: &Heap, x: Ref, out: &mut Vec<u8>) -> Result<(), Memory>
    requires within { IsIn heap.now.objects x }
    requires atom { is_pair (object_at heap.now.objects x) ≡ false }
    ensures { OnOk result (out.new.items ≡ out.old.items ++ tail_text (object_at heap.now.objects x)) }
{
    if !heap.is_nil(Some(x)) {
        out.extend_from_slice(b" . ")?;
        write_atom(heap, x, out)?;
    }
    out.push(b')')?;
    Ok(())
}
