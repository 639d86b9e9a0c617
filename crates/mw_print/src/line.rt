//! Numbers in lines, and data on lines of their own.
ghost use Rattle.std.specs.Prelude.{◌≡◌, ◌++◌, ◌∷◌, [], List, ℕ, OnOk};
ghost use Rattle.mw_model.specs.Texts.Printing.{numeral};
ghost use Rattle.mw_model.specs.Texts.Written.{IsWritten};
ghost use Rattle.mw_heap.specs.Objects.{object_at, IsIn};

use crate::atom::write_natural;
use crate::datum::write_datum;
use mw_heap::{Heap, Memory, Ref};

/// Writes a natural in decimal digits after what the lines have. The error is out of memory, here and below: then a part of it may stand.
pub fn write_number(lines: &mut Vec<u8>, n: u64) -> Result<(), Memory>
    ensures { OnOk result (lines.new.items ≡ lines.old.items ++ numeral n) }
{
    write_natural(u128::from(n), lines)
}

/// Writes a text, and after it a number in decimal digits.
pub fn write_text_and_number(lines: &mut Vec<u8>, text: &[u8], n: u64) -> Result<(), Memory>
    ensures { OnOk result (lines.new.items ≡ lines.old.items ++ text.now ++ numeral n) }
{
    lines.extend_from_slice(text)?;
    write_number(lines, n)
}

/// Writes the datum of a reference and a line end.
pub fn write_line(lines: &mut Vec<u8>, heap: &Heap, x: Ref) -> Result<(), Memory>
    requires within { IsIn heap.now.objects x }
    ensures { OnOk result ((text : List ℕ) × (next : ℕ) × IsWritten (object_at heap.now.objects x) 1 text next × (lines.new.items ≡ lines.old.items ++ (text ++ 10 ∷ []))) }
{
    write_datum(heap, x, 1, lines)?;
    lines.push(b'\n')?;
    Ok(())
}
