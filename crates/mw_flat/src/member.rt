//! The members of a step.
ghost use Rattle.std.specs.Prelude.{◌≡◌, ◌<◌, ◌++◌, IfOk, OnOk};
ghost use Rattle.mw_model.specs.Terms.Object.{NIL};
ghost use Rattle.mw_model.specs.Texts.Printing.{text_of};
ghost use Rattle.mw_heap.specs.Parts.{part_at, IsPart};
ghost use Rattle.mw_flat.specs.Members.{WritesMember};

use mw_heap::{Heap, Memory, Ref};
use mw_print::write_datum;

/// Writes NIL.
pub(crate) fn write_nil(line: &mut Vec<u8>) -> Result<(), Memory>
    ensures { OnOk result (line.new.items ≡ line.old.items ++ text_of NIL) }
{
    line.extend_from_slice(b"NIL")?;
    Ok(())
}

/// Writes a part of a proof after a space, with labels from `first` on, since those before it are in use. The answer is the first label
/// that is unused then.
pub(crate) fn write_member(
    heap: &Heap,
    x: Option<Ref>,
    first: u32,
    line: &mut Vec<u8>,
) -> Result<u32, Memory>
    requires within { IsPart heap.now.objects x }
    requires some { 0 < first }
    ensures written { IfOk result (WritesMember (part_at heap.now.objects x) first line.old.items line.new.items) }
    ensures some { IfOk result (λ next. 0 < next) }
{
    line.push(b' ')?;
    match x {
        Some(x) => write_datum(heap, x, first, line),
        None => {
            write_nil(line)?;
            Ok(first)
        }
    }
}
