//! Data, whose texts have labels where they are long.
ghost use Rattle.std.specs.Prelude.{◌≡◌, ◌<◌, ◌≤◌, length, IfOk, OnErr};
ghost use Rattle.mw_model.specs.Events.Fate.{longest};
ghost use Rattle.mw_model.specs.Texts.Printing.{text_of};
ghost use Rattle.mw_heap.specs.Objects.{IsIn, object_at};
ghost use Rattle.mw_print.specs.Datum.{WritesDatum};
ghost use Rattle.mw_print.specs.Repeats.{AreRepeats};

use crate::labelled::labelled;
use crate::printing::{LONGEST, Printed, print, text_len};
use crate::repeats::repeats;
use indexmap::IndexSet;
use mw_heap::{Heap, Memory, Ref};

// Writes an object whose text is short.
fn write_short(heap: &Heap, x: Ref, first: u32, out: &mut Vec<u8>) -> Result<u32, Memory>
    requires within { IsIn heap.now.objects x }
    requires short { length (text_of (object_at heap.now.objects x)) ≤ longest }
    ensures written { IfOk result (WritesDatum (object_at heap.now.objects x) first out.old.items out.new.items) }
    ensures err { OnErr result (out.new.items ≡ out.old.items) }
{
    match print(heap, x, out) {
        Printed::Ok => Ok(first),
        _ => Err(Memory),
    }
}

// Writes an object whose text is long with labels, for the pairs that stand more than once in it.
fn write_with_labels(
    heap: &Heap,
    again: &IndexSet<Ref>,
    x: Ref,
    first: u32,
    out: &mut Vec<u8>,
) -> Result<u32, Memory>
    requires within { IsIn heap.now.objects x }
    requires long { longest < length (text_of (object_at heap.now.objects x)) }
    requires again { AreRepeats heap.now.objects (object_at heap.now.objects x) again.now.keys }
    ensures written { IfOk result (WritesDatum (object_at heap.now.objects x) first out.old.items out.new.items) }
    ensures err { OnErr result (out.new.items ≡ out.old.items) }
{
    let (text, next) = labelled(heap, again, x, first)?;
    out.extend_from_slice(text.as_slice())?;
    Ok(next)
}

// Writes an object whose text is long.
fn write_long(heap: &Heap, x: Ref, first: u32, out: &mut Vec<u8>) -> Result<u32, Memory>
    requires within { IsIn heap.now.objects x }
    requires long { longest < length (text_of (object_at heap.now.objects x)) }
    ensures written { IfOk result (WritesDatum (object_at heap.now.objects x) first out.old.items out.new.items) }
    ensures err { OnErr result (out.new.items ≡ out.old.items) }
{
    let again = repeats(heap, x)?;
    write_with_labels(heap, &again, x, first, out)
}

/// Writes a datum after what `out` has: the text of an object, if that has at most 65,536 bytes. Of a longer one each pair that stands
/// more than once has a label the first time, and is named by it from then on, as long as there are labels of at most nine digits.
/// These are numbered upwards from `first`, since those before it are in use; the answer is the first one that is unused then. It takes
/// time in proportion to the distinct pairs and to what is written. If memory runs out `out` keeps its bytes.
pub fn write_datum(heap: &Heap, x: Ref, first: u32, out: &mut Vec<u8>) -> Result<u32, Memory>
    requires within { IsIn heap.now.objects x }
    requires some { 0 < first }
    ensures written { IfOk result (WritesDatum (object_at heap.now.objects x) first out.old.items out.new.items) }
    ensures err { OnErr result (out.new.items ≡ out.old.items) }
{
    if text_len(heap, x) <= LONGEST {
        write_short(heap, x, first, out)
    } else {
        write_long(heap, x, first, out)
    }
}
