//! The numbers of subproofs, written as a list.
ghost use Rattle.std.specs.Prelude.{◌≡◌, ◌∷◌, ◌++◌, map, All, OnOk};
ghost use Rattle.mw_model.specs.Texts.Printing.{numeral, tail_text, text_of};
ghost use Rattle.mw_commands.specs.Commands.Flattening.{number_among, numbers_among};
ghost use Rattle.mw_heap.specs.Objects.{object_at, IsIn};
ghost use Rattle.mw_heap.specs.Parts.{part_at, IsPart};

use crate::member::write_nil;
use crate::number::number_of;
use indexmap::IndexSet;
use mw_heap::{Heap, Memory, Ref, View, take_look};
use mw_print::write_number;

// Writes the number of a proof, which takes one of those that are left.
fn write_number_of(
    heap: &Heap,
    complete: &IndexSet<Ref>,
    p: Ref,
    left: &mut u64,
    line: &mut Vec<u8>,
) -> Result<(), Memory>
    requires within { IsIn heap.now.objects p }
    requires all_within { All (IsIn heap.now.objects) complete.now.keys }
    ensures { OnOk result (line.new.items ≡ line.old.items ++ numeral (number_among (map (object_at heap.now.objects) complete.now.keys) (object_at heap.now.objects p))) }
{
    take_look(left)?;
    write_number(line, number_of(heap, complete, p))
}

// Writes what follows the first number.
fn write_rest(
    heap: &Heap,
    complete: &IndexSet<Ref>,
    list: Ref,
    left: &mut u64,
    line: &mut Vec<u8>,
) -> Result<(), Memory>
    requires within { IsIn heap.now.objects list }
    requires all_within { All (IsIn heap.now.objects) complete.now.keys }
    ensures { OnOk result (line.new.items ≡ line.old.items ++ tail_text (numbers_among (map (object_at heap.now.objects) complete.now.keys) (object_at heap.now.objects list))) }
{
    let mut rest = list;
    while let View::Pair(p, more) = heap.view(rest) {
        line.push(b' ')?;
        write_number_of(heap, complete, p, left, line)?;
        rest = more;
    }
    line.push(b')')?;
    Ok(())
}

/// Writes the list of the numbers of a list of proofs, after a space. Each takes one of those that are left: the error is that none is
/// left, or out of memory.
pub(crate) fn write_numbers(
    heap: &Heap,
    complete: &IndexSet<Ref>,
    list: Option<Ref>,
    left: &mut u64,
    line: &mut Vec<u8>,
) -> Result<(), Memory>
    requires within { IsPart heap.now.objects list }
    requires all_within { All (IsIn heap.now.objects) complete.now.keys }
    ensures { OnOk result (line.new.items ≡ line.old.items ++ 32 ∷ text_of (numbers_among (map (object_at heap.now.objects) complete.now.keys) (part_at heap.now.objects list))) }
{
    line.push(b' ')?;
    if let Some(list) = list {
        if let View::Pair(first, rest) = heap.view(list) {
            line.push(b'(')?;
            write_number_of(heap, complete, first, left, line)?;
            return write_rest(heap, complete, rest, left, line);
        }
    }
    write_nil(line)
}
