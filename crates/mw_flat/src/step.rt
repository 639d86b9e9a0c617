//! A step: a proof with its number, and with numbers in the place of its subproofs.
ghost use Rattle.std.specs.Prelude.{◌≡◌, map, All, OnOk};
ghost use Rattle.mw_model.specs.Terms.Object.{fourth_of};
ghost use Rattle.mw_commands.specs.Commands.Flattening.{step_members, IsStepLine};
ghost use Rattle.mw_heap.specs.Objects.{object_at, IsIn};
ghost use Rattle.mw_heap.specs.Parts.{part_at, IsPart};
ghost use Rattle.mw_flat.specs.Members.{WritesMembers};

use crate::member::write_member;
use crate::numbers::write_numbers;
use indexmap::IndexSet;
use mw_heap::{Heap, Memory, Ref};
use mw_print::write_number;

// The fourth member of a list; nothing where there is none.
fn fourth_of(heap: &Heap, x: Ref) -> Option<Ref>
    requires { IsIn heap.now.objects x }
    ensures within { IsPart heap.now.objects result }
    ensures value { part_at heap.now.objects result ≡ fourth_of (object_at heap.now.objects x) }
{
    heap.third_of(heap.cdr(x)?)
}

// Writes the members of the step of a proof with this number. Labels run on from one member to the next.
fn write_members(
    heap: &Heap,
    complete: &IndexSet<Ref>,
    x: Ref,
    number: u64,
    left: &mut u64,
    line: &mut Vec<u8>,
) -> Result<(), Memory>
    requires within { IsIn heap.now.objects x }
    requires all_within { All (IsIn heap.now.objects) complete.now.keys }
    ensures { OnOk result (WritesMembers (step_members (map (object_at heap.now.objects) complete.now.keys) (number, object_at heap.now.objects x)) 1 line.old.items line.new.items) }
{
    line.push(b' ')?;
    write_number(line, number)?;
    let next = write_member(heap, heap.car(x), 1, line)?;
    let next = write_member(heap, heap.second_of(x), next, line)?;
    write_numbers(heap, complete, heap.third_of(x), left, line)?;
    write_member(heap, fourth_of(heap, x), next, line)?;
    Ok(())
}

/// Writes the step of a proof with this number, in the place of what the line had.
pub(crate) fn write_step(
    heap: &Heap,
    complete: &IndexSet<Ref>,
    x: Ref,
    number: u64,
    left: &mut u64,
    line: &mut Vec<u8>,
) -> Result<(), Memory>
    requires within { IsIn heap.now.objects x }
    requires all_within { All (IsIn heap.now.objects) complete.now.keys }
    ensures { OnOk result (IsStepLine (map (object_at heap.now.objects) complete.now.keys) (number, object_at heap.now.objects x) line.new.items) }
{
    line.clear();
    line.extend_from_slice(b"(STEP")?;
    write_members(heap, complete, x, number, left, line)?;
    line.extend_from_slice(b")\n")?;
    Ok(())
}
