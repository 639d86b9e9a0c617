//! Runs of built-in functions over a list of 1,000 naturals: a loop keeps one frame, and a recursion opens one for each member. Runs for which
//! room is made first: they have just the units that the run takes, or one too few.
ghost use Rattle.std.specs.Prelude.{◌≡◌, ◌+◌, ◌*◌, ◌≤◌, ◌^◌, true};
ghost use Rattle.mw_model.specs.Terms.Object.{is_name};
ghost use Rattle.mw_code.specs.Tables.{StandsFor};
ghost use Rattle.mw_preamble.specs.Admitted.{first_definitions};

use mw_code::Table;
use mw_forms::{are_in, boxed, pair, read_two};
use mw_heap::{Heap, Memory, Profile, Ref};
use mw_machine::{Machine, Outcome};
use mw_preamble::admit_all;
use std::test::Fail;

const MEMBERS: u64 = 1000;

// What a run of the function of this name on these values comes to, and the frames of the run; nothing where it has no code for as many.
fn run_named(
    heap: &mut Heap,
    table: &Table,
    name: &[u8],
    values: &[Ref],
    units: u64,
) -> Option<(Outcome, u64)>
    requires name { is_name name.now ≡ true }
    requires table { StandsFor heap.old.objects table.now first_definitions }
{
    if !are_in(heap, values) {
        return None;
    }
    let entry = table.find(name)?;
    if entry.arity as usize != values.len() {
        return None;
    }
    let mut machine = Machine::new(heap.alloc());
    let outcome = machine.run(heap, table, &entry, values, units);
    Some((outcome, machine.frames()))
}

// The same, by the built-in definitions.
fn run_built_in(
    heap: &mut Heap,
    name: &[u8],
    values: &[Ref],
    units: u64,
) -> Result<Option<(Outcome, u64)>, Memory>
    requires { is_name name.now ≡ true }
{
    let preamble = admit_all(heap, Profile::One)?;
    Ok(run_named(heap, &preamble.table, name, values, units))
}

// The list of the naturals below MEMBERS.
fn naturals(heap: &mut Heap) -> Result<Ref, Memory> {
    let mut members = heap.nil()?;
    for n in 0..MEMBERS {
        let member = heap.nat(u128::from(MEMBERS - 1 - n))?;
        members = pair(heap, member, members)?;
    }
    Ok(members)
}

// Whether a walk over a list that finds nothing keeps one frame.
fn loop_keeps_one_frame(heap: &mut Heap, members: Ref) -> Result<bool, Memory> {
    let absent = heap.symbol(b"ABSENT")?;
    let found = run_built_in(heap, b"LOGIC.MEMBERP", &[absent, members], 10_000)?;
    Ok(matches!(found, Some((Outcome::Value(_, _), 1))))
}

// Whether the length of a list is MEMBERS, with these units left, and opens a frame for each member.
fn recursion_opens_a_frame_for_each_member(heap: &mut Heap, members: Ref) -> Result<bool, Memory> {
    let count = heap.nat(u128::from(MEMBERS))?;
    let found = run_built_in(heap, b"LOGIC.LEN", &[members], 10_000)?;
    Ok(found == Some((Outcome::Value(count, 5998), 1001)))
}

// Whether the given number of units are few, and the given number of frames of this width take few places.
fn has_room(units: u64, width: u64) -> bool
    ensures few { result ≡ true → units ≤ 1000 }
    ensures places { result ≡ true → (units + 1) * width ≤ 2 ^ 20 }
{
    if units > 1000 {
        return false;
    }
    match (units + 1).checked_mul(width) {
        Some(places) => places <= 1 << 20,
        None => false,
    }
}

// What a run of the function of this name on these values comes to, where room is made for its units; nothing where it has no code for so
// many values, or would need more room than a test takes.
fn run_with_room(
    heap: &mut Heap,
    table: &Table,
    name: &[u8],
    values: &[Ref],
    units: u64,
) -> Option<Outcome>
    requires name { is_name name.now ≡ true }
    requires table { StandsFor heap.old.objects table.now first_definitions }
{
    if !are_in(heap, values) {
        return None;
    }
    let entry = table.find(name)?;
    if entry.arity as usize != values.len() {
        return None;
    }
    let width = table.width(&entry);
    if !has_room(units, width) {
        return None;
    }
    let mut machine = Machine::new(heap.alloc());
    Some(machine.run_with_room(heap, table, &entry, values, units))
}

// What a run with room for its units comes to, by the built-in definitions.
fn run_built_in_with_room(
    heap: &mut Heap,
    name: &[u8],
    values: &[Ref],
    units: u64,
) -> Result<Option<Outcome>, Memory>
    requires { is_name name.now ≡ true }
{
    let preamble = admit_all(heap, Profile::One)?;
    Ok(run_with_room(heap, &preamble.table, name, values, units))
}

// Whether the length of the list (1 2 3) is found with room for 14 units, of which none is left, and whether a run with room for 13 ends.
fn takes_fourteen_units(heap: &mut Heap) -> Result<(bool, bool), Memory> {
    let (members, count) = read_two(heap, b"((1 2 3) 3)")?;
    let with_room = run_built_in_with_room(heap, b"LOGIC.LEN", &[members], 14)?;
    let without = run_built_in_with_room(heap, b"LOGIC.LEN", &[members], 13)?;
    Ok((
        with_room == Some(Outcome::Value(count, 0)),
        without == Some(Outcome::Steps),
    ))
}

fn runs(heap: &mut Heap) -> Result<(bool, bool), Memory> {
    let members = naturals(heap)?;
    Ok((
        loop_keeps_one_frame(heap, members)?,
        recursion_opens_a_frame_for_each_member(heap, members)?,
    ))
}

#[test]
fn runs_open_frames_and_end_without_units(rt: HostRuntime) -> Result<(), Fail> {
    let mut heap = boxed(rt.alloc())?;
    assert_eq!(rt; runs(&mut heap)?, (true, true));
    assert_eq!(rt; takes_fourteen_units(&mut heap)?, (true, true));
    Ok(())
}
