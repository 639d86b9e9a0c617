//! Runs, for which room is made first where they may take few units.
ghost use Rattle.std.specs.Prelude.{◌≡◌, ◌+◌, ◌*◌, ◌≤◌, ◌^◌, true, [], length, map, All};
ghost use Rattle.mw_model.specs.Terms.Term.{Term};
ghost use Rattle.mw_model.specs.Values.Definition.{Definitions};
ghost use Rattle.mw_model.specs.Events.Evaluation.{evaluate};
ghost use Rattle.mw_heap.specs.Objects.{object_at, IsIn, Grows};
ghost use Rattle.mw_code.specs.Needs.{IsWide};
ghost use Rattle.mw_code.specs.Tables.{StandsFor, IsEntry};
ghost use Rattle.mw_machine.specs.State.{Answers};

use mw_code::{Entry, Table};
use mw_heap::{Heap, Ref};
use mw_machine::{Machine, Outcome};

// Room is made first for runs of at most this many units, each of which may make cells.
const MOST_UNITS: u64 = 10_000;

// And of at most this many places of the stack: 64 megabytes.
const MOST_PLACES: u64 = 1 << 24;

// And of at most this many instructions, by the length of all code, since such a run does not count them: about a second.
const MOST_INSTRUCTIONS: u64 = 1 << 28;

// Whether room is made first for a run of the given number of units, where a frame needs the given number of places, and a body has no more code than the table.
fn has_small_room(units: u64, width: u64, code: usize) -> bool
    ensures few { result ≡ true → units ≤ 10000 }
    ensures places { result ≡ true → (units + 1) * width ≤ 2 ^ 24 }
{
    if units > MOST_UNITS {
        return false;
    }
    let Some(places) = (units + 1).checked_mul(width) else {
        return false;
    };
    let Some(instructions) = (units + 1).checked_mul(code as u64) else {
        return false;
    };
    places <= MOST_PLACES && instructions <= MOST_INSTRUCTIONS
}

/// Runs the code of an entry on values of its formals, with the given number of units. It comes to just what evaluation gives, or is out of
/// memory. Of at most 10,000 units, where that takes at most 2^24 places of the stack and the table's code is so short that such a run
/// ends in time, room is made first: once the run has begun it asks for no memory. Not so where the code has parts, whose frames and turns
/// no units bound: such a run has its turns limited.
pub(crate) fn run_entry(
    heap: &mut Heap,
    table: &Table,
    machine: &mut Machine,
    entry: &Entry,
    args: &[Ref],
    units: u64,
) -> Outcome
    requires within { All (IsIn heap.old.objects) args.now }
    requires entry { (D : Definitions) × (t : Term) × StandsFor heap.old.objects table.now D × IsEntry D.profile heap.old.objects table.now entry.now (map (object_at heap.old.objects) args.now) t }
    requires count { length args.now ≡ entry.now.arity }
    requires wide { IsWide table.now.signature table.now.code.items entry.now }
    ensures grows { Grows heap.old.objects heap.new.objects }
    ensures answer { (D : Definitions) (t : Term) → StandsFor heap.old.objects table.now D → IsEntry D.profile heap.old.objects table.now entry.now (map (object_at heap.old.objects) args.now) t → Answers heap.new.objects (evaluate D units [] t) result }
{
    if !table.has_parts() && has_small_room(units, table.width(entry), table.code().len()) {
        machine.run_with_room(heap, table, entry, args, units)
    } else {
        machine.run(heap, table, entry, args, units)
    }
}
