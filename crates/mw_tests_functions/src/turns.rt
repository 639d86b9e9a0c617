//! How many turns runs take.
ghost use Rattle.mw_tests_functions.specs.Tested.{IsPlain};

use crate::bench::answer_in;
use crate::terms::Recipe;
use mw_code::Table;
use mw_heap::{Heap, Memory, Profile};
use mw_machine::Machine;
use std::alloc::Global;

fn turns_in(heap: &mut Heap, table: &mut Table, recipe: Recipe, steps: u64) -> Result<u64, Memory>
    requires { IsPlain heap.old.objects table.old }
{
    let mut machine = Machine::new(heap.alloc());
    answer_in(heap, table, &mut machine, recipe, steps)?;
    Ok(machine.turns())
}

// What a term takes in the given number of steps. The error is out of memory.
fn turns(alloc: Global, recipe: Recipe, steps: u64) -> Result<u64, Memory> {
    let mut heap = Box::new(alloc, Heap::new(alloc)?)?;
    let mut table = Box::new(alloc, Table::new(alloc, Profile::Two))?;
    turns_in(&mut heap, &mut table, recipe, steps)
}

// a constant and the calls, of which the last one returns too, in rounds of 256
#[test]
fn instructions_are_counted_by_rounds(rt: HostRuntime) {
    assert!(rt; turns(rt.alloc(), Recipe::Nested(255), 255) == Ok(256));
    assert!(rt; turns(rt.alloc(), Recipe::Nested(256), 256) == Ok(512));
    assert!(rt; turns(rt.alloc(), Recipe::Nested(256), 10) == Ok(256));
}
