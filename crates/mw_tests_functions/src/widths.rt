//! How many places of the stack terms need.
ghost use Rattle.mw_tests_functions.specs.Tested.{IsSomeTerm, IsPlain};

use crate::terms::Recipe;
use mw_code::Table;
use mw_heap::{Heap, Memory, Profile, Ref};
use std::alloc::Global;

fn width_of(heap: &Heap, table: &mut Table, term: Ref) -> Result<u64, Memory>
    requires table { IsPlain heap.now.objects table.old }
    requires term { IsSomeTerm heap.now.objects term }
{
    let entry = table.compile_call(heap, term)?;
    Ok(table.width(&entry))
}

fn width_in(heap: &mut Heap, table: &mut Table, recipe: Recipe) -> Result<u64, Memory>
    requires { IsPlain heap.old.objects table.old }
{
    let term = recipe.term(heap)?;
    width_of(heap, table, term)
}

// What a term needs. The error is out of memory.
fn width(alloc: Global, recipe: Recipe) -> Result<u64, Memory> {
    let mut heap = Box::new(alloc, Heap::new(alloc)?)?;
    let mut table = Box::new(alloc, Table::new(alloc, Profile::Two))?;
    width_in(&mut heap, &mut table, recipe)
}

#[test]
fn one_place_serves_calls_of_one_argument(rt: HostRuntime) {
    assert!(rt; width(rt.alloc(), Recipe::Nested(1000)) == Ok(1));
}

// each sum keeps its first value while the second one is found
#[test]
fn each_sum_within_a_sum_takes_a_place_more(rt: HostRuntime) {
    assert!(rt; width(rt.alloc(), Recipe::Doubled(3, 10)) == Ok(11));
}
