//! A run of a term from its compilation to its outcome.
ghost use Rattle.mw_tests_functions.specs.Tested.{IsSomeTerm, IsPlain};

use crate::terms::Recipe;
use mw_code::Table;
use mw_heap::{Heap, Memory, Profile, Ref};
use mw_machine::{Machine, Outcome};
use std::alloc::Global;

// What a run comes to: a natural, with the units that are left and the frames that were there at once, or what ended it.
#[derive(Clone, Copy, PartialEq, Eq)]
pub(crate) enum Answer {
    Number(u128, u64, u64),
    Steps,
    Overflow,
    Witness,
    Memory,
}

// What the term comes to.
fn answer_of(
    heap: &mut Heap,
    table: &mut Table,
    machine: &mut Machine,
    term: Ref,
    steps: u64,
) -> Result<Answer, Memory>
    requires table { IsPlain heap.old.objects table.old }
    requires term { IsSomeTerm heap.old.objects term }
{
    let entry = table.compile_call(heap, term)?;
    match machine.run(heap, table, &entry, &[], steps) {
        Outcome::Value(value, left) => Ok(Answer::Number(
            heap.number(Some(value)),
            left,
            machine.frames(),
        )),
        Outcome::Steps => Ok(Answer::Steps),
        Outcome::Overflow => Ok(Answer::Overflow),
        Outcome::Witness => Ok(Answer::Witness),
        Outcome::Memory => Ok(Answer::Memory),
    }
}

/// What a term comes to in the given number of steps. The error is out of memory.
pub(crate) fn answer_in(
    heap: &mut Heap,
    table: &mut Table,
    machine: &mut Machine,
    recipe: Recipe,
    steps: u64,
) -> Result<Answer, Memory>
    requires { IsPlain heap.old.objects table.old }
{
    let term = recipe.term(heap)?;
    answer_of(heap, table, machine, term, steps)
}

// What a term comes to in the given number of steps. The error is out of memory.
pub(crate) fn answer_for(alloc: Global, recipe: Recipe, steps: u64) -> Result<Answer, Memory> {
    let mut heap = Box::new(alloc, Heap::new(alloc)?)?;
    let mut table = Box::new(alloc, Table::new(alloc, Profile::Two))?;
    let mut machine = Machine::new(alloc);
    answer_in(&mut heap, &mut table, &mut machine, recipe, steps)
}
