//! The looks that the obligations of a function take at the least, which are taken before any of them is made.
ghost use Rattle.std.specs.Prelude.{◌≡◌};
ghost use Rattle.mw_heap.specs.Objects.{IsIn};
ghost use Rattle.mw_term.specs.Parts.{names_at};
ghost use Rattle.mw_define.specs.Collecting.{AreFoundCalls, HasTests, IsPartOf};
ghost use Rattle.mw_define.specs.Owed.{AreBlock};
ghost use Rattle.mw_define.specs.declared.item.Part.TheVariants as part;

use crate::draft::Draft;
use crate::item::FoundCall;
use crate::known::Known;
use crate::obligations::Obligations;
use crate::owing::function_named;
use indexmap::{IndexMap, IndexSet};
use mw_heap::{Heap, Memory, Ref, View};
use mw_term::vars_counted;
use std::alloc::Global;

// The looks that a test takes at the least, those of a search.
const LOOKS_AT_A_TEST: u64 = 4;

// What was counted: the cells of each measure, and the tests of each list.
#[derive(Drop)]
struct Counted {
    measures: IndexMap<Ref, u64>,
    tests: IndexMap<Ref, u64>,
}

impl Counted {
    fn new(alloc: Global) -> Counted {
        Counted {
            measures: IndexMap::new(alloc),
            tests: IndexMap::new(alloc),
        }
    }
}

// The number of cells of a measure, each of which takes a look in each substitution.
fn measure_cells(heap: &Heap, measure: Ref, counted: &mut Counted) -> Result<u64, Memory>
    requires { IsIn heap.now.objects measure }
{
    if let Some(cells) = counted.measures.get(&measure) {
        return Ok(*cells);
    }
    // unbounded: each measure is walked once
    let mut looks_left = u64::MAX;
    vars_counted(heap, measure, &mut looks_left)?;
    let cells = u64::MAX.saturating_sub(looks_left);
    counted.measures.insert(measure, cells)?;
    Ok(cells)
}

// The number of tests of a list. It is noted for each rest of the list as well, since the lists of many calls share their rests.
fn test_count(heap: &Heap, tests: Ref, counted: &mut Counted) -> Result<u64, Memory>
    requires { IsIn heap.now.objects tests }
{
    let mut lists = Vec::new(heap.alloc());
    let mut count: u64 = 0;
    let mut rest = tests;
    while let View::Pair(_, more) = heap.view(rest) {
        if let Some(known) = counted.tests.get(&rest) {
            count = *known;
            break;
        }
        lists.push(rest)?;
        rest = more;
    }
    while let Some(list) = lists.pop() {
        count = count.saturating_add(1);
        counted.tests.insert(list, count)?;
    }
    Ok(count)
}

// The looks that the obligation at a call takes at the least.
fn looks_at_call(
    heap: &Heap,
    names: &IndexSet<Ref>,
    block: &[Draft],
    call: &FoundCall,
    counted: &mut Counted,
) -> Result<u64, Memory>
    requires block { AreBlock heap.now.objects names.now.keys block.now }
    requires call { IsPartOf heap.now.objects (names_at heap.now.objects names.now.keys) (part.Call call.now.name call.now.actuals) × HasTests heap.now.objects call.now.tests }
{
    let called = function_named(heap, names, block, call.name);
    let cells = measure_cells(heap, called.measure, counted)?;
    let tests = test_count(heap, call.tests, counted)?;
    Ok(tests.saturating_mul(LOOKS_AT_A_TEST).saturating_add(cells))
}

// The looks that the obligations at these calls take at the least.
fn looks_at_calls(
    heap: &Heap,
    names: &IndexSet<Ref>,
    block: &[Draft],
    calls: &[FoundCall],
) -> Result<u64, Memory>
    requires block { AreBlock heap.now.objects names.now.keys block.now }
    requires calls { AreFoundCalls heap.now.objects (names_at heap.now.objects names.now.keys) calls.now }
{
    let mut counted = Counted::new(heap.alloc());
    let mut looks: u64 = 0;
    for call in calls {
        let more = looks_at_call(heap, names, block, call, &mut counted)?;
        looks = looks.saturating_add(more);
    }
    Ok(looks)
}

/// Takes the looks that the obligations at these calls take at the least, from those that the heap allows: where they are far too large,
/// none is made. It takes none where a bound on the obligations may end the work before the last call. The error is out of memory.
pub(crate) fn foresee(
    heap: &mut Heap,
    block: &[Draft],
    calls: &[FoundCall],
    owed: &Obligations,
    known: &Known,
) -> Result<(), Memory>
    requires block { AreBlock heap.old.objects known.now.names.keys block.now }
    requires calls { AreFoundCalls heap.old.objects (names_at heap.old.objects known.now.names.keys) calls.now }
    ensures { heap.new.objects ≡ heap.old.objects }
{
    if owed.may_be_too_many_with(calls.len()) {
        return Ok(());
    }
    let looks = looks_at_calls(heap, &known.names, block, calls)?;
    heap.take_looks(looks)
}
