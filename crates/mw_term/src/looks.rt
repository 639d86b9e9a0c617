//! Looks that are taken from those that the heap allows.
ghost use Rattle.std.specs.Prelude.{◌≡◌};
ghost use Rattle.mw_heap.specs.Objects.{IsIn};

use mw_heap::{Heap, Mark, Memory, Ref, View};

// The looks that a search in a table takes: it is as much work as a few comparisons of cells.
const LOOKS_FOR_A_SEARCH: u64 = 4;

// The searches that a new cell counts as: it stays in the heap for as long as its event.
const SEARCHES_FOR_A_NEW_CELL: u64 = 8;

/// Takes the looks of this many searches from those that the heap allows, as many as a walk made. The error is that fewer are left.
pub fn take_searches(heap: &mut Heap, searches: u64) -> Result<(), Memory>
    ensures { heap.new.objects ≡ heap.old.objects }
{
    heap.take_looks(searches.saturating_mul(LOOKS_FOR_A_SEARCH))
}

/// Takes the looks of this many searches from those that the heap allows, and of eight for each object that came after a mark. The error is
/// that fewer are left.
pub fn take_searches_since(heap: &mut Heap, had: Mark, searches: u64) -> Result<(), Memory>
    ensures { heap.new.objects ≡ heap.old.objects }
{
    let made = heap.mark().cells().saturating_sub(had.cells()) as u64;
    take_searches(
        heap,
        made.saturating_mul(SEARCHES_FOR_A_NEW_CELL)
            .saturating_add(searches),
    )
}

/// Takes the looks of a search for each member of a list, from those that the heap allows. The error is that fewer are left.
pub fn take_searches_of_members(heap: &mut Heap, list: Ref) -> Result<(), Memory>
    requires { IsIn heap.old.objects list }
    ensures { heap.new.objects ≡ heap.old.objects }
{
    let mut rest = list;
    while let View::Pair(_, more) = heap.view(rest) {
        take_searches(heap, 1)?;
        rest = more;
    }
    Ok(())
}
