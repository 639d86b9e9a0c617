//! Which terms occur more than once within a term.
ghost use Rattle.std.specs.Prelude.{◌≡◌, All, OnOk};
ghost use Rattle.mw_heap.specs.Objects.{IsIn};
ghost use Rattle.mw_code.specs.Visits.{IsVisit};

use crate::weight::{SHORT, name_blocks};
use indexmap::IndexSet;
use mw_heap::{Heap, Memory, Ref, View, Word};

// Shorter texts are not worth a part of their own.
const LONG: u64 = 64;

// The most visits of cells. A term has its parts visited once and a list twice, so that no heap has a term that needs as many.
const MOST_VISITS: u64 = 1 << 40;

/// Terms that occur more than once within a term, and the longest name of a function that it calls, in blocks of 64 bytes. Nothing is
/// promised of either: they say what is worth laying out once, and how long each search for a name may take.
#[derive(Drop)]
pub(crate) struct Shared {
    pub terms: IndexSet<Ref>,
    pub longest: u64,
}

// A cell that is to be visited, as a term or as a list of terms.
#[derive(Clone, Copy)]
struct Visit {
    cell: Ref,
    is_list: bool,
}

#[derive(Drop)]
struct Walk {
    // the last comes first
    waiting: Vec<Visit>,
    // the terms that were visited
    terms: IndexSet<Ref>,
    // the lists that were visited, and those that were visited again
    lists: IndexSet<Ref>,
    again: IndexSet<Ref>,
}

// Whether a list is visited for the first or the second time.
fn visits_again(walk: &mut Walk, x: Ref) -> Result<bool, Memory>
    ensures { walk.new.waiting.items ≡ walk.old.waiting.items }
{
    if walk.lists.insert(x)? {
        return Ok(true);
    }
    Ok(walk.again.insert(x)?)
}

// Has the terms of a list visited. Terms in a list that occurs twice do so too, though each of its cells holds them once: so the list is
// gone through a second time.
fn visit_list(heap: &Heap, walk: &mut Walk, x: Ref) -> Result<(), Memory>
    requires within { IsIn heap.now.objects x }
    requires waiting { All (IsVisit heap.now.objects) walk.old.waiting.items }
    ensures { OnOk result (All (IsVisit heap.now.objects) walk.new.waiting.items) }
{
    let View::Pair(first, rest) = heap.view(x) else {
        return Ok(());
    };
    if !visits_again(walk, x)? {
        return Ok(());
    }
    walk.waiting.push(Visit {
        cell: rest,
        is_list: true,
    })?;
    walk.waiting.push(Visit {
        cell: first,
        is_list: false,
    })?;
    Ok(())
}

// Has the body of a lambda visited, or notes the length of a name.
fn visit_head(heap: &Heap, walk: &mut Walk, shared: &mut Shared, head: Ref) -> Result<(), Memory>
    requires within { IsIn heap.now.objects head }
    requires waiting { All (IsVisit heap.now.objects) walk.old.waiting.items }
    ensures { OnOk result (All (IsVisit heap.now.objects) walk.new.waiting.items) }
{
    let Some(body) = heap.third_of(head) else {
        shared.longest = shared.longest.max(name_blocks(heap, head));
        return Ok(());
    };
    walk.waiting.push(Visit {
        cell: body,
        is_list: false,
    })?;
    Ok(())
}

// Has the parts of a term visited, or notes that it occurs again. A variable or a constant has none, and is not worth noting.
fn visit_term(heap: &Heap, walk: &mut Walk, shared: &mut Shared, x: Ref) -> Result<(), Memory>
    requires within { IsIn heap.now.objects x }
    requires waiting { All (IsVisit heap.now.objects) walk.old.waiting.items }
    ensures { OnOk result (All (IsVisit heap.now.objects) walk.new.waiting.items) }
{
    let View::Pair(head, rest) = heap.view(x) else {
        return Ok(());
    };
    if heap.is_word(Some(head), Word::Quote) {
        return Ok(());
    }
    if !walk.terms.insert(x)? {
        return note_again(heap, shared, x);
    }
    walk.waiting.push(Visit {
        cell: rest,
        is_list: true,
    })?;
    visit_head(heap, walk, shared, head)
}

fn note_again(heap: &Heap, shared: &mut Shared, x: Ref) -> Result<(), Memory>
    requires { IsIn heap.now.objects x }
{
    if heap.lengths(x).0 >= LONG {
        shared.terms.insert(x)?;
    }
    Ok(())
}

fn visit_next(heap: &Heap, walk: &mut Walk, shared: &mut Shared, next: Visit) -> Result<(), Memory>
    requires within { IsVisit heap.now.objects next }
    requires waiting { All (IsVisit heap.now.objects) walk.old.waiting.items }
    ensures { OnOk result (All (IsVisit heap.now.objects) walk.new.waiting.items) }
{
    if next.is_list {
        visit_list(heap, walk, next.cell)
    } else {
        visit_term(heap, walk, shared, next.cell)
    }
}

/// Finds what occurs more than once within a term. Where the text of the term is short nothing is looked at, and the answer is that
/// nothing does. The error is out of memory.
pub(crate) fn find_shared(heap: &Heap, term: Ref) -> Result<Shared, Memory>
    requires within { IsIn heap.now.objects term }
{
    let mut shared = Shared {
        terms: IndexSet::new(heap.alloc()),
        longest: 0,
    };
    if heap.lengths(term).0 <= SHORT {
        return Ok(shared);
    }
    let mut walk = Walk {
        waiting: Vec::new(heap.alloc()),
        terms: IndexSet::new(heap.alloc()),
        lists: IndexSet::new(heap.alloc()),
        again: IndexSet::new(heap.alloc()),
    };
    walk.waiting.push(Visit {
        cell: term,
        is_list: false,
    })?;
    for _ in 0..MOST_VISITS {
        let Some(next) = walk.waiting.pop() else {
            return Ok(shared);
        };
        visit_next(heap, &mut walk, &mut shared, next)?;
    }
    Err(Memory)
}
