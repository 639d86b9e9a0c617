//! The sets that a heap is made of: a value's place in each is its index.
ghost use Rattle.std.specs.Prelude.{◌≡◌, ◌+◌, ◌-◌, ◌<◌, ◌≤◌, ◌^◌, true, min, ℕ, List, length, vec_len, vec_capacity, drop, slice_get, Some, IfOk, IfSome, IsOk, IsTrue, ◌↔◌, OnOk, OnErr};
ghost use Rattle.indexmap.specs.IndexSet.{spare};
ghost use Rattle.mw_heap.specs.Cells.{natural_count, name_count, bytes_of, IsInjective};
ghost use Rattle.mw_heap.specs.Inserted.{Inserts};
ghost use Rattle.mw_heap.specs.Lengths.{IsMeasurable, Measures};

use crate::store::cell::Cell;
use crate::store::lengths::{Length, measure, pair_length};
use crate::{Memory, Ref};
use indexmap::IndexSet;
use std::hash::{BuildHasherDefault, DefaultHasher};

/// The large naturals. A book chooses them, and the default hash of one is a product of its halves, so that many with one hash are
/// easily made up: these are hashed by SipHash.
pub(crate) type Naturals = IndexSet<u128, BuildHasherDefault<DefaultHasher>>;

// The cells that a heap can have, since places have 32 bits: as many take over a hundred gigabytes.
const LIMIT: usize = u32::MAX as usize;

// The index of the cell, which goes last if it is new.
pub(crate) fn insert_cell(cells: &mut IndexSet<Cell>, cell: Cell) -> Result<Ref, Memory>
    requires { length cells.old.keys < 2 ^ 32 }
    ensures inserted { IfOk result (λ r. Inserts cells.old.keys cells.new.keys cell r) }
    ensures distinct { OnOk result (IsInjective cells.new.keys) }
    ensures few { length cells.new.keys < 2 ^ 32 }
    ensures err { OnErr result (cells.new.keys ≡ cells.old.keys) }
    ensures room { 0 < min (spare cells.old) (2 ^ 32 - 1 - length cells.old.keys) → IsOk result }
    ensures spare { spare cells.old ≤ spare cells.new + 1 }
{
    let (index, _) = cells.insert_full(cell)?;
    if index < LIMIT {
        return Ok(Ref::new(index as u32));
    }
    cells.truncate(LIMIT);
    Err(Memory)
}

// Whether this number of further cells can be numbered.
pub(crate) fn can_number(cells: &IndexSet<Cell>, more: usize) -> bool
    requires { length cells.now.keys < 2 ^ 32 }
    ensures { IsTrue result ↔ (more ≤ 2 ^ 32 - 1 - length cells.now.keys) }
{
    more <= LIMIT.saturating_sub(cells.len())
}

// The same, where the length of a new cell's object is put beside it.
pub(crate) fn insert_measured(
    cells: &mut IndexSet<Cell>,
    lengths: &mut Vec<Length>,
    naturals: &Naturals,
    names: &IndexSet<Vec<u8>>,
    cell: Cell,
) -> Result<Ref, Memory>
    requires few { length cells.old.keys < 2 ^ 32 }
    requires all { vec_len lengths.old ≡ length cells.old.keys }
    requires measurable { IsMeasurable naturals.now.keys (bytes_of names.now.keys) lengths.old.items cell }
    ensures inserted { IfOk result (λ r. Inserts cells.old.keys cells.new.keys cell r) }
    ensures distinct { OnOk result (IsInjective cells.new.keys) }
    ensures few { length cells.new.keys < 2 ^ 32 }
    ensures measured { OnOk result (Measures naturals.now.keys (bytes_of names.now.keys) cells.old.keys cells.new.keys lengths.old.items lengths.new.items cell) }
    ensures err { OnErr result (cells.new.keys ≡ cells.old.keys) }
    ensures lengths_err { OnErr result (lengths.new.items ≡ lengths.old.items) }
    ensures room { 0 < min (spare cells.old) (min (vec_capacity lengths.old - vec_len lengths.old) (2 ^ 32 - 1 - length cells.old.keys)) → IsOk result }
    ensures spare { spare cells.old ≤ spare cells.new + 1 }
    ensures lengths_spare { vec_capacity lengths.old - vec_len lengths.old ≤ vec_capacity lengths.new - vec_len lengths.new + 1 }
    ensures numbers { length cells.new.keys ≤ length cells.old.keys + 1 }
{
    let had = lengths.len();
    let made = insert_cell(cells, cell)?;
    if cells.len() == had {
        return Ok(made);
    }
    let measured = measure(cell, naturals, names, lengths);
    match lengths.push(measured) {
        Ok(()) => Ok(made),
        Err(_) => {
            cells.truncate(had);
            Err(Memory)
        }
    }
}

// The same for the pair of these parts, whose lengths are at hand.
pub(crate) fn insert_pair(
    cells: &mut IndexSet<Cell>,
    lengths: &mut Vec<Length>,
    first: Ref,
    second: Ref,
) -> Result<Ref, Memory>
    requires few { length cells.old.keys < 2 ^ 32 }
    requires all { vec_len lengths.old ≡ length cells.old.keys }
    requires parts { (first < length cells.old.keys) × (second < length cells.old.keys) }
    ensures inserted { IfOk result (λ r. Inserts cells.old.keys cells.new.keys (Cell.Pair first second) r) }
    ensures distinct { OnOk result (IsInjective cells.new.keys) }
    ensures few { length cells.new.keys < 2 ^ 32 }
    ensures measured { (naturals : List ℕ) (names : List (List ℕ)) → OnOk result (Measures naturals names cells.old.keys cells.new.keys lengths.old.items lengths.new.items (Cell.Pair first second)) }
    ensures err { OnErr result (cells.new.keys ≡ cells.old.keys) }
    ensures lengths_err { OnErr result (lengths.new.items ≡ lengths.old.items) }
    ensures room { 0 < min (spare cells.old) (min (vec_capacity lengths.old - vec_len lengths.old) (2 ^ 32 - 1 - length cells.old.keys)) → IsOk result }
    ensures spare { spare cells.old ≤ spare cells.new + 1 }
    ensures lengths_spare { vec_capacity lengths.old - vec_len lengths.old ≤ vec_capacity lengths.new - vec_len lengths.new + 1 }
    ensures numbers { length cells.new.keys ≤ length cells.old.keys + 1 }
{
    let had = lengths.len();
    let made = insert_cell(cells, Cell::Pair(first.short_index(), second.short_index()))?;
    if cells.len() == had {
        return Ok(made);
    }
    let measured = pair_length(lengths[first.index()], lengths[second.index()]);
    if lengths.push(measured).is_err() {
        cells.truncate(had);
        return Err(Memory);
    }
    Ok(made)
}

// The index of the natural, which goes last if it is new.
pub(crate) fn insert_natural(naturals: &mut Naturals, n: u128) -> Result<usize, Memory>
    ensures inserted { IfOk result (λ i. Inserts naturals.old.keys naturals.new.keys n i) }
    ensures distinct { OnOk result (IsInjective naturals.new.keys) }
    ensures err { OnErr result (naturals.new.keys ≡ naturals.old.keys) }
    ensures room { 0 < spare naturals.old → IsOk result }
    ensures spare { spare naturals.old ≤ spare naturals.new + 1 }
{
    let (index, _) = naturals.insert_full(n)?;
    Ok(index)
}

// The index of the name, where it is listed.
fn find_name(names: &IndexSet<Vec<u8>>, name: &[u8]) -> Option<usize>
    ensures { IfSome result (λ i. slice_get (bytes_of names.now.keys) i ≡ Some name.now) }
{
    names.get_index_of(name)
}

// Whether the symbol with the name of this index stands in this place.
fn is_place(cells: &IndexSet<Cell>, place: Ref, index: usize) -> bool
    ensures { result ≡ true → slice_get cells.now.keys place ≡ Some (Cell.Symbol index) }
{
    match cells.as_slice().get(place.index()) {
        Some(Cell::Symbol(i)) => *i as usize == index,
        _ => false,
    }
}

// The noted place of the symbol of this name, where its cell stands there.
pub(crate) fn find_place(
    cells: &IndexSet<Cell>,
    names: &IndexSet<Vec<u8>>,
    places: &[Ref],
    name: &[u8],
) -> Option<Ref>
    ensures { IfSome result (λ place. (i : ℕ) × (slice_get (bytes_of names.now.keys) i ≡ Some name.now) × (slice_get cells.now.keys place ≡ Some (Cell.Symbol i))) }
{
    let index = find_name(names, name)?;
    let place = *places.get(index)?;
    if is_place(cells, place, index) {
        Some(place)
    } else {
        None
    }
}

// Notes where the symbol with the name of this index stands. It is looked up there first, so a place that is not noted costs time alone.
pub(crate) fn note_place(places: &mut Vec<Ref>, index: usize, x: Ref) {
    if index < places.len() {
        places[index] = x;
    } else if index == places.len() {
        let _ = places.push(x);
    }
}

// How many places of small naturals are noted.
const NOTED: usize = 1024;

// Where the place of this natural is noted, which others of the same last bits share.
#[inline(always)]
fn slot_of(n: u32) -> usize {
    n as usize % NOTED
}

// The noted place of this natural, where its cell stands there.
#[inline(always)]
pub(crate) fn find_small(cells: &IndexSet<Cell>, smalls: &[Ref], n: u32) -> Option<Ref>
    ensures { IfSome result (λ place. slice_get cells.now.keys place ≡ Some (Cell.Small n)) }
{
    let place = *smalls.get(slot_of(n))?;
    match cells.as_slice().get(place.index()) {
        Some(Cell::Small(m)) if *m == n => Some(place),
        _ => None,
    }
}

// Notes where this natural stands. The first note makes room for all, and without memory nothing is noted.
pub(crate) fn note_small(smalls: &mut Vec<Ref>, n: u32, x: Ref) {
    if smalls.is_empty() {
        let _ = smalls.resize(NOTED, x);
    }
    if let Some(noted) = smalls.get_mut(slot_of(n)) {
        *noted = x;
    }
}

// The index of the name, which goes last if it is new.
pub(crate) fn insert_name(names: &mut IndexSet<Vec<u8>>, name: Vec<u8>) -> Result<usize, Memory>
    ensures inserted { IfOk result (λ i. Inserts (bytes_of names.old.keys) (bytes_of names.new.keys) name.items i) }
    ensures distinct { OnOk result (IsInjective (bytes_of names.new.keys)) }
    ensures err { OnErr result (names.new.keys ≡ names.old.keys) }
    ensures room { 0 < spare names.old → IsOk result }
    ensures spare { spare names.old ≤ spare names.new + 1 }
{
    let (index, _) = names.insert_full(name)?;
    Ok(index)
}

// The cell of a reference.
pub(crate) fn cell_at(cells: &IndexSet<Cell>, x: Ref) -> Cell
    requires { x < length cells.now.keys }
    ensures { slice_get cells.now.keys x ≡ Some result }
{
    cells.as_slice()[x.index()]
}

// How many of the cells from this index on are large naturals, and how many are symbols.
pub(crate) fn counts_from(cells: &IndexSet<Cell>, start: usize) -> (usize, usize)
    requires { start ≤ length cells.now.keys }
    ensures naturals { result.0 ≡ natural_count (drop start cells.now.keys) }
    ensures names { result.1 ≡ name_count (drop start cells.now.keys) }
{
    let all = cells.as_slice();
    counts_of(&all[start..])
}

fn counts_of(cells: &[Cell]) -> (usize, usize)
    ensures naturals { result.0 ≡ natural_count cells.now }
    ensures names { result.1 ≡ name_count cells.now }
{
    let mut naturals = 0;
    let mut names = 0;
    for cell in cells {
        match cell {
            Cell::Large(_) => naturals += 1,
            Cell::Symbol(_) => names += 1,
            _ => {}
        }
    }
    (naturals, names)
}
