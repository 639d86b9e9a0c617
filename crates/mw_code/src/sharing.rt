//! What blocks take of the instructions that they share.
ghost use Rattle.std.specs.Prelude.{◌≤◌, All, IfOk, OnOk};
ghost use Rattle.mw_model.specs.Values.Definition.{Block, Definitions};
ghost use Rattle.mw_heap.specs.Objects.{IsIn};
ghost use Rattle.mw_code.specs.Blocks.{IsBlockOf};

use crate::addition::Addition;
use crate::members::member_at;
use indexmap::IndexSet;
use mw_heap::{Heap, Memory, Ref, View};

/// The instructions that the blocks of a table share, for code that is long though its cells are few: as many as one body may have, so
/// that what all definitions keep beyond what their cells pay for, code and the entries beside it, is 256 megabytes at most.
pub(crate) const SHARED_INSTRUCTIONS: u64 = 1 << 24;

// The instructions for which each distinct cell of a block's bodies pays: a body that is written out has one or two.
const INSTRUCTIONS_FOR_A_CELL: u64 = 64;

// The cells of a block with at most this many instructions are not counted: it keeps 64 kilobytes at most.
const SHORT: u64 = 4096;

// No heap has as many cells.
const MOST_CELLS: usize = 1 << 32;

/// What is left of the instructions that blocks share, once a block is added: its code has `laid` of them, and those for which its own
/// cells do not pay are taken. The error is that fewer were left, or out of memory.
pub(crate) fn left_after(addition: &Addition<'_>, laid: u64) -> Result<u64, Memory>
    requires { (D : Definitions) × (B : Block) × IsBlockOf addition.now.heap.now.objects D addition.now.block.now B }
    ensures { IfOk result (λ left. left ≤ addition.now.left) }
{
    if laid <= SHORT {
        return Ok(addition.left);
    }
    let distinct = count_distinct(addition.heap, addition.block)?;
    let paid = INSTRUCTIONS_FOR_A_CELL.saturating_mul(distinct);
    addition
        .left
        .checked_sub(laid.saturating_sub(paid))
        .ok_or(Memory)
}

/// The most instructions that the next body of a block may have, after the bodies whose code goes from one length to another. More of them
/// would be beyond what is left, even if all cells of the heap paid, so that `left_after` would refuse the block. It is refused so before
/// that body is laid out whole.
pub(crate) fn most_left(heap: &Heap, left: u64, from: usize, to: usize) -> u64 {
    let paid = INSTRUCTIONS_FOR_A_CELL.saturating_mul(heap.mark().cells() as u64);
    left.saturating_add(paid)
        .max(SHORT)
        .saturating_sub(to.saturating_sub(from) as u64)
}

// How many distinct cells the bodies have. Each cell has its parts put after all that are there.
fn count_distinct(heap: &Heap, block: &[(Ref, Ref, Option<Ref>)]) -> Result<u64, Memory>
    requires { (D : Definitions) × (B : Block) × IsBlockOf heap.now.objects D block.now B }
{
    let mut cells = IndexSet::new(heap.alloc());
    put_bodies(heap, block, &mut cells)?;
    for index in 0..MOST_CELLS {
        let Some(x) = cells.get_index(index).copied() else {
            return Ok(index as u64);
        };
        put_parts(heap, x, &mut cells)?;
    }
    Err(Memory)
}

fn put_bodies(
    heap: &Heap,
    block: &[(Ref, Ref, Option<Ref>)],
    cells: &mut IndexSet<Ref>,
) -> Result<(), Memory>
    requires block { (D : Definitions) × (B : Block) × IsBlockOf heap.now.objects D block.now B }
    requires within { All (IsIn heap.now.objects) cells.old.keys }
    ensures { OnOk result (All (IsIn heap.now.objects) cells.new.keys) }
{
    for index in 0..block.len() {
        let (_, _, body) = member_at(block, index);
        if let Some(body) = body {
            cells.insert(body)?;
        }
    }
    Ok(())
}

fn put_parts(heap: &Heap, x: Ref, cells: &mut IndexSet<Ref>) -> Result<(), Memory>
    requires cell { IsIn heap.now.objects x }
    requires within { All (IsIn heap.now.objects) cells.old.keys }
    ensures { OnOk result (All (IsIn heap.now.objects) cells.new.keys) }
{
    let View::Pair(first, rest) = heap.view(x) else {
        return Ok(());
    };
    cells.insert(first)?;
    cells.insert(rest)?;
    Ok(())
}
