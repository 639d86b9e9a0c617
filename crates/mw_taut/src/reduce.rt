//! What the parts of a formula come to where an equation has a value.
ghost use Rattle.std.specs.Prelude.{◌≡◌, ℕ, ◌<◌, ◌≤◌, [], All, length, map, IfOk};
ghost use Rattle.mw_heap.specs.Objects.{object_at, Grows};
ghost use Rattle.mw_taut.specs.Making.{Makes};
ghost use Rattle.mw_taut.specs.Nodes.{IsNode, AreNodes};
ghost use Rattle.mw_taut.specs.Reducing.{reduce, reduce_all, form_at, each_at, IsFormIn, IsAssumptionIn};

use crate::apply::fixed;
use crate::connectives::{deny, either};
use crate::reduced::{Assumption, Reduced};
use crate::rule::{LAW, SCHEMA};
use crate::table::Node;
use mw_heap::{Heap, Mark, Memory};
use mw_term::take_searches;

// The looks of a part that is kept: it was looked up when the table was made.
const LOOKS_FOR_A_KEPT_PART: u64 = 4;

// The looks of any other part: the cells of its steps are looked up, even if they are all in the heap already.
const LOOKS_FOR_A_CHANGED_PART: u64 = 128;

// The looks of each cell that is made for a part: half as many as in other work, since the proof that the parities of twelve equations in
// two orders are equal takes more than 2.6 million cells.
const LOOKS_FOR_A_NEW_CELL: u64 = 4;

// Takes the looks of a part that came to this, and those of the cells that were made for it after the mark.
fn take_looks_at(heap: &mut Heap, had: Mark, reduced: &Reduced) -> Result<(), Memory>
    ensures { heap.new.objects ≡ heap.old.objects }
{
    let part = match reduced {
        Reduced::Kept => LOOKS_FOR_A_KEPT_PART,
        _ => LOOKS_FOR_A_CHANGED_PART,
    };
    let made = heap.mark().cells().saturating_sub(had.cells()) as u64;
    let cells = made.saturating_mul(LOOKS_FOR_A_NEW_CELL);
    take_searches(heap, cells.saturating_add(part))
}

// One node.
fn reduce(
    heap: &mut Heap,
    at: &Assumption<'_>,
    done: &[Reduced],
    node: Node,
) -> Result<Reduced, Memory>
    requires at_in { IsAssumptionIn heap.old.objects at.now }
    requires done_in { All (IsFormIn heap.old.objects) done.now }
    requires node { (m : ℕ) × IsNode m (length done.now) node × (length done.now < length at.now.formulas.now) }
    ensures { Makes IsFormIn form_at heap.old.objects heap.new.objects result (reduce (object_at heap.old.objects at.now.context) (object_at heap.old.objects at.now.equation) at.now.value (map (object_at heap.old.objects) at.now.formulas.now) (each_at heap.old.objects done.now) node) }
{
    match node {
        Node::Equation(_) if !heap.same(at.formulas[done.len()], at.equation) => Ok(Reduced::Kept),
        Node::Equation(_) if at.value => fixed(heap, true, LAW, &[at.equation]),
        Node::Equation(_) => fixed(heap, false, SCHEMA, &[at.equation]),
        Node::Not(i) => deny(heap, at.context, at.formulas[i], done[i]),
        Node::Or(i, j) => {
            either(
                heap,
                at.context,
                at.formulas[i],
                at.formulas[j],
                done[i],
                done[j],
            )
        }
    }
}

/// What each node comes to under an assumption, in order. The error is out of memory, or that the looks that the heap allows are
/// used up.
pub(crate) fn reduce_all(
    heap: &mut Heap,
    at: &Assumption<'_>,
    nodes: &[Node],
) -> Result<Vec<Reduced>, Memory>
    requires at_in { IsAssumptionIn heap.old.objects at.now }
    requires nodes { (m : ℕ) × AreNodes m 0 nodes.now × (length nodes.now ≤ length at.now.formulas.now) }
    ensures grows { Grows heap.old.objects heap.new.objects }
    ensures within { IfOk result (λ v. All (IsFormIn heap.new.objects) v.items × (length v.items ≡ length nodes.now)) }
    ensures made { IfOk result (λ v. each_at heap.new.objects v.items ≡ reduce_all (object_at heap.old.objects at.now.context) (object_at heap.old.objects at.now.equation) at.now.value (map (object_at heap.old.objects) at.now.formulas.now) [] nodes.now) }
{
    let mut done = Vec::new(heap.alloc());
    for node in nodes {
        let had = heap.mark();
        let reduced = reduce(heap, at, done.as_slice(), *node)?;
        take_looks_at(heap, had, &reduced)?;
        done.push(reduced)?;
    }
    Ok(done)
}
