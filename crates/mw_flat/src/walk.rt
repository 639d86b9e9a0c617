//! The walk over what proofs are made of.
ghost use Rattle.std.specs.Prelude.{◌≡◌, [], map, All, IfOk, OnOk};
ghost use Rattle.mw_commands.specs.Commands.Subproofs.{proofs_within, distinct_proofs};
ghost use Rattle.mw_heap.specs.Objects.{object_at, IsIn};
ghost use Rattle.mw_heap.specs.Lists.{list_object};
ghost use Rattle.mw_term.specs.Occurrences.{gather};
ghost use Rattle.mw_flat.specs.Walk.{is_listed, IsItem, MeetsProof, MeetsProofs, Advances, AreComplete};

use crate::item::Item;
use indexmap::IndexSet;
use mw_heap::{Heap, Memory, Ref, View};

// Has a proof wait for its subproofs, unless it is complete.
fn meet_proof(
    heap: &Heap,
    x: Ref,
    complete: &IndexSet<Ref>,
    waiting: &mut Vec<Item>,
) -> Result<(), Memory>
    requires { IsIn heap.now.objects x }
    ensures { OnOk result (MeetsProof heap.now.objects x complete.now.keys waiting.old.items waiting.new.items) }
{
    if complete.contains(&x) {
        return Ok(());
    }
    waiting.push(Item::Complete(x))?;
    if let Some(subproofs) = heap.third_of(x) {
        waiting.push(Item::Proofs(subproofs))?;
    }
    Ok(())
}

// Has a list wait for its first proof and then for the others, unless all of them are complete. Lists may share what follows their first
// proofs, so this is asked of each cell.
fn meet_proofs(
    heap: &Heap,
    x: Ref,
    lists: &IndexSet<Ref>,
    waiting: &mut Vec<Item>,
) -> Result<(), Memory>
    requires { IsIn heap.now.objects x }
    ensures { OnOk result (MeetsProofs heap.now.objects x lists.now.keys waiting.old.items waiting.new.items) }
{
    let View::Pair(first, rest) = heap.view(x) else {
        return Ok(());
    };
    if lists.contains(&x) {
        return Ok(());
    }
    waiting.push(Item::AllComplete(x))?;
    waiting.push(Item::Proofs(rest))?;
    waiting.push(Item::Proof(first))?;
    Ok(())
}

// Does with an item what can be done now.
fn advance(
    heap: &Heap,
    item: Item,
    complete: &mut IndexSet<Ref>,
    lists: &mut IndexSet<Ref>,
    waiting: &mut Vec<Item>,
) -> Result<(), Memory>
    requires { IsItem heap.now.objects item }
    ensures { OnOk result (Advances heap.now.objects item complete.old.keys complete.new.keys lists.old.keys lists.new.keys waiting.old.items waiting.new.items) }
{
    match item {
        Item::Proof(x) => meet_proof(heap, x, complete, waiting),
        Item::Proofs(x) => meet_proofs(heap, x, lists, waiting),
        Item::Complete(x) => {
            complete.insert(x)?;
            Ok(())
        }
        Item::AllComplete(x) => {
            lists.insert(x)?;
            Ok(())
        }
    }
}

// Completes what a proof is made of, subproofs first, and last itself.
fn complete_proof(
    heap: &Heap,
    p: Ref,
    complete: &mut IndexSet<Ref>,
    lists: &mut IndexSet<Ref>,
) -> Result<(), Memory>
    requires within { IsIn heap.now.objects p }
    requires complete { AreComplete heap.now.objects complete.old.keys lists.old.keys }
    ensures complete { OnOk result (AreComplete heap.now.objects complete.new.keys lists.new.keys) }
    ensures added { OnOk result (map (object_at heap.now.objects) complete.new.keys ≡ gather is_listed (map (object_at heap.now.objects) complete.old.keys) (proofs_within (object_at heap.now.objects p))) }
{
    heap.order();
    let mut waiting = Vec::new(heap.alloc());
    waiting.push(Item::Proof(p))?;
    while let Some(item) = waiting.pop() {
        advance(heap, item, complete, lists, &mut waiting)?;
    }
    Ok(())
}

// Completes what these proofs are made of, where nothing was complete.
fn complete_each(
    heap: &Heap,
    proofs: &[Ref],
    complete: &mut IndexSet<Ref>,
    lists: &mut IndexSet<Ref>,
) -> Result<(), Memory>
    requires proofs { All (IsIn heap.now.objects) proofs.now }
    requires none_complete { complete.old.keys ≡ [] }
    requires no_lists { lists.old.keys ≡ [] }
    ensures within { OnOk result (All (IsIn heap.now.objects) complete.new.keys) }
    ensures distinct { OnOk result (map (object_at heap.now.objects) complete.new.keys ≡ distinct_proofs (list_object heap.now.objects proofs.now)) }
{
    for p in proofs {
        complete_proof(heap, *p, complete, lists)?;
    }
    Ok(())
}

/// The distinct proofs that these are made of, in the order in which they are complete. Each distinct proof is entered once, and so is
/// each distinct cell of a list of proofs.
pub(crate) fn complete_proofs(heap: &Heap, proofs: &[Ref]) -> Result<IndexSet<Ref>, Memory>
    requires { All (IsIn heap.now.objects) proofs.now }
    ensures within { IfOk result (λ s. All (IsIn heap.now.objects) s.keys) }
    ensures distinct { IfOk result (λ s. map (object_at heap.now.objects) s.keys ≡ distinct_proofs (list_object heap.now.objects proofs.now)) }
{
    let mut complete = IndexSet::new(heap.alloc());
    let mut lists = IndexSet::new(heap.alloc());
    complete_each(heap, proofs, &mut complete, &mut lists)?;
    Ok(complete)
}
