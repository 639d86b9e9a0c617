//! Which pairs stand more than once in an object.
ghost use Rattle.std.specs.Prelude.{◌≡◌, ◌∷◌, [], ◌++◌, IfOk, OnOk};
ghost use Rattle.mw_heap.specs.Objects.{IsIn, object_at};
ghost use Rattle.mw_print.specs.Repeats.{AreRepeats, Meets};

use indexmap::IndexSet;
use mw_heap::{Heap, Memory, Ref, View};

// Leaves the parts of a pair to be looked at.
fn enter(first: Ref, rest: Ref, path: &mut Vec<Ref>) -> Result<(), Memory>
    ensures { OnOk result (path.new.items ≡ path.old.items ++ rest ∷ first ∷ []) }
{
    path.push(rest)?;
    path.push(first)?;
    Ok(())
}

// Notes a pair the first time that it is met, and enters it then; and notes apart that it was met again.
fn meet(
    heap: &Heap,
    x: Ref,
    seen: &mut IndexSet<Ref>,
    again: &mut IndexSet<Ref>,
    path: &mut Vec<Ref>,
) -> Result<(), Memory>
    requires { IsIn heap.now.objects x }
    ensures { OnOk result (Meets heap.now.objects x path.old.items path.new.items seen.old.keys seen.new.keys again.old.keys again.new.keys) }
{
    let View::Pair(first, rest) = heap.view(x) else {
        return Ok(());
    };
    if seen.insert(x)? {
        return enter(first, rest, path);
    }
    again.insert(x)?;
    Ok(())
}

// Notes the pairs that stand in an object, and apart those that stand in it more than once. Nothing was noted before.
fn find_repeats(
    heap: &Heap,
    x: Ref,
    seen: &mut IndexSet<Ref>,
    again: &mut IndexSet<Ref>,
) -> Result<(), Memory>
    requires within { IsIn heap.now.objects x }
    requires none_seen { seen.old.keys ≡ [] }
    requires none_again { again.old.keys ≡ [] }
    ensures { OnOk result (AreRepeats heap.now.objects (object_at heap.now.objects x) again.new.keys) }
{
    heap.order();
    let mut path = Vec::new(heap.alloc());
    path.push(x)?;
    while let Some(y) = path.pop() {
        meet(heap, y, seen, again, &mut path)?;
    }
    Ok(())
}

/// The pairs that stand more than once in an object: as itself, or as parts of its distinct pairs.
pub(crate) fn repeats(heap: &Heap, x: Ref) -> Result<IndexSet<Ref>, Memory>
    requires { IsIn heap.now.objects x }
    ensures { IfOk result (λ again. AreRepeats heap.now.objects (object_at heap.now.objects x) again.keys) }
{
    let mut seen = IndexSet::new(heap.alloc());
    let mut again = IndexSet::new(heap.alloc());
    find_repeats(heap, x, &mut seen, &mut again)?;
    Ok(again)
}
