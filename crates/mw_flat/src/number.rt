//! The numbers of proofs.
ghost use Rattle.std.specs.Prelude.{◌≡◌, map, All, IfOk};
ghost use Rattle.mw_commands.specs.Commands.Flattening.{number_among};
ghost use Rattle.mw_heap.specs.Objects.{object_at, IsIn};

use indexmap::IndexSet;
use mw_heap::{Heap, Memory, Ref};

/// The number of a proof among those that are complete: its place, counted from 1.
pub(crate) fn number_of(heap: &Heap, complete: &IndexSet<Ref>, p: Ref) -> u64
    requires within { IsIn heap.now.objects p }
    requires all_within { All (IsIn heap.now.objects) complete.now.keys }
    ensures { result ≡ number_among (map (object_at heap.now.objects) complete.now.keys) (object_at heap.now.objects p) }
{
    heap.order();
    let count = complete.len();
    match complete.get_index_of(&p) {
        Some(place) => place as u64 + 1,
        // the proof is always there: of another one the definition gives this
        None => count as u64,
    }
}

/// The numbers of these proofs.
pub(crate) fn numbers_of(
    heap: &Heap,
    complete: &IndexSet<Ref>,
    proofs: &[Ref],
) -> Result<Vec<u64>, Memory>
    requires within { All (IsIn heap.now.objects) proofs.now }
    requires all_within { All (IsIn heap.now.objects) complete.now.keys }
    ensures { IfOk result (λ v. v.items ≡ map (λ r. number_among (map (object_at heap.now.objects) complete.now.keys) (object_at heap.now.objects r)) proofs.now) }
{
    let mut numbers = Vec::new(heap.alloc());
    for p in proofs {
        numbers.push(number_of(heap, complete, *p))?;
    }
    Ok(numbers)
}
