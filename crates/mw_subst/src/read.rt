//! Substitutions that are read from the heap.
ghost use Rattle.std.specs.Prelude.{◌≡◌, true, IfOk};
ghost use Rattle.mw_heap.specs.Objects.{object_at, IsIn};
ghost use Rattle.mw_subst.specs.Sigma.{sigma_object, AreIn};
ghost use Rattle.mw_subst.specs.Pairs.{is_list_of_pairs};

use crate::Sigma;
use mw_heap::{Heap, Memory, Ref, View};

/// The substitution of which `s` is the list, a proper list of pairs (variable . term).
pub fn sigma_of(heap: &Heap, s: Ref) -> Result<Sigma, Memory>
    requires within { IsIn heap.now.objects s }
    requires pairs { is_list_of_pairs (object_at heap.now.objects s) ≡ true }
    ensures within { IfOk result (λ sigma. AreIn heap.now.objects sigma) }
    ensures read { IfOk result (λ sigma. sigma_object heap.now.objects sigma ≡ object_at heap.now.objects s) }
{
    let mut sigma = Sigma::new(heap.alloc());
    let mut rest = s;
    while let View::Pair(pair, more) = heap.view(rest) {
        let View::Pair(variable, term) = heap.view(pair) else {
            unreachable!()
        };
        sigma.put(variable, term)?;
        rest = more;
    }
    Ok(sigma)
}
