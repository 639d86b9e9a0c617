//! What a term or a formula is with terms for its variables.
ghost use Rattle.std.specs.Prelude.{◌≡◌, true, IfOk};
ghost use Rattle.mw_model.specs.Laws.Rules.{substitute_object};
ghost use Rattle.mw_heap.specs.Objects.{object_at, IsIn, Grows};
ghost use Rattle.mw_subst.specs.Pairs.{is_list_of_pairs};

use mw_heap::{Heap, Memory, Ref};
use mw_subst::{sigma_of, substitute};
use mw_term::take_searches_of_members;

/// The object x under the substitution s, a proper list of pairs. Each member of s takes a look from those that the heap allows, since
/// many premises may share it; the error is out of memory, also where no look is left.
pub(crate) fn instance(heap: &mut Heap, x: Ref, s: Ref) -> Result<Ref, Memory>
    requires within { IsIn heap.old.objects x }
    requires substitution { IsIn heap.old.objects s }
    requires pairs { is_list_of_pairs (object_at heap.old.objects s) ≡ true }
    ensures grows { Grows heap.old.objects heap.new.objects }
    ensures within { IfOk result (λ r. IsIn heap.new.objects r) }
    ensures made { IfOk result (λ r. object_at heap.new.objects r ≡ substitute_object (object_at heap.old.objects s) (object_at heap.old.objects x)) }
{
    take_searches_of_members(heap, s)?;
    let sigma = sigma_of(heap, s)?;
    substitute(heap, x, &sigma)
}
