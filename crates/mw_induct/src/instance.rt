//! Instances by a substitution in the heap.
ghost use Rattle.std.specs.Prelude.{◌≡◌, IfOk};
ghost use Rattle.mw_model.specs.Terms.Object.{same_object};
ghost use Rattle.mw_model.specs.Laws.Rules.{not_object, substitute_object, substitute_formula_object};
ghost use Rattle.mw_heap.specs.Objects.{object_at, IsIn};
ghost use Rattle.mw_induct.specs.Pairs.{IsSubstitutionIn, IsFormulaIn};

use mw_heap::{Heap, Memory, Ref, Word};
use mw_subst::{is_instance, sigma_of};
use mw_term::take_searches_of_members;

// Whether y is the object x under the substitution s, a proper list of pairs. Each member of s takes a look: many steps may share it.
pub(crate) fn is_instance_by(heap: &mut Heap, x: Ref, s: Ref, y: Ref) -> Result<bool, Memory>
    requires within { IsIn heap.old.objects x }
    requires substitution { IsSubstitutionIn heap.old.objects s }
    requires instance { IsIn heap.old.objects y }
    ensures objects { heap.new.objects ≡ heap.old.objects }
    ensures instance { IfOk result (λ b. b ≡ same_object (object_at heap.old.objects y) (substitute_object (object_at heap.old.objects s) (object_at heap.old.objects x))) }
{
    take_searches_of_members(heap, s)?;
    let sigma = sigma_of(heap, s)?;
    is_instance(heap, x, &sigma, y)
}

// Whether x is: not A/s.
pub(crate) fn is_negated_instance(heap: &mut Heap, x: Ref, a: Ref, s: Ref) -> Result<bool, Memory>
    requires within { IsIn heap.old.objects x }
    requires formula { IsFormulaIn heap.old.objects a }
    requires substitution { IsSubstitutionIn heap.old.objects s }
    ensures objects { heap.new.objects ≡ heap.old.objects }
    ensures negation { IfOk result (λ b. b ≡ same_object (object_at heap.old.objects x) (not_object (substitute_formula_object (object_at heap.old.objects s) (object_at heap.old.objects a)))) }
{
    match heap.member_after(x, Word::Pnot) {
        Some(instance) => is_instance_by(heap, a, s, instance),
        None => Ok(false),
    }
}
