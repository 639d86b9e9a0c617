//! The step premises: A follows from a condition and from what its substitutions make of A.
ghost use Rattle.std.specs.Prelude.{◌≡◌, All, IfOk};
ghost use Rattle.mw_model.specs.Terms.Object.{Pair, same_object};
ghost use Rattle.mw_model.specs.Laws.Rules.{not_object};
ghost use Rattle.mw_model.specs.Laws.RulesInduction.{disjunction_object, hypotheses_object};
ghost use Rattle.mw_heap.specs.Objects.{object_at, IsIn};
ghost use Rattle.mw_induct.specs.Conclusions.{Takes};
ghost use Rattle.mw_induct.specs.Scheme.{IsScheme, steps_of};
ghost use Rattle.mw_induct.specs.Pairs.{IsSubstitutionIn, AreSubstitutionsIn, IsFormulaIn};

use crate::instance::is_negated_instance;
use crate::scheme::Scheme;
use mw_heap::{Heap, Memory, Ref, View, Word};

// How many conclusions the step premises take, one for each condition, where these fit.
pub(crate) fn take_steps(
    heap: &mut Heap,
    a: Ref,
    scheme: &Scheme,
    conclusions: &[Ref],
) -> Result<Option<usize>, Memory>
    requires formula { IsFormulaIn heap.old.objects a }
    requires scheme { IsScheme heap.old.objects scheme.now }
    requires conclusions { All (IsIn heap.old.objects) conclusions.now }
    ensures objects { heap.new.objects ≡ heap.old.objects }
    ensures steps { IfOk result (Takes (steps_of heap.old.objects a scheme.now) heap.old.objects conclusions.now) }
{
    let mut taken = 0;
    let mut conditions = scheme.conditions;
    let mut cases = scheme.cases;
    while let View::Pair(condition, more) = heap.view(conditions) {
        let View::Pair(substitutions, others) = heap.view(cases) else {
            unreachable!()
        };
        if taken == conclusions.len() {
            return Ok(None);
        }
        if !is_step(heap, conclusions[taken], a, condition, substitutions)? {
            return Ok(None);
        }
        taken += 1;
        conditions = more;
        cases = others;
    }
    Ok(Some(taken))
}

// Whether x is: A or not q or not A/s or .., for the condition q and each substitution s of the list.
fn is_step(
    heap: &mut Heap,
    x: Ref,
    a: Ref,
    condition: Ref,
    substitutions: Ref,
) -> Result<bool, Memory>
    requires within { IsIn heap.old.objects x }
    requires formula { IsFormulaIn heap.old.objects a }
    requires condition { IsIn heap.old.objects condition }
    requires substitutions { AreSubstitutionsIn heap.old.objects substitutions }
    ensures objects { heap.new.objects ≡ heap.old.objects }
    ensures step { IfOk result (λ b. b ≡ same_object (object_at heap.old.objects x) (disjunction_object (Pair (object_at heap.old.objects a) (Pair (not_object (object_at heap.old.objects condition)) (hypotheses_object (object_at heap.old.objects a) (object_at heap.old.objects substitutions)))))) }
{
    let Some((side, others)) = heap.members_after(x, Word::Por) else {
        return Ok(false);
    };
    if !heap.same(side, a) {
        return Ok(false);
    }
    are_hypotheses(heap, others, condition, a, substitutions)
}

// Whether x is: not B or not A/s or .., for each substitution s of the list.
fn are_hypotheses(
    heap: &mut Heap,
    x: Ref,
    b: Ref,
    a: Ref,
    substitutions: Ref,
) -> Result<bool, Memory>
    requires within { IsIn heap.old.objects x }
    requires first { IsIn heap.old.objects b }
    requires formula { IsFormulaIn heap.old.objects a }
    requires substitutions { AreSubstitutionsIn heap.old.objects substitutions }
    ensures objects { heap.new.objects ≡ heap.old.objects }
    ensures hypotheses { IfOk result (λ r. r ≡ same_object (object_at heap.old.objects x) (disjunction_object (Pair (not_object (object_at heap.old.objects b)) (hypotheses_object (object_at heap.old.objects a) (object_at heap.old.objects substitutions))))) }
{
    let View::Pair(s, more) = heap.view(substitutions) else {
        return Ok(heap.is_not(Some(x), Some(b)));
    };
    let Some((side, others)) = heap.members_after(x, Word::Por) else {
        return Ok(false);
    };
    if !heap.is_not(Some(side), Some(b)) {
        return Ok(false);
    }
    are_negated_instances(heap, others, a, s, more)
}

// Whether x is: not A/s or .., for the substitution s and then each of the list.
fn are_negated_instances(heap: &mut Heap, x: Ref, a: Ref, s: Ref, more: Ref) -> Result<bool, Memory>
    requires within { IsIn heap.old.objects x }
    requires formula { IsFormulaIn heap.old.objects a }
    requires first { IsSubstitutionIn heap.old.objects s }
    requires more { AreSubstitutionsIn heap.old.objects more }
    ensures objects { heap.new.objects ≡ heap.old.objects }
    ensures hypotheses { IfOk result (λ r. r ≡ same_object (object_at heap.old.objects x) (disjunction_object (hypotheses_object (object_at heap.old.objects a) (Pair (object_at heap.old.objects s) (object_at heap.old.objects more))))) }
{
    let mut rest = x;
    let mut s = s;
    let mut more = more;
    while let View::Pair(next, others) = heap.view(more) {
        let Some((side, sides)) = heap.members_after(rest, Word::Por) else {
            return Ok(false);
        };
        if !is_negated_instance(heap, side, a, s)? {
            return Ok(false);
        }
        rest = sides;
        s = next;
        more = others;
    }
    is_negated_instance(heap, rest, a, s)
}
