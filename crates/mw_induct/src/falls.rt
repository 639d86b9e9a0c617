//! The premises by which the measure falls.
ghost use Rattle.std.specs.Prelude.{◌≡◌, All, IfOk};
ghost use Rattle.mw_model.specs.Terms.Object.{same_object};
ghost use Rattle.mw_model.specs.Laws.RulesInduction.{fall_object, falls_object};
ghost use Rattle.mw_heap.specs.Objects.{object_at, IsIn};
ghost use Rattle.mw_induct.specs.Conclusions.{conclusions_object, Takes};
ghost use Rattle.mw_induct.specs.Pairs.{IsSubstitutionIn, AreSubstitutionsIn};
ghost use Rattle.mw_induct.specs.Scheme.{IsScheme, falls_of};

use crate::instance::is_instance_by;
use crate::scheme::Scheme;
use crate::shapes::true_term;
use mw_heap::{Heap, Memory, Ref, View, Word};

// Whether the conclusions are those by which the measure falls, in each case by each of its substitutions.
pub(crate) fn are_all_falls(
    heap: &mut Heap,
    scheme: &Scheme,
    conclusions: &[Ref],
) -> Result<bool, Memory>
    requires scheme { IsScheme heap.old.objects scheme.now }
    requires conclusions { All (IsIn heap.old.objects) conclusions.now }
    ensures objects { heap.new.objects ≡ heap.old.objects }
    ensures falls { IfOk result (λ b. b ≡ same_object (conclusions_object heap.old.objects conclusions.now) (falls_of heap.old.objects scheme.now)) }
{
    let mut taken = 0;
    let measure = scheme.measure;
    let mut conditions = scheme.conditions;
    let mut cases = scheme.cases;
    while let View::Pair(condition, more) = heap.view(conditions) {
        let View::Pair(substitutions, others) = heap.view(cases) else {
            unreachable!()
        };
        match take_falls(
            heap,
            measure,
            condition,
            substitutions,
            &conclusions[taken..],
        )? {
            Some(count) => taken += count,
            None => return Ok(false),
        }
        conditions = more;
        cases = others;
    }
    Ok(taken == conclusions.len())
}

// How many conclusions the premises take by which the measure falls in one case, where these fit.
fn take_falls(
    heap: &mut Heap,
    measure: Ref,
    condition: Ref,
    substitutions: Ref,
    conclusions: &[Ref],
) -> Result<Option<usize>, Memory>
    requires measure { IsIn heap.old.objects measure }
    requires condition { IsIn heap.old.objects condition }
    requires substitutions { AreSubstitutionsIn heap.old.objects substitutions }
    requires conclusions { All (IsIn heap.old.objects) conclusions.now }
    ensures objects { heap.new.objects ≡ heap.old.objects }
    ensures falls { IfOk result (Takes (falls_object (object_at heap.old.objects measure) (object_at heap.old.objects condition) (object_at heap.old.objects substitutions)) heap.old.objects conclusions.now) }
{
    let mut taken = 0;
    let mut substitutions = substitutions;
    while let View::Pair(s, more) = heap.view(substitutions) {
        if taken == conclusions.len() {
            return Ok(None);
        }
        if !is_fall(heap, conclusions[taken], measure, condition, s)? {
            return Ok(None);
        }
        taken += 1;
        substitutions = more;
    }
    Ok(Some(taken))
}

// Whether x is: not q or (ord< m/s m) = 't.
fn is_fall(heap: &mut Heap, x: Ref, measure: Ref, condition: Ref, s: Ref) -> Result<bool, Memory>
    requires within { IsIn heap.old.objects x }
    requires measure { IsIn heap.old.objects measure }
    requires condition { IsIn heap.old.objects condition }
    requires substitution { IsSubstitutionIn heap.old.objects s }
    ensures objects { heap.new.objects ≡ heap.old.objects }
    ensures fall { IfOk result (λ b. b ≡ same_object (object_at heap.old.objects x) (fall_object (object_at heap.old.objects measure) (object_at heap.old.objects condition) (object_at heap.old.objects s))) }
{
    let Some((negation, fall)) = heap.members_after(x, Word::Por) else {
        return Ok(false);
    };
    if !heap.is_not(Some(negation), Some(condition)) {
        return Ok(false);
    }
    let Some(term) = true_term(heap, fall) else {
        return Ok(false);
    };
    let Some((before, after)) = heap.members_after(term, Word::OrdLess) else {
        return Ok(false);
    };
    if !heap.same(after, measure) {
        return Ok(false);
    }
    is_instance_by(heap, measure, s, before)
}
