//! The extras of an induction, and the premises that they ask for.
ghost use Rattle.std.specs.Prelude.{◌≡◌, ◌<◌, ◌&&◌, true, length, is_some, IfOk, IfSome};
ghost use Rattle.mw_model.specs.Terms.Term.{ArityTable};
ghost use Rattle.mw_model.specs.Terms.Reading.{formula_of};
ghost use Rattle.mw_model.specs.Laws.Rules.{is_formula_object};
ghost use Rattle.mw_model.specs.Laws.RulesInduction.{are_substitution_objects};
ghost use Rattle.mw_heap.specs.Objects.{object_at, IsIn, Grows};
ghost use Rattle.mw_term.specs.Marking.{AreMarks};
ghost use Rattle.mw_explain.specs.Extras.{are_cases_at, premises_at, IsFound};

use mw_bad_steps::{Form, has_form, premises_of_induction};
use mw_heap::{Heap, Memory, Ref, View};
use mw_term::{Marks, is_substitution, take_searches, take_searches_of_members};

// Whether it is a proper list of substitutions. Each takes a look, and each of its members.
fn are_substitutions(heap: &mut Heap, marks: &Marks, x: Ref) -> Result<bool, Memory>
    requires within { IsIn heap.old.objects x }
    requires marked { x < length marks.now }
    ensures objects { heap.new.objects ≡ heap.old.objects }
    ensures substitutions { IfOk result (λ b. (A : ArityTable) → AreMarks A heap.old.objects marks.now → b ≡ are_substitution_objects A (object_at heap.old.objects x)) }
{
    let mut rest = x;
    while let View::Pair(s, more) = heap.view(rest) {
        take_searches(heap, 1)?;
        take_searches_of_members(heap, s)?;
        if !is_substitution(heap, marks, s) {
            return Ok(false);
        }
        rest = more;
    }
    Ok(heap.is_nil(Some(rest)))
}

// Whether a case can have this condition and these substitutions.
fn is_case(
    heap: &mut Heap,
    marks: &Marks,
    condition: Ref,
    substitutions: Ref,
) -> Result<bool, Memory>
    requires condition { IsIn heap.old.objects condition }
    requires substitutions { IsIn heap.old.objects substitutions }
    requires marked { substitutions < length marks.now }
    ensures objects { heap.new.objects ≡ heap.old.objects }
    ensures case { IfOk result (λ b. (A : ArityTable) → AreMarks A heap.old.objects marks.now → b ≡ (is_some (formula_of (object_at heap.old.objects condition)) && are_substitution_objects A (object_at heap.old.objects substitutions))) }
{
    if !has_form(heap, Form::Formula(condition))? {
        return Ok(false);
    }
    are_substitutions(heap, marks, substitutions)
}

// Whether these are as many lists of substitutions as conditions.
#[tactic(auto, using(crate::proofs::ExtrasExact::no_cases, crate::proofs::ExtrasExact::cases_nil))]
fn are_cases(heap: &mut Heap, marks: &Marks, conditions: Ref, cases: Ref) -> Result<bool, Memory>
    requires conditions { IsIn heap.old.objects conditions }
    requires cases { IsIn heap.old.objects cases }
    requires marked { cases < length marks.now }
    ensures objects { heap.new.objects ≡ heap.old.objects }
    ensures cases { IfOk result (λ b. (A : ArityTable) → AreMarks A heap.old.objects marks.now → b ≡ are_cases_at A (object_at heap.old.objects conditions) (object_at heap.old.objects cases)) }
{
    let mut conditions = conditions;
    let mut cases = cases;
    while let View::Pair(condition, more) = heap.view(conditions) {
        let View::Pair(substitutions, others) = heap.view(cases) else {
            return Ok(false);
        };
        take_searches(heap, 1)?;
        if !is_case(heap, marks, condition, substitutions)? {
            return Ok(false);
        }
        conditions = more;
        cases = others;
    }
    if !heap.is_nil(Some(conditions)) {
        return Ok(false);
    }
    Ok(heap.is_nil(Some(cases)))
}

/// The list of the premises of an induction that concludes the formula, by these extras; nothing where they are no extras of one: a list
/// of what has the form of a term, of conditions that have the form of formulas, and for each a list of substitutions. The error is out
/// of memory, also where no look is left.
pub(crate) fn premises_of(
    heap: &mut Heap,
    conclusion: Ref,
    extras: Ref,
    marks: &Marks,
) -> Result<Option<Ref>, Memory>
    requires conclusion { IsIn heap.old.objects conclusion }
    requires extras { IsIn heap.old.objects extras }
    requires marked { extras < length marks.now }
    requires marks { (A : ArityTable) × AreMarks A heap.old.objects marks.now }
    requires formula { (A : ArityTable) × (is_formula_object A (object_at heap.old.objects conclusion) ≡ true) }
    ensures grows { Grows heap.old.objects heap.new.objects }
    ensures within { IfOk result (λ o. IfSome o (λ r. IsIn heap.new.objects r)) }
    ensures premises { IfOk result (λ o. (A : ArityTable) → AreMarks A heap.old.objects marks.now → IsFound heap.new.objects (premises_at A (object_at heap.old.objects conclusion) (object_at heap.old.objects extras)) o) }
{
    let Some((measure, conditions, cases)) = heap.three_members(extras) else {
        return Ok(None);
    };
    if !has_form(heap, Form::Term(measure))? {
        return Ok(None);
    }
    if !are_cases(heap, marks, conditions, cases)? {
        return Ok(None);
    }
    Ok(Some(premises_of_induction(heap, conclusion, measure, conditions, cases)?))
}
