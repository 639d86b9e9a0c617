//! The premises of an induction.
ghost use Rattle.std.specs.Prelude.{◌≡◌, ◌<◌, true, length, All, IfOk};
ghost use Rattle.mw_model.specs.Terms.Term.{ArityTable};
ghost use Rattle.mw_model.specs.Laws.Rules.{is_formula_object};
ghost use Rattle.mw_model.specs.Terms.Object.{same_object};
ghost use Rattle.mw_model.specs.Laws.RulesInduction.{object_is_induction};
ghost use Rattle.mw_heap.specs.Objects.{object_at, IsIn};
ghost use Rattle.mw_term.specs.Marking.{AreMarks};
ghost use Rattle.mw_induct.specs.Conclusions.{conclusions_object};
ghost use Rattle.mw_induct.specs.Scheme.{IsScheme, measured_of, premises_of};
ghost use Rattle.mw_induct.specs.Pairs.{IsFormulaIn};

use crate::cases::are_cases;
use crate::falls::are_all_falls;
use crate::looks::take_looks_at_cases;
use crate::scheme::Scheme;
use crate::shapes::{is_disjunction, is_disjunction_from, is_ordinal_premise};
use crate::steps::take_steps;
use mw_heap::{Heap, Memory, Ref};
use mw_term::Marks;

/// Whether the conclusions are, in order, the premises of an induction that concludes the formula `f`, by `extras`: a list of the
/// measure, the conditions, and for each condition a list of substitutions. The marks say what is a term. Nothing is made. Each case,
/// each substitution and each member of one takes a look from those that the heap allows, each time that it is read, since many steps and
/// many cases may share it; the only error is being out of memory, also where no look is left.
pub fn premises_hold(
    heap: &mut Heap,
    f: Ref,
    extras: Ref,
    conclusions: &[Ref],
    marks: &Marks,
) -> Result<bool, Memory>
    requires marks { (A : ArityTable) × AreMarks A heap.old.objects marks.now }
    requires conclusion { IsIn heap.old.objects f }
    requires extras { extras < length marks.now }
    requires premises { All (IsIn heap.old.objects) conclusions.now }
    requires formula { (A : ArityTable) × (is_formula_object A (object_at heap.old.objects f) ≡ true) }
    ensures objects { heap.new.objects ≡ heap.old.objects }
    ensures answer { IfOk result (λ b. (A : ArityTable) → AreMarks A heap.old.objects marks.now → b ≡ object_is_induction A (object_at heap.old.objects f) (conclusions_object heap.old.objects conclusions.now) (object_at heap.old.objects extras)) }
{
    // what costs a constant comes first
    if conclusions.len() < 2 || !is_disjunction_from(heap, conclusions[0], f) {
        return Ok(false);
    }
    let Some((measure, conditions, cases)) = heap.three_members(extras) else {
        return Ok(false);
    };
    take_looks_at_cases(heap, cases)?;
    if !are_cases(heap, marks, conditions, cases) {
        return Ok(false);
    }
    let scheme = Scheme {
        measure,
        conditions,
        cases,
    };
    are_premises(heap, f, &scheme, conclusions)
}

// Whether the conclusions are the premises of an induction.
fn are_premises(
    heap: &mut Heap,
    a: Ref,
    scheme: &Scheme,
    conclusions: &[Ref],
) -> Result<bool, Memory>
    requires formula { IsFormulaIn heap.old.objects a }
    requires scheme { IsScheme heap.old.objects scheme.now }
    requires conclusions { All (IsIn heap.old.objects) conclusions.now }
    ensures objects { heap.new.objects ≡ heap.old.objects }
    ensures premises { IfOk result (λ b. b ≡ same_object (conclusions_object heap.old.objects conclusions.now) (premises_of heap.old.objects a scheme.now)) }
{
    if conclusions.is_empty() {
        return Ok(false);
    }
    if !is_disjunction(heap, conclusions[0], a, scheme.conditions) {
        return Ok(false);
    }
    let others = &conclusions[1..];
    match take_steps(heap, a, scheme, others)? {
        Some(count) => are_measured(heap, scheme, &others[count..]),
        None => Ok(false),
    }
}

// Whether the conclusions are the premises on the measure: that it is an ordinal, and that it falls.
fn are_measured(heap: &mut Heap, scheme: &Scheme, conclusions: &[Ref]) -> Result<bool, Memory>
    requires scheme { IsScheme heap.old.objects scheme.now }
    requires conclusions { All (IsIn heap.old.objects) conclusions.now }
    ensures objects { heap.new.objects ≡ heap.old.objects }
    ensures premises { IfOk result (λ b. b ≡ same_object (conclusions_object heap.old.objects conclusions.now) (measured_of heap.old.objects scheme.now)) }
{
    if conclusions.is_empty() {
        return Ok(false);
    }
    if !is_ordinal_premise(heap, conclusions[0], scheme.measure) {
        return Ok(false);
    }
    are_all_falls(heap, scheme, &conclusions[1..])
}
