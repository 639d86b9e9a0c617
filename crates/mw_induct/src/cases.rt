//! The data of an induction: conditions, and for each a list of substitutions.
ghost use Rattle.std.specs.Prelude.{◌≡◌, ◌<◌, ◌&&◌, eqb, length};
ghost use Rattle.mw_model.specs.Terms.Term.{ArityTable};
ghost use Rattle.mw_model.specs.Laws.RulesInduction.{is_list_object, length_object, are_substitution_objects, are_case_objects};
ghost use Rattle.mw_heap.specs.Objects.{object_at, IsIn};
ghost use Rattle.mw_term.specs.Marking.{AreMarks};

use mw_heap::{Heap, Ref, View};
use mw_term::{Marks, is_substitution};

// Whether the conditions are a proper list, and the cases one of as many lists of substitutions.
pub(crate) fn are_cases(heap: &Heap, marks: &Marks, conditions: Ref, cases: Ref) -> bool
    requires conditions_within { IsIn heap.now.objects conditions }
    requires cases_within { IsIn heap.now.objects cases }
    requires marked { cases < length marks.now }
    ensures { (A : ArityTable) → AreMarks A heap.now.objects marks.now → result ≡ (is_list_object (object_at heap.now.objects conditions) && (eqb (length_object (object_at heap.now.objects conditions)) (length_object (object_at heap.now.objects cases)) && are_case_objects A (object_at heap.now.objects cases))) }
{
    let mut conditions = conditions;
    let mut cases = cases;
    while let View::Pair(_, more) = heap.view(conditions) {
        let View::Pair(substitutions, others) = heap.view(cases) else {
            return false;
        };
        if !are_substitutions(heap, marks, substitutions) {
            return false;
        }
        conditions = more;
        cases = others;
    }
    heap.is_nil(Some(conditions)) && heap.is_nil(Some(cases))
}

// Whether it is a proper list of substitutions.
fn are_substitutions(heap: &Heap, marks: &Marks, x: Ref) -> bool
    requires within { IsIn heap.now.objects x }
    requires marked { x < length marks.now }
    ensures { (A : ArityTable) → AreMarks A heap.now.objects marks.now → result ≡ are_substitution_objects A (object_at heap.now.objects x) }
{
    let mut rest = x;
    while let View::Pair(s, more) = heap.view(rest) {
        if !is_substitution(heap, marks, s) {
            return false;
        }
        rest = more;
    }
    heap.is_nil(Some(rest))
}
