//! From a formula, what it is with terms for its variables.
ghost use Rattle.std.specs.Prelude.{◌≡◌, ◌<◌, true, length, IfOk};
ghost use Rattle.mw_model.specs.Terms.Term.{ArityTable};
ghost use Rattle.mw_model.specs.Laws.Rules.{is_formula_object, object_is_instance};
ghost use Rattle.mw_heap.specs.Objects.{object_at, IsIn};
ghost use Rattle.mw_term.specs.Marking.{AreMarks};

use mw_heap::{Heap, Memory, Ref};
use mw_subst::{is_instance, sigma_of};
use mw_term::{Marks, is_substitution, take_searches_of_members};

/// Whether the conclusion is the premise, a formula, under the substitution, a proper list of pairs (variable . term), where the marks
/// say what is a term. Nothing is made. Each member of the substitution takes a look from those that the heap allows, since many steps
/// may share it; the only error is being out of memory, also where no look is left.
pub fn instantiation(
    heap: &mut Heap,
    conclusion: Ref,
    premise: Ref,
    substitution: Ref,
    marks: &Marks,
) -> Result<bool, Memory>
    requires marks { (A : ArityTable) × AreMarks A heap.old.objects marks.now }
    requires conclusion { IsIn heap.old.objects conclusion }
    requires premise { IsIn heap.old.objects premise }
    requires substitution { substitution < length marks.now }
    requires formula { (A : ArityTable) × (is_formula_object A (object_at heap.old.objects premise) ≡ true) }
    ensures objects { heap.new.objects ≡ heap.old.objects }
    ensures answer { IfOk result (λ b. (A : ArityTable) → AreMarks A heap.old.objects marks.now → b ≡ object_is_instance A (object_at heap.old.objects conclusion) (object_at heap.old.objects premise) (object_at heap.old.objects substitution)) }
{
    take_searches_of_members(heap, substitution)?;
    is_formula_under(heap, conclusion, premise, substitution, marks)
}

// Whether the conclusion is the premise under the substitution.
fn is_formula_under(
    heap: &mut Heap,
    conclusion: Ref,
    premise: Ref,
    substitution: Ref,
    marks: &Marks,
) -> Result<bool, Memory>
    requires marks { (A : ArityTable) × AreMarks A heap.old.objects marks.now }
    requires conclusion { IsIn heap.old.objects conclusion }
    requires premise { IsIn heap.old.objects premise }
    requires substitution { substitution < length marks.now }
    requires formula { (A : ArityTable) × (is_formula_object A (object_at heap.old.objects premise) ≡ true) }
    ensures objects { heap.new.objects ≡ heap.old.objects }
    ensures answer { IfOk result (λ b. (A : ArityTable) → AreMarks A heap.old.objects marks.now → b ≡ object_is_instance A (object_at heap.old.objects conclusion) (object_at heap.old.objects premise) (object_at heap.old.objects substitution)) }
{
    if !is_substitution(heap, marks, substitution) {
        return Ok(false);
    }
    let sigma = sigma_of(heap, substitution)?;
    is_instance(heap, premise, &sigma, conclusion)
}
