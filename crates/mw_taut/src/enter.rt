//! The case in which one more equation has a value.
ghost use Rattle.std.specs.Prelude.{◌<◌, length, map, List, ◌∷◌, IfOk};
ghost use Rattle.mw_model.specs.Terms.Term.{Formula, ArityTable};
ghost use Rattle.mw_heap.specs.Objects.{object_at, IsIn, Grows};
ghost use Rattle.mw_taut.specs.Making.{Makes};
ghost use Rattle.mw_taut.specs.Reducing.{literal_object, form_at, IsFormIn};
ghost use Rattle.mw_taut.specs.Cases.{choice_of, entered, step_at, IsTableIn, IsQuestionIn, IsPosed, IsEntered, IsEnteredIn};
ghost use Rattle.mw_taut.specs.Decided.{IsTableOf};

use crate::apply::apply;
use crate::case::{Entered, Follow, Outcome, Question};
use crate::choice::{choice_list, with_value};
use crate::reduce::reduce_all;
use crate::reduced::{Assumption, Reduced};
use crate::rule::{COMMUTED, KEPT_FROM, NOT};
use crate::table::Table;
use mw_heap::{Heap, Memory, Ref};

// The equation where it is taken to be true, and else its denial.
fn literal(heap: &mut Heap, equation: Ref, value: bool) -> Result<Ref, Memory>
    requires { IsIn heap.old.objects equation }
    ensures { Makes IsIn object_at heap.old.objects heap.new.objects result (literal_object (object_at heap.old.objects equation) value) }
{
    if value {
        return Ok(equation);
    }
    apply(heap, NOT, &[equation])
}

// Where the formula comes to r, in the context d. If its value is fixed, the proof is of the context or the formula. A formula that is false
// is false whatever the other equations are, and the first of these choices has them all false.
fn entered(heap: &mut Heap, d: Ref, at: &Question<'_>, r: Reduced) -> Result<Entered, Memory>
    requires d_in { IsIn heap.old.objects d }
    requires at_in { IsQuestionIn heap.old.objects at.now }
    requires r_in { IsFormIn heap.old.objects r }
    ensures { Makes IsEnteredIn step_at heap.old.objects heap.new.objects result (entered (object_at heap.old.objects d) (object_at heap.old.objects at.now.formula) (map (object_at heap.old.objects) at.now.equations.now) at.now.chosen.now (form_at heap.old.objects r)) }
{
    match r {
        Reduced::Fixed(s) if s.value => {
            let proof = apply(heap, COMMUTED, &[at.formula, d, s.proof])?;
            Ok(Entered::Ended(Outcome::Proof(proof)))
        }
        Reduced::Fixed(_) => {
            let choice = choice_list(heap, at.equations, at.chosen)?;
            Ok(Entered::Ended(Outcome::Against(choice)))
        }
        Reduced::Kept => {
            let from = apply(heap, KEPT_FROM, &[d, at.formula])?;
            Ok(Entered::Goes(Follow {
                context: d,
                formula: at.formula,
                from,
            }))
        }
        Reduced::Changed(s) => Ok(Entered::Goes(Follow {
            context: d,
            formula: s.formula,
            from: s.from,
        })),
    }
}

/// What the formula, with this table, comes to where the next equation has the value.
pub(crate) fn enter(
    heap: &mut Heap,
    at: &Question<'_>,
    table: &Table,
    value: bool,
) -> Result<Entered, Memory>
    requires at_in { IsQuestionIn heap.old.objects at.now }
    requires table_in { IsTableIn heap.old.objects table.now }
    requires next { length at.now.chosen.now < length at.now.equations.now }
    ensures grows { Grows heap.old.objects heap.new.objects }
    ensures within { IfOk result (λ r. IsEnteredIn heap.new.objects r) }
    ensures entered { IfOk result (λ r. (A : ArityTable) (F : Formula) (before : List Formula) (E : Formula) (rest : List Formula) → IsPosed A heap.old.objects at.now.equations.now at.now.chosen.now at.now.formula F before (E ∷ rest) → IsTableOf heap.old.objects F table.now → IsEntered A (choice_of before at.now.chosen.now) E value rest F (step_at heap.new.objects r)) }
{
    let equation = at.equations[at.chosen.len()];
    let context = literal(heap, equation, !value)?;
    let formulas = table.formulas.as_slice();
    let assumed = Assumption {
        formulas,
        equation,
        value,
        context,
    };
    let reduced = reduce_all(heap, &assumed, table.nodes.as_slice())?;
    let longer = with_value(heap, at.chosen, value)?;
    let next = Question {
        equations: at.equations,
        chosen: longer.as_slice(),
        formula: at.formula,
    };
    entered(heap, context, &next, reduced[table.root])
}
