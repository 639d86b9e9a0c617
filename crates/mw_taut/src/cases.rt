//! The proof by cases.
ghost use Rattle.mw_heap.specs.Objects.{object_at, IsIn};
ghost use Rattle.mw_taut.specs.Making.{Makes};
ghost use Rattle.mw_taut.specs.Cases.{carried, answer_at, IsOutcomeIn, IsFollowIn};
ghost use Rattle.mw_taut.specs.Asking.{IsLeft, IsLeftWith, Settles, SettlesWhere, IsAsked, Finds};

use crate::apply::apply;
use crate::case::{Entered, Follow, Outcome, Question};
use crate::choice::with_value;
use crate::compile::table_of;
use crate::enter::enter;
use crate::rule::{CARRIED, RESOLVED};
use crate::table::Table;
use indexmap::IndexMap;
use mw_heap::{Heap, Memory, Ref};
use mw_term::Arity;

// Where the formula f follows from another one, of what comes of that.
fn carried(heap: &mut Heap, f: Ref, s: Follow, outcome: Outcome) -> Result<Outcome, Memory>
    requires f_in { IsIn heap.old.objects f }
    requires s_in { IsFollowIn heap.old.objects s }
    requires outcome_in { IsOutcomeIn heap.old.objects outcome }
    ensures { Makes IsOutcomeIn answer_at heap.old.objects heap.new.objects result (carried (object_at heap.old.objects s.context) (object_at heap.old.objects f) (object_at heap.old.objects s.formula) (object_at heap.old.objects s.from) (answer_at heap.old.objects outcome)) }
{
    let Outcome::Proof(p) = outcome else {
        return Ok(outcome);
    };
    let proof = apply(heap, CARRIED, &[f, s.context, s.formula, p, s.from])?;
    Ok(Outcome::Proof(proof))
}

// What comes of the case in which the next equation has the value, of the formula with this table.
#[cycle(cases)]
fn branch(
    heap: &mut Heap,
    proved: &mut IndexMap<Ref, Ref>,
    at: &Question<'_>,
    table: &Table,
    value: bool,
    arity: &Arity,
) -> Result<Outcome, Memory>
    requires { IsAsked arity.now heap.old.objects proved.old at.now (IsLeftWith arity.now heap.old.objects at.now table.now) }
    ensures { Finds arity.now heap.old.objects heap.new.objects proved.new result (SettlesWhere arity.now heap.old.objects at.now table.now value) }
{
    match enter(heap, at, table, value)? {
        Entered::Ended(outcome) => Ok(outcome),
        Entered::Goes(s) => {
            let longer = with_value(heap, at.chosen, value)?;
            let next = Question {
                equations: at.equations,
                chosen: longer.as_slice(),
                formula: s.formula,
            };
            let outcome = by_cases(heap, proved, &next, arity)?;
            carried(heap, at.formula, s, outcome)
        }
    }
}

/// What comes of the formula, where the first equations are chosen: a proof that is known, or else by both values of the next equation.
/// The calls go as deep as there are equations, which are twelve at most. The error is out of memory.
#[cycle(cases)]
pub(crate) fn by_cases(
    heap: &mut Heap,
    proved: &mut IndexMap<Ref, Ref>,
    at: &Question<'_>,
    arity: &Arity,
) -> Result<Outcome, Memory>
    requires { IsAsked arity.now heap.old.objects proved.old at.now (IsLeft arity.now heap.old.objects at.now) }
    ensures { Finds arity.now heap.old.objects heap.new.objects proved.new result (Settles arity.now heap.old.objects at.now) }
{
    if let Some(p) = proved.get(&at.formula) {
        return Ok(Outcome::Proof(*p));
    }
    let table = table_of(heap, at.formula)?;
    let without = branch(heap, proved, at, &table, false, arity)?;
    let Outcome::Proof(p) = without else {
        return Ok(without);
    };
    let with = branch(heap, proved, at, &table, true, arity)?;
    let Outcome::Proof(q) = with else {
        return Ok(with);
    };
    let proof = apply(heap, RESOLVED, &[at.formula, p, q])?;
    proved.insert(at.formula, proof)?;
    Ok(Outcome::Proof(proof))
}
