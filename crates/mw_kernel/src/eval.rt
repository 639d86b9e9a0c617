//! EVAL.
ghost use Rattle.std.specs.Prelude.{◌≡◌, [], List, Some, IfOk};
ghost use Rattle.mw_model.specs.Terms.Object.{Object};
ghost use Rattle.mw_model.specs.Terms.Term.{Term, is_closed};
ghost use Rattle.mw_model.specs.Terms.Reading.{term_of};
ghost use Rattle.mw_model.specs.Values.Definition.{Definitions, arity_table};
ghost use Rattle.mw_model.specs.Events.Evaluation.{Outcome as Evaluated, evaluate};
ghost use Rattle.mw_model.specs.Events.Theory.{Theory};
ghost use Rattle.mw_model.specs.Events.Fate.{eval, show_outcome};
ghost use Rattle.mw_heap.specs.Objects.{object_at, IsIn, Grows};
ghost use Rattle.mw_code.specs.Tables.{StandsFor, IsClosedTerm};
ghost use Rattle.mw_machine.specs.State.{Answers};
ghost use Rattle.mw_kernel.specs.Fates.{fate_of};
ghost use Rattle.mw_theory.specs.Words.{eval_event};
ghost use Rattle.mw_kernel.specs.Evaluating.{IsTried};

use crate::Fate;
use crate::fate::shown;
use crate::running::run_entry;
use mw_code::Table;
use mw_heap::{Heap, Memory, Ref, Refusal};
use mw_machine::{Machine, Outcome};
use mw_term::{Arity, vars};
use mw_translate::{Expanded, expand};

/// What a raw term is tried for: a term without variables, or the reason for which it is not run.
#[derive(Clone, Copy)]
pub(crate) enum Tried {
    Closed(Ref),
    Refused(Refusal),
}

// Whether a term has no free variables.
fn has_no_variables(heap: &Heap, term: Ref) -> Result<bool, Memory>
    requires { IsIn heap.now.objects term }
    ensures { IfOk result (λ b. (t : Term) → term_of (object_at heap.now.objects term) ≡ Some t → b ≡ is_closed [] t) }
{
    Ok(vars(heap, term)?.as_slice().is_empty())
}

// The term without variables that a raw term expands to, or the first of the reasons Term and Variables that holds.
fn closed_term(heap: &mut Heap, raw: Ref, arity: &Arity) -> Result<Tried, Memory>
    requires { IsIn heap.old.objects raw }
    ensures grows { Grows heap.old.objects heap.new.objects }
    ensures tried { IfOk result (IsTried arity.now heap.new.objects (object_at heap.old.objects raw)) }
{
    match expand(heap, raw, arity, &[]) {
        Expanded::Term(term) => {
            if has_no_variables(heap, term)? {
                Ok(Tried::Closed(term))
            } else {
                Ok(Tried::Refused(Refusal::Variables))
            }
        }
        Expanded::NotTerm => Ok(Tried::Refused(Refusal::Term)),
        Expanded::Memory => Err(Memory),
    }
}

// The fate of an EVAL whose run came to this.
fn fate_of_run(heap: &Heap, outcome: Outcome) -> Result<Fate, Memory>
    requires { (o : Evaluated) × Answers heap.now.objects o outcome }
    ensures { IfOk result (λ f. (t : Theory) (o : Evaluated) → Answers heap.now.objects o outcome → fate_of f ≡ (show_outcome t o).0) }
{
    match outcome {
        Outcome::Value(value, _) => shown(heap, value),
        Outcome::Steps => Ok(Fate::Refused(Refusal::Steps)),
        Outcome::Overflow => Ok(Fate::Refused(Refusal::Overflow)),
        Outcome::Witness => Ok(Fate::Refused(Refusal::Witness)),
        Outcome::Memory => Err(Memory),
    }
}

// Runs a term without variables. Its code is forgotten.
fn run_term(
    heap: &mut Heap,
    term: Ref,
    table: &mut Table,
    machine: &mut Machine,
    steps: u64,
) -> Outcome
    requires { (D : Definitions) × (t : Term) × StandsFor heap.old.objects table.old D × IsClosedTerm D heap.old.objects term t }
    ensures grows { Grows heap.old.objects heap.new.objects }
    ensures table { (os : List Object) (D : Definitions) → StandsFor os table.old D → StandsFor os table.new D }
    ensures outcome { (D : Definitions) (t : Term) → StandsFor heap.old.objects table.old D → IsClosedTerm D heap.old.objects term t → Answers heap.new.objects (evaluate D steps [] t) result }
{
    let Ok(entry) = table.compile_call(heap, term) else {
        table.forget_call();
        return Outcome::Memory;
    };
    let outcome = run_entry(heap, table, machine, &entry, &[], steps);
    table.forget_call();
    outcome
}

/// The fate of an EVAL of a raw term under the arities and the code of a theory: it shows the value of the term that the raw one
/// expands to. `steps` limits the run. The objects that are made stay in the heap.
///
/// It is refused, in this order: Term where the raw term expands to none, Variables where the term has any, Steps where the run needs
/// more units, Overflow where a sum or a product in it is 2^128 or more, Witness where it calls a function without code, Long where the
/// text of the value is too long to show.
pub(crate) fn evaluated(
    heap: &mut Heap,
    raw: Ref,
    arity: &Arity,
    table: &mut Table,
    machine: &mut Machine,
    steps: u64,
) -> Result<Fate, Memory>
    requires within { IsIn heap.old.objects raw }
    requires table { (D : Definitions) × StandsFor heap.old.objects table.old D × (arity.now ≡ arity_table D) }
    ensures grows { Grows heap.old.objects heap.new.objects }
    ensures table { (os : List Object) (D : Definitions) → StandsFor os table.old D → StandsFor os table.new D }
    ensures fate { IfOk result (λ f. (t : Theory) → StandsFor heap.old.objects table.old t.definitions → arity.now ≡ arity_table t.definitions → fate_of f ≡ (eval t steps (eval_event (object_at heap.old.objects raw))).0) }
{
    match closed_term(heap, raw, arity)? {
        Tried::Refused(reason) => Ok(Fate::Refused(reason)),
        Tried::Closed(term) => {
            let outcome = run_term(heap, term, table, machine, steps);
            Ok(fate_of_run(heap, outcome)?)
        }
    }
}
