//! Whether a formula is a tautology.
ghost use Rattle.std.specs.Prelude.{◌≡◌, true, Some, IfOk};
ghost use Rattle.mw_model.specs.Terms.Term.{Formula, formula_object, is_formula};
ghost use Rattle.mw_model.specs.Terms.Reading.{formula_under};
ghost use Rattle.mw_model.specs.Laws.Rules.{is_formula_object};
ghost use Rattle.mw_commands.specs.Commands.Tautology.{decision};
ghost use Rattle.mw_heap.specs.Objects.{object_at, IsIn, Grows};
ghost use Rattle.mw_taut.specs.Decided.{IsDecision};

use crate::case::{Outcome, Question};
use crate::cases::by_cases;
use crate::compile::table_of;
use indexmap::IndexMap;
use mw_heap::{Heap, Memory, Ref, looks_for};
use mw_term::Arity;

/// What is decided of a formula.
#[derive(Clone, Copy, Debug, PartialEq, Eq)]
pub enum Decision {
    /// It is a tautology, by this proof, from no axioms and no theorems.
    Proof(Ref),
    /// It is not a tautology: the first choice that makes it false, as a list of pairs (equation . value).
    Choice(Ref),
    /// It has more than twelve equations.
    Many,
    /// Out of memory.
    Memory,
}

// A formula with more equations is not decided, as the definition of the command says: twelve have 4,096 choices of values.
const MOST_EQUATIONS: usize = 12;

// The decision. How many looks it may take depends on the number of the formula's distinct parts. The error is out of memory.
fn decided(heap: &mut Heap, f: Ref, arity: &Arity) -> Result<Decision, Memory>
    requires within { IsIn heap.old.objects f }
    requires formula { (F : Formula) × (object_at heap.old.objects f ≡ formula_object F) × (is_formula arity.now F ≡ true) }
    ensures grows { Grows heap.old.objects heap.new.objects }
    ensures decided { IfOk result (λ d. (F : Formula) → object_at heap.old.objects f ≡ formula_object F → is_formula arity.now F ≡ true → IsDecision heap.new.objects arity.now F (decision F) d) }
{
    let table = table_of(heap, f)?;
    if table.equations.len() > MOST_EQUATIONS {
        return Ok(Decision::Many);
    }
    heap.allow_looks(looks_for(table.nodes.len()));
    let whole = Question {
        equations: table.equations.as_slice(),
        chosen: &[],
        formula: f,
    };
    let mut proved = IndexMap::new(heap.alloc());
    match by_cases(heap, &mut proved, &whole, arity)? {
        Outcome::Proof(p) => {
            // That it holds no natural out of range is known of every object of the heap.
            heap.in_range(p);
            Ok(Decision::Proof(p))
        }
        Outcome::Against(c) => Ok(Decision::Choice(c)),
    }
}

/// Decides whether a formula of these arities is a tautology. The answer is `Many` exactly when the formula has more than twelve
/// equations. Otherwise it is a proof exactly when the formula is a tautology: from no axioms and no theorems, under profile one, and with
/// no natural out of range. Otherwise it is the first choice against the formula. If that takes more than 2^24 looks, and 64 more
/// for each distinct part of the formula, the answer is out of memory. The heap is not cut back.
pub fn decide(heap: &mut Heap, f: Ref, arity: &Arity) -> Decision
    requires within { IsIn heap.old.objects f }
    requires formula { is_formula_object arity.now (object_at heap.old.objects f) ≡ true }
    ensures grows { Grows heap.old.objects heap.new.objects }
    ensures decided { (F : Formula) → formula_under arity.now (object_at heap.old.objects f) ≡ Some F → IsDecision heap.new.objects arity.now F (decision F) result }
{
    match decided(heap, f, arity) {
        Ok(decision) => decision,
        Err(Memory) => Decision::Memory,
    }
}
