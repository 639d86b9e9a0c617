//! Whether a step of a log is good.
ghost use Rattle.std.specs.Prelude.{◌≡◌, ◌+◌, ◌<◌, List, false, length, map, All, IfOk, IfSome, MatchOption};
ghost use Rattle.mw_model.specs.Terms.Object.{Natural, has_members, same_object};
ghost use Rattle.mw_model.specs.Terms.Term.{Formula, IsFormula, formula_object};
ghost use Rattle.mw_model.specs.Values.Truth.{Each};
ghost use Rattle.mw_model.specs.Values.Definition.{arity_table};
ghost use Rattle.mw_model.specs.Events.Theory.{Theory as Meant};
ghost use Rattle.mw_commands.specs.Commands.Log.{conclusion};
ghost use Rattle.mw_heap.specs.Objects.{object_at, IsIn, Grows};
ghost use Rattle.mw_term.specs.Marking.{AreMarks};
ghost use Rattle.mw_theory.specs.Knowledge.{parts_of, meant, IsHeld};
ghost use Rattle.mw_flat.specs.Collecting.{AreFormulasIn};
ghost use Rattle.mw_flat.specs.Steps.{AreMembers, IsConclusion};

use crate::numbered::listed;
use mw_heap::{Heap, Memory, Ref, View};
use mw_rules::{Basis, Method, follows};
use mw_term::{Marks, is_formula};
use mw_theory::Theory;

/// The members of a step after its word.
#[derive(Clone, Copy)]
pub(crate) struct Members {
    pub number: Ref,
    pub method: Ref,
    pub conclusion: Ref,
    pub subproofs: Ref,
    pub extras: Ref,
}

// The members of a list of six after its first.
fn members_of(heap: &Heap, x: Ref) -> Option<Members>
    requires { IsIn heap.now.objects x }
    ensures { MatchOption result (has_members 6 (object_at heap.now.objects x) ≡ false) (AreMembers heap.now.objects x) }
{
    let View::Pair(_, rest) = heap.view(x) else {
        return None;
    };
    let (number, method, conclusion, subproofs, extras) = heap.five_members(rest)?;
    Some(Members {
        number,
        method,
        conclusion,
        subproofs,
        extras,
    })
}

// Whether an object is the natural.
fn is_number(heap: &Heap, x: Ref, n: u64) -> bool
    requires { IsIn heap.now.objects x }
    ensures { result ≡ same_object (object_at heap.now.objects x) (Natural n) }
{
    match heap.view(x) {
        View::Nat(m) => m == n as u128,
        _ => false,
    }
}

/// The conclusion of a step with this number, after steps with these conclusions, if it is good. The marks, which are under the theory's
/// arity table, are extended. The error is out of memory.
pub(crate) fn conclusion_of(
    heap: &mut Heap,
    x: Ref,
    number: u64,
    conclusions: &[Ref],
    theory: &Theory,
    marks: &mut Marks,
) -> Result<Option<Ref>, Memory>
    requires x_in { IsIn heap.old.objects x }
    requires conclusions { AreFormulasIn heap.old.objects theory.now.arity conclusions.now }
    requires held { IsHeld heap.old.objects theory.now }
    requires marked { AreMarks theory.now.arity heap.old.objects marks.old }
    ensures grows { Grows heap.old.objects heap.new.objects }
    ensures marked { AreMarks theory.now.arity heap.new.objects marks.new }
    ensures before { IfOk result (λ o. IfSome o (λ c. c < x)) }
    ensures conclusion { (Fs : List Formula) → Each (IsFormula theory.now.arity) Fs → map (object_at heap.old.objects) conclusions.now ≡ map formula_object Fs → number ≡ length Fs + 1 → IfOk result (λ o. let t = meant heap.old.objects (parts_of theory.now) in IsConclusion heap.old.objects o (conclusion t.axioms t.theorems (arity_table t.definitions) t.definitions.profile Fs (object_at heap.old.objects x))) }
{
    heap.in_range(x);
    let Some(step) = members_of(heap, x) else {
        return Ok(None);
    };
    let Some(method) = Method::of(heap, step.method) else {
        return Ok(None);
    };
    if !is_number(heap, step.number, number) {
        return Ok(None);
    }
    let below = heap.mark();
    marks.extend(heap, &theory.arity, below)?;
    if !is_formula(marks, step.conclusion) {
        return Ok(None);
    }
    let Some(premises) = listed(heap, conclusions, step.subproofs)? else {
        return Ok(None);
    };
    let basis = Basis {
        axioms: &theory.known_axioms,
        theorems: &theory.known_theorems,
        profile: theory.profile,
    };
    let good = follows(
        heap,
        method,
        step.conclusion,
        &premises,
        step.extras,
        &basis,
        marks,
    )?;
    if good {
        Ok(Some(step.conclusion))
    } else {
        Ok(None)
    }
}
