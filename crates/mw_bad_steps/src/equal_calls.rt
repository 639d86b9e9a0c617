//! The conclusion that may be meant by a step of functional equality.
ghost use Rattle.std.specs.Prelude.{◌≡◌, All, IfOk, IfSome, OnOk};
ghost use Rattle.mw_model.specs.Terms.Term.{ArityTable, Term, Formula, IsTerm, IsFormula, term_object, formula_object};
ghost use Rattle.mw_model.specs.Proofs.Judgment.{last_disjunct};
ghost use Rattle.mw_model.specs.Laws.Rules.{equal_object, not_object, unless_equal_object};
ghost use Rattle.mw_heap.specs.Objects.{object_at, IsIn, Grows};
ghost use Rattle.mw_bad_steps.specs.Premises.{PutsObjects};
ghost use Rattle.mw_bad_steps.specs.Candidates.{IsCandidate, AreActuals, actuals, equality_of, inequalities_in};

use crate::disjunction::disjunction;
use crate::formulas::{equal, not};
use mw_heap::{Heap, Memory, Ref, View, Word};

// The last disjunct of a formula.
fn last_disjunct(heap: &Heap, x: Ref) -> Ref
    requires { IsIn heap.now.objects x }
    ensures within { IsIn heap.now.objects result }
    ensures last { (F : Formula) → object_at heap.now.objects x ≡ formula_object F → object_at heap.now.objects result ≡ formula_object (last_disjunct F) }
{
    let mut last = x;
    while let Some((_, others)) = heap.members_after(last, Word::Por) {
        last = others;
    }
    last
}

// The list of the actuals of a call, and whether it is a call of IF.
#[tactic(auto, using(crate::proofs::EqualCalls::no_pair, crate::proofs::EqualCalls::no_symbol, crate::proofs::EqualCalls::no_quoted, crate::proofs::EqualCalls::actuals_found))]
fn actuals_of(heap: &Heap, x: Ref) -> Option<(bool, Ref)>
    requires { IsIn heap.now.objects x }
    ensures within { IfSome result (λ p. IsIn heap.now.objects p.1) }
    ensures actuals { (A : ArityTable) (t : Term) → IsTerm A t → object_at heap.now.objects x ≡ term_object t → AreActuals heap.now.objects (actuals t) result }
{
    let View::Pair(f, list) = heap.view(x) else {
        return None;
    };
    let View::Symbol = heap.view(f) else {
        return None;
    };
    if heap.is_word(Some(f), Word::Quote) {
        return None;
    }
    Some((heap.is_word(Some(f), Word::If), list))
}

// The formula: not a = b.
fn inequality(heap: &mut Heap, a: Ref, b: Ref) -> Result<Ref, Memory>
    requires a_in { IsIn heap.old.objects a }
    requires b_in { IsIn heap.old.objects b }
    ensures grows { Grows heap.old.objects heap.new.objects }
    ensures within { IfOk result (λ r. IsIn heap.new.objects r) }
    ensures made { IfOk result (λ r. object_at heap.new.objects r ≡ not_object (equal_object (object_at heap.old.objects a) (object_at heap.old.objects b))) }
{
    let equation = equal(heap, a, b)?;
    not(heap, equation)
}

// Puts not a = b for the members a and b of two lists.
fn put_inequalities(
    heap: &mut Heap,
    firsts: Ref,
    seconds: Ref,
    members: &mut Vec<Ref>,
) -> Result<(), Memory>
    requires firsts { IsIn heap.old.objects firsts }
    requires seconds { IsIn heap.old.objects seconds }
    requires members { All (IsIn heap.old.objects) members.old.items }
    ensures grows { Grows heap.old.objects heap.new.objects }
    ensures put { OnOk result (PutsObjects heap.old.objects heap.new.objects members.old.items members.new.items (inequalities_in (object_at heap.old.objects firsts) (object_at heap.old.objects seconds))) }
{
    let mut firsts = firsts;
    let mut seconds = seconds;
    while let View::Pair(a, more) = heap.view(firsts) {
        let View::Pair(b, others) = heap.view(seconds) else {
            return Ok(());
        };
        let made = inequality(heap, a, b)?;
        members.push(made)?;
        firsts = more;
        seconds = others;
    }
    Ok(())
}

// The formula: not a1 = b1 or .. or not an = bn or e, for the members of two lists.
fn unless_equal(heap: &mut Heap, firsts: Ref, seconds: Ref, end: Ref) -> Result<Ref, Memory>
    requires firsts { IsIn heap.old.objects firsts }
    requires seconds { IsIn heap.old.objects seconds }
    requires end { IsIn heap.old.objects end }
    ensures grows { Grows heap.old.objects heap.new.objects }
    ensures within { IfOk result (λ r. IsIn heap.new.objects r) }
    ensures made { IfOk result (λ r. object_at heap.new.objects r ≡ unless_equal_object (object_at heap.old.objects firsts) (object_at heap.old.objects seconds) (object_at heap.old.objects end)) }
{
    let mut members = Vec::new(heap.alloc());
    put_inequalities(heap, firsts, seconds, &mut members)?;
    members.push(end)?;
    disjunction(heap, &members)
}

// Of an equation of two calls: that their actuals are not all equal, or the equation.
#[tactic(auto, using(crate::proofs::EqualCalls::no_equation, crate::proofs::EqualCalls::first_no_call, crate::proofs::EqualCalls::second_no_call, crate::proofs::EqualCalls::other_call, crate::proofs::EqualCalls::calls_made))]
fn of_equation(heap: &mut Heap, equation: Ref) -> Result<Option<Ref>, Memory>
    requires { IsIn heap.old.objects equation }
    ensures grows { Grows heap.old.objects heap.new.objects }
    ensures within { IfOk result (λ o. IfSome o (λ r. IsIn heap.new.objects r)) }
    ensures meant { IfOk result (λ o. (A : ArityTable) (F : Formula) → IsFormula A F → object_at heap.old.objects equation ≡ formula_object F → IsCandidate heap.new.objects (equality_of F) o) }
{
    let Some((a, b)) = heap.members_after(equation, Word::Pequal) else {
        return Ok(None);
    };
    let Some((is_if, firsts)) = actuals_of(heap, a) else {
        return Ok(None);
    };
    let Some((is_other_if, seconds)) = actuals_of(heap, b) else {
        return Ok(None);
    };
    if is_if != is_other_if {
        return Ok(None);
    }
    Ok(Some(unless_equal(heap, firsts, seconds, equation)?))
}

/// Of a formula whose last disjunct is (f a1 .. an) = (g b1 .. bn): not a1 = b1 or .. or not an = bn or that disjunct.
pub(crate) fn equal_calls(heap: &mut Heap, conclusion: Ref) -> Result<Option<Ref>, Memory>
    requires { IsIn heap.old.objects conclusion }
    ensures grows { Grows heap.old.objects heap.new.objects }
    ensures within { IfOk result (λ o. IfSome o (λ r. IsIn heap.new.objects r)) }
    ensures meant { IfOk result (λ o. (A : ArityTable) (F : Formula) → IsFormula A F → object_at heap.old.objects conclusion ≡ formula_object F → IsCandidate heap.new.objects (equality_of (last_disjunct F)) o) }
{
    let end = last_disjunct(heap, conclusion);
    of_equation(heap, end)
}
