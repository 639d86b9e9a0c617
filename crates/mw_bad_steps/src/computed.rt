//! Conclusions that may be meant by steps that compute: beta reduction, a primitive function at constants, and instantiation.
ghost use Rattle.std.specs.Prelude.{◌≡◌, ◌<◌, ◌∷◌, [], true, length, option_map, Some, IfOk, IfSome};
ghost use Rattle.mw_model.specs.Terms.Object.{second_of, third_of, car, NIL};
ghost use Rattle.mw_model.specs.Terms.Term.{ArityTable, Term, Formula, IsTerm, IsFormula, term_object, formula_object};
ghost use Rattle.mw_model.specs.Terms.Substitution.{substitute_formula, substitution_of};
ghost use Rattle.mw_model.specs.Laws.Rules.{is_substitution_object};
ghost use Rattle.mw_heap.specs.Objects.{object_at, IsIn, Grows};
ghost use Rattle.mw_heap.specs.Parts.{part_at, IsPart};
ghost use Rattle.mw_heap.specs.Variants.{profile_of};
ghost use Rattle.mw_base.specs.Answers.{arity, value_of};
ghost use Rattle.mw_term.specs.Marking.{AreMarks};
ghost use Rattle.mw_bad_steps.specs.Candidates.{IsCandidate, IsValue, beta_of, computed_of, value_of_call};

use crate::conclusions::or_nil;
use crate::formulas::{equal, quoted};
use crate::instance::instance;
use mw_base::{Applied, Truths, apply, are_constants};
use mw_equal::reduced;
use mw_heap::{Heap, Memory, Primitive, Profile, Ref, View, Word};
use mw_term::{Marks, is_substitution};

/// Of ((lambda (x1 .. xn) b) t1 .. tn) = r: the same with b with t1 .. tn for x1 .. xn in place of r.
#[tactic(auto, using(crate::proofs::ComputedValues::nothing_reduced, crate::proofs::ComputedValues::no_lambda_call, crate::proofs::ComputedValues::lambda_reduced))]
pub(crate) fn beta(heap: &mut Heap, conclusion: Ref) -> Result<Option<Ref>, Memory>
    requires { IsIn heap.old.objects conclusion }
    ensures grows { Grows heap.old.objects heap.new.objects }
    ensures within { IfOk result (λ o. IfSome o (λ r. IsIn heap.new.objects r)) }
    ensures meant { IfOk result (λ o. (A : ArityTable) (F : Formula) → IsFormula A F → object_at heap.old.objects conclusion ≡ formula_object F → IsCandidate heap.new.objects (beta_of F) o) }
{
    let Some((call, _)) = heap.members_after(conclusion, Word::Pequal) else {
        return Ok(None);
    };
    let View::Pair(function, arguments) = heap.view(call) else {
        return Ok(None);
    };
    let View::Pair(_, _) = heap.view(function) else {
        return Ok(None);
    };
    let made = reduced(heap, function, arguments)?;
    Ok(Some(equal(heap, call, made)?))
}

// The object that a constant quotes; NIL of any other object, and where there is none.
fn unquoted(heap: &Heap, x: Option<Ref>, nil: Ref) -> Ref
    requires part { IsPart heap.now.objects x }
    requires nil_in { IsIn heap.now.objects nil }
    requires nil { object_at heap.now.objects nil ≡ NIL }
    ensures within { IsIn heap.now.objects result }
    ensures value { object_at heap.now.objects result ≡ second_of (part_at heap.now.objects x) }
{
    match x {
        Some(x) => or_nil(heap.second_of(x), nil),
        None => nil,
    }
}

// How many arguments a primitive function, or IF, takes.
fn count(p: Primitive) -> usize
    ensures { result ≡ arity p }
{
    match p {
        Primitive::Consp | Primitive::Car | Primitive::Cdr | Primitive::Symbolp | Primitive::Natp =>
            1,
        Primitive::If => 3,
        _ => 2,
    }
}

// The value of a primitive function, or of IF, at as many of the constants of a list as it takes. There is none where it is past the
// range.
fn value_at(heap: &mut Heap, p: Primitive, constants: Ref) -> Result<Option<Ref>, Memory>
    requires { IsIn heap.old.objects constants }
    ensures grows { Grows heap.old.objects heap.new.objects }
    ensures within { IfOk result (λ o. IfSome o (λ r. IsIn heap.new.objects r)) }
    ensures value { IfOk result (λ o. IsValue heap.new.objects (Some (value_of p (second_of (car (object_at heap.old.objects constants)) ∷ second_of (second_of (object_at heap.old.objects constants)) ∷ second_of (third_of (object_at heap.old.objects constants)) ∷ []))) o) }
{
    let truths = Truths::new(heap)?;
    let a = unquoted(heap, heap.car(constants), truths.nil);
    let b = unquoted(heap, heap.second_of(constants), truths.nil);
    let c = unquoted(heap, heap.third_of(constants), truths.nil);
    let arguments = [a, b, c];
    match apply(heap, p, &arguments[..count(p)], &truths) {
        Applied::Value(value) => Ok(Some(value)),
        Applied::Overflow => Ok(None),
        Applied::Memory => Err(Memory),
    }
}

// The value of a call of a primitive function, or of IF, at constants. There is none of another call, nor where it is past the range.
#[tactic(auto, using(crate::proofs::ComputedValues::no_pair_value, crate::proofs::ComputedValues::no_symbol_value, crate::proofs::ComputedValues::no_word_value, crate::proofs::ComputedValues::no_constants_value, crate::proofs::ComputedValues::call_value_is))]
fn call_value(heap: &mut Heap, call: Ref, profile: Profile) -> Result<Option<Ref>, Memory>
    requires { IsIn heap.old.objects call }
    ensures grows { Grows heap.old.objects heap.new.objects }
    ensures within { IfOk result (λ o. IfSome o (λ r. IsIn heap.new.objects r)) }
    ensures value { IfOk result (λ o. (A : ArityTable) (t : Term) → IsTerm A t → object_at heap.old.objects call ≡ term_object t → IsValue heap.new.objects (value_of_call (profile_of profile) t) o) }
{
    let View::Pair(f, constants) = heap.view(call) else {
        return Ok(None);
    };
    let View::Symbol = heap.view(f) else {
        return Ok(None);
    };
    let Some(p) = Primitive::named(heap.name_of(f), profile) else {
        return Ok(None);
    };
    if !are_constants(heap, constants) {
        return Ok(None);
    }
    value_at(heap, p, constants)
}

/// Of (f 'c1 .. 'cn) = r, where f is a primitive function of the profile, or IF: the same with the value of the call, quoted, in place of
/// r. There is none where the value is past the range.
#[tactic(auto, using(crate::proofs::ComputedValues::nothing_computed, crate::proofs::ComputedValues::none_computed, crate::proofs::ComputedValues::one_computed))]
pub(crate) fn computed(
    heap: &mut Heap,
    conclusion: Ref,
    profile: Profile,
) -> Result<Option<Ref>, Memory>
    requires { IsIn heap.old.objects conclusion }
    ensures grows { Grows heap.old.objects heap.new.objects }
    ensures within { IfOk result (λ o. IfSome o (λ r. IsIn heap.new.objects r)) }
    ensures meant { IfOk result (λ o. (A : ArityTable) (F : Formula) → IsFormula A F → object_at heap.old.objects conclusion ≡ formula_object F → IsCandidate heap.new.objects (computed_of (profile_of profile) F) o) }
{
    let Some((call, _)) = heap.members_after(conclusion, Word::Pequal) else {
        return Ok(None);
    };
    let Some(value) = call_value(heap, call, profile)? else {
        return Ok(None);
    };
    let constant = quoted(heap, value)?;
    Ok(Some(equal(heap, call, constant)?))
}

/// Of a premise and extras that are a substitution: the premise under the substitution.
#[tactic(auto, using(crate::proofs::ComputedValues::instance_made))]
pub(crate) fn instantiated(
    heap: &mut Heap,
    premise: Ref,
    extras: Ref,
    marks: &Marks,
) -> Result<Option<Ref>, Memory>
    requires premise { IsIn heap.old.objects premise }
    requires extras { IsIn heap.old.objects extras }
    requires marked { extras < length marks.now }
    requires marks { (A : ArityTable) × AreMarks A heap.old.objects marks.now }
    ensures grows { Grows heap.old.objects heap.new.objects }
    ensures within { IfOk result (λ o. IfSome o (λ r. IsIn heap.new.objects r)) }
    ensures meant { IfOk result (λ o. (A : ArityTable) (F : Formula) → AreMarks A heap.old.objects marks.now → IsFormula A F → object_at heap.old.objects premise ≡ formula_object F → is_substitution_object A (object_at heap.old.objects extras) ≡ true → IsCandidate heap.new.objects (option_map (λ s. substitute_formula s F) (substitution_of (object_at heap.old.objects extras))) o) }
{
    if !is_substitution(heap, marks, extras) {
        return Ok(None);
    }
    Ok(Some(instance(heap, premise, extras)?))
}
