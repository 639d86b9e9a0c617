//! The conclusion that may be meant by a step, by its method.
ghost use Rattle.std.specs.Prelude.{◌≡◌, ◌<◌, true, length, map, slice_get, IfOk, List, IfSome};
ghost use Rattle.mw_model.specs.Terms.Term.{ArityTable, Formula, IsFormula, formula_object};
ghost use Rattle.mw_model.specs.Values.Truth.{Each};
ghost use Rattle.mw_heap.specs.Objects.{object_at, IsIn, Grows};
ghost use Rattle.mw_heap.specs.Variants.{profile_of};
ghost use Rattle.mw_term.specs.Marking.{AreMarks};
ghost use Rattle.mw_rules.specs.Methods.{method_of_logic};
ghost use Rattle.mw_commands.specs.Commands.ExplanationSteps.{are_extras};
ghost use Rattle.mw_bad_steps.specs.Candidates.{IsCandidate, AreStepParts, one_of, by_premises, meant_of};

use crate::candidate::{associativity, contraction, cut, expansion, schema};
use crate::computed::{beta, computed, instantiated};
use crate::equal_calls::equal_calls;
use mw_heap::{Heap, Memory, Profile, Ref};
use mw_rules::Method;
use mw_term::Marks;

// The conclusion of this number, where there is one.
fn nth(conclusions: &[Ref], index: usize) -> Option<Ref>
    ensures { result ≡ slice_get conclusions.now index }
{
    conclusions.get(index).copied()
}

// By a method that has one premise.
#[tactic(auto, using(crate::proofs::Methods::extras_of_instance))]
fn from_one(
    heap: &mut Heap,
    method: Method,
    conclusion: Ref,
    premise: Ref,
    extras: Ref,
    marks: &Marks,
) -> Result<Option<Ref>, Memory>
    requires conclusion { IsIn heap.old.objects conclusion }
    requires premise { IsIn heap.old.objects premise }
    requires extras { IsIn heap.old.objects extras }
    requires marked { extras < length marks.now }
    requires marks { (A : ArityTable) × AreMarks A heap.old.objects marks.now }
    ensures grows { Grows heap.old.objects heap.new.objects }
    ensures within { IfOk result (λ o. IfSome o (λ r. IsIn heap.new.objects r)) }
    ensures meant { IfOk result (λ o. (A : ArityTable) (F G : Formula) → AreMarks A heap.old.objects marks.now → IsFormula A G → object_at heap.old.objects conclusion ≡ formula_object F → object_at heap.old.objects premise ≡ formula_object G → are_extras A (method_of_logic method) (object_at heap.old.objects extras) ≡ true → IsCandidate heap.new.objects (one_of (method_of_logic method) F G (object_at heap.old.objects extras)) o) }
{
    match method {
        Method::Expansion => expansion(heap, conclusion, premise),
        Method::Contraction => Ok(contraction(heap, premise)),
        Method::Associativity => associativity(heap, premise),
        Method::Instantiation => instantiated(heap, premise, extras, marks),
        _ => Ok(None),
    }
}

// By a method that has premises.
#[tactic(auto, using(crate::proofs::FromPremises::nth_in, crate::proofs::FromPremises::nothing_first, crate::proofs::FromPremises::from_first, crate::proofs::FromPremises::no_second, crate::proofs::FromPremises::from_both))]
fn from_premises(
    heap: &mut Heap,
    method: Method,
    conclusion: Ref,
    conclusions: &[Ref],
    extras: Ref,
    marks: &Marks,
) -> Result<Option<Ref>, Memory>
    requires { AreStepParts heap.old.objects conclusion conclusions.now extras marks.now }
    ensures grows { Grows heap.old.objects heap.new.objects }
    ensures within { IfOk result (λ o. IfSome o (λ r. IsIn heap.new.objects r)) }
    ensures meant { IfOk result (λ o. (A : ArityTable) (F : Formula) (Fs : List Formula) → AreMarks A heap.old.objects marks.now → Each (IsFormula A) Fs → object_at heap.old.objects conclusion ≡ formula_object F → map (object_at heap.old.objects) conclusions.now ≡ map formula_object Fs → are_extras A (method_of_logic method) (object_at heap.old.objects extras) ≡ true → IsCandidate heap.new.objects (by_premises (method_of_logic method) F Fs (object_at heap.old.objects extras)) o) }
{
    let Some(first) = nth(conclusions, 0) else {
        return Ok(None);
    };
    if let Method::Cut = method {
        let Some(second) = nth(conclusions, 1) else {
            return Ok(None);
        };
        return cut(heap, first, second);
    }
    from_one(heap, method, conclusion, first, extras, marks)
}

/// The conclusion that may be meant by a step of this method, with these conclusions of subproofs and these extras, where its own is the
/// formula `conclusion`. There is none where none is meant, or where it holds a natural past the range. The error is out of memory, also
/// where no look is left.
pub(crate) fn candidate(
    heap: &mut Heap,
    method: Method,
    conclusion: Ref,
    conclusions: &[Ref],
    extras: Ref,
    profile: Profile,
    marks: &Marks,
) -> Result<Option<Ref>, Memory>
    requires { AreStepParts heap.old.objects conclusion conclusions.now extras marks.now }
    ensures grows { Grows heap.old.objects heap.new.objects }
    ensures within { IfOk result (λ o. IfSome o (λ r. IsIn heap.new.objects r)) }
    ensures meant { IfOk result (λ o. (A : ArityTable) (F : Formula) (Fs : List Formula) → AreMarks A heap.old.objects marks.now → IsFormula A F → Each (IsFormula A) Fs → object_at heap.old.objects conclusion ≡ formula_object F → map (object_at heap.old.objects) conclusions.now ≡ map formula_object Fs → are_extras A (method_of_logic method) (object_at heap.old.objects extras) ≡ true → IsCandidate heap.new.objects (meant_of (profile_of profile) (method_of_logic method) F Fs (object_at heap.old.objects extras)) o) }
{
    match method {
        Method::PropositionalSchema => schema(heap, conclusion),
        Method::FunctionalEquality => equal_calls(heap, conclusion),
        Method::BetaReduction => beta(heap, conclusion),
        Method::BaseEval => computed(heap, conclusion, profile),
        Method::Axiom | Method::Theorem | Method::Induction => Ok(None),
        _ => from_premises(heap, method, conclusion, conclusions, extras, marks),
    }
}
