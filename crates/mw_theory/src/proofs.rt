//! The proofs that an event comes with, one for each formula that it owes.
ghost use Rattle.std.specs.Prelude.{◌≡◌, List, true, IfOk, option_map};
ghost use Rattle.mw_model.specs.Terms.Object.{Object, has_members};
ghost use Rattle.mw_model.specs.Terms.Term.{Formula};
ghost use Rattle.mw_model.specs.Laws.RulesInduction.{formulas_object, length_object};
ghost use Rattle.mw_heap.specs.Objects.{object_at, IsIn, Grows};
ghost use Rattle.mw_heap.specs.Variants.{refusal_of};
ghost use Rattle.mw_term.specs.Marking.{AreMarks};
ghost use Rattle.mw_theory.specs.Knowledge.{parts_of, meant};
ghost use Rattle.mw_theory.specs.Proofs.{judged_each, judged_all};
ghost use Rattle.mw_theory.specs.Judging.{MayJudge, IsSameJudge};

use crate::judge::Judge;
use crate::theory::Theory;
use mw_heap::{Heap, Memory, Ref, Refusal, View};
use mw_term::Marks;

/// Why this list of proofs is refused for the list of formulas, where it is: for its length, else for the first of its members that is
/// no proof of the formula at its place. It extends the marks, which are under the arity table.
pub(crate) fn refusal_of_proofs<J: Judge>(
    heap: &mut Heap,
    obligations: Ref,
    proofs: Ref,
    theory: &Theory,
    marks: &mut Marks,
    judge: &mut J,
) -> Result<Option<Refusal>, Memory>
    requires obligations { IsIn heap.old.objects obligations }
    requires proofs { IsIn heap.old.objects proofs }
    requires may { MayJudge J.ready judge.old heap.old.objects theory.now marks.old }
    ensures grows { Grows heap.old.objects heap.new.objects }
    ensures marked { AreMarks theory.now.arity heap.new.objects marks.new }
    ensures judge { IsSameJudge J.ready J.judges J.limit judge.old judge.new }
    ensures refusal { (os : List Object) → Grows os heap.old.objects → J.ready judge.old os → IfOk result (λ r. (Fs : List Formula) → object_at heap.old.objects obligations ≡ formulas_object Fs → option_map refusal_of r ≡ judged_all (J.judges judge.old os) (meant heap.old.objects (parts_of theory.now)) Fs (object_at heap.old.objects proofs)) }
{
    if !has_as_many(heap, proofs, obligations) {
        return Ok(Some(Refusal::Count));
    }
    first_refusal(heap, obligations, proofs, theory, marks, judge)
}

/// How many members a list has, whether or not it is a proper one.
pub(crate) fn count_members(heap: &Heap, list: Ref) -> u64
    requires { IsIn heap.now.objects list }
    ensures { result ≡ length_object (object_at heap.now.objects list) }
{
    let mut count = 0;
    let mut rest = list;
    while let View::Pair(_, more) = heap.view(rest) {
        count += 1;
        rest = more;
    }
    count
}

// Whether it is a proper list of as many members as the other list has.
fn has_as_many(heap: &Heap, list: Ref, other: Ref) -> bool
    requires list { IsIn heap.now.objects list }
    requires other { IsIn heap.now.objects other }
    ensures { result ≡ has_members (length_object (object_at heap.now.objects other)) (object_at heap.now.objects list) }
{
    let mut rest = list;
    let mut others = other;
    while let View::Pair(_, more) = heap.view(others) {
        let View::Pair(_, members) = heap.view(rest) else {
            return false;
        };
        rest = members;
        others = more;
    }
    heap.is_nil(Some(rest))
}

// The first refusal, proof by proof, of as many proofs as formulas.
fn first_refusal<J: Judge>(
    heap: &mut Heap,
    obligations: Ref,
    proofs: Ref,
    theory: &Theory,
    marks: &mut Marks,
    judge: &mut J,
) -> Result<Option<Refusal>, Memory>
    requires obligations { IsIn heap.old.objects obligations }
    requires proofs { IsIn heap.old.objects proofs }
    requires many { has_members (length_object (object_at heap.old.objects obligations)) (object_at heap.old.objects proofs) ≡ true }
    requires may { MayJudge J.ready judge.old heap.old.objects theory.now marks.old }
    ensures grows { Grows heap.old.objects heap.new.objects }
    ensures marked { AreMarks theory.now.arity heap.new.objects marks.new }
    ensures judge { IsSameJudge J.ready J.judges J.limit judge.old judge.new }
    ensures refusal { (os : List Object) → Grows os heap.old.objects → J.ready judge.old os → IfOk result (λ r. (Fs : List Formula) → object_at heap.old.objects obligations ≡ formulas_object Fs → option_map refusal_of r ≡ judged_each (J.judges judge.old os) (meant heap.old.objects (parts_of theory.now)) Fs (object_at heap.old.objects proofs)) }
{
    let mut formulas = obligations;
    let mut rest = proofs;
    while let View::Pair(formula, more) = heap.view(formulas) {
        let View::Pair(proof, others) = heap.view(rest) else {
            unreachable!()
        };
        let refusal = judge.refusal(heap, formula, proof, theory, marks)?;
        if refusal.is_some() {
            return Ok(refusal);
        }
        formulas = more;
        rest = others;
    }
    Ok(None)
}
