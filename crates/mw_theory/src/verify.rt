//! The tests of a VERIFY.
ghost use Rattle.std.specs.Prelude.{◌≡◌, List, IfOk, option_map};
ghost use Rattle.mw_model.specs.Values.Primitive.{is_symbol};
ghost use Rattle.mw_model.specs.Terms.Object.{Object};
ghost use Rattle.mw_heap.specs.Objects.{object_at, IsIn, Grows};
ghost use Rattle.mw_heap.specs.Variants.{refusal_of};
ghost use Rattle.mw_term.specs.Marking.{AreMarks};
ghost use Rattle.mw_theory.specs.Knowledge.{parts_of, meant};
ghost use Rattle.mw_theory.specs.Settling.{verify_refusal};
ghost use Rattle.mw_theory.specs.Judging.{MayJudge, IsSameJudge};

use crate::judge::Judge;
use crate::symbol::is_symbol;
use crate::theory::Theory;
use mw_heap::{Heap, Memory, Ref, Refusal};
use mw_term::{Marks, is_formula};

/// Why a VERIFY of these members is refused, where it is: Name where its name is no symbol, Formula where its formula is none, and then
/// what the judge says.
pub(crate) fn refusal<J: Judge>(
    heap: &mut Heap,
    name: Ref,
    formula: Ref,
    proof: Ref,
    theory: &Theory,
    marks: &mut Marks,
    judge: &mut J,
) -> Result<Option<Refusal>, Memory>
    requires name { IsIn heap.old.objects name }
    requires formula { IsIn heap.old.objects formula }
    requires proof { IsIn heap.old.objects proof }
    requires may { MayJudge J.ready judge.old heap.old.objects theory.now marks.old }
    ensures grows { Grows heap.old.objects heap.new.objects }
    ensures marked { AreMarks theory.now.arity heap.new.objects marks.new }
    ensures judge { IsSameJudge J.ready J.judges J.limit judge.old judge.new }
    ensures refusal { (os : List Object) → Grows os heap.old.objects → J.ready judge.old os → IfOk result (λ r. option_map refusal_of r ≡ verify_refusal (J.judges judge.old os) (meant heap.old.objects (parts_of theory.now)) (object_at heap.old.objects name) (object_at heap.old.objects formula) (object_at heap.old.objects proof)) }
{
    if !is_symbol(heap, name) {
        return Ok(Some(Refusal::Name));
    }
    let below = heap.mark();
    marks.extend(heap, &theory.arity, below)?;
    if !is_formula(marks, formula) {
        return Ok(Some(Refusal::Formula));
    }
    judge.refusal(heap, formula, proof, theory, marks)
}
