//! The tests of a DEFINE or a DEFINE-ALL.
ghost use Rattle.std.specs.Prelude.{◌≡◌, List, IfOk, option_map};
ghost use Rattle.mw_model.specs.Terms.Object.{Object};
ghost use Rattle.mw_heap.specs.Objects.{object_at, IsIn, Grows};
ghost use Rattle.mw_heap.specs.Variants.{refusal_of};
ghost use Rattle.mw_term.specs.Marking.{AreMarks};
ghost use Rattle.mw_theory.specs.Knowledge.{parts_of, meant};
ghost use Rattle.mw_theory.specs.Admitting.{AreWithin, drafts_given};
ghost use Rattle.mw_theory.specs.Settling.{IsDefined};
ghost use Rattle.mw_theory.specs.Judging.{MayJudge, IsSameJudge};

use crate::admitting::{Drafts, admit_within};
use crate::judge::Judge;
use crate::proofs::{count_members, refusal_of_proofs};
use crate::theory::Theory;
use mw_define::Admitted;
use mw_heap::{Heap, Memory, Ref, Refusal};
use mw_term::Marks;

/// Why these functions with these proofs are refused, where they are: for the first test of the functions that fails, else for the proofs
/// of what they owe. The marks, which are under the theory's arity table, are extended.
pub(crate) fn refusal_of_definitions<J: Judge>(
    heap: &mut Heap,
    drafts: &Drafts,
    proofs: Ref,
    theory: &Theory,
    marks: &mut Marks,
    judge: &mut J,
) -> Result<Option<Refusal>, Memory>
    requires drafts { AreWithin heap.old.objects drafts.now }
    requires proofs { IsIn heap.old.objects proofs }
    requires may { MayJudge J.ready judge.old heap.old.objects theory.now marks.old }
    ensures grows { Grows heap.old.objects heap.new.objects }
    ensures marked { AreMarks theory.now.arity heap.new.objects marks.new }
    ensures judge { IsSameJudge J.ready J.judges J.limit judge.old judge.new }
    ensures defined { (os : List Object) → Grows os heap.old.objects → J.ready judge.old os → IfOk result (λ r. IsDefined (J.judges judge.old os) (meant heap.old.objects (parts_of theory.now)) (drafts_given heap.old.objects drafts.now) (object_at heap.old.objects proofs) (option_map refusal_of r)) }
{
    let most = count_members(heap, proofs);
    match admit_within(heap, *drafts, &theory.arity, most) {
        Admitted::Obligations(owed) => refusal_of_proofs(
            heap,
            owed.obligations,
            proofs,
            theory,
            marks,
            judge,
        ),
        Admitted::Refused(reason) => Ok(Some(reason)),
        Admitted::Memory => Err(Memory),
    }
}
