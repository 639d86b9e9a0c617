//! Steps by the further rules.
ghost use Rattle.std.specs.Prelude.{◌≡◌, ◌≢◌, [], ◌∷◌, length, MatchOption, All, IfOk};
ghost use Rattle.mw_heap.specs.Objects.{object_at, IsIn, Grows};
ghost use Rattle.mw_heap.specs.Lists.{list_object};
ghost use Rattle.mw_lower.specs.Answers.{AnswersStep, AnswersAll};
ghost use Rattle.mw_lower.specs.Further.{rule_of};

use crate::further::Further;
use crate::replace::replace;
use crate::steps::{chain, commute, detach, turn_round};
use mw_heap::{Heap, Memory, Ref};
use mw_proof::Members;

/// A proof of the conclusion of a step by a further rule, from proofs of its premises; nothing where it does not hold.
pub(crate) fn further_step(
    heap: &mut Heap,
    rule: Further,
    step: Members,
    proofs: &[Ref],
) -> Result<Option<Ref>, Memory>
    requires conclusion { IsIn heap.old.objects step.conclusion }
    requires extras { IsIn heap.old.objects step.extras }
    requires proofs { All (IsIn heap.old.objects) proofs.now }
    ensures grows { Grows heap.old.objects heap.new.objects }
    ensures answer { IfOk result (AnswersStep (rule_of rule) (object_at heap.old.objects step.conclusion) (object_at heap.old.objects step.extras) (list_object heap.old.objects proofs.now) heap.new.objects) }
{
    if heap.is_nil(Some(step.extras)) {
        without_extras(heap, rule, step.conclusion, proofs)
    } else {
        Ok(None)
    }
}

// The same where there are no extras.
fn without_extras(
    heap: &mut Heap,
    rule: Further,
    c: Ref,
    proofs: &[Ref],
) -> Result<Option<Ref>, Memory>
    requires conclusion { IsIn heap.old.objects c }
    requires proofs { All (IsIn heap.old.objects) proofs.now }
    ensures grows { Grows heap.old.objects heap.new.objects }
    ensures answer { IfOk result (AnswersAll (rule_of rule) (object_at heap.old.objects c) (list_object heap.old.objects proofs.now) heap.new.objects) }
{
    match rule {
        Further::CommuteOr => match alone(proofs) {
            Some(p) => commute(heap, c, p),
            None => Ok(None),
        },
        Further::Symmetry => match alone(proofs) {
            Some(p) => turn_round(heap, c, p),
            None => Ok(None),
        },
        Further::ModusPonens => match both(proofs) {
            Some((p, q)) => detach(heap, c, p, q),
            None => Ok(None),
        },
        Further::Transitivity => match both(proofs) {
            Some((p, q)) => chain(heap, c, p, q),
            None => Ok(None),
        },
        Further::Replace => replace(heap, c, proofs),
    }
}

// The only proof.
fn alone(proofs: &[Ref]) -> Option<Ref>
    ensures { MatchOption result (length proofs.now ≢ 1) (λ p. proofs.now ≡ p ∷ []) }
{
    match proofs {
        [p] => Some(*p),
        _ => None,
    }
}

// The two proofs.
fn both(proofs: &[Ref]) -> Option<(Ref, Ref)>
    ensures { MatchOption result (length proofs.now ≢ 2) (λ r. proofs.now ≡ r.0 ∷ r.1 ∷ []) }
{
    match proofs {
        [p, q] => Some((*p, *q)),
        _ => None,
    }
}
