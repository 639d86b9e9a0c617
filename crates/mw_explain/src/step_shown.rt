//! A step as it is shown, with the condition that it fails and what that wants.
ghost use Rattle.std.specs.Prelude.{◌≡◌, [], ◌∷◌, true, option_map, option_to_list, IfOk, All};
ghost use Rattle.mw_model.specs.Terms.Object.{Symbol, name_of_bytes, is_name};
ghost use Rattle.mw_heap.specs.Objects.{object_at, IsIn, Grows};
ghost use Rattle.mw_heap.specs.Parts.{IsPart};
ghost use Rattle.mw_commands.specs.Commands.ExplanationSteps.{step_shown};
ghost use Rattle.mw_bad_steps.specs.Shown.{Shows};

use mw_bad_steps::{first_and_rest, seconds_of};
use mw_heap::{Heap, Memory, Ref, list_of};

// The list of the method, the conclusion, the conclusions of the subproofs and the extras, each NIL where there is none.
#[tactic(auto, using(crate::proofs::ShownSteps::conclusions_listed))]
fn step_shown(heap: &mut Heap, step: Ref) -> Result<Ref, Memory>
    requires { IsIn heap.old.objects step }
    ensures grows { Grows heap.old.objects heap.new.objects }
    ensures within { IfOk result (λ r. IsIn heap.new.objects r) }
    ensures made { IfOk result (λ r. object_at heap.new.objects r ≡ step_shown (object_at heap.old.objects step)) }
{
    let nil = heap.nil()?;
    let (method, rest) = first_and_rest(heap, step, nil);
    let (conclusion, rest) = first_and_rest(heap, rest, nil);
    let (subproofs, rest) = first_and_rest(heap, rest, nil);
    let (extras, _) = first_and_rest(heap, rest, nil);
    let seconds = seconds_of(heap, subproofs, nil)?;
    let conclusions = list_of(heap, &seconds)?;
    list_of(heap, &[method, conclusion, conclusions, extras])
}

// The step and a word.
fn begin(heap: &mut Heap, step: Ref, word: &[u8]) -> Result<Vec<Ref>, Memory>
    requires step { IsIn heap.old.objects step }
    requires word { is_name word.now ≡ true }
    ensures grows { Grows heap.old.objects heap.new.objects }
    ensures shown { IfOk result (λ v. Shows heap.new.objects v.items (step_shown (object_at heap.old.objects step) ∷ Symbol (name_of_bytes word.now) ∷ [])) }
{
    let whole = step_shown(heap, step)?;
    let word = heap.symbol(word)?;
    let mut shown = Vec::new(heap.alloc());
    shown.push(whole)?;
    shown.push(word)?;
    Ok(shown)
}

/// The step, a word and what is wanted, where something is.
pub(crate) fn condition_shown(
    heap: &mut Heap,
    step: Ref,
    word: &[u8],
    wanted: Option<Ref>,
) -> Result<Vec<Ref>, Memory>
    requires step { IsIn heap.old.objects step }
    requires word { is_name word.now ≡ true }
    requires wanted { IsPart heap.old.objects wanted }
    ensures grows { Grows heap.old.objects heap.new.objects }
    ensures shown { IfOk result (λ v. Shows heap.new.objects v.items (step_shown (object_at heap.old.objects step) ∷ Symbol (name_of_bytes word.now) ∷ option_to_list (option_map (object_at heap.old.objects) wanted))) }
{
    let mut shown = begin(heap, step, word)?;
    match wanted {
        None => Ok(shown),
        Some(wanted) => {
            shown.push(wanted)?;
            Ok(shown)
        }
    }
}
