//! What is shown of definitions that are refused.
ghost use Rattle.std.specs.Prelude.{◌≡◌, List, Some, IfOk, map};
ghost use Rattle.mw_model.specs.Terms.Term.{Formula, formula_object};
ghost use Rattle.mw_model.specs.Laws.RulesInduction.{formulas_object};
ghost use Rattle.mw_model.specs.Events.Refusal.{Refused};
ghost use Rattle.mw_model.specs.Events.Admission.{Draft as Given, some_drafts};
ghost use Rattle.mw_heap.specs.Objects.{object_at, IsIn, Grows};
ghost use Rattle.mw_heap.specs.Variants.{refusal_of};
ghost use Rattle.mw_define.specs.Blocks.{draft_at, AreDraftsIn};
ghost use Rattle.mw_define.specs.BlockTests.{FailsBlock};
ghost use Rattle.mw_theory.specs.Admitting.{AreWithin, drafts_given};
ghost use Rattle.mw_theory.specs.Knowledge.{parts_of, meant};
ghost use Rattle.mw_theory.specs.Settling.{defined};
ghost use Rattle.mw_bad_steps.specs.Shown.{Shows};
ghost use Rattle.mw_kernel.specs.Proofs.{judged_for};
ghost use Rattle.mw_kernel.specs.Standing.{Stands, Keeps};
ghost use Rattle.mw_explain_events.specs.Reasons.{is_of_definitions};
ghost use Rattle.mw_explain_events.specs.Defining.{Owe, block_shown, definitions_shown};

use crate::proofs::first_refused_shown;
use mw_define::{Admitted, Draft, read_drafts};
use mw_explain::definition_shown;
use mw_heap::{Heap, Memory, Ref, Refusal};
use mw_kernel::Checker;
use mw_term::{Arity, Marks};
use mw_theory::{Drafts, Theory, admit};

/// Whether it is a reason for which definitions are refused by their own tests.
pub(crate) fn is_of_definitions(reason: Refusal) -> bool
    ensures { result ≡ is_of_definitions (refusal_of reason) }
{
    match reason {
        Refusal::Name | Refusal::Formals | Refusal::Term | Refusal::Variables | Refusal::Nested =>
            true,
        _ => false,
    }
}

// The drafts of a list that has some.
fn read_block(heap: &Heap, list: Ref) -> Result<Vec<Draft>, Memory>
    requires within { IsIn heap.now.objects list }
    requires some { (ds : List Given) × (some_drafts (object_at heap.now.objects list) ≡ Some ds) }
    ensures within { IfOk result (λ v. AreDraftsIn heap.now.objects v.items) }
    ensures drafts { IfOk result (λ v. some_drafts (object_at heap.now.objects list) ≡ Some (map (draft_at heap.now.objects) v.items)) }
{
    let drafts = read_drafts(heap, list)?;
    match drafts {
        Some(block) => Ok(block),
        None => unreachable!(),
    }
}

// What is shown of definitions that fail their tests.
fn block_shown(
    heap: &mut Heap,
    reason: Refusal,
    drafts: Drafts,
    arity: &Arity,
) -> Result<Vec<Ref>, Memory>
    requires drafts { AreWithin heap.old.objects drafts }
    requires fails { (ds : List Given) × (drafts_given heap.old.objects drafts ≡ Some ds) × FailsBlock arity.now ds (refusal_of reason) }
    ensures grows { Grows heap.old.objects heap.new.objects }
    ensures shown { IfOk result (λ v. Shows heap.new.objects v.items (block_shown (refusal_of reason) arity.now (drafts_given heap.old.objects drafts))) }
{
    match drafts {
        Drafts::One(draft) => definition_shown(heap, reason, &[draft], arity, true),
        Drafts::All(list) => {
            let block = read_block(heap, list)?;
            definition_shown(heap, reason, block.as_slice(), arity, true)
        }
    }
}

// The list of the formulas that are owed for definitions, which pass their tests.
fn obligations(heap: &mut Heap, drafts: Drafts, arity: &Arity) -> Result<Ref, Memory>
    requires drafts { AreWithin heap.old.objects drafts }
    requires owe { (Fs : List Formula) × Owe arity.now (drafts_given heap.old.objects drafts) Fs }
    ensures grows { Grows heap.old.objects heap.new.objects }
    ensures within { IfOk result (IsIn heap.new.objects) }
    ensures owed { IfOk result (λ r. (Fs : List Formula) → Owe arity.now (drafts_given heap.old.objects drafts) Fs → object_at heap.new.objects r ≡ formulas_object Fs) }
{
    match admit(heap, drafts, arity) {
        Admitted::Obligations(owed) => Ok(owed.obligations),
        Admitted::Refused(_) => unreachable!(),
        Admitted::Memory => Err(Memory),
    }
}

// Obligations that are made only to be shown leave this many of the looks of the event.
const LOOKS_KEPT: u64 = 1 << 25;

// These formulas.
fn obligations_shown(heap: &mut Heap, drafts: Drafts, arity: &Arity) -> Result<Vec<Ref>, Memory>
    requires drafts { AreWithin heap.old.objects drafts }
    requires owe { (Fs : List Formula) × Owe arity.now (drafts_given heap.old.objects drafts) Fs }
    ensures grows { Grows heap.old.objects heap.new.objects }
    ensures shown { IfOk result (λ v. (Fs : List Formula) → Owe arity.now (drafts_given heap.old.objects drafts) Fs → Shows heap.new.objects v.items (map formula_object Fs)) }
{
    heap.take_looks(LOOKS_KEPT)?;
    let owed = obligations(heap, drafts, arity)?;
    heap.list_members(owed)
}

/// What is shown of a DEFINE or a DEFINE-ALL that gives these definitions, with these proofs, and that is refused for this reason: where
/// the definitions fail their tests, the part that does; where there are more or fewer obligations than proofs, all obligations; and else
/// the first proof that is refused. The error is out of memory.
pub(crate) fn definitions_shown(
    heap: &mut Heap,
    theory: &Theory,
    marks: &mut Marks,
    checker: &mut Checker,
    reason: Refusal,
    drafts: Drafts,
    proofs: Ref,
) -> Result<Vec<Ref>, Memory>
    requires drafts { AreWithin heap.old.objects drafts }
    requires proofs { IsIn heap.old.objects proofs }
    requires stands { Stands heap.old.objects theory.now marks.old }
    requires refused { (defined (judged_for checker.old.steps) (meant heap.old.objects (parts_of theory.now)) (drafts_given heap.old.objects drafts) (object_at heap.old.objects proofs)).0 ≡ Refused (refusal_of reason) }
    ensures kept { Keeps theory.now.arity heap.old.objects heap.new.objects marks.new }
    ensures steps { checker.new.steps ≡ checker.old.steps }
    ensures shown { IfOk result (λ v. Shows heap.new.objects v.items (definitions_shown (refusal_of reason) (meant heap.old.objects (parts_of theory.now)) checker.old.steps (drafts_given heap.old.objects drafts) (object_at heap.old.objects proofs))) }
{
    if is_of_definitions(reason) {
        return block_shown(heap, reason, drafts, &theory.arity);
    }
    match reason {
        Refusal::Event => Ok(Vec::new(heap.alloc())),
        Refusal::Count => obligations_shown(heap, drafts, &theory.arity),
        _ => {
            let owed = obligations(heap, drafts, &theory.arity)?;
            first_refused_shown(heap, theory, marks, checker, reason, owed, proofs)
        }
    }
}
