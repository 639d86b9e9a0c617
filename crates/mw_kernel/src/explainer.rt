//! What an event that is refused is explained by.
ghost use Rattle.std.specs.Prelude.{◌≡◌, IfOk};
ghost use Rattle.mw_model.specs.Events.Refusal.{Refused};
ghost use Rattle.mw_model.specs.Events.Fate.{fate};
ghost use Rattle.mw_heap.specs.Objects.{object_at, IsIn, Grows};
ghost use Rattle.mw_heap.specs.Variants.{refusal_of};
ghost use Rattle.mw_term.specs.Marking.{AreMarks};
ghost use Rattle.mw_theory.specs.Knowledge.{parts_of, meant, IsHeld};
ghost use Rattle.mw_commands.specs.Commands.Explanation.{shown, word_of};
ghost use Rattle.mw_bad_steps.specs.Shown.{Shows};

use crate::checker::Checker;
use mw_heap::{Heap, Memory, Ref, Refusal};
use mw_term::Marks;
use mw_theory::Theory;

/// What finds the parts that are shown of an event that is refused.
pub trait Explainer {
    /// What is shown of an event that the theory refuses for this reason. The marks, which are under the theory's arity table, may come to
    /// reach further. The error is out of memory.
    fn parts_shown(
        &self,
        heap: &mut Heap,
        theory: &Theory,
        marks: &mut Marks,
        checker: &mut Checker,
        reason: Refusal,
        event: Ref,
    ) -> Result<Vec<Ref>, Memory>
        requires event { IsIn heap.old.objects event }
        requires held { IsHeld heap.old.objects theory.now }
        requires marked { AreMarks theory.now.arity heap.old.objects marks.old }
        requires refused { fate (meant heap.old.objects (parts_of theory.now)) (object_at heap.old.objects event) checker.old.steps ≡ Refused (refusal_of reason) }
        ensures grows { Grows heap.old.objects heap.new.objects }
        ensures marked { AreMarks theory.now.arity heap.new.objects marks.new }
        ensures steps { checker.new.steps ≡ checker.old.steps }
        ensures shown { IfOk result (λ v. Shows heap.new.objects v.items (shown (refusal_of reason) (word_of (object_at heap.old.objects event)) (meant heap.old.objects (parts_of theory.now)) checker.old.steps (object_at heap.old.objects event))) };
}
