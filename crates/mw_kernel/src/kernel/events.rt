//! What an event comes to, by its word.
ghost use Rattle.std.specs.Prelude.{◌≡◌, length, IfOk, OnOk};
ghost use Rattle.mw_model.specs.Events.Theory.{IsSound};
ghost use Rattle.mw_model.specs.Events.Refusal.{Refused};
ghost use Rattle.mw_model.specs.Events.Fate.{fate, happens, eval};
ghost use Rattle.mw_heap.specs.Objects.{object_at, IsIn, Grows};
ghost use Rattle.mw_heap.specs.Variants.{refusal_of};
ghost use Rattle.mw_kernel.specs.Knowledge.{theory_of};
ghost use Rattle.mw_kernel.specs.Proofs.{judged_for};
ghost use Rattle.mw_theory.specs.Settled.{settles};
ghost use Rattle.mw_commands.specs.Commands.Explanation.{why};
ghost use Rattle.mw_kernel.specs.Explained.{PutsLine, PutsWhy};
ghost use Rattle.mw_kernel.specs.Fates.{fate_of, Comes};
ghost use Rattle.mw_theory.specs.Words.{eval_event, StandsBefore};
ghost use Rattle.mw_kernel.specs.Switching.{switched};

use crate::Fate;
use crate::eval::evaluated;
use crate::explainer::Explainer;
use crate::fate::{accepted, fate_after, shown};
use crate::kernel::Kernel;
use crate::switch::refusal_of_switch;
use crate::why::put_reason;
use mw_heap::{Memory, Ref, Refusal};
use mw_model::theory::refusals;
use mw_reflect::reached_sound;
use mw_theory::{Event, event_of};
use mw_truth::soundness::events_keep;

impl Kernel {
    /// The fate of the event; what it leaves in the heap is still there.
    pub(crate) fn happens(&mut self, event: Ref) -> Result<Fate, Memory>
        requires { IsIn self.old.objects event }
        ensures { Comes result self.old self.new (happens (theory_of self.old) self.old.steps (object_at self.old.objects event)) }
    {
        events_keep();
        reached_sound();
        let Some(members) = event_of(&self.world.heap, event) else {
            return Ok(Fate::Refused(Refusal::Event));
        };
        match members {
            Event::Eval(term) => self.eval(term),
            Event::Print(x) => shown(&self.world.heap, x),
            Event::Switch(name) => self.switch(name),
            _ => self.settle(members),
        }
    }

    /// The fate of the event; of one that is refused the line that says why is put behind `out`. What it leaves in the heap is still there.
    pub(crate) fn happens_explained<E: Explainer>(
        &mut self,
        event: Ref,
        number: u64,
        by: &E,
        out: &mut Vec<u8>,
    ) -> Result<Fate, Memory>
        requires { IsIn self.old.objects event }
        ensures comes { Comes result self.old self.new (happens (theory_of self.old) self.old.steps (object_at self.old.objects event)) }
        ensures why { IfOk result (λ f. PutsWhy number (fate_of f) (theory_of self.old) self.old.steps (object_at self.old.objects event) out.old.items out.new.items) }
    {
        refusals();
        let fate = self.happens(event)?;
        match fate {
            Fate::Accepted(text) => Ok(Fate::Accepted(text)),
            Fate::Refused(reason) => self.refused_for(event, number, reason, by, out),
        }
    }

    // The fate of an event that is refused for this reason: the line that says why is put behind `out`.
    fn refused_for<E: Explainer>(
        &mut self,
        event: Ref,
        number: u64,
        reason: Refusal,
        by: &E,
        out: &mut Vec<u8>,
    ) -> Result<Fate, Memory>
        requires event { IsIn self.old.objects event }
        requires refused { fate (theory_of self.old) (object_at self.old.objects event) self.old.steps ≡ Refused (refusal_of reason) }
        ensures fate { IfOk result (λ f. fate_of f ≡ Refused (refusal_of reason)) }
        ensures theory { theory_of self.new ≡ theory_of self.old }
        ensures grows { Grows self.old.objects self.new.objects }
        ensures rest { self.new ≡ record self.old { objects = self.new.objects } }
        ensures why { OnOk result (PutsLine (why number (refusal_of reason) (theory_of self.old) self.old.steps (object_at self.old.objects event)) out.old.items out.new.items) }
    {
        let parts = by.parts_shown(
            &mut self.world.heap,
            &self.world.theory,
            &mut self.world.marks,
            &mut self.checker,
            reason,
            event,
        )?;
        put_reason(&mut self.world.heap, number, reason, parts.as_slice(), out)?;
        Ok(Fate::Refused(reason))
    }

    // The fate of an event whose proofs the theory's checker judges, or that has none.
    fn settle(&mut self, event: Event) -> Result<Fate, Memory>
        requires within { StandsBefore (length self.old.objects) event }
        requires sound { IsSound (settles (judged_for self.old.steps) self.old.objects (theory_of self.old) event).1 }
        ensures { Comes result self.old self.new (settles (judged_for self.old.steps) self.old.objects (theory_of self.old) event) }
    {
        let refused = self.world.settle(event, &mut self.checker)?;
        Ok(fate_after(&self.world.heap, refused))
    }

    // The fate of an EVAL, by which the theory stays.
    fn eval(&mut self, term: Ref) -> Result<Fate, Memory>
        requires { IsIn self.old.objects term }
        ensures { Comes result self.old self.new (eval (theory_of self.old) self.old.steps (eval_event (object_at self.old.objects term))) }
    {
        evaluated(
            &mut self.world.heap,
            term,
            &self.world.theory.arity,
            &mut self.world.theory.table,
            &mut self.checker.machine,
            self.checker.steps,
        )
    }

    // The fate of a SWITCH to the function of this name. Past the greatest level that a number of 64 bits holds the answer is out of memory.
    fn switch(&mut self, name: Ref) -> Result<Fate, Memory>
        requires name { IsIn self.old.objects name }
        requires sound { IsSound (switched (theory_of self.old) (object_at self.old.objects name)).1 }
        ensures { Comes result self.old self.new (switched (theory_of self.old) (object_at self.old.objects name)) }
    {
        let refused = refusal_of_switch(&mut self.world.heap, name, &self.world.theory)?;
        if let Some(reason) = refused {
            return Ok(Fate::Refused(reason));
        }
        self.world.set_checker(name)?;
        Ok(accepted(&self.world.heap))
    }
}
