//! Events whose proofs a judge judges, and those without proofs: why they are refused, or the theory with what they add.
ghost use Rattle.std.specs.Prelude.{◌≡◌, None, length};
ghost use Rattle.mw_model.specs.Terms.Object.{Object, NIL};
ghost use Rattle.mw_model.specs.Events.Theory.{IsSound};
ghost use Rattle.mw_model.specs.Events.Fate.{profile};
ghost use Rattle.mw_heap.specs.Objects.{object_at, IsIn};
ghost use Rattle.mw_theory.specs.Proofs.{Judge as Judges};
ghost use Rattle.mw_theory.specs.Worlds.{theory_in, IsWorld};
ghost use Rattle.mw_theory.specs.Admitting.{AreWithin, drafts_given};
ghost use Rattle.mw_theory.specs.Settling.{defined, IsAccepted, skolem_at, verified};
ghost use Rattle.mw_theory.specs.Settled.{settles, Settles};
ghost use Rattle.mw_theory.specs.Words.{profile_event, StandsBefore};

use crate::admitting::{Drafts, admit, admit_within, functions_of, mark_after, witness_of};
use crate::define::refusal_of_definitions;
use crate::event::Event;
use crate::judge::Judge;
use crate::mark::later;
use crate::profile::profile_numbered;
use crate::verify::refusal;
use crate::world::World;
use mw_define::{Admitted, Draft, admit_witness};
use mw_heap::{Memory, Profile, Ref, Refusal};

impl World {
    /// Changes the theory by an event, whose proofs the judge judges, or answers why the event is refused. A SWITCH, an EVAL and a PRINT
    /// change nothing here, and are refused as Event. After a refusal the heap still has what was made for the tests. The one error is
    /// out of memory: then the theory stays.
    pub fn settle<J: Judge>(
        &mut self,
        event: Event,
        judge: &mut J,
    ) -> Result<Option<Refusal>, Memory>
        requires world { IsWorld self.old }
        requires ready { J.ready judge.old self.old.heap.objects }
        requires within { StandsBefore (length self.old.heap.objects) event }
        requires sound { IsSound (settles (J.judges judge.old self.old.heap.objects) self.old.heap.objects (theory_in self.old) event).1 }
        ensures settled { Settles result self.old self.new (settles (J.judges judge.old self.old.heap.objects) self.old.heap.objects (theory_in self.old) event) }
        ensures same { J.judges judge.new ≡ J.judges judge.old }
        ensures limit { J.limit judge.new ≡ J.limit judge.old }
    {
        match event {
            Event::Verify {
                name,
                formula,
                proof,
            } => self.verify(name, formula, proof, judge),
            Event::Define {
                name,
                formals,
                body,
                measure,
                proofs,
            } => {
                let draft = Draft {
                    name,
                    formals,
                    body,
                    measure,
                };
                self.define(Drafts::One(draft), proofs, judge)
            }
            Event::DefineAll {
                definitions,
                proofs,
            } => self.define(Drafts::All(definitions), proofs, judge),
            Event::Skolem {
                name,
                bound,
                free,
                body,
            } => self.skolem(name, bound, free, body),
            Event::Profile(number) => self.set_profile(number),
            Event::Switch(_) | Event::Eval(_) | Event::Print(_) => Ok(Some(Refusal::Event)),
        }
    }

    // Adds the theorem of a VERIFY, or says why that is refused. After a refusal the heap has what was made for the tests.
    fn verify<J: Judge>(
        &mut self,
        name: Ref,
        formula: Ref,
        proof: Ref,
        judge: &mut J,
    ) -> Result<Option<Refusal>, Memory>
        requires world { IsWorld self.old }
        requires ready { J.ready judge.old self.old.heap.objects }
        requires name { IsIn self.old.heap.objects name }
        requires formula { IsIn self.old.heap.objects formula }
        requires proof { IsIn self.old.heap.objects proof }
        requires sound { IsSound (verified (J.judges judge.old self.old.heap.objects) (theory_in self.old) (object_at self.old.heap.objects name) (object_at self.old.heap.objects formula) (object_at self.old.heap.objects proof)).1 }
        ensures settled { Settles result self.old self.new (verified (J.judges judge.old self.old.heap.objects) (theory_in self.old) (object_at self.old.heap.objects name) (object_at self.old.heap.objects formula) (object_at self.old.heap.objects proof)) }
        ensures same { J.judges judge.new ≡ J.judges judge.old }
        ensures limit { J.limit judge.new ≡ J.limit judge.old }
    {
        let refused = refusal(
            &mut self.heap,
            name,
            formula,
            proof,
            &self.theory,
            &mut self.marks,
            judge,
        )?;
        if refused.is_some() {
            return Ok(refused);
        }
        self.add_theorem(formula)?;
        Ok(None)
    }

    // Adds the functions of a DEFINE or a DEFINE-ALL with these proofs, or says why that is refused. If they are accepted, the proofs are
    // dropped before the functions are tested once more and added: the heap keeps nothing that was made for the proofs.
    fn define<J: Judge>(
        &mut self,
        drafts: Drafts,
        proofs: Ref,
        judge: &mut J,
    ) -> Result<Option<Refusal>, Memory>
        requires world { IsWorld self.old }
        requires ready { J.ready judge.old self.old.heap.objects }
        requires drafts { AreWithin self.old.heap.objects drafts }
        requires proofs { IsIn self.old.heap.objects proofs }
        requires sound { IsSound (defined (J.judges judge.old self.old.heap.objects) (theory_in self.old) (drafts_given self.old.heap.objects drafts) (object_at self.old.heap.objects proofs)).1 }
        ensures settled { Settles result self.old self.new (defined (J.judges judge.old self.old.heap.objects) (theory_in self.old) (drafts_given self.old.heap.objects drafts) (object_at self.old.heap.objects proofs)) }
        ensures same { J.judges judge.new ≡ J.judges judge.old }
        ensures limit { J.limit judge.new ≡ J.limit judge.old }
    {
        if self.heap.is_nil(Some(proofs)) {
            return self.define_alone(drafts);
        }
        let refused = refusal_of_definitions(
            &mut self.heap,
            &drafts,
            proofs,
            &self.theory,
            &mut self.marks,
            judge,
        )?;
        if refused.is_some() {
            return Ok(refused);
        }
        self.cut_after(&drafts);
        self.add_functions(drafts)
    }

    // The same without proofs, where nothing may be owed: then nothing was made for proofs, and the functions are tested once.
    fn define_alone(&mut self, drafts: Drafts) -> Result<Option<Refusal>, Memory>
        requires world { IsWorld self.old }
        requires drafts { AreWithin self.old.heap.objects drafts }
        requires sound { (J : Judges) × IsSound (defined J (theory_in self.old) (drafts_given self.old.heap.objects drafts) NIL).1 }
        ensures { (J : Judges) → Settles result self.old self.new (defined J (theory_in self.old) (drafts_given self.old.heap.objects drafts) NIL) }
    {
        let owed = match admit_within(&mut self.heap, drafts, &self.theory.arity, 0) {
            Admitted::Obligations(owed) => owed,
            Admitted::Refused(reason) => return Ok(Some(reason)),
            Admitted::Memory => return Err(Memory),
        };
        let block = functions_of(self.heap.alloc(), owed.entries.as_slice())?;
        self.add_definitions(block.as_slice(), owed.axioms)?;
        Ok(None)
    }

    // Forgets what stands after these definitions and all that the theory needs.
    fn cut_after(&mut self, drafts: &Drafts)
        requires world { IsWorld self.old }
        requires drafts { AreWithin self.old.heap.objects drafts.now }
        ensures world { IsWorld self.new }
        ensures drafts { (AreWithin self.new.heap.objects drafts.now) × (drafts_given self.new.heap.objects drafts.now ≡ drafts_given self.old.heap.objects drafts.now) }
        ensures theory { theory_in self.new ≡ theory_in self.old }
        ensures needed { self.new.needed ≡ self.old.needed }
    {
        let end = mark_after(&self.heap, drafts);
        self.cut_to(later(end, self.needed));
    }

    // Adds functions whose proofs were accepted, which are tested again.
    fn add_functions(&mut self, drafts: Drafts) -> Result<Option<Refusal>, Memory>
        requires world { IsWorld self.old }
        requires drafts { AreWithin self.old.heap.objects drafts }
        requires accepted { (J : Judges) × (proofs : Object) × IsAccepted J (theory_in self.old) (drafts_given self.old.heap.objects drafts) proofs }
        ensures { (J : Judges) (proofs : Object) → IsAccepted J (theory_in self.old) (drafts_given self.old.heap.objects drafts) proofs → Settles result self.old self.new (defined J (theory_in self.old) (drafts_given self.old.heap.objects drafts) proofs) }
    {
        let owed = match admit(&mut self.heap, drafts, &self.theory.arity) {
            Admitted::Obligations(owed) => owed,
            Admitted::Refused(reason) => return Ok(Some(reason)),
            Admitted::Memory => return Err(Memory),
        };
        let block = functions_of(self.heap.alloc(), owed.entries.as_slice())?;
        self.add_definitions(block.as_slice(), owed.axioms)?;
        Ok(None)
    }

    // Adds the witness of a SKOLEM, or says why that is refused.
    fn skolem(
        &mut self,
        name: Ref,
        bound: Ref,
        free: Ref,
        body: Ref,
    ) -> Result<Option<Refusal>, Memory>
        requires world { IsWorld self.old }
        requires name { IsIn self.old.heap.objects name }
        requires bound { IsIn self.old.heap.objects bound }
        requires free { IsIn self.old.heap.objects free }
        requires body { IsIn self.old.heap.objects body }
        requires sound { IsSound (skolem_at self.old.heap.objects (theory_in self.old) name bound free body).1 }
        ensures { Settles result self.old self.new (skolem_at self.old.heap.objects (theory_in self.old) name bound free body) }
    {
        let owed = match admit_witness(
            &mut self.heap,
            name,
            bound,
            free,
            body,
            &self.theory.arity,
        ) {
            Admitted::Obligations(owed) => owed,
            Admitted::Refused(reason) => return Ok(Some(reason)),
            Admitted::Memory => return Err(Memory),
        };
        let witness = witness_of(name, bound, free, owed.entries.as_slice());
        self.add_definitions(&[witness], owed.axioms)?;
        Ok(None)
    }

    // Begins the theory of a PROFILE of this number, or says why that is refused.
    fn set_profile(&mut self, number: Ref) -> Result<Option<Refusal>, Memory>
        requires world { IsWorld self.old }
        requires number { IsIn self.old.heap.objects number }
        ensures { Settles result self.old self.new (profile (theory_in self.old) (profile_event (object_at self.old.heap.objects number))) }
    {
        if !self.theory.is_initial {
            return Ok(Some(Refusal::Profile));
        }
        match profile_numbered(&self.heap, number) {
            None => Ok(Some(Refusal::Profile)),
            Some(Profile::One) => Ok(None),
            Some(Profile::Two) => {
                self.begin_second()?;
                Ok(None)
            }
        }
    }
}
