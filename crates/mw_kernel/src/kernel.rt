//! The kernel.
ghost use Rattle.std.specs.Prelude.{◌≡◌, ℕ, ◌≤◌, ◌⊎◌, true, List, [], length, option_map, IfOk, IfSome, OnOk, OnErr};
ghost use Rattle.mw_model.specs.Terms.Object.{Object, Symbol};
ghost use Rattle.mw_model.specs.Terms.Term.{formula_object, table_object};
ghost use Rattle.mw_model.specs.Values.Primitive.{One, is_symbol, name_of};
ghost use Rattle.mw_model.specs.Values.Definition.{arity_table};
ghost use Rattle.mw_model.specs.Events.Theory.{Theory, initial, claim, IsSound};
ghost use Rattle.mw_model.specs.Events.Refusal.{RANGE};
ghost use Rattle.mw_model.specs.Events.Fate.{fate, next};
ghost use Rattle.mw_model.specs.Laws.Rewriting.{IsRewritten};
ghost use Rattle.mw_heap.specs.Objects.{object_at, IsIn, Grows};
ghost use Rattle.mw_read.specs.Standing.{Stands, IsStanding, Follows, Says, IsLast, HasEndedWith, HasEnded};
ghost use Rattle.mw_read.specs.Feeding.{IsAwaiting, IsReady, Continues};
ghost use Rattle.mw_kernel.specs.Knowledge.{theory_of};
ghost use Rattle.mw_commands.specs.Commands.Explanation.{why};
ghost use Rattle.mw_kernel.specs.Explained.{PutsLine, PutsWhy};
ghost use Rattle.mw_kernel.specs.Fates.{fate_of, KeepsRoom};

mod events;

use crate::Fate;
use crate::checker::Checker;
use crate::claims::claim;
use crate::explainer::Explainer;
use crate::rewriting::rewritten;
use crate::why::put_reason;
use mw_heap::{Heap, Memory, Ref, Refusal};
use mw_machine::Machine;
use mw_proof::Rewriter;
use mw_read::{Reader, Step};
use mw_theory::World;
use std::alloc::Global;
use std::marker::Model;

/// A sound theory in a heap, which events change: each event once or not at all.
/// `level`, `checker`, `axioms`, `theorems` and `arity` show parts of the theory and nothing else, and what `claim` makes depends on the name
/// alone. So after an event that is refused, and after running out of memory, all six show what they showed before.
#[derive(Drop)]
pub struct Kernel {
    world: World,
    checker: Checker,
    took_long: bool,
}

// An event takes long where its runs take more turns than this, or it takes more looks at cells: some milliseconds, after
// which its line is written at once.
const LONG: u64 = 1 << 20;

impl Model for Kernel {
    ghost use Rattle.mw_kernel.specs.Knowledge.{Knowledge};
    ghost use Rattle.mw_theory.specs.Knowledge.{parts_of};
    ghost use Rattle.mw_theory.specs.Worlds.{IsWorld};
    ghost use Rattle.mw_kernel.specs.Code.{coded_knowledge};

    ghost Value = { Knowledge };

    ghost coded = { coded_knowledge };

    ghost view = { λ k. record { objects = k.world.heap.objects; needed = k.world.needed; parts = parts_of k.world.theory; steps = k.checker.steps } };

    ghost invariant = { λ k. IsWorld k.world };
}

impl Kernel {
    /// The initial theory of the first profile. `steps` limits each EVAL, and the run of a checker on each proof.
    pub fn new(alloc: Global, steps: u64) -> Result<Kernel, Memory>
        ensures theory { IfOk result (λ k. theory_of k ≡ initial One) }
        ensures sound { IfOk result (λ k. IsSound (theory_of k)) }
        ensures steps { IfOk result (λ k. k.steps ≡ steps) }
        ensures room { IfOk result (λ k. length k.objects ≡ k.needed) }
    {
        let world = World::new(alloc)?;
        let machine = Machine::new(alloc);
        let checker = Checker { machine, steps };
        Ok(Kernel {
            world,
            checker,
            took_long: false,
        })
    }

    /// What the reader reads next in a piece of the book, and how many bytes that takes. The theory stays. After `Syntax` and `Memory`
    /// the reader answers the same again.
    pub fn step(&mut self, reader: &mut Reader, piece: &[u8]) -> (Step, usize)
        requires stands { IsStanding self.old.objects reader.old.parser ⊎ HasEnded reader.old.parser }
        requires awaits { IsAwaiting reader.old ⊎ HasEnded reader.old.parser }
        requires follows { Follows reader.old.parser piece.now ⊎ HasEnded reader.old.parser }
        ensures grows { Grows self.old.objects self.new.objects }
        ensures rest { self.new ≡ record self.old { objects = self.new.objects } }
        ensures theory { theory_of self.new ≡ theory_of self.old }
        ensures reader_rest { reader.new ≡ record reader.old { parser = reader.new.parser } }
        ensures taken { result.1 ≤ length piece.now }
        ensures says { (g : List ℕ) (given : List Object) → Stands self.old.objects reader.old.parser g given → Says self.new.objects reader.old.parser g given piece.now result.0 result.1 reader.new.parser }
        ensures ended { IsLast result.0 → HasEndedWith result.0 reader.new.parser }
        ensures again { (s : Step) → HasEndedWith s reader.old.parser → (result ≡ (s, 0)) × ((reader.new ≡ reader.old) × (self.new ≡ self.old)) }
    {
        reader.step(&mut self.world.heap, piece)
    }

    /// What the reader reads next in the bytes that it was fed, or, where it was finished and no datum is left in them, that the book has
    /// ended. The theory stays. After `Syntax` and `Memory` the reader answers the same again.
    pub fn next(&mut self, reader: &mut Reader) -> Step
        requires ready { IsReady self.old.objects reader.old }
        ensures grows { Grows self.old.objects self.new.objects }
        ensures rest { self.new ≡ record self.old { objects = self.new.objects } }
        ensures theory { theory_of self.new ≡ theory_of self.old }
        ensures ready { IsReady self.new.objects reader.new }
        ensures continues { (g : List ℕ) (given : List Object) → Stands self.old.objects reader.old.parser g given → Continues self.new.objects reader.old g given result reader.new }
        ensures ended { IsLast result → HasEndedWith result reader.new.parser }
        ensures again { (s : Step) → HasEndedWith s reader.old.parser → (result ≡ s) × ((reader.new ≡ reader.old) × (self.new ≡ self.old)) }
    {
        reader.next(&mut self.world.heap)
    }

    /// The fate of an event, with which the theory goes on: it changes once where the event is accepted, and else it stays. The one error is
    /// out of memory: then the theory stays as it was too. The theory is sound, whichever checker judges. After an event that is refused,
    /// and after one that shows an object, the heap is as large as it was.
    pub fn event(&mut self, event: Ref) -> Result<Fate, Memory>
        requires { IsIn self.old.objects event }
        ensures fate { IfOk result (λ f. fate_of f ≡ fate (theory_of self.old) (object_at self.old.objects event) self.old.steps) }
        ensures theory { OnOk result (theory_of self.new ≡ next (theory_of self.old) (object_at self.old.objects event) self.old.steps) }
        ensures err { OnErr result (theory_of self.new ≡ theory_of self.old) }
        ensures sound { IsSound (theory_of self.new) }
        ensures steps { self.new.steps ≡ self.old.steps }
        ensures room { length self.new.objects ≡ self.new.needed }
        ensures kept { IfOk result (λ f. KeepsRoom f self.old.needed self.new.needed) }
    {
        let turns = self.checker.machine.turns();
        let looks = self.world.allow_looks();
        let fate = self.happens(event);
        self.note_time(turns, looks);
        self.world.cut();
        fate
    }

    /// The fate of an event, as `event` gives it. Of an event that is refused the line of the datum (WHY number REASON part ..) is put behind
    /// `out`, with the parts that `by` finds. After the error, which is out of memory, `out` may have more bytes.
    pub fn explained<E: Explainer>(
        &mut self,
        event: Ref,
        number: u64,
        by: &E,
        out: &mut Vec<u8>,
    ) -> Result<Fate, Memory>
        requires { IsIn self.old.objects event }
        ensures fate { IfOk result (λ f. fate_of f ≡ fate (theory_of self.old) (object_at self.old.objects event) self.old.steps) }
        ensures theory { OnOk result (theory_of self.new ≡ next (theory_of self.old) (object_at self.old.objects event) self.old.steps) }
        ensures err { OnErr result (theory_of self.new ≡ theory_of self.old) }
        ensures sound { IsSound (theory_of self.new) }
        ensures steps { self.new.steps ≡ self.old.steps }
        ensures room { length self.new.objects ≡ self.new.needed }
        ensures kept { IfOk result (λ f. KeepsRoom f self.old.needed self.new.needed) }
        ensures why { IfOk result (λ f. PutsWhy number (fate_of f) (theory_of self.old) self.old.steps (object_at self.old.objects event) out.old.items out.new.items) }
    {
        let turns = self.checker.machine.turns();
        let looks = self.world.allow_looks();
        let fate = self.happens_explained(event, number, by, out);
        self.note_time(turns, looks);
        self.world.cut();
        fate
    }

    /// Puts the line of the datum (WHY number RANGE) behind `out`: that of an event that was not read since it holds a natural past the range.
    /// The theory stays. After the error, which is out of memory, `out` may have more bytes.
    pub fn explained_range(&mut self, number: u64, out: &mut Vec<u8>) -> Result<(), Memory>
        ensures theory { theory_of self.new ≡ theory_of self.old }
        ensures steps { self.new.steps ≡ self.old.steps }
        ensures room { length self.new.objects ≡ self.new.needed }
        ensures why { OnOk result ((t : Theory) (N : ℕ) (e : Object) → PutsLine (why number RANGE t N e) out.old.items out.new.items) }
    {
        let put = put_reason(&mut self.world.heap, number, Refusal::Range, &[], out);
        self.world.cut();
        put
    }

    /// Whether the last event took long, as far as its runs and what labels multiply in it tell: a hint for a caller who keeps lines back.
    /// It promises nothing about time.
    pub fn took_long(&self) -> bool {
        self.took_long
    }

    // Notes whether the event took long, before which the runs had taken the given number of turns, and which was allowed the given number of looks.
    fn note_time(&mut self, turns: u64, looks: u64)
        ensures { self.new ≡ self.old }
    {
        let ran = self.checker.machine.turns().saturating_sub(turns);
        let looked = self.world.heap.take_looks(looks.saturating_sub(LONG));
        self.took_long = ran > LONG || looked.is_err();
    }

    /// Drops the objects that were read and made since the last event. The theory stays.
    pub fn forget(&mut self)
        ensures theory { theory_of self.new ≡ theory_of self.old }
        ensures steps { self.new.steps ≡ self.old.steps }
        ensures room { length self.new.objects ≡ self.new.needed }
    {
        self.world.cut();
    }

    /// The heap of the theory.
    pub fn heap(&self) -> &Heap
        ensures { result.now.objects ≡ self.now.objects }
    {
        &self.world.heap
    }

    /// The level of the theory: 1, and one more for each switch of the checker.
    pub fn level(&self) -> u64
        ensures { result ≡ (theory_of self.now).level }
    {
        self.world.theory.level
    }

    /// The name of the theory's checker; nothing where the checker is the built-in one.
    pub fn checker(&self) -> Option<Ref>
        ensures within { IfSome result (λ r. IsIn self.now.objects r) }
        ensures name { option_map (object_at self.now.objects) result ≡ option_map Symbol (theory_of self.now).checker }
    {
        self.world.theory.checker
    }

    /// The list of the axioms, the newest first.
    pub fn axioms(&self) -> Ref
        ensures within { IsIn self.now.objects result }
        ensures list { object_at self.now.objects result ≡ (theory_of self.now).axioms }
    {
        self.world.theory.axioms
    }

    /// The list of the theorems, the newest first.
    pub fn theorems(&self) -> Ref
        ensures within { IsIn self.now.objects result }
        ensures list { object_at self.now.objects result ≡ (theory_of self.now).theorems }
    {
        self.world.theory.theorems
    }

    /// The arity table as a list of pairs (name . arity), the newest first.
    pub fn arity(&self) -> Ref
        ensures within { IsIn self.now.objects result }
        ensures list { object_at self.now.objects result ≡ table_object (arity_table (theory_of self.now).definitions) }
    {
        self.world.theory.arity_list
    }

    /// The formula that a checker of this name claims: what it says yes to has a proof. The theory stays; the objects that are made for it
    /// are gone after the next event.
    pub fn claim(&mut self, name: Ref) -> Result<Ref, Memory>
        requires within { IsIn self.old.objects name }
        requires symbol { is_symbol (object_at self.old.objects name) ≡ true }
        ensures grows { Grows self.old.objects self.new.objects }
        ensures claim { IfOk result (λ r. IsIn self.new.objects r × (object_at self.new.objects r ≡ formula_object (claim (name_of (object_at self.old.objects name))))) }
        ensures rest { self.new ≡ record self.old { objects = self.new.objects } }
        ensures theory { theory_of self.new ≡ theory_of self.old }
    {
        claim(&mut self.world.heap, name)
    }

    /// The event with its proofs rewritten, each to what it turns to, or kept where it turns to nothing: the proof of a VERIFY, each member
    /// of the list of proofs of a DEFINE or a DEFINE-ALL. The event itself where the theory's checker is not the built-in one, where the
    /// object is no event with proofs, and where its proofs are no proper list. The theory stays; the objects that are made are gone after
    /// the next event. The one error is out of memory.
    pub fn rewritten<R: Rewriter>(&mut self, event: Ref, by: &mut R) -> Result<Ref, Memory>
        requires { IsIn self.old.objects event }
        ensures grows { Grows self.old.objects self.new.objects }
        ensures rest { self.new ≡ record self.old { objects = self.new.objects } }
        ensures theory { theory_of self.new ≡ theory_of self.old }
        ensures within { IfOk result (λ r. IsIn self.new.objects r) }
        ensures rewritten { IfOk result (λ r. IsRewritten R.turns (theory_of self.old) (object_at self.old.objects event) (object_at self.new.objects r)) }
    {
        self.world.allow_looks();
        rewritten(
            &mut self.world.heap,
            event,
            &self.world.theory,
            &mut self.world.marks,
            by,
        )
    }
}
