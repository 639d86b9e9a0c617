//! Going through a log.
ghost use Rattle.std.specs.Prelude.{◌≡◌, ℕ, ◌+◌, ◌<◌, ◌≤◌, ◌^◌, ◌⊎◌, true, false, List, [], length, map, Option, Some, None, IfOk, IfSome, OnOk, OnErr, option_map};
ghost use Rattle.mw_model.specs.Terms.Object.{Object};
ghost use Rattle.mw_model.specs.Values.Primitive.{One};
ghost use Rattle.mw_model.specs.Events.Theory.{initial, IsSound};
ghost use Rattle.mw_model.specs.Terms.Term.{Formula, IsFormula, formula_object};
ghost use Rattle.mw_model.specs.Values.Truth.{Each};
ghost use Rattle.mw_model.specs.Values.Definition.{arity_table};
ghost use Rattle.mw_model.specs.Laws.Rules.{is_formula_object};
ghost use Rattle.mw_heap.specs.Objects.{object_at, IsIn, Grows};
ghost use Rattle.mw_read.specs.Standing.{Stands, IsStanding, Follows, Says, IsLast, HasEndedWith, HasEnded};
ghost use Rattle.mw_read.specs.Feeding.{IsAwaiting, IsReady, Continues};
ghost use Rattle.mw_model.specs.Events.Fate.{is_out_of_range};
ghost use Rattle.mw_commands.specs.Commands.Log.{conclusion, is_step, logged};
ghost use Rattle.mw_heap.specs.Variants.{refusal_of};
ghost use Rattle.mw_flat.specs.Collecting.{AreFormulasIn};
ghost use Rattle.mw_flat.specs.Steps.{IsConclusion};
ghost use Rattle.mw_flat.specs.Verdicts.{answer_of, answer_by};
ghost use Rattle.mw_flat.specs.Going.{theory_of, HasCollected, IsGoing, going_of, IsNoted, Comes, is_step_word};
ghost use Rattle.mw_theory.specs.Worlds.{theory_in, IsWorld};

use crate::collected::Collected;
use crate::conclusion::conclusion_of;
use crate::entry::is_entry;
use crate::verdict::{Objection, Verdict};
use mw_commands::rechecking::logs_keep;
use mw_heap::{Heap, Memory, Ref, Refusal, Word};
use mw_read::{Reader, Step};
use mw_theory::{World, event_of};
use std::alloc::Global;
use std::marker::Model;

/// A sound theory under the built-in checker, and the steps that were collected for the next event of a log.
#[derive(Drop)]
pub struct Flat {
    world: World,
    collected: Collected,
}

impl Model for Flat {
    ghost use Rattle.mw_flat.specs.Going.{Going, going_of, IsGoing};
    ghost use Rattle.mw_flat.specs.Code.{coded_going};

    ghost Value = { Going };

    ghost coded = { coded_going };

    ghost view = { λ f. going_of f.world f.collected };

    ghost invariant = { λ f. IsGoing f.world f.collected };
}

impl Flat {
    /// The initial theory of the first profile, and no steps.
    pub fn new(alloc: Global) -> Result<Flat, Memory>
        ensures theory { IfOk result (λ f. theory_of f ≡ initial One) }
        ensures sound { IfOk result (λ f. IsSound (theory_of f)) }
        ensures collected { IfOk result (λ f. HasCollected f []) }
    {
        let world = World::new(alloc)?;
        let collected = Collected::none(alloc);
        Ok(Flat { world, collected })
    }

    /// What the reader reads next in a piece of the log, and how many bytes that takes. The theory and the collected steps stay.
    pub fn step(&mut self, reader: &mut Reader, piece: &[u8]) -> (Step, usize)
        requires stands { IsStanding self.old.objects reader.old.parser ⊎ HasEnded reader.old.parser }
        requires awaits { IsAwaiting reader.old ⊎ HasEnded reader.old.parser }
        requires follows { Follows reader.old.parser piece.now ⊎ HasEnded reader.old.parser }
        ensures grows { Grows self.old.objects self.new.objects }
        ensures rest { self.new ≡ record self.old { objects = self.new.objects } }
        ensures theory { theory_of self.new ≡ theory_of self.old }
        ensures collected { (steps : List Object) → HasCollected self.old steps → HasCollected self.new steps }
        ensures reader_rest { reader.new ≡ record reader.old { parser = reader.new.parser } }
        ensures taken { result.1 ≤ length piece.now }
        ensures says { (g : List ℕ) (given : List Object) → Stands self.old.objects reader.old.parser g given → Says self.new.objects reader.old.parser g given piece.now result.0 result.1 reader.new.parser }
        ensures ended { IsLast result.0 → HasEndedWith result.0 reader.new.parser }
        ensures again { (s : Step) → HasEndedWith s reader.old.parser → (result ≡ (s, 0)) × ((reader.new ≡ reader.old) × (self.new ≡ self.old)) }
    {
        reader.step(&mut self.world.heap, piece)
    }

    /// What the reader reads next in the bytes that it was fed. The theory and the collected steps stay.
    pub fn next(&mut self, reader: &mut Reader) -> Step
        requires ready { IsReady self.old.objects reader.old }
        ensures grows { Grows self.old.objects self.new.objects }
        ensures rest { self.new ≡ record self.old { objects = self.new.objects } }
        ensures theory { theory_of self.new ≡ theory_of self.old }
        ensures collected { (steps : List Object) → HasCollected self.old steps → HasCollected self.new steps }
        ensures ready { IsReady self.new.objects reader.new }
        ensures continues { (g : List ℕ) (given : List Object) → Stands self.old.objects reader.old.parser g given → Continues self.new.objects reader.old g given result reader.new }
        ensures ended { IsLast result → HasEndedWith result reader.new.parser }
        ensures again { (s : Step) → HasEndedWith s reader.old.parser → (result ≡ s) × ((reader.new ≡ reader.old) × (self.new ≡ self.old)) }
    {
        reader.next(&mut self.world.heap)
    }

    /// The heap on which `next` and `step` read.
    pub fn heap(&self) -> &Heap
        ensures { result.now.objects ≡ self.now.objects }
    {
        &self.world.heap
    }

    /// How many steps are collected.
    pub fn left(&self) -> u64
        ensures { result ≡ self.now.count }
    {
        self.collected.count
    }

    /// What comes of a datum of the log: a step is put with the others, an event is answered, and then no step is collected any more. After
    /// running out of memory the theory is as before.
    pub fn datum(&mut self, x: Ref) -> Result<Verdict, Memory>
        requires within { IsIn self.old.objects x }
        requires room { self.old.count + 1 < 2 ^ 64 }
        ensures sound { IsSound (theory_of self.new) }
        ensures comes { (steps : List Object) → HasCollected self.old steps → IfOk result (λ v. Comes v self.old self.new steps (object_at self.old.objects x)) }
        ensures err { OnErr result (theory_of self.new ≡ theory_of self.old) }
    {
        self.world.allow_looks();
        if self.world.heap.is_headed(x, Word::Step) {
            self.collect(x)?;
            return Ok(Verdict::Noted);
        }
        let verdict = answer(&mut self.world, &mut self.collected, x);
        self.collected.forget();
        self.world.cut();
        verdict
    }

    /// What comes of a datum with a natural past the range, of which the reader shows the word: a step is put with the others, and is not
    /// good; an event gets a no.
    pub fn too_big(&mut self, word: Option<Ref>) -> Verdict
        requires word { IfSome word (IsIn self.old.objects) }
        requires room { self.old.count + 1 < 2 ^ 64 }
        ensures comes { (x : Object) → is_out_of_range x ≡ true → is_step x ≡ is_step_word self.old.objects word → (steps : List Object) → HasCollected self.old steps → Comes result self.old self.new steps x }
    {
        if is_step_word(&self.world.heap, &word) {
            self.collected.add_bad();
            return Verdict::Noted;
        }
        self.collected.forget();
        self.world.cut();
        Verdict::No(Objection::Shape)
    }

    // Puts a step with the others. What was made to judge it is forgotten.
    fn collect(&mut self, x: Ref) -> Result<(), Memory>
        requires within { IsIn self.old.objects x }
        requires room { self.old.count + 1 < 2 ^ 64 }
        ensures noted { (steps : List Object) → HasCollected self.old steps → OnOk result (IsNoted self.old self.new steps (object_at self.old.objects x) None) }
        ensures theory { theory_of self.new ≡ theory_of self.old }
    {
        if !self.collected.good {
            self.collected.add_bad();
            return Ok(());
        }
        let Some(conclusion) = conclude(&mut self.world, &self.collected.conclusions, x)? else {
            self.collected.add_bad();
            return Ok(());
        };
        self.collected.add(conclusion)?;
        Ok(())
    }
}

// The conclusion of a step x after steps with these conclusions, if it is good. What was made to judge it is forgotten: the heap and the
// theory are as before.
fn conclude(world: &mut World, conclusions: &[Ref], x: Ref) -> Result<Option<Ref>, Memory>
    requires world { IsWorld world.old }
    requires conclusions { AreFormulasIn world.old.heap.objects world.old.theory.arity conclusions.now }
    requires within { IsIn world.old.heap.objects x }
    ensures world { IsWorld world.new }
    ensures objects { world.new.heap.objects ≡ world.old.heap.objects }
    ensures theory_kept { world.new.theory ≡ world.old.theory }
    ensures formula { IfOk result (λ o. IfSome o (λ r. IsIn world.old.heap.objects r × (is_formula_object world.old.theory.arity (object_at world.old.heap.objects r) ≡ true))) }
    ensures conclusion { (Fs : List Formula) → Each (IsFormula world.old.theory.arity) Fs → map (object_at world.old.heap.objects) conclusions.now ≡ map formula_object Fs → IfOk result (λ o. let t = theory_in world.old in IsConclusion world.old.heap.objects o (conclusion t.axioms t.theorems (arity_table t.definitions) t.definitions.profile Fs (object_at world.old.heap.objects x))) }
{
    let end = world.heap.mark();
    let conclusion = conclusion_of(
        &mut world.heap,
        x,
        conclusions.len() as u64 + 1,
        conclusions,
        &world.theory,
        &mut world.marks,
    );
    world.cut_to(end);
    conclusion
}

// The answer to an event x after the collected steps. What the judge holds afterwards is not said: the steps are forgotten next.
fn answer(world: &mut World, collected: &mut Collected, x: Ref) -> Result<Verdict, Memory>
    requires going { IsGoing world.old collected.old }
    requires within { IsIn world.old.heap.objects x }
    ensures world { IsWorld world.new }
    ensures built_in { world.new.theory.checker ≡ None }
    ensures answer { (steps : List Object) → HasCollected (going_of world.old collected.old) steps → IfOk result (λ v. answer_of v ≡ Some (logged (theory_in world.old) steps (object_at world.old.heap.objects x)).0) }
    ensures theory { (steps : List Object) → HasCollected (going_of world.old collected.old) steps → OnOk result (theory_in world.new ≡ (logged (theory_in world.old) steps (object_at world.old.heap.objects x)).1) }
    ensures err { OnErr result (theory_in world.new ≡ theory_in world.old) }
{
    logs_keep();
    let Some(event) = event_of(&world.heap, x) else {
        return Ok(Verdict::No(Objection::Shape));
    };
    if !is_entry(&world.heap, x, event)? {
        return Ok(Verdict::No(Objection::Shape));
    }
    if !collected.good {
        return Ok(Verdict::No(Objection::Step));
    }
    let refused = world.settle(event, collected)?;
    Ok(verdict_of(refused))
}

/// Whether the word of a datum, as the reader shows it, is STEP.
pub fn is_step_word(heap: &Heap, word: &Option<Ref>) -> bool
    requires { IfSome word.now (IsIn heap.now.objects) }
    ensures { result ≡ is_step_word heap.now.objects word.now }
{
    match word {
        Some(word) => heap.is_word(Some(*word), Word::Step),
        None => false,
    }
}

// The verdict on an event that is refused for this reason, or not at all: what is owed or given as proofs is told apart from what is
// looked at before.
fn verdict_of(refused: Option<Refusal>) -> Verdict
    ensures { answer_of result ≡ Some (answer_by (option_map refusal_of refused)) }
{
    match refused {
        None => Verdict::Yes,
        Some(Refusal::Count | Refusal::Proof) => Verdict::No(Objection::Goal),
        Some(_) => Verdict::No(Objection::Admit),
    }
}
