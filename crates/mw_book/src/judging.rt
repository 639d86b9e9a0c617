//! The commands that judge a book event by event.
ghost use Rattle.std.specs.Prelude.{◌≡◌, ℕ, ◌+◌, ◌<◌, true, false, List, [], ◌∷◌, ◌++◌, None, Some, IfOk, OnOk};
ghost use Rattle.mw_model.specs.Terms.Object.{Object};
ghost use Rattle.mw_model.specs.Events.Refusal.{RANGE, Refused};
ghost use Rattle.mw_model.specs.Events.Fate.{is_out_of_range};
ghost use Rattle.mw_model.specs.Reports.Request.{Request};
ghost use Rattle.mw_commands.specs.Commands.Transition.{Effect, course};
ghost use Rattle.mw_commands.specs.Commands.Lowering.{course_summary, refused_in};
ghost use Rattle.mw_heap.specs.Objects.{object_at, IsIn};
ghost use Rattle.mw_read.specs.Kinds.{kind_of};
ghost use Rattle.mw_read.specs.Shown.{ShowsEvent};
ghost use Rattle.mw_read.specs.declared.step.SyntaxKind.{SyntaxKind as Kind};
ghost use Rattle.mw_kernel.specs.Fates.{fate_of};
ghost use Rattle.mw_answers.specs.Answering.{fault_of};
ghost use Rattle.mw_answers.specs.LastTexts.{IsLastText, refused_for};
ghost use Rattle.mw_book.specs.Lines.{fault_line, line_begun};
ghost use Rattle.mw_book.specs.Judged.{JudgedFor, Tells, judged_still};

use crate::line::begin_line;
use crate::session::Command;
use crate::tally::Tally;
use mw_heap::{Heap, Memory, Ref, Refusal};
use mw_kernel::{Fate, Kernel};
use mw_read::shown;
use std::alloc::Global;

/// What is told of each event of a book, of which the line was begun, after what begins a comment or nothing.
pub(crate) trait Telling: Drop {
    // what is asked for, with this step limit
    ghost request: { ℕ → Request };

    // what an event does, with this step limit
    ghost effect: { ℕ → Effect };

    // what begins a line
    ghost mark: { List ℕ };

    /// Judges the event of this number, and writes what is told of it.
    fn judge(
        &mut self,
        kernel: &mut Kernel,
        number: u64,
        x: Ref,
        begun: &[u8],
        piece: &mut Vec<u8>,
    ) -> Result<Fate, Memory>
        requires within { IsIn kernel.old.objects x }
        requires in_range { is_out_of_range (object_at kernel.old.objects x) ≡ false }
        requires begun { begun.now ≡ mark ++ line_begun number (object_at kernel.old.objects x) }
        requires empty { piece.old.items ≡ [] }
        ensures { IfOk result (λ f. Tells request effect kernel.old number (object_at kernel.old.objects x) (fate_of f) kernel.new piece.new.items) };

    /// Writes what is told of the event of this number, which is refused since it has a natural past the range.
    fn refuse(
        &mut self,
        kernel: &mut Kernel,
        number: u64,
        begun: &[u8],
        piece: &mut Vec<u8>,
    ) -> Result<(), Memory>
        requires empty { piece.old.items ≡ [] }
        ensures { OnOk result ((x : Object) → is_out_of_range x ≡ true → begun.now ≡ mark ++ line_begun number x → Tells request effect kernel.old number x (Refused RANGE) kernel.new piece.new.items) };

    /// What begins a line, that of an event and the last one.
    fn mark(&self) -> &'static [u8]
        ensures text { result.now ≡ mark }
        ensures fault { (N : ℕ) (given : List Object) (kind : Kind) (offset : ℕ) → IsLastText (request N) given (fault_of (Some (kind, offset))) (mark ++ fault_line (kind_of kind) offset) }
        ensures summary { (N : ℕ) (given : List Object) → IsLastText (request N) given None (mark ++ (course_summary (course (effect N) given) ++ 10 ∷ [])) };

    // those are refused that the course of the book refuses
    ghost refused: { (N : ℕ) (given : List Object) → refused_in (course (effect N) given) ≡ refused_for (request N) given };
}

/// Judges each event, counts it, and writes what is told of it.
#[derive(Drop)]
pub(crate) struct Judging<T> {
    tally: Tally,
    telling: T,
    // the line of the event, up to its fate
    begun: Vec<u8>,
}

impl<T: Telling> Judging<T> {
    /// Nothing was judged.
    pub(crate) fn new(alloc: Global, telling: T) -> Judging<T>
        ensures events { result.tally.events ≡ 0 }
        ensures refused { result.tally.refused ≡ 0 }
    {
        Judging {
            tally: Tally::new(),
            telling,
            begun: Vec::new(alloc),
        }
    }

    // Begins the line of the event of this number, in place of what was there.
    fn begin(
        &mut self,
        heap: &Heap,
        number: u64,
        word: Option<Ref>,
        label: Option<Ref>,
    ) -> Result<(), Memory>
        requires shows { (e : Object) × ShowsEvent heap.now.objects word label e }
        ensures begun { OnOk result ((e : Object) → ShowsEvent heap.now.objects word label e → self.new.begun.items ≡ T.mark ++ line_begun number e) }
        ensures tally { self.new.tally ≡ self.old.tally }
    {
        self.begun.clear();
        self.begun.extend_from_slice(self.telling.mark())?;
        begin_line(&mut self.begun, heap, number, word, label)
    }
}

impl<T: Telling> Command<Kernel> for Judging<T> {
    ghost count = { λ j. j.tally.events };

    ghost request = { λ j k. T.request k.steps };

    ghost answered = { λ j. JudgedFor T.request T.effect j.tally };

    ghost still = { λ j. judged_still T.request T.effect j.tally };

    fn answer(&mut self, kernel: &mut Kernel, x: Ref, piece: &mut Vec<u8>) -> Result<(), Memory> {
        let (word, label) = shown(kernel.heap(), x);
        let number = self.tally.events + 1;
        self.begin(kernel.heap(), number, word, label)?;
        let fate = self.telling.judge(kernel, number, x, &self.begun, piece)?;
        self.tally.add(&fate);
        Ok(())
    }

    fn answer_large(
        &mut self,
        kernel: &mut Kernel,
        word: Option<Ref>,
        label: Option<Ref>,
        piece: &mut Vec<u8>,
    ) -> Result<(), Memory> {
        let number = self.tally.events + 1;
        self.begin(kernel.heap(), number, word, label)?;
        self.telling.refuse(kernel, number, &self.begun, piece)?;
        self.tally.add(&Fate::Refused(Refusal::Range));
        Ok(())
    }

    fn mark(&self) -> &'static [u8] {
        self.telling.mark()
    }

    fn end(&self, kernel: &Kernel, lines: &mut Vec<u8>) -> Result<bool, Memory> {
        lines.extend_from_slice(self.telling.mark())?;
        self.tally.end(kernel.level(), lines)
    }
}
