//! A command at work on a book.
ghost use Rattle.std.specs.Prelude.{◌≡◌, ℕ, ◌+◌, ◌<◌, ◌^◌, true, false, nat_lt, List, [], ◌∷◌, ◌++◌, Some, None, IfOk, OnOk};
ghost use Rattle.mw_model.specs.Terms.Object.{Object};
ghost use Rattle.mw_model.specs.Events.Fate.{is_out_of_range};
ghost use Rattle.mw_model.specs.Reports.Request.{Request};
ghost use Rattle.mw_heap.specs.Objects.{object_at, IsIn};
ghost use Rattle.mw_read.specs.Kinds.{kind_of};
ghost use Rattle.mw_read.specs.Shown.{ShowsEvent};
ghost use Rattle.mw_read.specs.declared.step.SyntaxKind.{SyntaxKind as Kind};
ghost use Rattle.mw_answers.specs.Answering.{HasAnswered, fault_of};
ghost use Rattle.mw_answers.specs.LastTexts.{IsLastText, refused_for};
ghost use Rattle.mw_book.specs.Lines.{fault_line};
ghost use Rattle.mw_answers.specs.Writing.{Puts};
ghost use Rattle.mw_answers.specs.Statuses.{AreAnswers};
ghost use Rattle.mw_answers.specs.Checks.{BookEnds, SourceCounts, SinkCounts};

use crate::line::write_fault;
use crate::store::Store;
use mw_answers::{Answering, Status, answer_book, answers_promised};
use mw_heap::{Memory, Ref};
use mw_port::{Sink, Source};
use mw_read::{Reader, Step, SyntaxKind};
use std::alloc::Global;

/// How a command answers the data of a book, which a store has read.
pub(crate) trait Command<S: Store>: Drop {
    // how many data were answered
    ghost count: { Self → ℕ };

    // what was asked for
    ghost request: { Self → S → Request };

    // for this request these data were answered
    ghost answered: { Self → S → Request → List Object → Type 0 };

    /// Writes the answer to a datum.
    fn answer(&mut self, store: &mut S, x: Ref, piece: &mut Vec<u8>) -> Result<(), Memory>
        requires within { IsIn (S.objects store.old) x }
        requires in_range { is_out_of_range (object_at (S.objects store.old) x) ≡ false }
        requires room { count self.old + 1 < 2 ^ 64 }
        requires known { HasAnswered (answered self.old) store.old }
        requires empty { piece.old.items ≡ [] }
        ensures puts { OnOk result ((given : List Object) → Puts answered self.old store.old given self.new store.new (given ++ object_at (S.objects store.old) x ∷ []) piece.new.items) }
        ensures counted { OnOk result (count self.new ≡ count self.old + 1) };

    /// Writes the answer to a datum with a natural past the range, of which the reader shows the word and the label.
    fn answer_large(
        &mut self,
        store: &mut S,
        word: Option<Ref>,
        label: Option<Ref>,
        piece: &mut Vec<u8>,
    ) -> Result<(), Memory>
        requires shows { (x : Object) × (is_out_of_range x ≡ true) × ShowsEvent (S.objects store.old) word label x }
        requires room { count self.old + 1 < 2 ^ 64 }
        requires known { HasAnswered (answered self.old) store.old }
        requires empty { piece.old.items ≡ [] }
        ensures puts { OnOk result ((x : Object) → is_out_of_range x ≡ true → ShowsEvent (S.objects store.old) word label x → (given : List Object) → Puts answered self.old store.old given self.new store.new (given ++ x ∷ []) piece.new.items) }
        ensures counted { OnOk result (count self.new ≡ count self.old + 1) };

    /// What begins the last line of a book with a fault: that of a comment, or nothing.
    fn mark(&self) -> &'static [u8]
        ensures { (s : S) (q : Request) (given : List Object) → answered self.now s q given → (kind : Kind) (offset : ℕ) → IsLastText q given (fault_of (Some (kind, offset))) (result.now ++ fault_line (kind_of kind) offset) };

    /// Puts the last text of a book without a fault after the lines. Answers what `Answering::end` does.
    fn end(&self, store: &S, lines: &mut Vec<u8>) -> Result<bool, Memory>
        requires known { HasAnswered (answered self.now) store.now }
        ensures refused { IfOk result (λ b. (q : Request) (given : List Object) → answered self.now store.now q given → b ≡ nat_lt 0 (refused_for q given)) }
        ensures last { OnOk result ((q : Request) (given : List Object) → answered self.now store.now q given → (text : List ℕ) × IsLastText q given None text × (lines.new.items ≡ lines.old.items ++ text)) };

    // as more is read, what was answered stays
    ghost still: { (c : Self) (old new : S) → S.keeps old new → (q : Request) (given : List Object) → answered c old q given → answered c new q given };
}

/// A command, what the book is read into, and the lines that were not written yet.
#[derive(Drop)]
pub(crate) struct Session<S, C> {
    store: S,
    command: C,
    lines: Vec<u8>,
    // the answer to a datum, which joins the lines when it is whole
    piece: Vec<u8>,
}

impl<S: Store, C: Command<S>> Session<S, C> {
    /// Nothing was read. It is boxed, so that the proofs of its owner are short.
    pub(crate) fn new(alloc: Global, store: S, command: C) -> Result<Box<Session<S, C>>, Memory>
        ensures store { IfOk result (λ b. b.value.store ≡ store) }
        ensures command { IfOk result (λ b. b.value.command ≡ command) }
        ensures lines { IfOk result (λ b. b.value.lines.items ≡ []) }
    {
        let session = Session {
            store,
            command,
            lines: Vec::new(alloc),
            piece: Vec::new(alloc),
        };
        Ok(Box::new(alloc, session)?)
    }
}

impl<S: Store, C: Command<S>> Answering for Session<S, C> {
    ghost objects = { λ s. S.objects s.store };

    ghost unwritten = { λ s. s.lines.items };

    ghost count = { λ s. C.count s.command };

    ghost request = { λ s. C.request s.command s.store };

    ghost answered = { λ s. C.answered s.command s.store };

    fn step(&mut self, reader: &mut Reader, piece: &[u8]) -> (Step, usize) {
        self.store.step(reader, piece)
    }

    fn next(&mut self, reader: &mut Reader) -> Step {
        self.store.next(reader)
    }

    fn answer(&mut self, x: Ref) -> Result<(), Memory> {
        self.piece.clear();
        self.command.answer(&mut self.store, x, &mut self.piece)?;
        self.lines.extend_from_slice(&self.piece)?;
        Ok(())
    }

    fn answer_large(&mut self, word: Option<Ref>, label: Option<Ref>) -> Result<(), Memory> {
        self.piece.clear();
        self.command
            .answer_large(&mut self.store, word, label, &mut self.piece)?;
        self.lines.extend_from_slice(&self.piece)?;
        Ok(())
    }

    fn is_urgent(&self) -> bool {
        self.store.took_long()
    }

    fn lines(&self) -> &[u8] {
        &self.lines
    }

    fn drop_lines(&mut self) {
        self.lines.clear();
    }

    fn end(&mut self, fault: Option<(SyntaxKind, u64)>) -> Result<bool, Memory> {
        match fault {
            Some((kind, offset)) => {
                self.lines.extend_from_slice(self.command.mark())?;
                write_fault(&mut self.lines, kind, offset)?;
                Ok(false)
            }
            None => self.command.end(&self.store, &mut self.lines),
        }
    }
}

/// Answers the book on the source by a command at work on what the book is read into, of which nothing was read.
pub(crate) fn answer_by<T: Store, C: Command<T>, S: Source, K: Sink>(
    alloc: Global,
    store: Result<T, Memory>,
    command: C,
    source: &mut S,
    sink: &mut K,
) -> Status
    requires answered { IfOk store (λ s. C.answered command s (C.request command s) []) }
    requires expected { IfOk store (λ s. AreAnswers (C.request command s) [] []) }
    requires count { C.count command ≡ 0 }
    ensures ends { (q : Request) → AreAnswers q [] [] → IfOk store (λ s. C.request command s ≡ q) → BookEnds result q (S.left source.old) (S.left source.new) (K.taken sink.old) (K.taken sink.new) (K.shortages sink.old) (K.shortages sink.new) }
    ensures source_counts { SourceCounts result (S.faults source.old) (S.faults source.new) }
    ensures sink_counts { SinkCounts result (K.faults sink.old) (K.faults sink.new) }
{
    answers_promised();
    let Ok(store) = store else {
        return Status::Memory;
    };
    let Ok(mut boxed) = Session::new(alloc, store, command) else {
        return Status::Memory;
    };
    let session: &mut Session<T, C> = &mut boxed;
    answer_book(alloc, session, source, sink)
}
