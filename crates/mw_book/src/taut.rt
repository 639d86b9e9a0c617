//! The command that proves the formulas of a book, as they are read.
ghost use Rattle.std.specs.Prelude.{◌≡◌, ◌+◌, ◌<◌, ◌^◌, cond, List, [], ◌∷◌, ◌++◌, OnOk, IfOk};
ghost use Rattle.mw_model.specs.Terms.Object.{Object};
ghost use Rattle.mw_model.specs.Reports.Request.{Taut};
ghost use Rattle.mw_commands.specs.Commands.TautologyBook.{initial_arities};
ghost use Rattle.mw_taut.specs.Verdicts.{IsVerdict};
ghost use Rattle.mw_book.specs.Answered.{IsProving, Answered, ProvedFor, ShowsWord, proved_still};
ghost use Rattle.mw_answers.specs.Writing.{Puts};
ghost use Rattle.mw_answers.specs.Checks.{BookEnds, SourceCounts, SinkCounts};

use crate::line::write_shown;
use crate::session::{Command, Session};
use mw_answers::{Status, answer_book, answers_promised};
use mw_heap::{Heap, Mark, Memory, Profile, Ref};
use mw_port::{Sink, Source};
use mw_preamble::admit_all;
use mw_read::shown;
use mw_taut::{Verdict, verdict_on, write_answer, write_formulas};
use mw_term::{Arity, Marks};
use std::alloc::Global;

/// Writes a proof of each formula that is a tautology, and of each other datum a comment.
#[derive(Drop)]
pub(crate) struct Proving {
    // how much of the heap is kept
    kept: Mark,
    arity: Arity,
    marks: Marks,
    formulas: u64,
    unproved: u64,
    // what is shown of the first member of the datum
    word: Vec<u8>,
}

// The arities of the initial theory.
fn initial_arity(heap: &mut Heap) -> Result<Arity, Memory>
    ensures { IfOk result (λ a. a ≡ initial_arities) }
{
    let preamble = admit_all(heap, Profile::One)?;
    Ok(preamble.arity)
}

impl Proving {
    /// The command at work on a book of which nothing was read.
    pub(crate) fn session(alloc: Global) -> Result<Box<Session<Heap, Proving>>, Memory>
        ensures proving { IfOk result (λ b. IsProving b.value.command b.value.store) }
        ensures answered { IfOk result (λ b. Answered b.value.command []) }
        ensures lines { IfOk result (λ b. b.value.lines.items ≡ []) }
    {
        let mut heap = Heap::new(alloc)?;
        let proving = Proving::new(alloc, &mut heap)?;
        let session = Session::new(alloc, heap, proving)?;
        Ok(session)
    }

    // The arities of the initial theory, over a heap that finds the words of formulas by their places.
    fn new(alloc: Global, heap: &mut Heap) -> Result<Proving, Memory>
        ensures proving { IfOk result (λ p. IsProving p heap.new) }
        ensures answered { IfOk result (λ p. Answered p []) }
    {
        heap.keep_words()?;
        let arity = initial_arity(heap)?;
        Ok(Proving {
            kept: heap.mark(),
            arity,
            marks: Marks::new(alloc),
            formulas: 0,
            unproved: 0,
            word: Vec::new(alloc),
        })
    }

    // Writes the answer to a datum of which this was found, and counts it.
    fn write(
        &mut self,
        heap: &mut Heap,
        word: Option<Ref>,
        verdict: &Verdict,
        piece: &mut Vec<u8>,
    ) -> Result<(), Memory>
        requires found { (x : Object) × ShowsWord heap.old.objects word x × IsVerdict heap.old.objects x verdict.now }
        requires room { self.old.formulas + 1 < 2 ^ 64 }
        requires proving { IsProving self.old heap.old }
        requires empty { piece.old.items ≡ [] }
        ensures puts { OnOk result ((x : Object) → ShowsWord heap.old.objects word x → IsVerdict heap.old.objects x verdict.now → (given : List Object) → Puts ProvedFor self.old heap.old given self.new heap.new (given ++ x ∷ []) piece.new.items) }
        ensures counted { OnOk result (self.new.formulas ≡ self.old.formulas + 1) }
    {
        let number = self.formulas + 1;
        self.word.clear();
        write_shown(&mut self.word, heap, word)?;
        write_answer(piece, heap, number, &self.word, verdict)?;
        self.count(heap, verdict.is_theorem());
        Ok(())
    }

    // Counts a datum, and forgets what was made for it.
    fn count(&mut self, heap: &mut Heap, is_proved: bool)
        requires room { self.old.formulas + 1 < 2 ^ 64 }
        requires proving { IsProving self.old heap.old }
        ensures counted { self.new.formulas ≡ self.old.formulas + 1 }
        ensures unproved_counted { self.new.unproved ≡ self.old.unproved + cond is_proved 0 1 }
        ensures proving { IsProving self.new heap.new }
    {
        self.forget(heap);
        self.formulas += 1;
        if !is_proved {
            self.unproved += 1;
        }
    }

    // Forgets what is not kept of the heap, and its marks.
    fn forget(&mut self, heap: &mut Heap)
        requires { IsProving self.old heap.old }
        ensures rest { self.new ≡ record self.old { marks = self.new.marks } }
        ensures proving { IsProving self.new heap.new }
    {
        self.marks.cut(self.kept);
        heap.cut_back(self.kept);
    }
}

impl Command<Heap> for Proving {
    ghost count = { λ p. p.formulas };

    ghost request = { λ p h. Taut };

    ghost answered = { ProvedFor };

    ghost still = { proved_still };

    fn answer(&mut self, heap: &mut Heap, x: Ref, piece: &mut Vec<u8>) -> Result<(), Memory> {
        let (word, _) = shown(heap, x);
        let verdict = verdict_on(heap, &self.arity, &mut self.marks, x)?;
        self.write(heap, word, &verdict, piece)
    }

    fn answer_large(
        &mut self,
        heap: &mut Heap,
        word: Option<Ref>,
        _label: Option<Ref>,
        piece: &mut Vec<u8>,
    ) -> Result<(), Memory> {
        self.write(heap, word, &Verdict::Shape, piece)
    }

    fn mark(&self) -> &'static [u8] {
        b"; "
    }

    fn end(&self, _heap: &Heap, lines: &mut Vec<u8>) -> Result<bool, Memory> {
        lines.extend_from_slice(b"; ")?;
        write_formulas(lines, self.formulas, self.unproved)?;
        Ok(self.unproved > 0)
    }
}

/// Proves the formulas of the book on the source and writes its answers, that to each datum before more is read.
pub(crate) fn taut<S: Source, K: Sink>(alloc: Global, source: &mut S, sink: &mut K) -> Status
    ensures ends { BookEnds result Taut (S.left source.old) (S.left source.new) (K.taken sink.old) (K.taken sink.new) (K.shortages sink.old) (K.shortages sink.new) }
    ensures source_counts { SourceCounts result (S.faults source.old) (S.faults source.new) }
    ensures sink_counts { SinkCounts result (K.faults sink.old) (K.faults sink.new) }
{
    answers_promised();
    let Ok(mut boxed) = Proving::session(alloc) else {
        return Status::Memory;
    };
    let session: &mut Session<Heap, Proving> = &mut boxed;
    answer_book(alloc, session, source, sink)
}
