//! A book from its bytes to the answers to its data.
ghost use Rattle.std.specs.Prelude.{◌≡◌, ℕ, ◌+◌, ◌<◌, ◌^◌, List, [], ◌++◌, nat_lt, Some, None, OnOk, OnErr, IfOk, IfErr};
ghost use Rattle.mw_model.specs.Terms.Object.{Object};
ghost use Rattle.mw_model.specs.Reports.Request.{Request};
ghost use Rattle.mw_model.specs.Reports.Report.{status_of as status_with};
ghost use Rattle.mw_port.specs.Ports.{Takes};
ghost use Rattle.mw_read.specs.Standing.{Stands, IsStanding, IsFree, work};
ghost use Rattle.mw_read.specs.Feeding.{IsAwaiting};
ghost use Rattle.mw_answers.specs.Statuses.{TakesSome, AreAnswers, report_status};
ghost use Rattle.mw_answers.specs.LastTexts.{IsLastText, refused_for};
ghost use Rattle.mw_answers.specs.Answering.{HasAnswered, AreFirst, IsBegunBy, ReadWhole, fault_of};
ghost use Rattle.mw_answers.specs.Writing.{HasWritten, EndsWritten, StopsWritten};
ghost use Rattle.mw_answers.specs.Checks.{BookEnds, SourceCounts, SinkCounts, SinkShortages, ConcludesWith, IsHalt, IsStop};

use crate::Status;
use crate::answering::Answering;
use crate::output::{halted, write_all};
use crate::promise::answers_promised;
use crate::reading::{Taken, finish, take_piece};
use mw_heap::Memory;
use mw_port::{Sink, Source};
use mw_read::{Reader, SyntaxKind};
use std::alloc::Global;

// The longest book, in bytes, as the reader has it: no more pieces than this are handed over.
const LIMIT: u64 = 1 << 40;

// How many bytes are read at a time: a pipe of most systems hands over as many at once.
const PIECE: usize = 4096;

/// Answers the book on the source and writes the answers, those to all data that are complete before more is read.
pub fn answer_book<A: Answering, S: Source, K: Sink>(
    alloc: Global,
    answering: &mut A,
    source: &mut S,
    sink: &mut K,
) -> Status
    requires answered { A.answered answering.old (A.request answering.old) [] }
    requires expected { AreAnswers (A.request answering.old) [] [] }
    requires none_left { A.unwritten answering.old ≡ [] }
    requires count { A.count answering.old ≡ 0 }
    ensures ends { BookEnds result (A.request answering.old) (S.left source.old) (S.left source.new) (K.taken sink.old) (K.taken sink.new) (K.shortages sink.old) (K.shortages sink.new) }
    ensures source_counts { SourceCounts result (S.faults source.old) (S.faults source.new) }
    ensures sink_counts { SinkCounts result (K.faults sink.old) (K.faults sink.new) }
{
    answers_promised();
    match read_all(alloc, answering, source, sink) {
        Ok(fault) => conclude(answering, fault, sink),
        Err(status) => status,
    }
}

/// Reads the book to its end or its first fault, which is answered. All lines are written, also where it runs out of memory.
pub fn read_all<A: Answering, S: Source, K: Sink>(
    alloc: Global,
    answering: &mut A,
    source: &mut S,
    sink: &mut K,
) -> Result<Option<(SyntaxKind, u64)>, Status>
    requires answered { A.answered answering.old (A.request answering.old) [] }
    requires expected { AreAnswers (A.request answering.old) [] [] }
    requires none_left { A.unwritten answering.old ≡ [] }
    requires count { A.count answering.old ≡ 0 }
    ensures whole { IfOk result (λ f. ReadWhole A.answered (A.request answering.old) (S.left source.old) (S.left source.new) (K.taken sink.old) (K.taken sink.new) f answering.new) }
    ensures none_left { OnOk result (A.unwritten answering.new ≡ []) }
    ensures steady { OnOk result ((S.faults source.new ≡ S.faults source.old) × (K.faults sink.new ≡ K.faults sink.old)) }
    ensures enough { OnOk result (K.shortages sink.new ≡ K.shortages sink.old) }
    ensures stops { IfErr result IsStop }
    ensures ends { IfErr result (λ s. BookEnds s (A.request answering.old) (S.left source.old) (S.left source.new) (K.taken sink.old) (K.taken sink.new) (K.shortages sink.old) (K.shortages sink.new)) }
    ensures source_counts { IfErr result (λ s. SourceCounts s (S.faults source.old) (S.faults source.new)) }
    ensures sink_counts { IfErr result (λ s. SinkCounts s (K.faults sink.old) (K.faults sink.new)) }
{
    let mut reader = Reader::new(alloc);
    read_pieces(answering, source, sink, &mut reader)
}

// The same, by a reader that was fed nothing. It stands apart, since each step of the loop costs more to prove where it owns a reader.
fn read_pieces<A: Answering, S: Source, K: Sink>(
    answering: &mut A,
    source: &mut S,
    sink: &mut K,
    reader: &mut Reader,
) -> Result<Option<(SyntaxKind, u64)>, Status>
    requires answered { A.answered answering.old (A.request answering.old) [] }
    requires expected { AreAnswers (A.request answering.old) [] [] }
    requires none_left { A.unwritten answering.old ≡ [] }
    requires count { A.count answering.old ≡ 0 }
    requires stands { (os : List Object) → Stands os reader.old.parser [] [] }
    requires free { IsFree reader.old.parser }
    requires awaits { IsAwaiting reader.old }
    ensures whole { IfOk result (λ f. ReadWhole A.answered (A.request answering.old) (S.left source.old) (S.left source.new) (K.taken sink.old) (K.taken sink.new) f answering.new) }
    ensures none_left { OnOk result (A.unwritten answering.new ≡ []) }
    ensures steady { OnOk result ((S.faults source.new ≡ S.faults source.old) × (K.faults sink.new ≡ K.faults sink.old)) }
    ensures enough { OnOk result (K.shortages sink.new ≡ K.shortages sink.old) }
    ensures stops { IfErr result IsStop }
    ensures ends { IfErr result (λ s. BookEnds s (A.request answering.old) (S.left source.old) (S.left source.new) (K.taken sink.old) (K.taken sink.new) (K.shortages sink.old) (K.shortages sink.new)) }
    ensures source_counts { IfErr result (λ s. SourceCounts s (S.faults source.old) (S.faults source.new)) }
    ensures sink_counts { IfErr result (λ s. SinkCounts s (K.faults sink.old) (K.faults sink.new)) }
{
    answers_promised();
    let mut buffer = [0; PIECE];
    for _ in 0..=LIMIT {
        let Ok(n) = source.read(&mut buffer) else {
            return Err(Status::ReadFault);
        };
        if n == 0 {
            return answer_end(answering, reader, sink);
        }
        let fault = answer_piece(answering, reader, &buffer[..n], sink)?;
        if fault.is_some() {
            return Ok(fault);
        }
    }
    unreachable!()
}

// Reads a piece of the book and answers its data. The answers are written at the end of the piece, and after a datum that took long. Where
// the piece has the first fault of the book, that is answered with its offset.
fn answer_piece<A: Answering, K: Sink>(
    answering: &mut A,
    reader: &mut Reader,
    piece: &[u8],
    sink: &mut K,
) -> Result<Option<(SyntaxKind, u64)>, Status>
    requires stands { IsStanding (A.objects answering.old) reader.old.parser }
    requires awaits { IsAwaiting reader.old }
    requires free { IsFree reader.old.parser }
    requires room { A.count answering.old + work reader.old.parser piece.now < 2 ^ 62 }
    requires known { HasAnswered A.answered answering.old }
    requires none_left { A.unwritten answering.old ≡ [] }
    ensures written { IfOk result (λ f. HasWritten A.objects A.unwritten A.count A.answered f answering.old reader.old.parser piece.now (K.taken sink.old) answering.new reader.new.parser (K.taken sink.new)) }
    ensures awaits { OnOk result (IsAwaiting reader.new) }
    ensures steady { OnOk result (K.faults sink.new ≡ K.faults sink.old) }
    ensures enough { OnOk result (K.shortages sink.new ≡ K.shortages sink.old) }
    ensures halt { IfErr result IsHalt }
    ensures stops { IfErr result (λ s. (g : List ℕ) (given : List Object) → Stands (A.objects answering.old) reader.old.parser g given → StopsWritten A.answered s answering.old given (AreFirst (g ++ piece.now)) (K.taken sink.old) (K.taken sink.new) (K.shortages sink.old) (K.shortages sink.new)) }
    ensures sink_counts { IfErr result (λ s. SinkCounts s (K.faults sink.old) (K.faults sink.new)) }
{
    let mut at = 0;
    while at < piece.len() {
        let taken = take_piece(answering, reader, &piece[at..]);
        write_lines(answering, sink)?;
        let Ok(part) = taken else {
            return Err(Status::Memory);
        };
        match part {
            Taken::Bytes(n) => at += n,
            Taken::Fault(kind, offset) => return Ok(Some((kind, offset))),
        }
    }
    Ok(None)
}

// Answers the datum that the end of the book completes, where it does, and writes the answer. Where the book has a fault, that is answered
// with its offset.
fn answer_end<A: Answering, K: Sink>(
    answering: &mut A,
    reader: &mut Reader,
    sink: &mut K,
) -> Result<Option<(SyntaxKind, u64)>, Status>
    requires stands { IsStanding (A.objects answering.old) reader.old.parser }
    requires awaits { IsAwaiting reader.old }
    requires room { A.count answering.old + work reader.old.parser [] < 2 ^ 62 }
    requires known { HasAnswered A.answered answering.old }
    requires none_left { A.unwritten answering.old ≡ [] }
    ensures ends { IfOk result (λ f. (g : List ℕ) (given : List Object) → Stands (A.objects answering.old) reader.old.parser g given → EndsWritten A.answered f answering.old g given (K.taken sink.old) answering.new (K.taken sink.new)) }
    ensures none_left { OnOk result (A.unwritten answering.new ≡ []) }
    ensures steady { OnOk result (K.faults sink.new ≡ K.faults sink.old) }
    ensures enough { OnOk result (K.shortages sink.new ≡ K.shortages sink.old) }
    ensures halt { IfErr result IsHalt }
    ensures stops { IfErr result (λ s. (g : List ℕ) (given : List Object) → Stands (A.objects answering.old) reader.old.parser g given → StopsWritten A.answered s answering.old given (IsBegunBy g) (K.taken sink.old) (K.taken sink.new) (K.shortages sink.old) (K.shortages sink.new)) }
    ensures sink_counts { IfErr result (λ s. SinkCounts s (K.faults sink.old) (K.faults sink.new)) }
{
    let finished = finish(answering, reader);
    write_lines(answering, sink)?;
    match finished {
        Ok(fault) => Ok(fault),
        Err(Memory) => Err(Status::Memory),
    }
}

// Writes the lines that were not written yet.
fn write_lines<A: Answering, K: Sink>(answering: &mut A, sink: &mut K) -> Result<(), Status>
    ensures written { OnOk result (Takes (K.taken sink.old) (K.taken sink.new) (A.unwritten answering.old)) }
    ensures steady { OnOk result (K.faults sink.new ≡ K.faults sink.old) }
    ensures some { OnErr result (TakesSome (K.taken sink.old) (K.taken sink.new) (A.unwritten answering.old)) }
    ensures halt { IfErr result IsHalt }
    ensures sink_counts { IfErr result (λ s. SinkCounts s (K.faults sink.old) (K.faults sink.new)) }
    ensures enough { OnOk result (K.shortages sink.new ≡ K.shortages sink.old) }
    ensures short { IfErr result (λ s. SinkShortages s (K.shortages sink.old) (K.shortages sink.new)) }
    ensures none_left { A.unwritten answering.new ≡ [] }
    ensures objects { A.objects answering.new ≡ A.objects answering.old }
    ensures count { A.count answering.new ≡ A.count answering.old }
    ensures answered { (q : Request) (given : List Object) → A.answered answering.old q given → A.answered answering.new q given }
{
    let written = write_all(sink, answering.lines());
    answering.drop_lines();
    written.map_err(halted)
}

/// Writes the last text.
pub fn conclude<A: Answering, K: Sink>(
    answering: &mut A,
    fault: Option<(SyntaxKind, u64)>,
    sink: &mut K,
) -> Status
    requires known { HasAnswered A.answered answering.old }
    requires none_left { A.unwritten answering.old ≡ [] }
    ensures concludes { (q : Request) (given : List Object) → A.answered answering.old q given → ConcludesWith result (status_with (fault_of fault) (refused_for q given)) (IsLastText q given (fault_of fault)) (K.taken sink.old) (K.taken sink.new) (K.shortages sink.old) (K.shortages sink.new) }
    ensures sink_counts { SinkCounts result (K.faults sink.old) (K.faults sink.new) }
{
    let Ok(some_refused) = answering.end(fault) else {
        return Status::Memory;
    };
    match write_lines(answering, sink) {
        Ok(()) => status_after(fault, some_refused),
        Err(status) => status,
    }
}

// How the program ends after a book with this fault, or with none, where some of the data were refused, or none.
fn status_after(fault: Option<(SyntaxKind, u64)>, some_refused: bool) -> Status
    ensures { (n : ℕ) → (fault ≡ None → some_refused ≡ nat_lt 0 n) → report_status result ≡ Some (status_with (fault_of fault) n) }
{
    match fault {
        Some((kind, offset)) => Status::Syntax(kind, offset),
        None if some_refused => Status::SomeRefused,
        None => Status::Done,
    }
}
