//! The command that judges a log, and the judging of its data as they are read.
ghost use Rattle.std.specs.Prelude.{◌≡◌, ◌+◌, ◌<◌, ◌≤◌, ◌^◌, cond, [], ◌++◌, OnOk};
ghost use Rattle.mw_model.specs.Terms.Object.{Object};
ghost use Rattle.mw_model.specs.Reports.Request.{Recheck};
ghost use Rattle.mw_read.specs.Shown.{ShowsEvent};
ghost use Rattle.mw_flat.specs.Verdicts.{answer_of};
ghost use Rattle.mw_book.specs.Lines.{answers_line, line_begun};
ghost use Rattle.mw_book.specs.Rechecked.{HasCounted, RecheckedFor, rechecked_still, said_text};
ghost use Rattle.mw_answers.specs.Checks.{BookEnds, SourceCounts, SinkCounts};

use crate::line::begin_line;
use crate::session::{Command, answer_by};
use mw_answers::Status;
use mw_flat::{Flat, Verdict, is_step_word};
use mw_heap::{Memory, Ref, Word};
use mw_port::{Sink, Source};
use mw_print::write_text_and_number;
use mw_read::shown;
use std::alloc::Global;

/// Writes of each event of a log its line.
#[derive(Drop)]
pub(crate) struct Rechecking {
    // the data that were answered, steps too
    taken: u64,
    events: u64,
    // the events that got a no
    denied: u64,
}

// The same word, since what holds a reference is moved where it is passed on.
fn copy_of(word: &Option<Ref>) -> Option<Ref>
    ensures { result ≡ word.now }
{
    match word {
        Some(word) => Some(*word),
        None => None,
    }
}

// The last line of a log without a fault.
fn write_answers(lines: &mut Vec<u8>, events: u64, denied: u64, left: u64) -> Result<(), Memory>
    requires { denied ≤ events }
    ensures { OnOk result (lines.new.items ≡ lines.old.items ++ answers_line events denied left) }
{
    write_text_and_number(lines, b"events ", events)?;
    write_text_and_number(lines, b" yes ", events - denied)?;
    write_text_and_number(lines, b" no ", denied)?;
    write_text_and_number(lines, b" left ", left)?;
    lines.push(b'\n')?;
    Ok(())
}

// Ends the line of an event with the answer to it.
fn end_answer(line: &mut Vec<u8>, verdict: &Verdict) -> Result<(), Memory>
    ensures { OnOk result (line.new.items ≡ line.old.items ++ said_text (answer_of verdict.now)) }
{
    match verdict {
        Verdict::Noted => {}
        Verdict::Yes => line.extend_from_slice(b"yes\n")?,
        Verdict::No(objection) => {
            line.extend_from_slice(b"no ")?;
            line.extend_from_slice(objection.word().as_bytes())?;
            line.push(b'\n')?;
        }
    }
    Ok(())
}

impl Rechecking {
    /// Nothing was judged.
    pub(crate) fn new() -> Rechecking
        ensures taken { result.taken ≡ 0 }
        ensures events { result.events ≡ 0 }
        ensures denied { result.denied ≡ 0 }
    {
        Rechecking {
            taken: 0,
            events: 0,
            denied: 0,
        }
    }

    // Begins the line of a datum that is shown so, unless it is a step, which has none.
    fn begin_datum(
        &self,
        flat: &Flat,
        is_step: bool,
        word: Option<Ref>,
        label: Option<Ref>,
        line: &mut Vec<u8>,
    ) -> Result<(), Memory>
        requires shows { (x : Object) × ShowsEvent flat.now.objects word label x }
        requires room { self.now.events + 1 < 2 ^ 64 }
        ensures { OnOk result ((x : Object) → ShowsEvent flat.now.objects word label x → line.new.items ≡ line.old.items ++ cond is_step [] (line_begun (self.now.events + 1) x)) }
    {
        if is_step {
            return Ok(());
        }
        begin_line(line, flat.heap(), self.events + 1, word, label)
    }

    // Counts a datum with the answer to it.
    fn count(&mut self, verdict: &Verdict)
        requires taken { self.old.taken + 1 < 2 ^ 64 }
        requires events { self.old.events + 1 < 2 ^ 64 }
        requires denied { self.old.denied + 1 < 2 ^ 64 }
        ensures { HasCounted self.old self.new (answer_of verdict.now) }
    {
        self.taken += 1;
        match verdict {
            Verdict::Noted => {}
            Verdict::Yes => self.events += 1,
            Verdict::No(_) => {
                self.events += 1;
                self.denied += 1;
            }
        }
    }
}

impl Command<Flat> for Rechecking {
    ghost count = { λ r. r.taken };

    ghost request = { λ r f. Recheck };

    ghost answered = { RecheckedFor };

    ghost still = { rechecked_still };

    fn answer(&mut self, flat: &mut Flat, x: Ref, line: &mut Vec<u8>) -> Result<(), Memory> {
        let is_step = flat.heap().is_headed(x, Word::Step);
        let (word, label) = shown(flat.heap(), x);
        self.begin_datum(flat, is_step, word, label, line)?;
        let verdict = flat.datum(x)?;
        end_answer(line, &verdict)?;
        self.count(&verdict);
        Ok(())
    }

    fn answer_large(
        &mut self,
        flat: &mut Flat,
        word: Option<Ref>,
        label: Option<Ref>,
        line: &mut Vec<u8>,
    ) -> Result<(), Memory> {
        let is_step = is_step_word(flat.heap(), &word);
        self.begin_datum(flat, is_step, copy_of(&word), label, line)?;
        let verdict = flat.too_big(word);
        end_answer(line, &verdict)?;
        self.count(&verdict);
        Ok(())
    }

    fn mark(&self) -> &'static [u8] {
        b""
    }

    fn end(&self, flat: &Flat, lines: &mut Vec<u8>) -> Result<bool, Memory> {
        // what is refused was answered, so that the sum is in the range of that number
        let _answered = self.taken;
        let left = flat.left();
        write_answers(lines, self.events, self.denied, left)?;
        Ok(self.denied + left > 0)
    }
}

/// Judges the log on the source and writes its report, the line of each event before more is read.
pub(crate) fn recheck<S: Source, K: Sink>(alloc: Global, source: &mut S, sink: &mut K) -> Status
    ensures ends { BookEnds result Recheck (S.left source.old) (S.left source.new) (K.taken sink.old) (K.taken sink.new) (K.shortages sink.old) (K.shortages sink.new) }
    ensures source_counts { SourceCounts result (S.faults source.old) (S.faults source.new) }
    ensures sink_counts { SinkCounts result (K.faults sink.old) (K.faults sink.new) }
{
    answer_by(alloc, Flat::new(alloc), Rechecking::new(), source, sink)
}
