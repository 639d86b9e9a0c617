//! The command that turns a book to a log: the judging of events as they are read, and the steps of those that are accepted.
ghost use Rattle.std.specs.Prelude.{◌≡◌, ◌+◌, ◌<◌, ◌^◌, ◌||◌, false, List, [], ◌∷◌, ◌++◌, IfOk, OnOk};
ghost use Rattle.mw_model.specs.Terms.Object.{Object};
ghost use Rattle.mw_model.specs.Reports.Request.{Flat};
ghost use Rattle.mw_model.specs.Reports.Report.{is_accepted};
ghost use Rattle.mw_heap.specs.Objects.{object_at, IsIn};
ghost use Rattle.mw_kernel.specs.Fates.{fate_of};
ghost use Rattle.mw_book.specs.Lines.{flat_line};
ghost use Rattle.mw_answers.specs.Writing.{Puts};
ghost use Rattle.mw_book.specs.Flattened.{FlattenedFor, HasEndedEvent, flattened_still};
ghost use Rattle.mw_answers.specs.Checks.{BookEnds, SourceCounts, SinkCounts};

use crate::session::{Command, answer_by};
use mw_answers::Status;
use mw_flat::write_flat;
use mw_heap::{Memory, Ref, Word};
use mw_kernel::{Fate, Kernel};
use mw_port::{Sink, Source};
use mw_print::write_text_and_number;
use mw_slice::Copies;
use std::alloc::Global;

/// Writes the steps of each event that is accepted, and the event with their numbers.
#[derive(Drop)]
pub(crate) struct Flattening {
    events: u64,
    // the events that were written
    written: u64,
    // some event was refused
    refused: bool,
    // a switch was accepted: from then on events are only counted
    switched: bool,
    // what is noted while parts of the event are copied
    copies: Copies,
}

// The last line of a book without a fault.
fn write_counts(lines: &mut Vec<u8>, events: u64, written: u64) -> Result<(), Memory>
    ensures { OnOk result (lines.new.items ≡ lines.old.items ++ flat_line events written) }
{
    write_text_and_number(lines, b"events ", events)?;
    write_text_and_number(lines, b" flat ", written)?;
    lines.push(b'\n')?;
    Ok(())
}

impl Flattening {
    /// Nothing was judged.
    pub(crate) fn new(alloc: Global) -> Flattening
        ensures events { result.events ≡ 0 }
        ensures written { result.written ≡ 0 }
        ensures refused { result.refused ≡ false }
        ensures switched { result.switched ≡ false }
    {
        Flattening {
            events: 0,
            written: 0,
            refused: false,
            switched: false,
            copies: Copies::new(alloc),
        }
    }

    // Judges an event. Its steps, and the event with their numbers, are written before that. If they are too many or too long to be
    // written, only an event that is accepted and would be written ends out of memory.
    fn judge(&mut self, kernel: &mut Kernel, x: Ref, piece: &mut Vec<u8>) -> Result<(), Memory>
        requires within { IsIn kernel.old.objects x }
        requires plain { self.old.switched ≡ false }
        requires events { self.old.events + 1 < 2 ^ 64 }
        requires written { self.old.written + 1 < 2 ^ 64 }
        ensures puts { OnOk result ((given : List Object) → Puts FlattenedFor self.old kernel.old given self.new kernel.new (given ++ object_at kernel.old.objects x ∷ []) piece.new.items) }
        ensures counted { OnOk result (self.new.events ≡ self.old.events + 1) }
    {
        let is_switch = kernel.heap().is_headed(x, Word::Switch);
        let logged = write_flat(kernel.heap(), x, &mut self.copies, piece);
        let fate = kernel.event(x)?;
        let is_logged = self.end_event(&fate, logged, is_switch)?;
        if is_logged {
            self.written += 1;
            return Ok(());
        }
        piece.clear();
        Ok(())
    }

    // Whether some event has no place in a log: one that was refused, or a switch.
    fn has_others(&self) -> bool
        ensures { result ≡ (self.now.refused || self.now.switched) }
    {
        self.refused || self.switched
    }

    // Counts an event. Answers whether it is one of a log.
    fn end_event(
        &mut self,
        fate: &Fate,
        logged: Result<bool, Memory>,
        is_switch: bool,
    ) -> Result<bool, Memory>
        requires events { self.old.events + 1 < 2 ^ 64 }
        ensures ended { IfOk result (HasEndedEvent self.old self.new (is_accepted (fate_of fate.now)) logged is_switch) }
    {
        self.events += 1;
        match fate {
            Fate::Accepted(_) if is_switch => {
                self.switched = true;
                Ok(false)
            }
            Fate::Accepted(_) => {
                let is_logged = logged?;
                Ok(is_logged)
            }
            Fate::Refused(_) => {
                self.refused = true;
                Ok(false)
            }
        }
    }
}

impl Command<Kernel> for Flattening {
    ghost count = { λ f. f.events };

    ghost request = { λ f k. Flat k.steps };

    ghost answered = { FlattenedFor };

    ghost still = { flattened_still };

    fn answer(&mut self, kernel: &mut Kernel, x: Ref, piece: &mut Vec<u8>) -> Result<(), Memory> {
        if self.switched {
            kernel.forget();
            self.events += 1;
            return Ok(());
        }
        self.judge(kernel, x, piece)
    }

    fn answer_large(
        &mut self,
        _kernel: &mut Kernel,
        _word: Option<Ref>,
        _label: Option<Ref>,
        _piece: &mut Vec<u8>,
    ) -> Result<(), Memory> {
        self.refused = true;
        self.events += 1;
        Ok(())
    }

    fn mark(&self) -> &'static [u8] {
        b"; "
    }

    fn end(&self, _kernel: &Kernel, lines: &mut Vec<u8>) -> Result<bool, Memory> {
        lines.extend_from_slice(b"; ")?;
        write_counts(lines, self.events, self.written)?;
        Ok(self.has_others())
    }
}

/// Judges the book on the source and writes each event that is accepted before the first switch as its steps and the event with their numbers, before
/// more is read.
pub(crate) fn flat<S: Source, K: Sink>(
    alloc: Global,
    steps: u64,
    source: &mut S,
    sink: &mut K,
) -> Status
    ensures ends { BookEnds result (Flat steps) (S.left source.old) (S.left source.new) (K.taken sink.old) (K.taken sink.new) (K.shortages sink.old) (K.shortages sink.new) }
    ensures source_counts { SourceCounts result (S.faults source.old) (S.faults source.new) }
    ensures sink_counts { SinkCounts result (K.faults sink.old) (K.faults sink.new) }
{
    let flattening = Flattening::new(alloc);
    answer_by(alloc, Kernel::new(alloc, steps), flattening, source, sink)
}
