//! The commands that judge a book, and what they tell of an event.
ghost use Rattle.std.specs.Prelude.{◌≡◌, [], ℕ, Some};
ghost use Rattle.mw_model.specs.Reports.Request.{Check};
ghost use Rattle.mw_model.specs.Reports.Trial.{trial_book};
ghost use Rattle.mw_port.specs.Memories.{no_faults};
ghost use Rattle.mw_answers.specs.Effects.{plain, refused_as_reported};
ghost use Rattle.mw_answers.specs.Checks.{BookEnds, TrialEnds, SourceCounts, SinkCounts};

use crate::judging::{Judging, Telling};
use crate::line::write_line;
use crate::nowhere::Nowhere;
use crate::session::{Session, answer_by};
use mw_answers::{Status, conclude, read_all};
use mw_heap::{Memory, Ref, Refusal};
use mw_kernel::{Fate, Kernel};
use mw_port::{Sink, Source};
use mw_reflect::reached_sound;
use std::alloc::Global;

/// Tells of each event its line.
#[derive(Drop)]
pub(crate) struct Reporting;

impl Telling for Reporting {
    ghost request = { Check };

    ghost effect = { plain };

    ghost mark = { [] };

    ghost refused = { refused_as_reported };

    fn judge(
        &mut self,
        kernel: &mut Kernel,
        _number: u64,
        x: Ref,
        begun: &[u8],
        piece: &mut Vec<u8>,
    ) -> Result<Fate, Memory> {
        let fate = kernel.event(x)?;
        write_line(piece, begun, &fate)?;
        Ok(fate)
    }

    fn refuse(
        &mut self,
        _kernel: &mut Kernel,
        _number: u64,
        begun: &[u8],
        piece: &mut Vec<u8>,
    ) -> Result<(), Memory> {
        write_line(piece, begun, &Fate::Refused(Refusal::Range))
    }

    fn mark(&self) -> &'static [u8] {
        b""
    }
}

/// Judges the book on the source and writes its report, the line of each event before more is read.
pub(crate) fn check<S: Source, K: Sink>(
    alloc: Global,
    steps: u64,
    source: &mut S,
    sink: &mut K,
) -> Status
    ensures ends { BookEnds result (Check steps) (S.left source.old) (S.left source.new) (K.taken sink.old) (K.taken sink.new) (K.shortages sink.old) (K.shortages sink.new) }
    ensures source_counts { SourceCounts result (S.faults source.old) (S.faults source.new) }
    ensures sink_counts { SinkCounts result (K.faults sink.old) (K.faults sink.new) }
{
    let judging = Judging::new(alloc, Reporting);
    answer_by(alloc, Kernel::new(alloc, steps), judging, source, sink)
}

/// Judges the trial book, which the source holds, and writes the last line of its report.
pub(crate) fn trial<S: Source, K: Sink>(
    alloc: Global,
    steps: u64,
    source: &mut S,
    sink: &mut K,
) -> Status
    requires never_fails { (s : S) → S.faults s ≡ no_faults }
    ensures ends { (m : ℕ) → S.left source.old ≡ Some (trial_book m) → TrialEnds result m steps (K.taken sink.old) (K.taken sink.new) (K.shortages sink.old) (K.shortages sink.new) }
    ensures sink_counts { SinkCounts result (K.faults sink.old) (K.faults sink.new) }
{
    let Ok(kernel) = Kernel::new(alloc, steps) else {
        return Status::Memory;
    };
    let Ok(mut boxed) = Session::new(alloc, kernel, Judging::new(alloc, Reporting)) else {
        return Status::Memory;
    };
    let session: &mut Session<Kernel, Judging<Reporting>> = &mut boxed;
    reached_sound();
    match read_all(alloc, session, source, &mut Nowhere) {
        Ok(fault) => conclude(session, fault, sink),
        Err(status) => status,
    }
}
