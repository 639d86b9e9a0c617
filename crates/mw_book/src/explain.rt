//! The command that says why events are refused, and what it tells of an event.
ghost use Rattle.std.specs.Prelude.{◌≡◌, [], codes, OnOk};
ghost use Rattle.mw_model.specs.Reports.Request.{Explain};
ghost use Rattle.mw_kernel.specs.Fates.{fate_of};
ghost use Rattle.mw_answers.specs.Effects.{plain, refused_in_plain};
ghost use Rattle.mw_book.specs.Pieces.{explained_piece};
ghost use Rattle.mw_answers.specs.Checks.{BookEnds, SourceCounts, SinkCounts};

use crate::judging::{Judging, Telling};
use crate::line::write_line;
use crate::session::answer_by;
use mw_answers::Status;
use mw_explain_events::EventParts;
use mw_heap::{Memory, Ref, Refusal};
use mw_kernel::{Fate, Kernel};
use mw_port::{Sink, Source};
use std::alloc::Global;

/// Tells of each event that is refused its line, as a comment, and a datum that says why.
#[derive(Drop)]
pub(crate) struct Explaining {
    // the line that says why, to be written after the comment
    datum: Vec<u8>,
}

// Writes the comment on an event that is refused, and the datum. Of one that is accepted nothing is written.
fn write_piece(piece: &mut Vec<u8>, begun: &[u8], datum: &[u8], fate: &Fate) -> Result<(), Memory>
    requires empty { piece.old.items ≡ [] }
    ensures { OnOk result (piece.new.items ≡ explained_piece (fate_of fate.now) begun.now datum.now) }
{
    match fate {
        Fate::Accepted(_) => Ok(()),
        Fate::Refused(_) => {
            write_line(piece, begun, fate)?;
            piece.extend_from_slice(datum)?;
            Ok(())
        }
    }
}

impl Telling for Explaining {
    ghost request = { Explain };

    ghost effect = { plain };

    ghost mark = { codes "; " };

    ghost refused = { refused_in_plain };

    fn judge(
        &mut self,
        kernel: &mut Kernel,
        number: u64,
        x: Ref,
        begun: &[u8],
        piece: &mut Vec<u8>,
    ) -> Result<Fate, Memory> {
        self.datum.clear();
        let fate = kernel.explained(x, number, &EventParts, &mut self.datum)?;
        write_piece(piece, begun, &self.datum, &fate)?;
        Ok(fate)
    }

    fn refuse(
        &mut self,
        kernel: &mut Kernel,
        number: u64,
        begun: &[u8],
        piece: &mut Vec<u8>,
    ) -> Result<(), Memory> {
        self.datum.clear();
        kernel.explained_range(number, &mut self.datum)?;
        write_piece(piece, begun, &self.datum, &Fate::Refused(Refusal::Range))
    }

    fn mark(&self) -> &'static [u8] {
        b"; "
    }
}

/// Judges the book on the source, and writes of each event that is refused its line, as a comment, and a datum that says why, before more
/// is read.
pub(crate) fn explain<S: Source, K: Sink>(
    alloc: Global,
    steps: u64,
    source: &mut S,
    sink: &mut K,
) -> Status
    ensures ends { BookEnds result (Explain steps) (S.left source.old) (S.left source.new) (K.taken sink.old) (K.taken sink.new) (K.shortages sink.old) (K.shortages sink.new) }
    ensures source_counts { SourceCounts result (S.faults source.old) (S.faults source.new) }
    ensures sink_counts { SinkCounts result (K.faults sink.old) (K.faults sink.new) }
{
    let explaining = Explaining {
        datum: Vec::new(alloc),
    };
    let judging = Judging::new(alloc, explaining);
    answer_by(alloc, Kernel::new(alloc, steps), judging, source, sink)
}
