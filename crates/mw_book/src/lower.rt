//! The command that turns the derivations of a book to proofs, and what it tells of an event.
ghost use Rattle.std.specs.Prelude.{◌≡◌, [], codes, OnOk, IfOk};
ghost use Rattle.mw_model.specs.Reports.Request.{Lower as ToLower};
ghost use Rattle.mw_model.specs.Laws.Rewriting.{IsRewritten};
ghost use Rattle.mw_model.specs.Texts.Written.{IsDatumLine};
ghost use Rattle.mw_commands.specs.Commands.Derivation.{Turns};
ghost use Rattle.mw_heap.specs.Objects.{object_at, IsIn};
ghost use Rattle.mw_kernel.specs.Fates.{fate_of};
ghost use Rattle.mw_kernel.specs.Knowledge.{theory_of};
ghost use Rattle.mw_answers.specs.Effects.{derived, refused_in_derived};
ghost use Rattle.mw_book.specs.Pieces.{lowered_piece};
ghost use Rattle.mw_answers.specs.Checks.{BookEnds, SourceCounts, SinkCounts};

use crate::judging::{Judging, Telling};
use crate::line::write_line;
use crate::session::answer_by;
use mw_answers::Status;
use mw_commands::lowering::{lowered_events, lowerings_possible};
use mw_heap::{Memory, Ref, Refusal};
use mw_kernel::{Fate, Kernel};
use mw_lower::Lower;
use mw_port::{Sink, Source};
use mw_print::write_datum;
use std::alloc::Global;

/// Tells of each event that is accepted what it is with proofs in place of its derivations.
#[derive(Drop)]
pub(crate) struct Lowering;

// The event with proofs in place of its derivations, the line of which is written.
fn lowered(kernel: &mut Kernel, x: Ref, piece: &mut Vec<u8>) -> Result<Ref, Memory>
    requires within { IsIn kernel.old.objects x }
    requires empty { piece.old.items ≡ [] }
    ensures within { IfOk result (λ r. IsIn kernel.new.objects r) }
    ensures rewritten { IfOk result (λ r. IsRewritten Turns (theory_of kernel.old) (object_at kernel.old.objects x) (object_at kernel.new.objects r)) }
    ensures datum { IfOk result (λ r. IsDatumLine (object_at kernel.new.objects r) piece.new.items) }
    ensures theory { theory_of kernel.new ≡ theory_of kernel.old }
    ensures steps { kernel.new.steps ≡ kernel.old.steps }
{
    let lowered = kernel.rewritten(x, &mut Lower)?;
    write_datum(kernel.heap(), lowered, 1, piece)?;
    piece.push(b'\n')?;
    Ok(lowered)
}

// Leaves the line of an event that is accepted. One that is refused is replaced by the comment on it.
fn end_piece(piece: &mut Vec<u8>, begun: &[u8], fate: &Fate) -> Result<(), Memory>
    ensures { OnOk result (piece.new.items ≡ lowered_piece (fate_of fate.now) piece.old.items begun.now) }
{
    match fate {
        Fate::Accepted(_) => Ok(()),
        Fate::Refused(_) => {
            piece.clear();
            write_line(piece, begun, fate)
        }
    }
}

impl Telling for Lowering {
    ghost request = { ToLower };

    ghost effect = { derived };

    ghost mark = { codes "; " };

    ghost refused = { refused_in_derived };

    fn judge(
        &mut self,
        kernel: &mut Kernel,
        _number: u64,
        x: Ref,
        begun: &[u8],
        piece: &mut Vec<u8>,
    ) -> Result<Fate, Memory> {
        lowered_events();
        lowerings_possible();
        let lowered = lowered(kernel, x, piece)?;
        let fate = kernel.event(lowered)?;
        end_piece(piece, begun, &fate)?;
        Ok(fate)
    }

    fn refuse(
        &mut self,
        _kernel: &mut Kernel,
        _number: u64,
        begun: &[u8],
        piece: &mut Vec<u8>,
    ) -> Result<(), Memory> {
        write_line(piece, begun, &Fate::Refused(Refusal::Range))
    }

    fn mark(&self) -> &'static [u8] {
        b"; "
    }
}

/// Judges the book on the source, with derivations as good as proofs, and writes each event that is accepted with proofs in their place,
/// before more is read.
pub(crate) fn lower<S: Source, K: Sink>(
    alloc: Global,
    steps: u64,
    source: &mut S,
    sink: &mut K,
) -> Status
    ensures ends { BookEnds result (ToLower steps) (S.left source.old) (S.left source.new) (K.taken sink.old) (K.taken sink.new) (K.shortages sink.old) (K.shortages sink.new) }
    ensures source_counts { SourceCounts result (S.faults source.old) (S.faults source.new) }
    ensures sink_counts { SinkCounts result (K.faults sink.old) (K.faults sink.new) }
{
    let judging = Judging::new(alloc, Lowering);
    answer_by(alloc, Kernel::new(alloc, steps), judging, source, sink)
}
