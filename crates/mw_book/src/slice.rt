//! The command that keeps what a theorem of a book rests on: the judging of events as they are read, and those that are accepted.
ghost use Rattle.std.specs.Prelude.{◌≡◌, cond, [], ◌∷◌, ◌++◌, OnOk};
ghost use Rattle.mw_model.specs.Terms.Object.{name_of_bytes};
ghost use Rattle.mw_model.specs.Reports.Request.{Slice};
ghost use Rattle.mw_model.specs.Events.Fate.{fate, next};
ghost use Rattle.mw_model.specs.Reports.Report.{is_accepted};
ghost use Rattle.mw_heap.specs.Objects.{object_at, IsIn};
ghost use Rattle.mw_kernel.specs.Knowledge.{theory_of};
ghost use Rattle.mw_slice.specs.Slices.{events_of};
ghost use Rattle.mw_book.specs.Sliced.{SlicedFor, name_asked, sliced_still};
ghost use Rattle.mw_answers.specs.Checks.{BookEnds, SourceCounts, SinkCounts};

use crate::session::{Command, answer_by};
use mw_answers::Status;
use mw_heap::{Memory, Ref};
use mw_kernel::{Fate, Kernel};
use mw_port::{Sink, Source};
use mw_request::TheoremName;
use mw_slice::{Picked, Slicer, write_absent, write_slice};
use std::alloc::Global;

/// Writes the events that a theorem rests on, when the book has ended.
#[derive(Drop)]
pub(crate) struct Slicing {
    // the events that were accepted
    slicer: Slicer,
    // the name of the theorem that is asked for
    name: TheoremName,
    events: u64,
}

impl Slicing {
    /// Nothing was judged.
    pub(crate) fn new(alloc: Global, name: TheoremName) -> Slicing
        ensures name { name_asked result ≡ name_of_bytes name }
        ensures events { result.events ≡ 0 }
        ensures accepted { events_of result.slicer ≡ [] }
    {
        Slicing {
            slicer: Slicer::new(alloc),
            name,
            events: 0,
        }
    }

    // Judges an event. The slicer keeps it if it is accepted.
    fn judge(&mut self, kernel: &mut Kernel, x: Ref) -> Result<(), Memory>
        requires within { IsIn kernel.old.objects x }
        ensures theory { OnOk result (theory_of kernel.new ≡ next (theory_of kernel.old) (object_at kernel.old.objects x) kernel.old.steps) }
        ensures steps { kernel.new.steps ≡ kernel.old.steps }
        ensures accepted { OnOk result (events_of self.new.slicer ≡ events_of self.old.slicer ++ cond (is_accepted (fate (theory_of kernel.old) (object_at kernel.old.objects x) kernel.old.steps)) (object_at kernel.old.objects x ∷ []) []) }
        ensures rest { self.new ≡ record self.old { slicer = self.new.slicer } }
    {
        self.slicer.add(kernel.heap(), x)?;
        let fate = kernel.event(x)?;
        if let Fate::Refused(_) = fate {
            self.slicer.take_back();
        }
        Ok(())
    }
}

impl Command<Kernel> for Slicing {
    ghost count = { λ s. s.events };

    ghost request = { λ s k. Slice (name_asked s) k.steps };

    ghost answered = { SlicedFor };

    ghost still = { sliced_still };

    fn answer(&mut self, kernel: &mut Kernel, x: Ref, _piece: &mut Vec<u8>) -> Result<(), Memory> {
        self.judge(kernel, x)?;
        self.events += 1;
        Ok(())
    }

    fn answer_large(
        &mut self,
        _kernel: &mut Kernel,
        _word: Option<Ref>,
        _label: Option<Ref>,
        _piece: &mut Vec<u8>,
    ) -> Result<(), Memory> {
        self.events += 1;
        Ok(())
    }

    fn mark(&self) -> &'static [u8] {
        b"; "
    }

    fn end(&self, _kernel: &Kernel, lines: &mut Vec<u8>) -> Result<bool, Memory> {
        match self.slicer.pick(self.name.as_bytes()) {
            Picked::Events(places) => {
                write_slice(lines, &self.slicer, places.as_slice(), self.events)?;
                Ok(false)
            }
            Picked::Absent => {
                write_absent(lines, self.events)?;
                Ok(true)
            }
            Picked::Memory => Err(Memory),
        }
    }
}

/// Judges the book on the source and writes, when it has ended, the events that the theorem of this name rests on.
pub(crate) fn slice<S: Source, K: Sink>(
    alloc: Global,
    name: TheoremName,
    steps: u64,
    source: &mut S,
    sink: &mut K,
) -> Status
    ensures ends { BookEnds result (Slice (name_of_bytes name) steps) (S.left source.old) (S.left source.new) (K.taken sink.old) (K.taken sink.new) (K.shortages sink.old) (K.shortages sink.new) }
    ensures source_counts { SourceCounts result (S.faults source.old) (S.faults source.new) }
    ensures sink_counts { SinkCounts result (K.faults sink.old) (K.faults sink.new) }
{
    let slicing = Slicing::new(alloc, name);
    answer_by(alloc, Kernel::new(alloc, steps), slicing, source, sink)
}
