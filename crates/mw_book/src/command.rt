//! The program, but for its words, its source and its sink, which it is handed.
ghost use Rattle.std.specs.Prelude.{◌≡◌, ◌≢◌, ◌⊎◌, true, false, IfSome, IfErr, OnOk, OnErr};
ghost use Rattle.mw_model.specs.Reports.Request.{Help, Usage};
ghost use Rattle.mw_request.specs.Commands.{asked, help_text};
ghost use Rattle.mw_request.specs.Words.{meaning_of};
ghost use Rattle.mw_port.specs.Ports.{Rises, Takes, HasEnded};
ghost use Rattle.mw_answers.specs.Statuses.{TakesSome, report_status, reads_book, Keeps, WritesSoFar, IsPartOf, WritesFirst};
ghost use Rattle.mw_answers.specs.Checks.{TrialEnds, SinkCounts, SinkShortages, IsHalt};
ghost use Rattle.mw_book.specs.Runs.{Fulfils, HelpEnds};

use crate::check::{check, trial};
use crate::explain::explain;
use crate::flat::flat;
use crate::lower::lower;
use crate::recheck::recheck;
use crate::slice::slice;
use crate::taut::taut;
use mw_answers::{Status, answers_promised, halted, write_all};
use mw_port::{Sink, Source, Text, TrialSource};
use mw_request::{Request, request_of};
use std::alloc::Global;

// How the program is used: a line for each command.
const HELP: &[u8] =
    b"milawa check [--steps N]\nmilawa trial M [--steps N]\nmilawa taut\nmilawa lower [--steps N]\nmilawa slice NAME [--steps N]\nmilawa flat [--steps N]\nmilawa recheck\nmilawa explain [--steps N]\n";

/// Does what the words ask for: judges the book on the source and writes its report to the sink, or judges the trial book and writes the
/// last line of its report, or proves the formulas of the book on the source and writes the theorems, or judges that book with
/// derivations as good as proofs and writes its events with proofs in their place, or judges that book and writes the events that one of
/// its theorems rests on, or judges that book and writes it as a log of single steps, or judges the log on the source and writes its
/// report, or judges the book and writes of each event that is refused its line and a datum that says why, or writes how the program is
/// used.
///
/// `Done`, `SomeRefused` and `Syntax` come where the words ask for a book and its report, or its answers, have that status; the sink then
/// took these whole, or the last line: what a report calls accepted, or gives a yes, is true in the standard model, and the events that
/// `taut`, `lower` and `slice` wrote are accepted when they are read again, as those of the log get a yes, and data that say why events
/// are refused are read back as they are. `Help` comes where the words ask how the program is used, and `Usage` where they ask for
/// nothing that it does. `ReadFault` and `WriteFault` come where the source, or the sink, counted a fault in this call, and `Memory`
/// where memory ran out, or a bound was passed that is answered so: what the sink took is a prefix of an expected text, and at a fault
/// in reading the answers to all data that are complete in the bytes read, which hold no fault of the text. At `Memory` it is exactly
/// the answers to some first data of the book, unless the sink counted a shortage in this call.
pub fn run<S: Source, K: Sink>(
    alloc: Global,
    words: &[Text],
    source: &mut S,
    sink: &mut K,
) -> Status
    ensures report { IfSome (report_status result) (Keeps (asked words.now) (S.left source.old) (K.taken sink.old) (K.taken sink.new)) }
    ensures read_whole { reads_book (asked words.now) ≡ true → (result ≡ Status.Done) ⊎ (result ≡ Status.SomeRefused) → HasEnded (S.left source.new) }
    ensures unread { reads_book (asked words.now) ≡ false → S.left source.new ≡ S.left source.old }
    ensures help { result ≡ Status.Help → (asked words.now ≡ Help) × Takes (K.taken sink.old) (K.taken sink.new) help_text }
    ensures usage { result ≡ Status.Usage → (asked words.now ≡ Usage) × Takes (K.taken sink.old) (K.taken sink.new) help_text }
    ensures read_fault { result ≡ Status.ReadFault → Rises (S.faults source.old) (S.faults source.new) × WritesSoFar (asked words.now) (S.left source.old) (S.left source.new) (K.taken sink.old) (K.taken sink.new) × IsPartOf (asked words.now) (S.left source.old) (K.taken sink.old) (K.taken sink.new) }
    ensures write_fault { result ≡ Status.WriteFault → Rises (K.faults sink.old) (K.faults sink.new) × IsPartOf (asked words.now) (S.left source.old) (K.taken sink.old) (K.taken sink.new) }
    ensures memory { result ≡ Status.Memory → IsPartOf (asked words.now) (S.left source.old) (K.taken sink.old) (K.taken sink.new) }
    ensures answers { result ≡ Status.Memory → Rises (K.shortages sink.old) (K.shortages sink.new) ⊎ WritesFirst (asked words.now) (S.left source.old) (K.taken sink.old) (K.taken sink.new) }
    ensures source_steady { result ≢ Status.ReadFault → S.faults source.new ≡ S.faults source.old }
    ensures sink_steady { result ≢ Status.WriteFault → K.faults sink.new ≡ K.faults sink.old }
{
    answers_promised();
    match request_of(alloc, words) {
        Ok(request) => fulfil(alloc, request, source, sink),
        Err(_) => Status::Memory,
    }
}

// Does what the request asks for.
fn fulfil<S: Source, K: Sink>(
    alloc: Global,
    request: Request,
    source: &mut S,
    sink: &mut K,
) -> Status
    ensures { Fulfils (meaning_of request) result (S.left source.old) (S.left source.new) (K.taken sink.old) (K.taken sink.new) (S.faults source.old) (S.faults source.new) (K.faults sink.old) (K.faults sink.new) (K.shortages sink.old) (K.shortages sink.new) }
{
    match request {
        Request::Check { steps } => check(alloc, steps, source, sink),
        Request::Trial { events, steps } => judge_trial(alloc, events, steps, sink),
        Request::Taut => taut(alloc, source, sink),
        Request::Lower { steps } => lower(alloc, steps, source, sink),
        Request::Slice { name, steps } => slice(alloc, name, steps, source, sink),
        Request::Flat { steps } => flat(alloc, steps, source, sink),
        Request::Recheck => recheck(alloc, source, sink),
        Request::Explain { steps } => explain(alloc, steps, source, sink),
        Request::Help => help_then(Status::Help, sink),
        Request::Usage => help_then(Status::Usage, sink),
    }
}

// Judges the trial book of the given number of events and writes the last line of its report.
fn judge_trial<K: Sink>(alloc: Global, events: u64, steps: u64, sink: &mut K) -> Status
    ensures ends { TrialEnds result events steps (K.taken sink.old) (K.taken sink.new) (K.shortages sink.old) (K.shortages sink.new) }
    ensures sink_counts { SinkCounts result (K.faults sink.old) (K.faults sink.new) }
{
    let mut source = TrialSource::new(events);
    trial(alloc, steps, &mut source, sink)
}

// Writes how the program is used, and ends so.
fn help_then<K: Sink>(status: Status, sink: &mut K) -> Status
    ensures { HelpEnds status result (K.taken sink.old) (K.taken sink.new) (K.faults sink.old) (K.faults sink.new) (K.shortages sink.old) (K.shortages sink.new) }
{
    match write_help(sink) {
        Ok(()) => status,
        Err(halt) => halt,
    }
}

// Writes how the program is used.
fn write_help<K: Sink>(sink: &mut K) -> Result<(), Status>
    ensures written { OnOk result (Takes (K.taken sink.old) (K.taken sink.new) help_text) }
    ensures steady { OnOk result (K.faults sink.new ≡ K.faults sink.old) }
    ensures some { OnErr result (TakesSome (K.taken sink.old) (K.taken sink.new) help_text) }
    ensures halt { IfErr result IsHalt }
    ensures sink_counts { IfErr result (λ s. SinkCounts s (K.faults sink.old) (K.faults sink.new)) }
    ensures short { IfErr result (λ s. SinkShortages s (K.shortages sink.old) (K.shortages sink.new)) }
{
    match write_all(sink, HELP) {
        Ok(()) => Ok(()),
        Err(halt) => Err(halted(halt)),
    }
}
