//! The program `milawa`: carries out the command that its arguments name, on the book on standard input, and writes to standard output.
#![tactic(auto)]

ghost use Rattle.std.specs.Prelude.{◌≡◌};
ghost use Rattle.std.specs.Process.{exit_status};
ghost use Rattle.mw_book.specs.Exits.{ExitsWith};
ghost use Rattle.mw_book.specs.Numbers.{status_number};

use mw_book::{Status, run};
use mw_port::{Sink, Source, StdSink, StdSource, Text};
use std::alloc::Global;
use std::env::{self, Env};
use std::io::{self, ErrorKind};
use std::process::ExitCode;

// The arguments after the program's name.
fn words(rt: &(impl Env + AllocGlobal)) -> io::Result<Vec<Text>> {
    let mut words = Vec::new(rt.alloc());
    for word in env::args(rt)?.skip(1) {
        words.push(Text::new(word))?;
    }
    Ok(words)
}

// How the program ends without its arguments: they are not UTF-8, or it ran out of memory.
fn without_words(error: &io::Error) -> Status {
    match error.kind() {
        ErrorKind::InvalidData => Status::Usage,
        _ => Status::Memory,
    }
}

// The exit code of a status.
fn exit_code(status: Status) -> ExitCode
    ensures { exit_status result ≡ status_number status }
{
    ExitCode::from(status.number())
}

// Carries out the command, and returns the number of its status.
fn run_once<S: Source, K: Sink>(
    alloc: Global,
    words: &[Text],
    source: &mut S,
    sink: &mut K,
) -> ExitCode
    ensures { ExitsWith words.now (exit_status result) (S.left source.old) (S.left source.new) (K.taken sink.old) (K.taken sink.new) (S.faults source.old) (S.faults source.new) (K.faults sink.old) (K.faults sink.new) (K.shortages sink.old) (K.shortages sink.new) }
{
    exit_code(run(alloc, words, source, sink))
}

fn main(rt: HostRuntime) -> ExitCode {
    match words(&rt) {
        Ok(words) => run_once(
            rt.alloc(),
            &words,
            &mut StdSource::new(rt.stdin()),
            &mut StdSink::new(rt.stdout()),
        ),
        Err(error) => exit_code(without_words(&error)),
    }
}
