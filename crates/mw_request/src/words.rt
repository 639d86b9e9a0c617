//! The words of the command line.
ghost use Rattle.std.specs.Prelude.{◌≡◌, ℕ, false, Option, IfOk, option_map, codes};
ghost use Rattle.std.specs.Str.{bytes_eq};
ghost use Rattle.clap.specs.Words.{subcommand_rows_of};
ghost use Rattle.mw_model.specs.Terms.Object.{Name, name_of_bytes};
ghost use Rattle.mw_model.specs.Reports.Request.{Check, Lower, Flat, Explain};
ghost use Rattle.mw_request.specs.Commands as commands;
ghost use Rattle.mw_request.specs.Arguments as numbers;
ghost use Rattle.mw_request.specs.Words.{meaning_of};

use crate::number::number_within;
use crate::program::program;
use crate::theorem_name::{TheoremName, name_of};
use clap::ArgMatches;
use clap::error::ErrorKind;
use mw_heap::Memory;
use mw_port::Text;
use std::alloc::Global;
use std::convert::AsStr;

/// What the words of the command line ask for.
#[derive(Drop)]
pub enum Request {
    /// To judge the book, with this step limit.
    Check { steps: u64 },
    /// To judge the trial book with this number of events, with this step limit.
    Trial { events: u64, steps: u64 },
    /// To prove the formulas that are tautologies.
    Taut,
    /// To turn the book's derivations to proofs, with this step limit.
    Lower { steps: u64 },
    /// To keep what the theorem of this name rests on, with this step limit.
    Slice { name: TheoremName, steps: u64 },
    /// To turn the book to a log, with this step limit.
    Flat { steps: u64 },
    /// To judge the log.
    Recheck,
    /// To judge the book and say why events are refused, with this step limit.
    Explain { steps: u64 },
    /// To show how the program is used.
    Help,
    /// Nothing that the program does.
    Usage,
}

// The step limit where the words name none, as the definition of the command line has it: a run that takes all of it takes a tenth of a second.
const DEFAULT_STEPS: u64 = 10_000_000;

/// What the words ask for, as `clap` reads them and with numbers in range.
pub fn request_of(alloc: Global, words: &[Text]) -> Result<Request, Memory>
    ensures { IfOk result (λ r. meaning_of r ≡ commands.asked words.now) }
{
    if is_help(words) {
        return Ok(Request::Help);
    }
    let program = program(alloc)?;
    match program.try_get_matches_from(words) {
        Ok(matches) => request_by(alloc, &matches),
        Err(error) => match error.kind() {
            ErrorKind::OutOfMemory => Err(Memory),
            _ => Ok(Request::Usage),
        },
    }
}

// Is `--help` the only word?
fn is_help(words: &[Text]) -> bool
    ensures { result ≡ numbers.is_help words.now }
{
    match words {
        [word] => word.as_str() == "--help",
        _ => false,
    }
}

// What the subcommand asks for that `clap` found.
fn request_by(alloc: Global, matches: &ArgMatches<'_>) -> Result<Request, Memory>
    ensures { IfOk result (λ r. meaning_of r ≡ commands.request_of (subcommand_rows_of matches.now)) }
{
    match matches.subcommand() {
        Some((word, found)) => {
            let steps = steps_of(found.get_str("steps"));
            let events = events_of(found.get_str("events"));
            let name = theorem_of(alloc, found.get_str("name"))?;
            Ok(request_with(word, steps, events, name))
        }
        None => Ok(Request::Usage),
    }
}

// What a subcommand of this name asks for, with these numbers and this name.
fn request_with(
    word: &str,
    steps: Option<u64>,
    events: Option<u64>,
    name: Option<TheoremName>,
) -> Request
    ensures { meaning_of result ≡ commands.request_with word.now steps events (option_map name_of_bytes name) }
{
    if word == "slice" {
        return slice_with(name, steps);
    }
    request_by_numbers(word, steps, events)
}

// What a subcommand of this name asks for that takes no name, with these numbers.
fn request_by_numbers(word: &str, steps: Option<u64>, events: Option<u64>) -> Request
    ensures { (theorem : Option Name) → bytes_eq word.now (codes "slice") ≡ false → meaning_of result ≡ commands.request_with word.now steps events theorem }
{
    if word == "check" {
        return check_with(steps);
    }
    if word == "trial" {
        return trial_with(events, steps);
    }
    if word == "taut" {
        return Request::Taut;
    }
    if word == "lower" {
        return lower_with(steps);
    }
    if word == "flat" {
        return flat_with(steps);
    }
    if word == "recheck" {
        return Request::Recheck;
    }
    if word == "explain" {
        return explain_with(steps);
    }
    Request::Usage
}

// To judge the book, where there is a step limit.
fn check_with(steps: Option<u64>) -> Request
    ensures { meaning_of result ≡ commands.with_number Check steps }
{
    steps.map_or(Request::Usage, |steps| Request::Check { steps })
}

// To lower the book, where there is a step limit.
fn lower_with(steps: Option<u64>) -> Request
    ensures { meaning_of result ≡ commands.with_number Lower steps }
{
    steps.map_or(Request::Usage, |steps| Request::Lower { steps })
}

// To judge the trial book, where there are both numbers.
fn trial_with(events: Option<u64>, steps: Option<u64>) -> Request
    ensures { meaning_of result ≡ commands.trial_with events steps }
{
    match (events, steps) {
        (Some(events), Some(steps)) => Request::Trial { events, steps },
        _ => Request::Usage,
    }
}

// To slice the book, where there are a name and a step limit.
fn slice_with(name: Option<TheoremName>, steps: Option<u64>) -> Request
    ensures { meaning_of result ≡ commands.slice_with (option_map name_of_bytes name) steps }
{
    match (name, steps) {
        (Some(name), Some(steps)) => Request::Slice { name, steps },
        _ => Request::Usage,
    }
}

// To turn the book to a log, where there is a step limit.
fn flat_with(steps: Option<u64>) -> Request
    ensures { meaning_of result ≡ commands.with_number Flat steps }
{
    steps.map_or(Request::Usage, |steps| Request::Flat { steps })
}

// To judge the book and say why events are refused, where there is a step limit.
fn explain_with(steps: Option<u64>) -> Request
    ensures { meaning_of result ≡ commands.with_number Explain steps }
{
    steps.map_or(Request::Usage, |steps| Request::Explain { steps })
}

// The name of a theorem, where the text spells one.
fn theorem_of(alloc: Global, text: Option<&str>) -> Result<Option<TheoremName>, Memory>
    ensures { IfOk result (λ o. option_map name_of_bytes o ≡ numbers.name_of (option_map (λ s. s.now) text.entry)) }
{
    match text {
        Some(text) => name_of(alloc, text),
        None => Ok(None),
    }
}

// The step limit: from 1 to 10^12.
fn steps_of(text: Option<&str>) -> Option<u64>
    ensures { result ≡ numbers.steps_of (option_map (λ s. s.now) text.entry) }
{
    match text {
        Some(text) => number_within(text, 13, 1, 1_000_000_000_000),
        None => Some(DEFAULT_STEPS),
    }
}

// How many events the trial book has: up to 10^6.
fn events_of(text: Option<&str>) -> Option<u64>
    ensures { result ≡ numbers.events_of (option_map (λ s. s.now) text.entry) }
{
    number_within(text?, 7, 0, 1_000_000)
}
