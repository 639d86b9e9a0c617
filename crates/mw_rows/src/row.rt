//! A book, the expected answer to it and what the program answers.
ghost use Rattle.std.specs.Prelude.{◌≡◌, ◌≢◌, ◌↔◌, [], IsTrue, OnOk, OnErr, string_bytes};
ghost use Rattle.mw_book.specs.Numbers.{status_number};

use mw_book::{Status, run};
use mw_port::{MemSink, MemSource, Text};
use std::alloc::{AllocError, Global};
use std::test::Fail;

/// The line between two rows of a table.
pub const NEXT_ROW: &str = "----\n";

// What stands between a row's book and the expected answer to it.
const EXPECTED: &str = "\n=> ";

/// What the program wrote and how it ended.
#[derive(Drop)]
pub struct Answer {
    pub report: String,
    pub status: Status,
}

impl Answer {
    /// Whether this is just the expected answer: the number that the program ended with, and the report, byte by byte.
    pub fn is_expected(&self, number: u8, report: &str) -> bool
        ensures { IsTrue result ↔ ((string_bytes self.now.report ≡ report.now) × (status_number self.now.status ≡ number)) }
    {
        self.report.as_str() == report && self.status.number() == number
    }

    /// Whether the program ended with this number, and the report begins with these lines.
    pub fn begins_with(&self, number: u8, lines: &str) -> bool {
        self.report.as_str().starts_with(lines) && self.status.number() == number
    }

    /// Whether the program ended with this number, and the report ends with these lines.
    pub fn ends_with(&self, number: u8, lines: &str) -> bool {
        self.report.as_str().ends_with(lines) && self.status.number() == number
    }

    /// How the program ended and what it wrote, as a row has it.
    pub fn as_row(&self, alloc: Global) -> Result<String, AllocError> {
        let number = self.status.number();
        let report = self.report.as_str();
        format!(in alloc; "{number}\n{report}")
    }
}

/// The most bytes that one of the first hundred writes takes where `answer_with_faults` runs the program.
pub const WRITTEN: usize = 3;

/// What `check` writes on this book, and how it ends, where each read gives at most the given number of bytes.
pub fn answer_of_check(alloc: Global, book: &str, size: usize) -> Result<Answer, AllocError> {
    answer_of_command(alloc, &["check"], book, size)
}

/// What the program, called with these words, writes on this book, and how it ends, where each read gives at most the given number of bytes. Each write
/// takes all that it is handed.
pub fn answer_of_command(
    alloc: Global,
    words: &[&str],
    book: &str,
    size: usize,
) -> Result<Answer, AllocError> {
    let mut source = source_of(alloc, book, size, &[])?;
    let mut sink = MemSink::new(alloc, Vec::new(alloc));
    run_on(alloc, words, &mut source, &mut sink)
}

/// What the program, called with these words, has written on this book when it ends, and how it ends, where each read gives the given number of bytes at
/// most, each of the first hundred writes takes three at most, and the reads and the writes of these numbers, counted from 1, fail.
pub fn answer_with_faults(
    alloc: Global,
    words: &[&str],
    book: &str,
    size: usize,
    reads: &[u64],
    writes: &[u64],
) -> Result<Answer, AllocError> {
    let mut source = source_of(alloc, book, size, reads)?;
    let taken = vec![in alloc; WRITTEN; 100]?;
    let mut sink = MemSink::with_cuts(alloc, taken, Vec::from_slice(alloc, writes)?);
    run_on(alloc, words, &mut source, &mut sink)
}

/// How `check` ends on the book under this step limit and what it writes, as a row has it, where it does not end with the expected number or
/// the report does not begin with the lines that are, and else no text.
pub fn other_report(
    alloc: Global,
    steps: &str,
    book: &str,
    expected: &str,
) -> Result<String, AllocError> {
    let answer = answer_of_command(alloc, &["check", "--steps", steps], book, 4096)?;
    match number_and_text(expected) {
        Some((number, lines)) if answer.begins_with(number, lines) => Ok(String::new(alloc)),
        _ => answer.as_row(alloc),
    }
}

/// The expected answer to a book where these lines come before the others of its report.
pub fn expected_after(alloc: Global, lines: &str, expected: &str) -> Result<String, AllocError> {
    match expected.split_once("\n") {
        Some((number, others)) => format!(in alloc; "{number}\n{lines}{others}"),
        None => format!(in alloc; "no row: {expected}"),
    }
}

/// The step limit, the book and the expected answer of a row: a step limit stands on a line of its own before the book.
pub fn limited_parts(row: &str) -> Option<(&str, &str, &str)> {
    let (steps, rest) = row.split_once("\n")?;
    let (book, expected) = rest.split_once(EXPECTED)?;
    Some((steps, book, expected))
}

/// How `check` ends and what it writes where that is not the expected answer, by a table of rows: a row is a step limit on a line of its own, a book,
/// after `=> ` the number that the program is to end with under that limit, and on the lines after it what the report is to begin with. A line
/// `----` stands between two rows, and the newline before `=> ` belongs to no book.
pub fn other_reports(alloc: Global, rows: &str) -> Result<String, AllocError> {
    let mut others = String::new(alloc);
    for row in rows.split(NEXT_ROW) {
        add_other_report(&mut others, alloc, row)?;
    }
    Ok(others)
}

/// The books on which the program, called with these words, does not write and end as expected, each with how it ended and what it wrote,
/// where each read gives at most the given number of bytes. A row of the table is a book, after `=> ` the number that the program is to end with, and
/// on the lines after it the expected report. A line `----` stands between two rows, and the newline before `=> ` belongs to no book.
pub fn wrong_answers(
    alloc: Global,
    words: &[&str],
    rows: &str,
    size: usize,
) -> Result<String, AllocError> {
    let mut wrong = String::new(alloc);
    for row in rows.split(NEXT_ROW) {
        add_wrong_answer(&mut wrong, alloc, words, row, size)?;
    }
    Ok(wrong)
}

/// How the program, called with these words, ends on a book and what it writes, as a row has it, where this is not the expected answer, and else no
/// text. Each read gives at most the given number of bytes.
pub fn other_answer(
    alloc: Global,
    words: &[&str],
    book: &str,
    expected: &str,
    size: usize,
) -> Result<String, AllocError> {
    let answer = answer_of_command(alloc, words, book, size)?;
    other_than(alloc, &answer, expected)
}

/// The same where each of the first hundred writes takes three bytes at most, and the reads and the writes of these numbers, counted from 1,
/// fail.
pub fn other_answer_with_faults(
    alloc: Global,
    words: &[&str],
    book: &str,
    expected: &str,
    size: usize,
    reads: &[u64],
    writes: &[u64],
) -> Result<String, AllocError> {
    let answer = answer_with_faults(alloc, words, book, size, reads, writes)?;
    other_than(alloc, &answer, expected)
}

/// Fails with this text, which tells what went wrong, exactly when it is not empty.
pub fn expect_empty(wrong: String) -> Result<(), Fail>
    ensures empty { OnOk result (string_bytes wrong ≡ []) }
    ensures some { OnErr result (string_bytes wrong ≢ []) }
{
    if wrong.as_str().is_empty() {
        Ok(())
    } else {
        Err(Fail::new(wrong))
    }
}

/// The lines of events that are accepted, from this number on: of each its word and its label stand on a line.
pub(crate) fn lines_from(alloc: Global, first: u64, events: &str) -> Result<String, AllocError> {
    let mut lines = String::new(alloc);
    let mut number = first;
    for event in events.lines() {
        writeln!(lines, "{number} {event} accepted")?;
        number = number.saturating_add(1);
    }
    Ok(lines)
}

// The answer, as a row has it, where it is not the expected one, and else no text.
fn other_than(alloc: Global, answer: &Answer, expected: &str) -> Result<String, AllocError> {
    match number_and_text(expected) {
        Some((number, report)) if answer.is_expected(number, report) => Ok(String::new(alloc)),
        _ => answer.as_row(alloc),
    }
}

// The number and the text of the expected answer.
fn number_and_text(expected: &str) -> Option<(u8, &str)> {
    let (number, text) = expected.split_once("\n")?;
    match number.parse::<u8>() {
        Ok(number) => Some((number, text)),
        Err(_) => None,
    }
}

// Puts a row's book and the answer to it after the text, where it is not the expected one.
fn add_wrong_answer(
    wrong: &mut String,
    alloc: Global,
    words: &[&str],
    row: &str,
    size: usize,
) -> Result<(), AllocError> {
    let Some((book, expected)) = row.split_once(EXPECTED) else {
        return writeln!(wrong, "no row: {row}");
    };
    let other = other_answer(alloc, words, book, expected, size)?;
    if other.as_str().is_empty() {
        return Ok(());
    }
    writeln!(wrong, "{book}\n=> {other}")
}

// Puts the answer to a row's book under the row's step limit after the text, where it is not the expected one.
fn add_other_report(others: &mut String, alloc: Global, row: &str) -> Result<(), AllocError> {
    let Some((steps, book, expected)) = limited_parts(row) else {
        return writeln!(others, "no row: {row}");
    };
    let other = other_report(alloc, steps, book, expected)?;
    others.push_str(other.as_str())
}

// Runs the program, called with these words, on this source and this sink. What it wrote is what the sink has taken then.
fn run_on(
    alloc: Global,
    words: &[&str],
    source: &mut MemSource,
    sink: &mut MemSink,
) -> Result<Answer, AllocError> {
    let line = command_line(alloc, words)?;
    let status = run(alloc, &line, source, sink);
    let report = String::from_utf8_lossy(alloc, sink.taken())?;
    Ok(Answer { report, status })
}

// A source of the book, of which each read gives at most the given number of bytes, and the reads of these numbers fail.
fn source_of(
    alloc: Global,
    book: &str,
    size: usize,
    failing: &[u64],
) -> Result<MemSource, AllocError> {
    let bytes = Vec::from_slice(alloc, book.as_bytes())?;
    let pieces = vec![in alloc; size; book.len()]?;
    Ok(MemSource::new(bytes, pieces, Vec::from_slice(alloc, failing)?))
}

// The words of a command line, as the program takes them.
fn command_line(alloc: Global, words: &[&str]) -> Result<Vec<Text>, AllocError> {
    let mut line = Vec::new(alloc);
    for word in words {
        line.push(Text::new(String::from_str(alloc, word)?))?;
    }
    Ok(line)
}
