//! The expected answer to the beginning of a book, computed from where its data end.
use mw_book::Status;
use mw_read::SyntaxKind;
use mw_rows::{Answer, answer_of_check};
use std::alloc::{AllocError, Global};

/// A datum of a book: where it begins and ends, its line, whether it is accepted, and the level after it.
pub(crate) struct Datum {
    pub(crate) begins: usize,
    pub(crate) ends: usize,
    pub(crate) line: &'static str,
    pub(crate) accepted: bool,
    pub(crate) level: u64,
}

/// The lines of the data that end within the given number of bytes.
pub(crate) fn lines_within(
    alloc: Global,
    data: &[Datum],
    bytes: usize,
) -> Result<String, AllocError> {
    let mut lines = String::new(alloc);
    for datum in data {
        if datum.ends <= bytes {
            lines.push_str(datum.line)?;
        }
    }
    Ok(lines)
}

// Whether one of the data begins before this place and ends after it.
fn is_inside(data: &[Datum], place: usize) -> bool {
    for datum in data {
        if datum.begins < place && place < datum.ends {
            return true;
        }
    }
    false
}

// How many of the data that end within the given number of bytes are accepted and how many are refused, and the level after them.
fn count_within(data: &[Datum], bytes: usize) -> (u64, u64, u64) {
    let (mut accepted, mut refused, mut level) = (0_u64, 0_u64, 1);
    for datum in data {
        if datum.ends <= bytes {
            level = datum.level;
            if datum.accepted {
                accepted = accepted.saturating_add(1);
            } else {
                refused = refused.saturating_add(1);
            }
        }
    }
    (accepted, refused, level)
}

// The expected answer to the book that is cut there. A datum that is cut inside is not complete: it is a list.
fn expected_at(alloc: Global, data: &[Datum], cut: usize) -> Result<Answer, AllocError> {
    let mut report = lines_within(alloc, data, cut)?;
    if is_inside(data, cut) {
        writeln!(report, "syntax END at {cut}")?;
        let status = Status::Syntax(SyntaxKind::End, cut as u64);
        return Ok(Answer { report, status });
    }
    let (accepted, refused, level) = count_within(data, cut);
    let all = accepted.saturating_add(refused);
    writeln!(
        report,
        "events {all} accepted {accepted} refused {refused} level {level}"
    )?;
    let status = if refused == 0 {
        Status::Done
    } else {
        Status::SomeRefused
    };
    Ok(Answer { report, status })
}

// Whether the answer to the book of these data that is cut there, in pieces of the given number of bytes, is the expected one.
fn is_expected(
    alloc: Global,
    book: &str,
    data: &[Datum],
    cut: usize,
    size: usize,
) -> Result<bool, AllocError> {
    let Some(text) = book.get(..cut) else {
        return Ok(false);
    };
    let answer = answer_of_check(alloc, text, size)?;
    let expected = expected_at(alloc, data, cut)?;
    Ok(answer.report == expected.report && answer.status == expected.status)
}

/// A place where the book of these data may be cut so that the answer, in pieces of the given number of bytes, is not the expected one.
pub(crate) fn wrong_cut(
    alloc: Global,
    book: &str,
    data: &[Datum],
    size: usize,
) -> Result<Option<usize>, AllocError> {
    for cut in 0..=book.len() {
        if !is_expected(alloc, book, data, cut, size)? {
            return Ok(Some(cut));
        }
    }
    Ok(None)
}
