//! Texts in which a part is repeated.
use mw_rows::other_report;
use std::alloc::{AllocError, Global};

/// A text: a part before the others, the opening the given number of times, the inner part, the closing as often, and a part after the others.
#[derive(Drop)]
pub(crate) struct Nested {
    pub(crate) before: &'static str,
    pub(crate) opening: &'static str,
    pub(crate) inner: &'static str,
    pub(crate) closing: &'static str,
    pub(crate) after: &'static str,
    pub(crate) depth: usize,
}

// Puts a text the given number of times after another.
fn push_times(all: &mut String, text: &str, times: usize) -> Result<(), AllocError> {
    for _ in 0..times {
        all.push_str(text)?;
    }
    Ok(())
}

/// The text, written out.
pub(crate) fn text_of(alloc: Global, nested: &Nested) -> Result<String, AllocError> {
    let mut text = String::from_str(alloc, nested.before)?;
    push_times(&mut text, nested.opening, nested.depth)?;
    text.push_str(nested.inner)?;
    push_times(&mut text, nested.closing, nested.depth)?;
    text.push_str(nested.after)?;
    Ok(text)
}

/// How `check` ends on the book under a step limit and what it writes, where that is not the expected answer, and else no text.
pub(crate) fn other_report_on_nested(
    alloc: Global,
    steps: &str,
    nested: &Nested,
    expected: &str,
) -> Result<String, AllocError> {
    let book = text_of(alloc, nested)?;
    other_report(alloc, steps, book.as_str(), expected)
}
