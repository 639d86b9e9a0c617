//! Data that are nested deep: no call recurses on the depth.
use crate::nested::{Nested, text_of};
use mw_rows::{expect_empty, other_answer};
use std::alloc::{AllocError, Global};
use std::test::Fail;

const LONG: &str = "1\n1 PRINT - refused LONG\nevents 1 accepted 0 refused 1 level 1\n";

const LABELLED: &str = "0\n1 PRINT - accepted X\nevents 1 accepted 1 refused 0 level 1\n";

// The expected answer to the print of NIL in 32,767 lists: as many as are shown.
const SHOWN: Nested = Nested {
    before: "0\n1 PRINT - accepted ",
    opening: "(",
    inner: "NIL",
    closing: ")",
    after: "\nevents 1 accepted 1 refused 0 level 1\n",
    depth: 32_766,
};

// The print of a variable after a million quotes.
const QUOTES: Nested = Nested {
    before: "(print ",
    opening: "'",
    inner: "x",
    closing: "",
    after: ")",
    depth: 1_000_000,
};

// The print of NIL in lists: the given number of parentheses are open.
fn lists(depth: usize) -> Nested {
    Nested {
        before: "(print ",
        opening: "(",
        inner: "",
        closing: ")",
        after: ")",
        depth,
    }
}

// The answer to the lists that are shown, where it is not the expected one.
fn other_answer_on_shown(alloc: Global) -> Result<String, AllocError> {
    let book = text_of(alloc, &lists(32_767))?;
    let expected = text_of(alloc, &SHOWN)?;
    other_answer(alloc, &["check"], book.as_str(), expected.as_str(), 4096)
}

// The answer to a datum, where it is not that its text is too long.
fn other_answer_on_long(alloc: Global, nested: &Nested) -> Result<String, AllocError> {
    let book = text_of(alloc, nested)?;
    other_answer(alloc, &["check"], book.as_str(), LONG, 4096)
}

// The answer to the print of a variable after the given number of labels, where it is not that variable.
fn other_answer_on_labels(alloc: Global, depth: usize) -> Result<String, AllocError> {
    let mut book = String::from_str(alloc, "(print ")?;
    for k in 0..depth {
        write!(book, "#{k}=")?;
    }
    book.push_str("x)")?;
    other_answer(alloc, &["check"], book.as_str(), LABELLED, 4096)
}

#[test]
fn lists_are_printed_up_to_65536_bytes(rt: HostRuntime) -> Result<(), Fail> {
    expect_empty(other_answer_on_shown(rt.alloc())?)?;
    for depth in [32_768, 1_000_000] {
        expect_empty(other_answer_on_long(rt.alloc(), &lists(depth))?)?;
    }
    Ok(())
}

#[test]
fn a_million_quotes_are_read(rt: HostRuntime) -> Result<(), Fail> {
    expect_empty(other_answer_on_long(rt.alloc(), &QUOTES)?)
}

#[test]
fn a_million_labels_are_read(rt: HostRuntime) -> Result<(), Fail> {
    expect_empty(other_answer_on_labels(rt.alloc(), 1_000_000)?)
}
