//! The ends that are not the book's own, and the numbers of all.
use crate::expected::{Datum, lines_within, wrong_cut};
use mw_book::Status;
use mw_read::SyntaxKind;
use mw_rows::{
    NEVER, OF_NEVER, WRITTEN, answer_with_faults, expect_empty, other_answer_with_faults,
};
use std::alloc::{AllocError, Global};
use std::test::Fail;

const BOOK: &str = "(verify refl (pequal* x x) (axiom (pequal* x x)))";

const REPORT: &str = "0\n1 VERIFY REFL accepted\nevents 1 accepted 1 refused 0 level 1\n";

// The data of the book with a switch.
const DATA: [Datum; 4] = [
    Datum {
        begins: 0,
        ends: 46,
        line: "1 DEFINE NEVER accepted\n",
        accepted: true,
        level: 1,
    },
    Datum {
        begins: 47,
        ends: 320,
        line: "2 VERIFY CLAIM accepted\n",
        accepted: true,
        level: 1,
    },
    Datum {
        begins: 321,
        ends: 335,
        line: "3 SWITCH NEVER accepted\n",
        accepted: true,
        level: 2,
    },
    Datum {
        begins: 336,
        ends: 385,
        line: "4 VERIFY REFL refused NIL\n",
        accepted: false,
        level: 2,
    },
];

// The bytes that one read gives.
const READ: usize = 10;

const CHECK: [&str; 1] = ["check"];

const NUMBERS: [(Status, u8); 8] = [
    (Status::Done, 0),
    (Status::SomeRefused, 1),
    (Status::Help, 0),
    (Status::Usage, 2),
    (Status::Syntax(SyntaxKind::Close, 0), 3),
    (Status::ReadFault, 4),
    (Status::WriteFault, 5),
    (Status::Memory, 6),
];

// How many reads may come before the one that fails, so that the run ends there with the lines of what was complete.
fn failing_reads(alloc: Global) -> Result<usize, AllocError> {
    for done in 0..100 {
        let answer = answer_with_faults(alloc, &CHECK, NEVER, READ, &[done as u64 + 1], &[])?;
        let lines = lines_within(alloc, &DATA, READ * done)?;
        if answer.status != Status::ReadFault || answer.report != lines {
            return Ok(done);
        }
    }
    Ok(100)
}

// How many writes may come before the one that fails, so that the run ends there with the beginning of the report which these took.
fn failing_writes(alloc: Global) -> Result<usize, AllocError> {
    for done in 0..100 {
        let answer = answer_with_faults(alloc, &CHECK, NEVER, READ, &[], &[done as u64 + 1])?;
        let text = answer.report.as_str();
        if answer.status != Status::WriteFault
            || !OF_NEVER.starts_with(text)
            || WRITTEN * done < text.len()
        {
            return Ok(done);
        }
    }
    Ok(100)
}

// What is written on the book, where it is not the expected answer and these reads and writes fail.
fn other_answer_to_the_book(
    alloc: Global,
    expected: &str,
    reads: &[u64],
    writes: &[u64],
) -> Result<String, AllocError> {
    other_answer_with_faults(alloc, &CHECK, BOOK, expected, 4096, reads, writes)
}

// The same for the book with a switch, of which the whole is expected although a read or a write after the last one would fail.
fn other_answer_to_the_switch(
    alloc: Global,
    reads: &[u64],
    writes: &[u64],
) -> Result<String, AllocError> {
    let expected = format!(in alloc; "1\n{OF_NEVER}")?;
    other_answer_with_faults(alloc, &CHECK, NEVER, expected.as_str(), READ, reads, writes)
}

#[test]
fn a_failed_read_leaves_the_lines_before_it(rt: HostRuntime) -> Result<(), Fail> {
    let expected = "4\n1 VERIFY REFL accepted\n";
    expect_empty(other_answer_to_the_book(rt.alloc(), expected, &[2], &[])?)
}

#[test]
fn a_failed_write_leaves_nothing(rt: HostRuntime) -> Result<(), Fail> {
    expect_empty(other_answer_to_the_book(rt.alloc(), "5\n", &[], &[1])?)
}

#[test]
fn short_writes_take_the_whole_report(rt: HostRuntime) -> Result<(), Fail> {
    expect_empty(other_answer_to_the_book(rt.alloc(), REPORT, &[], &[])?)
}

// The book has 386 bytes, so there are 39 reads that give some, and one that tells the end.
#[test]
fn any_read_may_fail(rt: HostRuntime) -> Result<(), Fail> {
    assert!(rt; failing_reads(rt.alloc())? == 40);
    expect_empty(other_answer_to_the_switch(rt.alloc(), &[41], &[])?)
}

#[test]
fn any_write_may_fail(rt: HostRuntime) -> Result<(), Fail> {
    let done = failing_writes(rt.alloc())?;
    assert!(rt; OF_NEVER.len().div_ceil(WRITTEN) <= done);
    let next = (done as u64).saturating_add(1);
    expect_empty(other_answer_to_the_switch(rt.alloc(), &[], &[next])?)
}

#[test]
fn a_book_with_a_switch_may_be_cut_anywhere(rt: HostRuntime) -> Result<(), Fail> {
    assert!(rt; wrong_cut(rt.alloc(), NEVER, &DATA, 4096)?.is_none());
    Ok(())
}

// Whether each end has the number of the table.
fn have_their_numbers() -> bool {
    for (status, number) in NUMBERS {
        if status.number() != number {
            return false;
        }
    }
    true
}

#[test]
fn each_end_has_its_number(rt: HostRuntime) {
    assert!(rt; have_their_numbers());
}
