//! Books at the bounds of turns and of code: one within them gives the expected answer, and one past them ends out of memory.
use crate::shared::labelled_term;
use mw_book::Status;
use mw_rows::{Answer, answer_of_check, answer_of_command};
use std::alloc::{AllocError, Global};
use std::test::Fail;

// A term of the given number of tests within one another by labels, each of the one before it, twice: of X, if that is not NIL, it runs
// 5 * 2^(times - 1) - 2 - times entries of code, and takes no unit.
fn tested_term(alloc: Global, times: usize) -> Result<String, AllocError> {
    labelled_term(alloc, "x", times, ["(if ", " ", " x)"])
}

// An EVAL of 2^13 calls of a function of twelve tests: with those that lead to them 2^14 - 1 calls, which take a unit each. It runs
// 2^13 * (5 * 2^11 - 11) - 1 = 83,795,967 entries of code, which are counted as 327,328 rounds of 256. That is a round more than 2^26 and
// 64 for each of 260,732 units.
fn book_of_calls(alloc: Global) -> Result<String, AllocError> {
    let term = tested_term(alloc, 12)?;
    let mut book = format!(in alloc; "(define f0 (x) {term} nil ())")?;
    for before in 0..13 {
        let k = before + 1;
        write!(book, "(define f{k} (x) (f{before} (f{before} x)) nil ())")?;
    }
    book.push_str("(eval (f13 1))")?;
    Ok(book)
}

// What the program answers on that book at this step limit.
fn answer_on_calls(alloc: Global, steps: &str) -> Result<Answer, AllocError> {
    let book = book_of_calls(alloc)?;
    answer_of_command(alloc, &["check", "--steps", steps], book.as_str(), 4096)
}

// Whether the book ends with the expected answer at this step limit.
fn gives_a_value(alloc: Global, steps: &str) -> Result<bool, AllocError> {
    let answer = answer_on_calls(alloc, steps)?;
    let expected = "15 EVAL - accepted 1\nevents 15 accepted 15 refused 0 level 1\n";
    Ok(answer.status == Status::Done && answer.report.as_str().ends_with(expected))
}

fn ends_out_of_memory(alloc: Global, steps: &str) -> Result<bool, AllocError> {
    let answer = answer_on_calls(alloc, steps)?;
    Ok(answer.status == Status::Memory)
}

#[test]
fn a_run_has_turns_for_the_units_of_its_limit(rt: HostRuntime) -> Result<(), Fail> {
    assert!(rt; gives_a_value(rt.alloc(), "260732")?);
    assert!(rt; ends_out_of_memory(rt.alloc(), "260731")?);
    Ok(())
}

// A body of twelve tests, whose text as a tree has fewer than 65,536 bytes: it is laid out as a tree, of some 16,000 instructions, and has
// some sixty cells.
fn large_body(alloc: Global) -> Result<String, AllocError> {
    tested_term(alloc, 12)
}

// This many definitions of such a body, a small one, and an EVAL of that.
fn book_of_code(alloc: Global, count: usize) -> Result<String, AllocError> {
    let term = large_body(alloc)?;
    let mut book = String::new(alloc);
    for k in 0..count {
        write!(book, "(define f{k} (x) {term} nil ())")?;
    }
    book.push_str("(define small (x) x nil ())(eval (small 7))")?;
    Ok(book)
}

const LAST_OF_CODE: &str = "\
1001 DEFINE SMALL accepted
1002 EVAL - accepted 7
events 1002 accepted 1002 refused 0 level 1
";

// Whether a small definition is accepted after a thousand large ones.
fn accepts_a_small_one(alloc: Global) -> Result<bool, AllocError> {
    let book = book_of_code(alloc, 1_000)?;
    let answer = answer_of_check(alloc, book.as_str(), 4096)?;
    Ok(answer.status == Status::Done && answer.report.as_str().ends_with(LAST_OF_CODE))
}

// Whether the program ends out of memory before it has answered all of 2,000 large ones.
fn refuses_a_large_one(alloc: Global) -> Result<bool, AllocError> {
    let book = book_of_code(alloc, 2_000)?;
    let answer = answer_of_check(alloc, book.as_str(), 4096)?;
    Ok(answer.status == Status::Memory)
}

// Whether the program ends out of memory at a block of functions that share one such body.
fn refuses_a_block(alloc: Global) -> Result<bool, AllocError> {
    let term = large_body(alloc)?;
    let mut book = format!(in alloc; "(define-all ((f0 (x) {term} nil)")?;
    for k in 1..1_500 {
        write!(book, "(f{k} (x) #13# nil)")?;
    }
    book.push_str(") ())")?;
    let answer = answer_of_check(alloc, book.as_str(), 4096)?;
    Ok(answer.status == Status::Memory)
}

#[test]
fn code_is_counted_for_its_definition(rt: HostRuntime) -> Result<(), Fail> {
    assert!(rt; accepts_a_small_one(rt.alloc())?);
    assert!(rt; refuses_a_large_one(rt.alloc())?);
    Ok(())
}

#[test]
fn the_code_of_a_block_is_counted_together(rt: HostRuntime) -> Result<(), Fail> {
    assert!(rt; refuses_a_block(rt.alloc())?);
    Ok(())
}
