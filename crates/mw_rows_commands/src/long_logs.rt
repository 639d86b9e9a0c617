//! Long logs: each is judged in time that is linear in what is written.
use mw_rows::{expect_empty, other_answer};
use std::alloc::{AllocError, Global};
use std::test::Fail;

// A log of one event, after the given number of pairs of steps of which each names the one before.
fn log_of_a_chain(alloc: Global, pairs: u32) -> Result<String, AllocError> {
    let mut log = String::from_str(alloc, "(step 1 axiom (pequal* x x) nil nil)\n")?;
    for k in 0..pairs {
        let named = 2 * k as u64 + 1;
        let longer = 2 * k as u64 + 2;
        let shorter = 2 * k as u64 + 3;
        writeln!(
            log,
            "(step {longer} expansion (por* (pequal* x x) (pequal* x x)) ({named}) nil)"
        )?;
        writeln!(
            log,
            "(step {shorter} contraction (pequal* x x) ({longer}) nil)"
        )?;
    }
    let last = 2 * pairs as u64 + 1;
    writeln!(log, "(verify q (pequal* x x) {last})")?;
    Ok(log)
}

// A log of one event after a step that names another the given number of times.
fn log_of_a_repeated_number(alloc: Global, times: usize) -> Result<String, AllocError> {
    let mut log = String::from_str(
        alloc,
        "(step 1 axiom (pequal* x x) nil nil) (step 2 contraction (pequal* x x) (",
    )?;
    for _ in 0..times {
        log.push_str(" 1")?;
    }
    log.push_str(") nil) (verify q (pequal* x x) 2)")?;
    Ok(log)
}

// The answers to a log of a hundred thousand steps, and to one with a million numbers, where they are not the expected ones.
fn other_answer_to_a_chain(alloc: Global) -> Result<String, AllocError> {
    let log = log_of_a_chain(alloc, 50_000)?;
    let expected = "0\n1 VERIFY Q yes\nevents 1 yes 1 no 0 left 0\n";
    other_answer(alloc, &["recheck"], log.as_str(), expected, 4096)
}

fn other_answer_to_a_repeated_number(alloc: Global) -> Result<String, AllocError> {
    let log = log_of_a_repeated_number(alloc, 1_000_000)?;
    let expected = "1\n1 VERIFY Q no STEP\nevents 1 yes 0 no 1 left 0\n";
    other_answer(alloc, &["recheck"], log.as_str(), expected, 4096)
}

#[test]
fn a_hundred_thousand_steps_get_a_yes(rt: HostRuntime) -> Result<(), Fail> {
    expect_empty(other_answer_to_a_chain(rt.alloc())?)
}

#[test]
fn a_step_that_names_another_a_million_times_is_not_good(rt: HostRuntime) -> Result<(), Fail> {
    expect_empty(other_answer_to_a_repeated_number(rt.alloc())?)
}
