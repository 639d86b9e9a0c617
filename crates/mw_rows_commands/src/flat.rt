//! Books, and the logs that `flat` makes of them.
use mw_rows::{NEVER, expect_empty, other_answer, wrong_answers};
use std::alloc::{AllocError, Global};
use std::test::Fail;

// Books and their logs. The third is the example of docs/BOOKS.md.
const FLATTENED: &str = "
=> 0
; events 0 flat 0
----
(verify refl (pequal* x x) (axiom (pequal* x x)))
=> 0
(STEP 1 AXIOM (PEQUAL* X X) NIL NIL)
(VERIFY REFL (PEQUAL* X X) 1)
; events 1 flat 1
----
(verify refl (pequal* x x) (axiom (pequal* x x)))
(verify again #1=(pequal* x x) (contraction #1# ((expansion (por* #1# #1#) ((theorem #1#))))))
=> 0
(STEP 1 AXIOM (PEQUAL* X X) NIL NIL)
(VERIFY REFL (PEQUAL* X X) 1)
(STEP 1 THEOREM (PEQUAL* X X) NIL NIL)
(STEP 2 EXPANSION (POR* (PEQUAL* X X) (PEQUAL* X X)) (1) NIL)
(STEP 3 CONTRACTION (PEQUAL* X X) (2) NIL)
(VERIFY AGAIN (PEQUAL* X X) 3)
; events 2 flat 2
----
(profile 2) (print a) (eval 1)
=> 0
(PROFILE 2)
; events 3 flat 1
----
(verify bad (pequal* x y) (axiom (pequal* x y))) (skolem pick y (x) (equal x y))
=> 1
(SKOLEM PICK Y (X) (EQUAL X Y))
; events 2 flat 1
----
(define-all ((twice (x) (+ x x) nil) (same (x) x nil)) nil)
=> 0
(DEFINE-ALL ((TWICE (X) (+ X X) NIL) (SAME (X) X NIL)) NIL)
; events 1 flat 1
----
(define twice (x) (+ x x) nil (1 . 2)) (verify . x) (print '340282366920938463463374607431768211456) 7
=> 1
; events 4 flat 0
----
)
=> 3
; syntax CLOSE at 0
----
(profile 2) (b
=> 3
(PROFILE 2)
; syntax END at 14
----
(verify inst #1=(pequal* (car y) (car y)) (instantiation #1# ((axiom (pequal* x x))) ((x . (car y)))))
=> 0
(STEP 1 AXIOM (PEQUAL* X X) NIL NIL)
(STEP 2 INSTANTIATION (PEQUAL* (CAR Y) (CAR Y)) (1) ((X CAR Y)))
(VERIFY INST (PEQUAL* (CAR Y) (CAR Y)) 2)
; events 1 flat 1
";

// The log of the book with a switch, which ends before it.
const OF_NEVER: &str = "1
(DEFINE NEVER (X AXIOMS THMS ATBL) NIL NIL NIL)
(STEP 1 AXIOM (PEQUAL* (NEVER X AXIOMS THMS ATBL) (QUOTE NIL)) NIL NIL)
(STEP 2 EXPANSION (POR* (PNOT* (PEQUAL* (LOGIC.PROVABLEP (LOGIC.CONCLUSION X) AXIOMS THMS ATBL) (QUOTE NIL))) (PEQUAL* (NEVER X AXIOMS THMS ATBL) (QUOTE NIL))) (1) NIL)
(STEP 3 PROPOSITIONAL-SCHEMA (POR* (PNOT* (PNOT* (PEQUAL* (LOGIC.PROVABLEP (LOGIC.CONCLUSION X) AXIOMS THMS ATBL) (QUOTE NIL)))) (PNOT* (PEQUAL* (LOGIC.PROVABLEP (LOGIC.CONCLUSION X) AXIOMS THMS ATBL) (QUOTE NIL)))) NIL NIL)
(STEP 4 CUT (POR* (PEQUAL* (NEVER X AXIOMS THMS ATBL) (QUOTE NIL)) (PNOT* (PEQUAL* (LOGIC.PROVABLEP (LOGIC.CONCLUSION X) AXIOMS THMS ATBL) (QUOTE NIL)))) (2 3) NIL)
(VERIFY CLAIM (POR* (PEQUAL* (NEVER X AXIOMS THMS ATBL) (QUOTE NIL)) (PNOT* (PEQUAL* (LOGIC.PROVABLEP (LOGIC.CONCLUSION X) AXIOMS THMS ATBL) (QUOTE NIL)))) 4)
; events 4 flat 2
";

// An event that `check` refuses at once. Each of its steps but the first names that step many times, which is more numbers than a log may have for
// one event.
fn push_long_steps(book: &mut String, steps: usize, names: usize) -> Result<(), AllocError> {
    book.push_str(
        "(verify long (pequal* x y) (cut (pequal* x y) (#1=(axiom (pequal* x x)) (cut a #2=(",
    )?;
    for _ in 0..names {
        book.push_str(" #1#")?;
    }
    book.push_str("))")?;
    for k in 1..steps {
        write!(book, " (cut a{k} #2#)")?;
    }
    book.push_str(")))")
}

// A theorem, that event, and a theorem, which has its place in the log.
fn book_of_long_steps(alloc: Global) -> Result<String, AllocError> {
    let mut book = String::from_str(alloc, "(verify p (pequal* x x) (axiom (pequal* x x)))\n")?;
    push_long_steps(&mut book, 3_500, 5_000)?;
    book.push_str("\n(verify q (pequal* x x) (axiom (pequal* x x)))\n")?;
    Ok(book)
}

const OF_LONG_STEPS: &str = "1
(STEP 1 AXIOM (PEQUAL* X X) NIL NIL)
(VERIFY P (PEQUAL* X X) 1)
(STEP 1 AXIOM (PEQUAL* X X) NIL NIL)
(VERIFY Q (PEQUAL* X X) 1)
; events 3 flat 2
";

fn other_answer_to_long_steps(alloc: Global) -> Result<String, AllocError> {
    let book = book_of_long_steps(alloc)?;
    other_answer(alloc, &["flat"], book.as_str(), OF_LONG_STEPS, 4096)
}

// The book with a switch, and after it an event at which `check` ends out of memory.
fn other_answer_after_the_switch(alloc: Global) -> Result<String, AllocError> {
    let mut term = String::from_str(alloc, "#1=(cons 1 1)")?;
    for k in 1..60 {
        let next = k + 1;
        term = format!(in alloc; "#{next}=(cons {term} #{k}#)")?;
    }
    let book = format!(in alloc; "{NEVER} (eval {term})")?;
    let (log, _) = OF_NEVER.split_once("; events").unwrap_or((OF_NEVER, ""));
    let expected = format!(in alloc; "{log}; events 5 flat 2\n")?;
    other_answer(alloc, &["flat"], book.as_str(), expected.as_str(), 4096)
}

// The books above to which the answer is another one, in pieces of the given number of bytes.
fn wrong_flattenings(alloc: Global, size: usize) -> Result<String, AllocError> {
    wrong_answers(alloc, &["flat"], FLATTENED, size)
}

#[test]
fn each_event_is_written_after_its_steps(rt: HostRuntime) -> Result<(), Fail> {
    expect_empty(wrong_flattenings(rt.alloc(), 4096)?)
}

#[test]
fn a_book_that_is_read_byte_by_byte_has_the_same_log(rt: HostRuntime) -> Result<(), Fail> {
    expect_empty(wrong_flattenings(rt.alloc(), 1)?)
}

#[test]
fn a_log_ends_before_a_switch(rt: HostRuntime) -> Result<(), Fail> {
    for size in [1, 4096] {
        expect_empty(other_answer(rt.alloc(), &["flat"], NEVER, OF_NEVER, size)?)?;
    }
    Ok(())
}

#[test]
fn an_event_whose_steps_are_too_long_is_counted_where_it_is_refused(
    rt: HostRuntime,
) -> Result<(), Fail> {
    expect_empty(other_answer_to_long_steps(rt.alloc())?)
}

#[test]
fn after_a_switch_events_are_only_counted(rt: HostRuntime) -> Result<(), Fail> {
    expect_empty(other_answer_after_the_switch(rt.alloc())?)
}
