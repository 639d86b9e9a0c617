//! Logs, and what `recheck` answers to them.
use mw_rows::{NEVER, answer_of_command, expect_empty, other_answer, wrong_answers};
use std::alloc::{AllocError, Global};
use std::test::Fail;

// Logs and their reports. The first is the example of docs/BOOKS.md.
const LOGS: &str = "\
(STEP 1 AXIOM (PEQUAL* X X) NIL NIL)
(VERIFY REFL (PEQUAL* X X) 1)
(STEP 1 THEOREM (PEQUAL* X X) NIL NIL)
(STEP 2 EXPANSION (POR* (PEQUAL* X X) (PEQUAL* X X)) (1) NIL)
(STEP 3 CONTRACTION (PEQUAL* X X) (2) NIL)
(VERIFY AGAIN (PEQUAL* X X) 3)
; events 2 flat 2

=> 0
1 VERIFY REFL yes
2 VERIFY AGAIN yes
events 2 yes 2 no 0 left 0
----

=> 0
events 0 yes 0 no 0 left 0
----
(step 1 axiom (pequal* x x) nil nil) (verify refl (pequal* x x) 1)
=> 0
1 VERIFY REFL yes
events 1 yes 1 no 0 left 0
----
(step 1 axiom (pequal* x y) nil nil) (verify bad (pequal* x y) 1)
=> 1
1 VERIFY BAD no STEP
events 1 yes 0 no 1 left 0
----
(verify bad (pequal* x x) 1)
=> 1
1 VERIFY BAD no GOAL
events 1 yes 0 no 1 left 0
----
(eval 1)
=> 1
1 EVAL - no SHAPE
events 1 yes 0 no 1 left 0
----
(define if (x) x nil nil)
=> 1
1 DEFINE IF no ADMIT
events 1 yes 0 no 1 left 0
----
(step 1 axiom (pequal* x x) nil nil) (verify refl (pequal* x x) 1) (step 1 theorem (pequal* x x) nil nil)
(verify again (pequal* x x) 1)
=> 0
1 VERIFY REFL yes
2 VERIFY AGAIN yes
events 2 yes 2 no 0 left 0
----
(step 1 axiom (pequal* x x) nil nil) (verify refl (pequal* x x) 1) (verify again (pequal* x x) 1)
=> 1
1 VERIFY REFL yes
2 VERIFY AGAIN no GOAL
events 2 yes 1 no 1 left 0
----
(step 1 axiom (pequal* x x) nil nil)
=> 1
events 0 yes 0 no 0 left 1
----
(verify bad (pequal* x x) 1)
(step 1 axiom (pequal* x x) nil nil) (step 2 axiom (pequal* x x) nil nil)
=> 1
1 VERIFY BAD no GOAL
events 1 yes 0 no 1 left 2
----
(step 2 axiom (pequal* x x) nil nil) (verify refl (pequal* x x) 1)
=> 1
1 VERIFY REFL no STEP
events 1 yes 0 no 1 left 0
----
(step 1 axiom (pequal* x x) nil nil) (verify refl (pequal* x x) 2)
=> 1
1 VERIFY REFL no GOAL
events 1 yes 0 no 1 left 0
----
(step 1 axiom (pequal* x x) nil nil) (verify refl (pequal* x x) (axiom (pequal* x x)))
=> 1
1 VERIFY REFL no SHAPE
events 1 yes 0 no 1 left 0
----
(define twice (x) (+ x x) nil nil) (step 1 axiom (pequal* (twice x) (+ x x)) nil nil)
(verify use (pequal* (twice x) (+ x x)) 1)
=> 0
1 DEFINE TWICE yes
2 VERIFY USE yes
events 2 yes 2 no 0 left 0
----
(profile 2) (skolem pick y (x) (equal x y)) (define-all ((twice (x) (+ x x) nil) (same (x) x nil)) nil)
=> 0
1 PROFILE - yes
2 SKOLEM PICK yes
3 DEFINE-ALL - yes
events 3 yes 3 no 0 left 0
----
(verify big (pequal* x '340282366920938463463374607431768211456) 1) (step 1 axiom (pequal* x '340282366920938463463374607431768211456) nil nil)
(verify refl (pequal* x x) 1)
=> 1
1 VERIFY BIG no SHAPE
2 VERIFY REFL no STEP
events 2 yes 0 no 2 left 0
----
(340282366920938463463374607431768211456) ((step) 1) step (step)
=> 1
1 - - no SHAPE
2 - - no SHAPE
3 - - no SHAPE
events 3 yes 0 no 3 left 1
----
(switch never) (print a) (shout) ((verify) a) 7
=> 1
1 SWITCH NEVER no SHAPE
2 PRINT - no SHAPE
3 SHOUT - no SHAPE
4 - - no SHAPE
5 - - no SHAPE
events 5 yes 0 no 5 left 0
----
)
=> 3
syntax CLOSE at 0
----
(eval 1) (b
=> 3
1 EVAL - no SHAPE
syntax END at 11
----
(step 1 axiom (pequal* x x) nil nil) (step 2 instantiation (pequal* (car y) (car y)) (1) ((x . (car y)))) (verify inst (pequal* (car y) (car y)) 2)
=> 0
1 VERIFY INST yes
events 1 yes 1 no 0 left 0
----
(step 1 axiom (pequal* x x) nil nil) (step 2 instantiation (pequal* (car y) y) (1) ((x . (car y)))) (verify inst (pequal* (car y) y) 2)
=> 1
1 VERIFY INST no STEP
events 1 yes 0 no 1 left 0
----
(step 1 axiom (pequal* x x) nil nil) (step 2 instantiation (pequal* x x) nil nil) (verify inst (pequal* x x) 1)
=> 1
1 VERIFY INST no STEP
events 1 yes 0 no 1 left 0
----
(step 1 axiom (pequal* x x) nil nil) (step 2 induction (pequal* x x) (1) ('0 () ())) (verify i (pequal* x x) 2)
=> 1
1 VERIFY I no STEP
events 1 yes 0 no 1 left 0
----
(define idle (x) (if nil (idle x) x) 0 (1 2))
=> 1
1 DEFINE IDLE no GOAL
events 1 yes 0 no 1 left 0
----
(define idle (x) (if nil (idle x) x) 0 nil)
=> 1
1 DEFINE IDLE no GOAL
events 1 yes 0 no 1 left 0
----
(step 1 axiom (pequal* x x) nil nil) (define idle (x) (if nil (idle x) x) 0 (1 1))
=> 1
1 DEFINE IDLE no GOAL
events 1 yes 0 no 1 left 0
----
(step 1 axiom (pequal* x x) nil nil) (define twice (x) (+ x x) nil (1))
=> 1
1 DEFINE TWICE no GOAL
events 1 yes 0 no 1 left 0
----
(define twice (x) (+ x x) nil 1)
=> 1
1 DEFINE TWICE no SHAPE
events 1 yes 0 no 1 left 0
";

// The answer of `recheck` to the log that `flat` makes of the book, where it is not the expected answer.
fn other_answer_to_the_log_of(
    alloc: Global,
    book: &str,
    expected: &str,
) -> Result<String, AllocError> {
    let log = answer_of_command(alloc, &["flat"], book, 4096)?;
    other_answer(alloc, &["recheck"], log.report.as_str(), expected, 4096)
}

// The books above to which the answer is another one, in pieces of the given number of bytes.
fn wrong_logs(alloc: Global, size: usize) -> Result<String, AllocError> {
    wrong_answers(alloc, &["recheck"], LOGS, size)
}

#[test]
fn each_event_of_a_log_is_answered(rt: HostRuntime) -> Result<(), Fail> {
    expect_empty(wrong_logs(rt.alloc(), 4096)?)
}

#[test]
fn a_log_that_is_read_byte_by_byte_has_the_same_report(rt: HostRuntime) -> Result<(), Fail> {
    expect_empty(wrong_logs(rt.alloc(), 1)?)
}

#[test]
fn the_log_of_the_events_before_a_switch_gets_a_yes(rt: HostRuntime) -> Result<(), Fail> {
    let expected = "0\n1 DEFINE NEVER yes\n2 VERIFY CLAIM yes\nevents 2 yes 2 no 0 left 0\n";
    expect_empty(other_answer_to_the_log_of(rt.alloc(), NEVER, expected)?)
}
