//! Logs that `flat` makes of a recursion, of an induction and of a proof that shares its parts, and that `recheck` gives a yes for each event.
use mw_rows::{answer_of_command, app_book, book_of_the_proof, expect_empty, ranks_book};
use std::alloc::{AllocError, Global};
use std::test::Fail;

// After books/ranks.book: a recursion down CDR, by two of its theorems.
const RECURSION: &str = "(define app (x y)
 (if (consp x) (cons (car x) (app (cdr x) y)) y)
 (rank x)
 ((theorem (pequal* (ordp (rank x)) 't))
  (theorem (por* (pequal* (consp x) 'nil) (pequal* (ord< (rank (cdr x)) (rank x)) 't)))))
";

// How the log of the two ends. The numbers are those of the steps that conclude the two obligations.
const OF_RECURSION: &str = "
(STEP 1 THEOREM (PEQUAL* (ORDP (RANK X)) (QUOTE T)) NIL NIL)
(STEP 2 THEOREM (POR* (PEQUAL* (CONSP X) (QUOTE NIL)) (PEQUAL* (ORD< (RANK (CDR X)) (RANK X)) (QUOTE T))) NIL NIL)
(DEFINE APP (X Y) (IF (CONSP X) (CONS (CAR X) (APP (CDR X) Y)) Y) (RANK X) (1 2))
; events 14 flat 14
";

// How the log of books/ranks.book and books/app.book ends: with an induction whose premises are theorems.
const OF_APP: &str = "
(STEP 1 THEOREM (POR* (PEQUAL* (APP (APP X Y) Z) (APP X (APP Y Z))) (PEQUAL* (CONSP X) (QUOTE T))) NIL NIL)
(STEP 2 THEOREM (POR* (PEQUAL* (APP (APP X Y) Z) (APP X (APP Y Z))) (POR* (PNOT* (PEQUAL* (CONSP X) (QUOTE T))) (PNOT* (PEQUAL* (APP (APP (CDR X) Y) Z) (APP (CDR X) (APP Y Z)))))) NIL NIL)
(STEP 3 THEOREM (PEQUAL* (ORDP (RANK X)) (QUOTE T)) NIL NIL)
(STEP 4 THEOREM (POR* (PNOT* (PEQUAL* (CONSP X) (QUOTE T))) (PEQUAL* (ORD< (RANK (CDR X)) (RANK X)) (QUOTE T))) NIL NIL)
(STEP 5 INDUCTION (PEQUAL* (APP (APP X Y) Z) (APP X (APP Y Z))) (1 2 3 4) ((RANK X) ((PEQUAL* (CONSP X) (QUOTE T))) ((((X CDR X))))))
(VERIFY ASSOCIATES (PEQUAL* (APP (APP X Y) Z) (APP X (APP Y Z))) 5)
; events 24 flat 24
";

// How the log of the proof that labels make 2^60 parts of sixty ends: each of its distinct parts is one step.
const OF_THE_PROOF: &str = "
(VERIFY Q (PEQUAL* X X) 241)
; events 1 flat 1
";

// What `recheck` answers to the log that `flat` makes of a book, where that does not end so, or the log does not, and else no text.
fn other_end(alloc: Global, book: &str, log: &str, report: &str) -> Result<String, AllocError> {
    let made = answer_of_command(alloc, &["flat"], book, 4096)?;
    if !made.ends_with(0, log) {
        return made.as_row(alloc);
    }
    let judged = answer_of_command(alloc, &["recheck"], made.report.as_str(), 4096)?;
    if !judged.ends_with(0, report) {
        return judged.as_row(alloc);
    }
    Ok(String::new(alloc))
}

// The same for the theorems on ranks and more events.
fn other_end_after_ranks(
    alloc: Global,
    events: &str,
    log: &str,
    report: &str,
) -> Result<String, AllocError> {
    let mut book = String::from_str(alloc, ranks_book())?;
    book.push_str(events)?;
    other_end(alloc, book.as_str(), log, report)
}

// The same for the shared proof.
fn other_end_of_the_proof(alloc: Global) -> Result<String, AllocError> {
    let book = book_of_the_proof(alloc)?;
    let report = "1 VERIFY Q yes\nevents 1 yes 1 no 0 left 0\n";
    other_end(alloc, book.as_str(), OF_THE_PROOF, report)
}

#[test]
fn the_log_of_a_recursion_names_the_steps_of_its_obligations(rt: HostRuntime) -> Result<(), Fail> {
    let report = "\n14 DEFINE APP yes\nevents 14 yes 14 no 0 left 0\n";
    expect_empty(other_end_after_ranks(rt.alloc(), RECURSION, OF_RECURSION, report)?)
}

#[test]
fn the_log_of_an_induction_gets_a_yes(rt: HostRuntime) -> Result<(), Fail> {
    let report = "\n24 VERIFY ASSOCIATES yes\nevents 24 yes 24 no 0 left 0\n";
    expect_empty(other_end_after_ranks(rt.alloc(), app_book(), OF_APP, report)?)
}

#[test]
fn the_log_of_a_shared_proof_has_a_step_for_each_distinct_part(
    rt: HostRuntime,
) -> Result<(), Fail> {
    expect_empty(other_end_of_the_proof(rt.alloc())?)
}
