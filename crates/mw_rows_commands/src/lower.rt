//! Books of derivations, and what `lower` writes for them.
use mw_book::Status;
use mw_rows::{
    NEVER, answer_of_check, answer_of_command, expect_empty, other_answer, wrap_book, wrong_answers,
};
use std::alloc::{AllocError, Global};
use std::test::Fail;

// Books whose accepted events are written as they are, since they hold no derivations.
const UNCHANGED: &str = "
=> 0
; events 0 accepted 0 refused 0 level 1
----
(verify p (pequal* x x) (axiom (pequal* x x)))
=> 0
(VERIFY P (PEQUAL* X X) (AXIOM (PEQUAL* X X)))
; events 1 accepted 1 refused 0 level 1
----
(define twice (x) (+ x x) nil ()) (print a)
=> 0
(DEFINE TWICE (X) (+ X X) NIL NIL)
(PRINT A)
; events 2 accepted 2 refused 0 level 1
----
(verify e (pequal* y x) (symmetry (pequal* y x) ((axiom (pequal* x y)))))
=> 1
; 1 VERIFY E refused PROOF
; events 1 accepted 0 refused 1 level 1
----
(verify e (pequal* y y) (symmetry (pequal* y x) ((axiom (pequal* x x)))))
=> 1
; 1 VERIFY E refused CONCLUSION
; events 1 accepted 0 refused 1 level 1
----
(verify e (pequal* x x) (symmetry (pequal* x x) ((axiom (pequal* x x))) more))
=> 1
; 1 VERIFY E refused PROOF
; events 1 accepted 0 refused 1 level 1
----
(print '340282366920938463463374607431768211456) (shout)
=> 1
; 1 PRINT - refused RANGE
; 2 SHOUT - refused EVENT
; events 2 accepted 0 refused 2 level 1
----
)
=> 3
; syntax CLOSE at 0
----
(print a) (b
=> 3
(PRINT A)
; syntax END at 12
";

// A theorem by each further rule, and a definition and a block whose obligations are derived, on a line each.
const DERIVED: &str = "\
(verify c #1=(por* #2=(pequal* x x) #3=(pequal* a b)) (commute-or #1# ((expansion (por* #3# #2#) ((axiom #2#))))))
(verify m #1=(pequal* x x) (modus-ponens #1# ((axiom #1#) (propositional-schema (por* (pnot* #1#) #1#)))))
(verify s #1=(pequal* x x) (symmetry #1# ((axiom #1#))))
(verify t #1=(pequal* x x) (transitivity #1# ((axiom #1#) (axiom #1#))))
(verify r #1=(pequal* (car x) (car x)) (replace #1# ((axiom (pequal* x x)))))
(verify i #1=(pequal* (if x x x) (if x x x)) (replace #1# (#2=(axiom (pequal* x x)) #2# #2#)))
(define idle (x) (if nil (idle x) x) 0 ((transitivity (pequal* #1=(ordp '0) 't) ((instantiation (pequal* #1# #2=(if #3=(consp '0) #4=(if (consp (car '0)) (if (ordp (car (car '0))) (if (if (equal (car (car '0)) '0) 'nil 't) (if (natp (cdr (car '0))) (if (< '0 (cdr (car '0))) (if (ordp (cdr '0)) (if (consp (cdr '0)) (ord< (car (car (cdr '0))) (car (car '0))) 't) 'nil) 'nil) 'nil) 'nil) 'nil) 'nil) #5=(natp '0))) ((axiom (pequal* (ordp x) (if (consp x) (if (consp (car x)) (if (ordp (car (car x))) (if (if (equal (car (car x)) '0) 'nil 't) (if (natp (cdr (car x))) (if (< '0 (cdr (car x))) (if (ordp (cdr x)) (if (consp (cdr x)) (ord< (car (car (cdr x))) (car (car x))) 't) 'nil) 'nil) 'nil) 'nil) 'nil) 'nil) (natp x))))) ((x . '0))) (transitivity (pequal* #2# 't) ((modus-ponens (pequal* #2# #5#) ((base-eval #6=(pequal* #3# 'nil)) (instantiation (por* (pnot* #6#) (pequal* #2# #5#)) ((axiom (por* (pnot* (pequal* x 'nil)) (pequal* (if x y z) z)))) ((x . #3#) (y . #4#) (z . #5#))))) (base-eval (pequal* #5# 't)))))) (commute-or (por* #7=(pequal* 'nil 'nil) #8=(pequal* (ord< '0 '0) 't)) ((expansion (por* #8# #7#) ((instantiation #7# ((axiom (pequal* x x))) ((x . 'nil)))))))))
(define-all ((idle (x) (if nil (busy x) x) 0) (busy (x) x 0)) ((transitivity (pequal* #1=(ordp '0) 't) ((instantiation (pequal* #1# #2=(if #3=(consp '0) #4=(if (consp (car '0)) (if (ordp (car (car '0))) (if (if (equal (car (car '0)) '0) 'nil 't) (if (natp (cdr (car '0))) (if (< '0 (cdr (car '0))) (if (ordp (cdr '0)) (if (consp (cdr '0)) (ord< (car (car (cdr '0))) (car (car '0))) 't) 'nil) 'nil) 'nil) 'nil) 'nil) 'nil) #5=(natp '0))) ((axiom (pequal* (ordp x) (if (consp x) (if (consp (car x)) (if (ordp (car (car x))) (if (if (equal (car (car x)) '0) 'nil 't) (if (natp (cdr (car x))) (if (< '0 (cdr (car x))) (if (ordp (cdr x)) (if (consp (cdr x)) (ord< (car (car (cdr x))) (car (car x))) 't) 'nil) 'nil) 'nil) 'nil) 'nil) 'nil) (natp x))))) ((x . '0))) (transitivity (pequal* #2# 't) ((modus-ponens (pequal* #2# #5#) ((base-eval #6=(pequal* #3# 'nil)) (instantiation (por* (pnot* #6#) (pequal* #2# #5#)) ((axiom (por* (pnot* (pequal* x 'nil)) (pequal* (if x y z) z)))) ((x . #3#) (y . #4#) (z . #5#))))) (base-eval (pequal* #5# 't)))))) (commute-or (por* #7=(pequal* 'nil 'nil) #8=(pequal* (ord< '0 '0) 't)) ((expansion (por* #8# #7#) ((instantiation #7# ((axiom (pequal* x x))) ((x . 'nil)))))))))
";

// A derivation and, after it, what is none: the example of docs/BOOKS.md.
const EXAMPLE: &str =
    "(verify turned #1=(por* #2=(pequal* x x) #3=(pequal* a b)) (commute-or #1# ((expansion (por* #3# #2#) ((axiom #2#))))))
(verify wrong (pequal* y x) (symmetry (pequal* y x) ((axiom (pequal* x y)))))";

// Whether `check` refuses this event for its proofs.
fn is_refused(alloc: Global, book: &str) -> Result<bool, AllocError> {
    let answer = answer_of_check(alloc, book, 4096)?;
    Ok(answer.status == Status::SomeRefused && answer.report.as_str().contains("refused PROOF"))
}

const ACCEPTED: &str = " accepted\nevents 1 accepted 1 refused 0 level 1\n";

// Whether `check` accepts what `lower` makes of this event.
fn turns_to_a_proof(alloc: Global, book: &str) -> Result<bool, AllocError> {
    let answer = answer_of_command(alloc, &["lower"], book, 4096)?;
    if answer.status != Status::Done {
        return Ok(false);
    }
    let again = answer_of_check(alloc, answer.report.as_str(), 4096)?;
    Ok(again.status == Status::Done && again.report.as_str().ends_with(ACCEPTED))
}

// The events of which one of the two is not so.
fn wrong_events(alloc: Global) -> Result<String, AllocError> {
    let mut wrong = String::new(alloc);
    for book in DERIVED.lines() {
        if !is_refused(alloc, book)? || !turns_to_a_proof(alloc, book)? {
            wrong.push_str(book)?;
        }
    }
    Ok(wrong)
}

const TURNED: &str = "(VERIFY TURNED (POR* (PEQUAL* X X) (PEQUAL* A B)) (CUT ";

const REFUSED: &str = "\n; 2 VERIFY WRONG refused PROOF\n; events 2 accepted 1 refused 1 level 1\n";

// Whether what is written for the example begins with the first theorem, and ends with what became of the second.
fn is_the_example_turned(alloc: Global) -> Result<bool, AllocError> {
    let answer = answer_of_command(alloc, &["lower"], EXAMPLE, 4096)?;
    let report = answer.report.as_str();
    let is_turned = report.starts_with(TURNED) && report.ends_with(REFUSED);
    Ok(answer.status == Status::SomeRefused && is_turned)
}

// The expected answer to the book with a switch to a checker that accepts nothing.
const OF_NEVER: &str = "1
(DEFINE NEVER (X AXIOMS THMS ATBL) NIL NIL NIL)
(VERIFY CLAIM (POR* (PEQUAL* (NEVER X AXIOMS THMS ATBL) (QUOTE NIL)) (PNOT* (PEQUAL* (LOGIC.PROVABLEP (LOGIC.CONCLUSION X) AXIOMS THMS ATBL) (QUOTE NIL)))) (CUT (POR* (PEQUAL* (NEVER X AXIOMS THMS ATBL) (QUOTE NIL)) (PNOT* (PEQUAL* (LOGIC.PROVABLEP (LOGIC.CONCLUSION X) AXIOMS THMS ATBL) (QUOTE NIL)))) ((EXPANSION (POR* (PNOT* (PEQUAL* (LOGIC.PROVABLEP (LOGIC.CONCLUSION X) AXIOMS THMS ATBL) (QUOTE NIL))) (PEQUAL* (NEVER X AXIOMS THMS ATBL) (QUOTE NIL))) ((AXIOM (PEQUAL* (NEVER X AXIOMS THMS ATBL) (QUOTE NIL))))) (PROPOSITIONAL-SCHEMA (POR* (PNOT* (PNOT* (PEQUAL* (LOGIC.PROVABLEP (LOGIC.CONCLUSION X) AXIOMS THMS ATBL) (QUOTE NIL)))) (PNOT* (PEQUAL* (LOGIC.PROVABLEP (LOGIC.CONCLUSION X) AXIOMS THMS ATBL) (QUOTE NIL))))))))
(SWITCH NEVER)
; 4 VERIFY REFL refused NIL
; events 4 accepted 3 refused 1 level 2
";

// After books/wrap.book: a switch to the checker that runs LOGIC.PROOFP, a proof, and a derivation, which that checker does not take.
const SWITCHED: &str = "(switch wrap)
(verify refl (pequal* x x) (axiom (pequal* x x)))
(verify turned #1=(pequal* x x) (symmetry #1# ((axiom #1#))))
";

const OF_SWITCHED: &str = "
(SWITCH WRAP)
(VERIFY REFL (PEQUAL* X X) (AXIOM (PEQUAL* X X)))
; 11 VERIFY TURNED refused NIL
; events 11 accepted 10 refused 1 level 2
";

// Whether what is written for these events ends with them as they are, and with what became of the derivation.
fn keeps_derivations_after_wrap(alloc: Global) -> Result<bool, AllocError> {
    let mut book = String::from_str(alloc, wrap_book())?;
    book.push_str(SWITCHED)?;
    let answer = answer_of_command(alloc, &["lower"], book.as_str(), 4096)?;
    Ok(answer.ends_with(1, OF_SWITCHED))
}

// The books above to which the answer is another one, in pieces of the given number of bytes.
fn wrong_lowerings(alloc: Global, size: usize) -> Result<String, AllocError> {
    wrong_answers(alloc, &["lower"], UNCHANGED, size)
}

#[test]
fn what_holds_no_derivations_is_written_as_it_is(rt: HostRuntime) -> Result<(), Fail> {
    expect_empty(wrong_lowerings(rt.alloc(), 4096)?)
}

#[test]
fn what_is_read_byte_by_byte_is_written_in_the_same_way(rt: HostRuntime) -> Result<(), Fail> {
    expect_empty(wrong_lowerings(rt.alloc(), 1)?)
}

#[test]
fn a_derivation_is_refused_by_check_and_turns_to_a_proof(rt: HostRuntime) -> Result<(), Fail> {
    expect_empty(wrong_events(rt.alloc())?)
}

#[test]
fn what_is_refused_has_a_comment_after_what_was_written(rt: HostRuntime) -> Result<(), Fail> {
    assert!(rt; is_the_example_turned(rt.alloc())?);
    Ok(())
}

#[test]
fn after_a_switch_proofs_are_written_as_they_are(rt: HostRuntime) -> Result<(), Fail> {
    expect_empty(other_answer(rt.alloc(), &["lower"], NEVER, OF_NEVER, 4096)?)?;
    assert!(rt; keeps_derivations_after_wrap(rt.alloc())?);
    Ok(())
}
