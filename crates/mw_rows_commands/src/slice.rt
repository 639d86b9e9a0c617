//! Books, and what `slice` keeps of them.
use mw_book::Status;
use mw_rows::{Answer, answer_of_check, answer_of_command, expect_empty, wrap_book, wrong_answers};
use std::alloc::{AllocError, Global};
use std::test::Fail;

// What USE rests on, in the books below.
const KEPT: &str =
    "(DEFINE TWICE (X) (+ X X) NIL NIL)\n(VERIFY USE (PEQUAL* (TWICE X) (+ X X)) (AXIOM (PEQUAL* (TWICE X) (+ X X))))\n";

// Books that are sliced for USE.
const SLICED: &str = "\
(define twice (x) (+ x x) nil ())
(verify use (pequal* (twice x) (+ x x)) (axiom (pequal* (twice x) (+ x x))))
(define twice (x) x nil ())
(eval (twice 4))
=> 0
(DEFINE TWICE (X) (+ X X) NIL NIL)
(VERIFY USE (PEQUAL* (TWICE X) (+ X X)) (AXIOM (PEQUAL* (TWICE X) (+ X X))))
; kept 2 of 4
----
(verify refl (pequal* x x) (axiom (pequal* x x)))
(define twice (x) (+ x x) nil ())
(verify use (pequal* (twice x) (+ x x)) (axiom (pequal* (twice x) (+ x x))))
(define twice (x) x nil ())
(eval (twice 4))
=> 0
(DEFINE TWICE (X) (+ X X) NIL NIL)
(VERIFY USE (PEQUAL* (TWICE X) (+ X X)) (AXIOM (PEQUAL* (TWICE X) (+ X X))))
; kept 2 of 5
----
(define twice (x) (+ x x) nil ())
(verify use (pequal* (twice x) (+ x x)) (axiom (pequal* (twice x) (+ x x))))
(define twice (x) x nil ())
(eval (twice 4))
(define x (y) y nil ())
=> 0
(DEFINE TWICE (X) (+ X X) NIL NIL)
(VERIFY USE (PEQUAL* (TWICE X) (+ X X)) (AXIOM (PEQUAL* (TWICE X) (+ X X))))
; kept 2 of 5
----

=> 1
; none of 0
----
(verify use (pequal* x y) (axiom (pequal* x y))) (print use)
=> 1
; none of 2
----
(verify use (pequal* x x) (axiom (pequal* x x))) (verify use (pequal* y y) (instantiation (pequal* y y) ((axiom (pequal* x x))) ((x . y))))
=> 0
(VERIFY USE (PEQUAL* X X) (AXIOM (PEQUAL* X X)))
; kept 1 of 2
----
(profile 1) (print a) (profile 2) (print b) (verify refl (pequal* x x) (axiom (pequal* x x)))
(verify other (pequal* x x) (axiom (pequal* x x))) (verify use (pequal* x x) (theorem (pequal* x x)))
=> 0
(PROFILE 2)
(VERIFY REFL (PEQUAL* X X) (AXIOM (PEQUAL* X X)))
(VERIFY USE (PEQUAL* X X) (THEOREM (PEQUAL* X X)))
; kept 3 of 7
----
(verify use (pequal* x x) (axiom (pequal* x x))) )
=> 3
; syntax CLOSE at 49
----
(verify use (pequal* x x) (axiom (pequal* x x))) (eval '340282366920938463463374607431768211456)
=> 0
(VERIFY USE (PEQUAL* X X) (AXIOM (PEQUAL* X X)))
; kept 1 of 2
----
(skolem pick y (x) (equal x y)) (skolem other y (x) (equal x y))
(define-all ((same (x) x nil) (via (x) (pick x) nil)) ()) (define-all ((mine (x) (pick x) nil)) ())
(verify use (pequal* (via x) (pick x)) (axiom (pequal* (via x) (pick x))))
=> 0
(SKOLEM PICK Y (X) (EQUAL X Y))
(DEFINE-ALL ((SAME (X) X NIL) (VIA (X) (PICK X) NIL)) NIL)
(VERIFY USE (PEQUAL* (VIA X) (PICK X)) (AXIOM (PEQUAL* (VIA X) (PICK X))))
; kept 3 of 5
----
(skolem pick y (x) (equal x y)) (define-all ((same (x) x nil) (via (x) (pick x) nil)) ())
(verify use #1=(por* (pequal* (equal x y) 'nil) (pnot* (pequal* ((lambda (y x) (equal x y)) (pick x) x) 'nil))) (axiom #1#))
=> 0
(SKOLEM PICK Y (X) (EQUAL X Y))
(VERIFY USE (POR* (PEQUAL* (EQUAL X Y) (QUOTE NIL)) (PNOT* (PEQUAL* ((LAMBDA (Y X) (EQUAL X Y)) (PICK X) X) (QUOTE NIL)))) (AXIOM (POR* (PEQUAL* (EQUAL X Y) (QUOTE NIL)) (PNOT* (PEQUAL* ((LAMBDA (Y X) (EQUAL X Y)) (PICK X) X) (QUOTE NIL))))))
; kept 2 of 3
----
(define-all ((same (x) x nil) (twin (x) (cons x x) nil)) ()) (skolem pick y (x) (equal (same x) y)) (skolem other y (x) (equal (same x) y))
(define twice (x) (pick x) nil ()) (define-all ((thrice (x) (other x) nil)) ())
(verify use (pequal* (twice x) (pick x)) (axiom (pequal* (twice x) (pick x))))
=> 0
(DEFINE-ALL ((SAME (X) X NIL) (TWIN (X) (CONS X X) NIL)) NIL)
(SKOLEM PICK Y (X) (EQUAL (SAME X) Y))
(DEFINE TWICE (X) (PICK X) NIL NIL)
(VERIFY USE (PEQUAL* (TWICE X) (PICK X)) (AXIOM (PEQUAL* (TWICE X) (PICK X))))
; kept 4 of 6
";

// A book with no theorem of that name.
const UNNAMED: &str = "\
(define twice (x) (+ x x) nil ())
(verify use (pequal* (twice x) (+ x x)) (axiom (pequal* (twice x) (+ x x))))
(define twice (x) x nil ())
(eval (twice 4))
=> 1
; none of 4
";

// After books/wrap.book: a switch to it, and what is judged by it.
const SWITCHED: &str = "(switch wrap) (print a) (verify refl (pequal* x x) (axiom (pequal* x x)))";

// The books above to which the answer is another one, in pieces of the given number of bytes.
fn wrong_slices(alloc: Global, size: usize) -> Result<String, AllocError> {
    wrong_answers(alloc, &["slice", "use"], SLICED, size)
}

#[test]
fn what_a_theorem_rests_on_is_kept(rt: HostRuntime) -> Result<(), Fail> {
    expect_empty(wrong_slices(rt.alloc(), 4096)?)
}

#[test]
fn a_book_that_is_read_byte_by_byte_has_the_same_slice(rt: HostRuntime) -> Result<(), Fail> {
    expect_empty(wrong_slices(rt.alloc(), 1)?)
}

#[test]
fn no_event_is_kept_for_a_name_without_a_theorem(rt: HostRuntime) -> Result<(), Fail> {
    expect_empty(wrong_answers(rt.alloc(), &["slice", "nope"], UNNAMED, 4096)?)
}

// The slice of the book with a switch for its last theorem, where all of it but the text that it shows is kept.
fn slice_after_wrap(alloc: Global) -> Result<Option<Answer>, AllocError> {
    let mut book = String::from_str(alloc, wrap_book())?;
    book.push_str(SWITCHED)?;
    let answer = answer_of_command(alloc, &["slice", "refl"], book.as_str(), 4096)?;
    let is_whole = answer.report.as_str().ends_with("\n; kept 10 of 11\n");
    Ok((answer.status == Status::Done && is_whole).then_some(answer))
}

// Whether `check` accepts all of that slice.
fn is_slice_after_wrap_accepted(alloc: Global) -> Result<bool, AllocError> {
    let Some(slice) = slice_after_wrap(alloc)? else {
        return Ok(false);
    };
    let again = answer_of_check(alloc, slice.report.as_str(), 4096)?;
    let end = "\nevents 10 accepted 10 refused 0 level 2\n";
    Ok(again.status == Status::Done && again.report.as_str().ends_with(end))
}

// Whether `check` accepts what is kept of the first book.
fn is_slice_accepted(alloc: Global) -> Result<bool, AllocError> {
    let answer = answer_of_check(alloc, KEPT, 4096)?;
    Ok(answer.status == Status::Done && SLICED.contains(KEPT))
}

#[test]
fn a_slice_is_a_book_that_is_accepted(rt: HostRuntime) -> Result<(), Fail> {
    assert!(rt; is_slice_accepted(rt.alloc())?);
    Ok(())
}

#[test]
fn after_a_switch_all_that_changes_the_theory_is_kept(rt: HostRuntime) -> Result<(), Fail> {
    assert!(rt; is_slice_after_wrap_accepted(rt.alloc())?);
    Ok(())
}
