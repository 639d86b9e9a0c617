//! The books of the guide to writing books, docs/BOOKS.md, with the reports that it states.
use mw_rows::{
    app_book, app_lines, expect_empty, expected_after, other_report, other_report_after_ranks,
    shorthand_book, shorthand_lines, wrap_book, wrap_lines, wrong_answers,
};
use std::alloc::{AllocError, Global};
use std::test::Fail;

const BOOKS: &str = "\
; Equality of a thing with itself is an axiom of the logic.
(verify refl (pequal* x x) (axiom (pequal* x x)))

=> 0
1 VERIFY REFL accepted
events 1 accepted 1 refused 0 level 1
----
(print (a . (b . c)))
(print 'x)
(print (|a b| |AB| |12| 007 ()))

=> 0
1 PRINT - accepted (A B . C)
2 PRINT - accepted (QUOTE X)
3 PRINT - accepted (|a b| AB |12| 7 NIL)
events 3 accepted 3 refused 0 level 1
----
(print (#1=(a b) #1#))

=> 0
1 PRINT - accepted ((A B) (A B))
events 1 accepted 1 refused 0 level 1
----
(print 1)
(print 12a)

=> 3
1 PRINT - accepted 1
syntax TOKEN at 17
----
; From \"a = b or b = a\" by its parts: not A or A, and then the parts turned round.
(verify em
 (por* (pnot* (pequal* x y)) (pequal* x y))
 (propositional-schema (por* (pnot* (pequal* x y)) (pequal* x y))))

; A sum is the same the other way round, for any terms: an instance of an axiom.
(verify swap
 (pequal* (+ (car x) '1) (+ '1 (car x)))
 (instantiation (pequal* (+ (car x) '1) (+ '1 (car x)))
  ((axiom (pequal* (+ a b) (+ b a))))
  ((a . (car x)) (b . '1))))

; A primitive's value, and a function of equal things.
(verify two (pequal* (+ '1 '1) '2) (base-eval (pequal* (+ '1 '1) '2)))
(verify same
 (por* (pnot* (pequal* a b)) (pequal* (car a) (car b)))
 (functional-equality (por* (pnot* (pequal* a b)) (pequal* (car a) (car b)))))

=> 0
1 VERIFY EM accepted
2 VERIFY SWAP accepted
3 VERIFY TWO accepted
4 VERIFY SAME accepted
events 4 accepted 4 refused 0 level 1
----
(verify refl #1=(pequal* x x) (axiom #1#))
(verify weaker
 #2=(por* (pequal* a b) #3=(pequal* x x))
 (expansion #2# ((theorem #3#))))

=> 0
1 VERIFY REFL accepted
2 VERIFY WEAKER accepted
events 2 accepted 2 refused 0 level 1
----
; A lambda call equals its body with the actuals put in.
(verify double
 #1=(pequal* ((lambda (x) (cons x x)) (car y)) (cons (car y) (car y)))
 (beta-reduction #1#))

; From A or A, A.
(verify once
 #1=(pequal* x x)
 (contraction #1# ((expansion (por* #1# #1#) ((axiom #1#))))))

; From A or (B or C), (A or B) or C.
(verify left
 #1=(por* (por* #2=(pequal* a b) #3=(pequal* b a)) #4=(pequal* x x))
 (associativity #1#
  ((expansion (por* #2# #5=(por* #3# #4#))
    ((expansion #5# ((axiom #4#))))))))

; From A or B, and not A or C, B or C. Here C is A, which turns a disjunction round.
(verify turned
 #1=(por* #2=(pequal* x x) #3=(pequal* a b))
 (cut #1#
  ((expansion (por* #3# #2#) ((axiom #2#)))
   (propositional-schema (por* (pnot* #3#) #3#)))))

=> 0
1 VERIFY DOUBLE accepted
2 VERIFY ONCE accepted
3 VERIFY LEFT accepted
4 VERIFY TURNED accepted
events 4 accepted 4 refused 0 level 1
----
(eval (+ (+ 1 1) 1))
(eval (let ((x 1)) (list x (first '(7 8)))))
(eval (logic.len '(a b c)))
(eval (if (consp 'a) (car 'a) 'none))
(eval (car 1 2))
(eval (cons x x))
(eval (+ 340282366920938463463374607431768211455 1))
(eval (logic.provablep '(pequal* x x) nil nil nil))

=> 1
1 EVAL - accepted 3
2 EVAL - accepted (1 7)
3 EVAL - accepted 3
4 EVAL - accepted NONE
5 EVAL - refused TERM
6 EVAL - refused VARIABLES
7 EVAL - refused OVERFLOW
8 EVAL - refused WITNESS
events 8 accepted 4 refused 4 level 1
----
(define twice (x) (+ x x) nil ())
(eval (twice 4))
(verify use
 (pequal* (twice x) (+ x x))
 (axiom (pequal* (twice x) (+ x x))))
(verify same
 #1=(por* (pnot* (pequal* a b)) (pequal* (twice a) (twice b)))
 (functional-equality #1#))
(define twice (x) x nil ())
(define k (x x) x nil ())
(define k (x) (car x x) nil ())
(define k (x) y nil ())
(define k (x) (list x (twice x)) nil ())
(eval (k 3))

=> 1
1 DEFINE TWICE accepted
2 EVAL - accepted 8
3 VERIFY USE accepted
4 VERIFY SAME accepted
5 DEFINE TWICE refused NAME
6 DEFINE K refused FORMALS
7 DEFINE K refused TERM
8 DEFINE K refused VARIABLES
9 DEFINE K accepted
10 EVAL - accepted (3 6)
events 10 accepted 6 refused 4 level 1
----
(define app (x y)
 (if (consp x) (cons (car x) (app (cdr x) y)) y)
 (rank x)
 ())
(define app (x y)
 (if (consp x) (cons (car x) (app (cdr x) y)) y)
 (rank x)
 ((axiom (pequal* x x)) (axiom (pequal* x x))))
(define app (x y)
 (if (consp x) (cons (car x) (app (cdr x) y)) y)
 (rank x)
 ((axiom (pequal* (ordp (rank x)) 't))
  (axiom (por* (pequal* (consp x) 'nil) (pequal* (ord< (rank (cdr x)) (rank x)) 't)))))
(define deep (x) (if (consp x) (deep (deep (cdr x))) x) (rank x) ())

=> 1
1 DEFINE APP refused COUNT
2 DEFINE APP refused CONCLUSION
3 DEFINE APP refused PROOF
4 DEFINE DEEP refused NESTED
events 4 accepted 0 refused 4 level 1
----
(skolem pick y (x) (equal (car y) x))
(verify choice
 #1=(por* (pequal* (equal (car y) x) 'nil)
     (pnot* (pequal* ((lambda (y x) (equal (car y) x)) (pick x) x) 'nil)))
 (axiom #1#))
(eval (pick 1))
(eval (if nil (pick 1) 2))

=> 1
1 SKOLEM PICK accepted
2 VERIFY CHOICE accepted
3 EVAL - refused WITNESS
4 EVAL - accepted 2
events 4 accepted 3 refused 1 level 1
----
(print (six times seven))
(profile 2)
(eval (* 6 7))
(verify turned (pequal* (* (+ a b) c) (* c (+ a b)))
 (instantiation (pequal* (* (+ a b) c) (* c (+ a b)))
  ((axiom (pequal* (* a b) (* b a))))
  ((a . (+ a b)) (b . c))))
(eval (* 18446744073709551616 18446744073709551616))
(define * (a b) (cons a b) nil ())
(profile 2)

=> 1
1 PRINT - accepted (SIX TIMES SEVEN)
2 PROFILE - accepted
3 EVAL - accepted 42
4 VERIFY TURNED accepted
5 EVAL - refused OVERFLOW
6 DEFINE * refused NAME
7 PROFILE - refused PROFILE
events 7 accepted 4 refused 3 level 1
----
(profile 3)
(eval (* 6 7))
(define * (a b) (cons a b) nil ())
(eval (* 6 7))
(profile 2)

=> 1
1 PROFILE - refused PROFILE
2 EVAL - refused TERM
3 DEFINE * accepted
4 EVAL - accepted (6 . 7)
5 PROFILE - refused PROFILE
events 5 accepted 2 refused 3 level 1
----
(define never (x axioms thms atbl) nil nil ())
(switch never)
(verify claim
 #1=(por* #2=(pequal* (never x axioms thms atbl) 'nil)
          #3=(pnot* (pequal* (logic.provablep (logic.conclusion x) axioms thms atbl) 'nil)))
 (cut #1# ((expansion (por* #3# #2#) ((axiom #2#)))
           (propositional-schema (por* (pnot* #3#) #3#)))))
(switch never)
(verify refl (pequal* x x) (axiom (pequal* x x)))
(verify refl (pequal* x y) (axiom (pequal* x x)))
(define twice (x) (+ x x) nil ())
(eval (twice 4))
(switch logic.proofp)
(switch twice)
(switch never)

=> 1
1 DEFINE NEVER accepted
2 SWITCH NEVER refused CLAIM
3 VERIFY CLAIM accepted
4 SWITCH NEVER accepted
5 VERIFY REFL refused NIL
6 VERIFY REFL refused CONCLUSION
7 DEFINE TWICE accepted
8 EVAL - accepted 8
9 SWITCH LOGIC.PROOFP refused CLAIM
10 SWITCH TWICE refused CHECKER
11 SWITCH NEVER accepted
events 11 accepted 6 refused 5 level 3
----
(verify z (pequal* t nil) (axiom (pequal* t nil)))
(verify z (pequal* 't 'nil) (axiom (pequal* 't 'nil)))
(verify z (pequal* x y) (axiom (pequal* x x)))
(verify 7 (pequal* x x) (axiom (pequal* x x)))
(verify z)
(print 340282366920938463463374607431768211456)

=> 1
1 VERIFY Z refused FORMULA
2 VERIFY Z refused PROOF
3 VERIFY Z refused CONCLUSION
4 VERIFY - refused NAME
5 VERIFY Z refused EVENT
6 PRINT - refused RANGE
events 6 accepted 0 refused 6 level 1
";

// What the guide shows after the theorems of books/ranks.book, and the lines that it shows for it.
const AFTER_RANKS: &str = "(define app (x y)
 (if (consp x) (cons (car x) (app (cdr x) y)) y)
 (rank x)
 ((theorem (pequal* (ordp (rank x)) 't))
  (theorem (por* (pequal* (consp x) 'nil) (pequal* (ord< (rank (cdr x)) (rank x)) 't)))))
(eval (app '(1 2) '(3)))
(define-all
 ((ev (x) (if (consp x) (od (cdr x)) t) (rank x))
  (od (x) (if (consp x) (ev (cdr x)) nil) (rank x)))
 ((theorem (pequal* (ordp (rank x)) 't))
  (theorem (por* (pequal* (consp x) 'nil) (pequal* (ord< (rank (cdr x)) (rank x)) 't)))))
(eval (list (ev '(1 2)) (od '(1 2))))
";

const OF_AFTER_RANKS: &str = "0
14 DEFINE APP accepted
15 EVAL - accepted (1 2 3)
16 DEFINE-ALL - accepted
17 EVAL - accepted (T NIL)
events 17 accepted 17 refused 0 level 1
";

// What the guide shows after books/app.book, and the lines that it shows for it.
const AFTER_APP: &str = "(verify lists
 (pequal* (app (app '(1 2) y) z) (app '(1 2) (app y z)))
 (instantiation (pequal* (app (app '(1 2) y) z) (app '(1 2) (app y z)))
  ((theorem (pequal* (app (app x y) z) (app x (app y z)))))
  ((x . '(1 2)))))
(eval (equal (app (app '(1 2) '(3)) '(4)) (app '(1 2) (app '(3) '(4)))))
";

const OF_AFTER_APP: &str = "0
25 VERIFY LISTS accepted
26 EVAL - accepted T
events 26 accepted 26 refused 0 level 1
";

// What the guide shows after books/wrap.book, and the lines that it shows for it.
const AFTER_WRAP: &str = "(switch wrap)
(verify refl (pequal* x x) (axiom (pequal* x x)))
(verify wrong (pequal* x y) (axiom (pequal* x y)))
(switch logic.proofp)
";

const OF_AFTER_WRAP: &str = "1
9 SWITCH WRAP accepted
10 VERIFY REFL accepted
11 VERIFY WRONG refused NIL
12 SWITCH LOGIC.PROOFP accepted
events 12 accepted 11 refused 1 level 3
";

// What the guide shows after books/shorthand.book, and the lines that it shows for it.
const AFTER_SHORTHAND: &str = "(verify refl (pequal* x x) (axiom (pequal* x x)))
(verify itself
 #1=(pequal* (equal x x) 't)
 (modus-ponens #1#
  ((axiom #2=(pequal* x x))
   (instantiation (por* (pnot* #2#) #1#)
    ((axiom (por* (pnot* (pequal* x y)) (pequal* (equal x y) 't))))
    ((y . x))))))
(verify wrong
 #1=(pequal* (equal x y) 't)
 (modus-ponens #1#
  ((axiom (pequal* x x))
   (axiom (por* (pnot* (pequal* x y)) #1#)))))
";

const OF_AFTER_SHORTHAND: &str = "1
19 VERIFY REFL accepted
20 VERIFY ITSELF accepted
21 VERIFY WRONG refused NIL
events 21 accepted 20 refused 1 level 3
";

// The answers to what the guide shows after these books, where they are not the ones stated.
fn other_report_after_app(alloc: Global) -> Result<String, AllocError> {
    let mut book = String::from_str(alloc, app_book())?;
    book.push_str(AFTER_APP)?;
    let expected = expected_after(alloc, app_lines(alloc, 14)?.as_str(), OF_AFTER_APP)?;
    other_report_after_ranks(alloc, "10000000", book.as_str(), expected.as_str())
}

fn other_report_after_wrap(alloc: Global) -> Result<String, AllocError> {
    let mut book = String::from_str(alloc, wrap_book())?;
    book.push_str(AFTER_WRAP)?;
    let expected = expected_after(alloc, wrap_lines(alloc, 1)?.as_str(), OF_AFTER_WRAP)?;
    other_report(alloc, "10000000", book.as_str(), expected.as_str())
}

fn other_report_after_shorthand(alloc: Global) -> Result<String, AllocError> {
    let mut book = String::from_str(alloc, wrap_book())?;
    book.push_str(shorthand_book())?;
    book.push_str(AFTER_SHORTHAND)?;
    let mut lines = wrap_lines(alloc, 1)?;
    lines.push_str(shorthand_lines(alloc, 9)?.as_str())?;
    let expected = expected_after(alloc, lines.as_str(), OF_AFTER_SHORTHAND)?;
    other_report(alloc, "10000000", book.as_str(), expected.as_str())
}

#[test]
fn the_books_of_the_guide_have_its_reports(rt: HostRuntime) -> Result<(), Fail> {
    expect_empty(wrong_answers(rt.alloc(), &["check"], BOOKS, 4096)?)
}

#[test]
fn the_recursions_of_the_guide_are_defined(rt: HostRuntime) -> Result<(), Fail> {
    expect_empty(other_report_after_ranks(rt.alloc(), "10000000", AFTER_RANKS, OF_AFTER_RANKS)?)
}

#[test]
fn the_induction_of_the_guide_is_accepted(rt: HostRuntime) -> Result<(), Fail> {
    expect_empty(other_report_after_app(rt.alloc())?)
}

#[test]
fn the_checker_of_the_guide_says_yes(rt: HostRuntime) -> Result<(), Fail> {
    expect_empty(other_report_after_wrap(rt.alloc())?)
}

#[test]
fn the_shorthand_of_the_guide_is_taken(rt: HostRuntime) -> Result<(), Fail> {
    expect_empty(other_report_after_shorthand(rt.alloc())?)
}
