//! Definitions: what is taken, what is refused, and what a theory does with a function that it has taken.
use mw_rows::{
    NEXT_ROW, expect_empty, expected_after, limited_parts, other_report_after_ranks, other_reports,
    wrong_answers,
};
use std::alloc::{AllocError, Global};
use std::test::Fail;

const FUNCTIONS: &str = "\
(define twice (x) (+ x x) nil ())
(verify use (pequal* (twice x) (+ x x)) (axiom (pequal* (twice x) (+ x x))))
(define twice (x) x nil ())
(eval (twice 4))
=> 1
1 DEFINE TWICE accepted
2 VERIFY USE accepted
3 DEFINE TWICE refused NAME
4 EVAL - accepted 8
events 4 accepted 3 refused 1 level 1
----
(define one () 1 nil ())
(verify o (pequal* (one) (one)) (functional-equality (pequal* (one) (one))))
(eval (one))
=> 0
1 DEFINE ONE accepted
2 VERIFY O accepted
3 EVAL - accepted 1
events 3 accepted 3 refused 0 level 1
----
(define pair (x) (cons x x) nil ())
(define pairs (x) (cons (pair x) (list (pair x) x)) nil ())
(eval (pairs 1))
(verify fe #1=(por* (pnot* (pequal* a b)) (pequal* (pairs a) (pairs b))) (functional-equality #1#))
(verify d (pequal* (pairs x) (cons (pair x) (cons (pair x) (cons x 'nil)))) (axiom (pequal* (pairs x) (cons (pair x) (cons (pair x) (cons x 'nil))))))
(verify be (pequal* (pair '1) '(1 . 1)) (base-eval (pequal* (pair '1) '(1 . 1))))
(define v (x) (let ((y x)) (and y (or x y))) nil ())
(eval (v 3))
(define first-of (quote if and) quote nil ())
(eval (first-of 1 2 3))
=> 1
1 DEFINE PAIR accepted
2 DEFINE PAIRS accepted
3 EVAL - accepted ((1 . 1) (1 . 1) 1)
4 VERIFY FE accepted
5 VERIFY D accepted
6 VERIFY BE refused PROOF
7 DEFINE V accepted
8 EVAL - accepted 3
9 DEFINE FIRST-OF accepted
10 EVAL - accepted 1
events 10 accepted 9 refused 1 level 1
----
(define list (x) x nil ())
(define if (x) x nil ())
(define k (x x) x nil ())
(define k (x . y) x nil ())
(define k (t) t nil ())
(define k (x) (car x x) nil ())
(define k (x) x (car x x) ())
(define k (x) x (k x) ())
(define k (x) y nil ())
(define k (x) x y ())
(define k (x) x nil (a))
(define k (x) x nil b)
(define 7 (x) x nil ())
(define t (x) x nil ())
(define k)
(define k (x) x nil)
(define k (x) x nil () ())
(define big (x) 340282366920938463463374607431768211456 nil ())
=> 1
1 DEFINE LIST refused NAME
2 DEFINE IF refused NAME
3 DEFINE K refused FORMALS
4 DEFINE K refused FORMALS
5 DEFINE K refused FORMALS
6 DEFINE K refused TERM
7 DEFINE K refused TERM
8 DEFINE K refused TERM
9 DEFINE K refused VARIABLES
10 DEFINE K refused VARIABLES
11 DEFINE K refused COUNT
12 DEFINE K refused COUNT
13 DEFINE - refused NAME
14 DEFINE T refused NAME
15 DEFINE K refused EVENT
16 DEFINE K refused EVENT
17 DEFINE K refused EVENT
18 DEFINE BIG refused RANGE
events 18 accepted 0 refused 18 level 1
----
(define f (x) (f x) x ())
(define f (x) (f x) x (a b c))
(define g (x) ((lambda (y) (g y)) (g x)) x ())
(define f (x) (f x) x ((axiom (pequal* x x)) b))
(define f (x) (f x) x ((axiom (pequal* (ordp x) 't)) b))
(define f (x) (f x) '0 ((axiom (pequal* (ordp '0) 't)) b))
(define h (x) (if (h (cdr x)) (h (car x)) x) (rank x) (a b))
(define h (x) (if (h (cdr x)) (h (car x)) x) (rank x) (a b c))
(define h (x) (if (h (cdr x)) (h (car x)) x) (rank x) (a b c d))
(define k (x) x nil ())
(define f (x) x nil ())
=> 1
1 DEFINE F refused COUNT
2 DEFINE F refused COUNT
3 DEFINE G refused NESTED
4 DEFINE F refused CONCLUSION
5 DEFINE F refused PROOF
6 DEFINE F refused PROOF
7 DEFINE H refused COUNT
8 DEFINE H refused CONCLUSION
9 DEFINE H refused COUNT
10 DEFINE K accepted
11 DEFINE F accepted
events 11 accepted 2 refused 9 level 1
----
(define quote (x x) y z a)
(define many (x x) (car x x) y a)
(define many (x) (car x x) y a)
(define many (x) (many (many y)) y a)
(define many (x) (many (many x)) x a)
(define many (x) (many x) x a)
(eval (many 1))
=> 1
1 DEFINE QUOTE refused NAME
2 DEFINE MANY refused FORMALS
3 DEFINE MANY refused TERM
4 DEFINE MANY refused VARIABLES
5 DEFINE MANY refused NESTED
6 DEFINE MANY refused COUNT
7 EVAL - refused TERM
events 7 accepted 0 refused 7 level 1
";

const WITNESSES: &str = "\
(skolem pick y (x) (equal x y))
(eval (pick 1))
(eval (if nil (pick 1) 2))
(verify choice #1=(por* (pequal* (equal x y) 'nil)
   (pnot* (pequal* ((lambda (y x) (equal x y)) (pick x) x) 'nil))) (axiom #1#))
(verify turned #1=(por* (pequal* (equal x y) 'nil)
   (pnot* (pequal* ((lambda (x y) (equal x y)) x (pick x)) 'nil))) (axiom #1#))
(define live (x) (if x (pick x) x) nil ())
(eval (live 1))
(eval (live nil))
=> 1
1 SKOLEM PICK accepted
2 EVAL - refused WITNESS
3 EVAL - accepted 2
4 VERIFY CHOICE accepted
5 VERIFY TURNED refused PROOF
6 DEFINE LIVE accepted
7 EVAL - refused WITNESS
8 EVAL - accepted NIL
events 8 accepted 5 refused 3 level 1
----
(skolem w y (y) y)
(skolem w y (x x) y)
(skolem w 7 (x) x)
(skolem w t (x) x)
(skolem w y x y)
(skolem w y (x) (car x x))
(skolem w y (x) (w x))
(skolem w y (x) z)
(skolem car y (x) y)
(skolem w y (x))
(skolem w y () (equal y 1))
(skolem w y () (equal y 1))
(define w () 1 nil ())
(eval (w))
(verify ax (por* (pequal* (equal y '1) 'nil) (pnot* (pequal* ((lambda (y) (equal y '1)) (w)) 'nil)))
 (axiom (por* (pequal* (equal y '1) 'nil) (pnot* (pequal* ((lambda (y) (equal y '1)) (w)) 'nil)))))
=> 1
1 SKOLEM W refused FORMALS
2 SKOLEM W refused FORMALS
3 SKOLEM W refused FORMALS
4 SKOLEM W refused FORMALS
5 SKOLEM W refused FORMALS
6 SKOLEM W refused TERM
7 SKOLEM W refused TERM
8 SKOLEM W refused VARIABLES
9 SKOLEM CAR refused NAME
10 SKOLEM W refused EVENT
11 SKOLEM W accepted
12 SKOLEM W refused NAME
13 DEFINE W refused NAME
14 EVAL - refused WITNESS
15 VERIFY AX accepted
events 15 accepted 2 refused 13 level 1
----
(define dead (x) (if nil (pick x) x) nil ())
=> 1
1 DEFINE DEAD refused TERM
events 1 accepted 0 refused 1 level 1
";

const BLOCKS: &str = "\
(define-all () ())
(define-all nil ())
(define-all ((p (x) x)) ())
(define-all ((p (x) x nil) . q) ())
(define-all ((p (x) x nil)))
(define-all ((p (x) x nil) (p (x) x nil)) ())
(define-all ((p (x) x nil) (car (x) x nil)) ())
(define-all (p (x) x nil) ())
=> 1
1 DEFINE-ALL - refused EVENT
2 DEFINE-ALL - refused EVENT
3 DEFINE-ALL - refused EVENT
4 DEFINE-ALL - refused EVENT
5 DEFINE-ALL - refused EVENT
6 DEFINE-ALL - refused NAME
7 DEFINE-ALL - refused NAME
8 DEFINE-ALL - refused EVENT
events 8 accepted 0 refused 8 level 1
----
(define-all ((p (x) x nil) (q (x x) x nil)) ())
(define-all ((p (x) (q x x) nil) (q (x) x nil)) ())
(define-all ((p (x) x (q x)) (q (x) x nil)) ())
(define-all ((p (x) x nil) (q (x) y nil)) ())
(define-all ((p (x) (q (p x)) x) (q (x) x nil)) ())
(define-all ((p (x) (q x) x) (q (x) x nil)) ())
(define-all ((p (x) ((lambda (y) (q y)) (p x)) x) (q (x) x nil)) ())
=> 1
1 DEFINE-ALL - refused FORMALS
2 DEFINE-ALL - refused TERM
3 DEFINE-ALL - refused TERM
4 DEFINE-ALL - refused VARIABLES
5 DEFINE-ALL - refused NESTED
6 DEFINE-ALL - refused COUNT
7 DEFINE-ALL - refused NESTED
events 7 accepted 0 refused 7 level 1
----
(define-all ((p (x) (cons x x) nil) (q (x) x nil)) ())
(eval (p (q 1)))
(define-all ((r (x) (car x) nil) (s (x x) x nil)) ())
(eval (r '(1)))
(define r (x) (cdr x) nil ())
(eval (r '(1)))
(define-all ((|p| (x) x nil)) ())
(define |p| (x) x nil ())
=> 1
1 DEFINE-ALL - accepted
2 EVAL - accepted (1 . 1)
3 DEFINE-ALL - refused FORMALS
4 EVAL - refused TERM
5 DEFINE R accepted
6 EVAL - accepted NIL
7 DEFINE-ALL - accepted
8 DEFINE |p| refused NAME
events 8 accepted 5 refused 3 level 1
";

// A function and a block of two functions, both with a recursion down CDR.
const RECURSIONS: &str = "(define app (x y)
 (if (consp x) (cons (car x) (app (cdr x) y)) y)
 (rank x)
 ((theorem (pequal* (ordp (rank x)) 't))
  (theorem (por* (pequal* (consp x) 'nil) (pequal* (ord< (rank (cdr x)) (rank x)) 't)))))
(define-all
 ((ev (x) (if (consp x) (od (cdr x)) t) (rank x))
  (od (x) (if (consp x) (ev (cdr x)) nil) (rank x)))
 ((theorem (pequal* (ordp (rank x)) 't))
  (theorem (por* (pequal* (consp x) 'nil) (pequal* (ord< (rank (cdr x)) (rank x)) 't)))))
";

const OF_RECURSIONS: &str = "14 DEFINE APP accepted
15 DEFINE-ALL - accepted
";

const AFTER: &str = "(eval (app '(1 2) '(3)))
(eval (app 'a '(b . c)))
(eval (app '(a . b) nil))
(define app (x y) y nil ())
(define rev (x) (if (consp x) (app (rev (cdr x)) (list (car x))) nil) (rank x) ())
(define rev (x) (if (consp x) (app (rev (cdr x)) (list (car x))) nil) (rank x)
 ((theorem (pequal* (ordp (rank x)) 't))))
(define rev (x) (if (consp x) (app (rev (cdr x)) (list (car x))) nil) (rank x)
 ((theorem #1=(por* (pequal* (consp x) 'nil) (pequal* (ord< (rank (cdr x)) (rank x)) 't)))
  (theorem (pequal* (ordp (rank x)) 't))))
(define rev (x) (if (consp x) (app (rev (cdr x)) (list (car x))) nil) (rank x)
 ((theorem (pequal* (ordp (rank x)) 't))
  (axiom (por* (pequal* (consp x) 'nil) (pequal* (ord< (rank (cdr x)) (rank x)) 't)))))
(define rev (y) (if (consp y) (app (rev (cdr y)) (list (car y))) nil) (rank y)
 ((theorem (pequal* (ordp (rank x)) 't))
  (theorem (por* (pequal* (consp x) 'nil) (pequal* (ord< (rank (cdr x)) (rank x)) 't)))))
(eval (rev '(1 2 3)))
(define rev (x) (if (consp x) (app (rev (cdr x)) (list (car x))) nil) (rank x)
 ((theorem (pequal* (ordp (rank x)) 't))
  (theorem (por* (pequal* (consp x) 'nil) (pequal* (ord< (rank (cdr x)) (rank x)) 't)))))
(eval (rev '(1 2 3)))
(define h (x) (if (h (cdr x)) (h (car x)) x) (rank x)
 ((theorem (pequal* (ordp (rank x)) 't)) (axiom (pequal* (ord< (rank (cdr x)) (rank x)) 't)) c))
(define h (x) (if (h (cdr x)) (h (car x)) x) (rank x)
 ((theorem (pequal* (ordp (rank x)) 't)) (axiom (pequal* (ord< (rank (car x)) (rank x)) 't)) c))
(define last (x) (if (consp x) (if (consp (cdr x)) (last (cdr x)) (car x)) nil) (rank x)
 ((theorem (pequal* (ordp (rank x)) 't))
  (expansion (por* (pequal* (consp x) 'nil) (por* (pequal* (consp (cdr x)) 'nil) (pequal* (ord< (rank (cdr x)) (rank x)) 't))) (a))))
(verify unfold (pequal* (ev x) (if (consp x) (od (cdr x)) 't)) (axiom (pequal* (ev x) (if (consp x) (od (cdr x)) 't))))
(verify unfold (pequal* (od x) (if (consp x) (ev (cdr x)) 'nil)) (axiom (pequal* (od x) (if (consp x) (ev (cdr x)) 'nil))))
(eval (list (ev '(1 2)) (od '(1 2)) (ev '(1)) (od '(1)) (ev 7)))
(define tack (x y)
 (if (consp x) (let ((rest (cdr x))) (cons (car x) (tack rest y))) y)
 (rank x)
 ((theorem (pequal* (ordp (rank x)) 't))
  (theorem (por* (pequal* (consp x) 'nil) (pequal* (ord< (rank (cdr x)) (rank x)) 't)))))
(eval (tack '(1 2) '(3)))
(define skip (x) (if (car x) (if (consp x) (skip (cdr x)) x) x) (rank x)
 ((theorem (pequal* (ordp (rank x)) 't))
  (theorem (por* (pequal* (consp x) 'nil) (pequal* (ord< (rank (cdr x)) (rank x)) 't)))))
(define skip (x) (if (car x) (if (consp x) (skip (cdr x)) x) x) (rank x)
 ((theorem (pequal* (ordp (rank x)) 't))
  (expansion (por* (pequal* (car x) 'nil) #1=(por* (pequal* (consp x) 'nil) (pequal* (ord< (rank (cdr x)) (rank x)) 't)))
   ((theorem #1#)))))
(eval (skip '(1 2 nil 3)))
";

const OF_AFTER: &str = "1
16 EVAL - accepted (1 2 3)
17 EVAL - accepted (B . C)
18 EVAL - accepted (A)
19 DEFINE APP refused NAME
20 DEFINE REV refused COUNT
21 DEFINE REV refused COUNT
22 DEFINE REV refused CONCLUSION
23 DEFINE REV refused PROOF
24 DEFINE REV refused CONCLUSION
25 EVAL - refused TERM
26 DEFINE REV accepted
27 EVAL - accepted (3 2 1)
28 DEFINE H refused PROOF
29 DEFINE H refused CONCLUSION
30 DEFINE LAST refused PROOF
31 VERIFY UNFOLD accepted
32 VERIFY UNFOLD accepted
33 EVAL - accepted (T NIL NIL T T)
34 DEFINE TACK accepted
35 EVAL - accepted (1 2 3)
36 DEFINE SKIP refused CONCLUSION
37 DEFINE SKIP accepted
38 EVAL - accepted (NIL 3)
events 38 accepted 27 refused 11 level 1
";

const LIMITED: &str = "\
1
(skolem pick y (x) (equal x y)) (eval (pick 1)) (eval (if nil (pick 1) 2))
=> 1
1 SKOLEM PICK accepted
2 EVAL - refused WITNESS
3 EVAL - accepted 2
events 3 accepted 2 refused 1 level 1
----
2
(define twice (x) (+ x x) nil ()) (eval (twice 4))
=> 0
1 DEFINE TWICE accepted
2 EVAL - accepted 8
events 2 accepted 2 refused 0 level 1
----
1
(define twice (x) (+ x x) nil ()) (eval (twice 4))
=> 1
1 DEFINE TWICE accepted
2 EVAL - refused STEPS
events 2 accepted 1 refused 1 level 1
";

// Each book comes after the recursions, and the expected answer to it after their lines.
const LIMITED_RECURSIONS: &str = "\
8
(eval (ev '(1 2)))
=> 0
16 EVAL - accepted T
----
7
(eval (ev '(1 2)))
=> 1
16 EVAL - refused STEPS
----
12
(eval (app '(1 2) '(3)))
=> 0
16 EVAL - accepted (1 2 3)
----
11
(eval (app '(1 2) '(3)))
=> 1
16 EVAL - refused STEPS
";

// The answer to the recursions and these events after them, where it is not the expected answer to these with the lines of those before.
fn other_lines(
    alloc: Global,
    steps: &str,
    events: &str,
    expected: &str,
) -> Result<String, AllocError> {
    let mut book = String::from_str(alloc, RECURSIONS)?;
    book.push_str(events)?;
    let expected = expected_after(alloc, OF_RECURSIONS, expected)?;
    other_report_after_ranks(alloc, steps, book.as_str(), expected.as_str())
}

// The reports on the recursions and each book after them that are not those expected.
fn other_limits_of_recursions(alloc: Global) -> Result<String, AllocError> {
    let mut others = String::new(alloc);
    for row in LIMITED_RECURSIONS.split(NEXT_ROW) {
        let Some((steps, events, expected)) = limited_parts(row) else {
            return format!(in alloc; "no row: {row}");
        };
        others.push_str(other_lines(alloc, steps, events, expected)?.as_str())?;
    }
    Ok(others)
}

#[test]
fn functions_are_defined(rt: HostRuntime) -> Result<(), Fail> {
    expect_empty(wrong_answers(rt.alloc(), &["check"], FUNCTIONS, 4096)?)
}

#[test]
fn witnesses_are_chosen(rt: HostRuntime) -> Result<(), Fail> {
    expect_empty(wrong_answers(rt.alloc(), &["check"], WITNESSES, 4096)?)
}

#[test]
fn blocks_are_taken_whole(rt: HostRuntime) -> Result<(), Fail> {
    expect_empty(wrong_answers(rt.alloc(), &["check"], BLOCKS, 4096)?)
}

#[test]
fn recursions_that_descend_are_defined(rt: HostRuntime) -> Result<(), Fail> {
    expect_empty(other_lines(rt.alloc(), "10000000", AFTER, OF_AFTER)?)
}

#[test]
fn units_of_calls_are_counted(rt: HostRuntime) -> Result<(), Fail> {
    expect_empty(other_reports(rt.alloc(), LIMITED)?)
}

#[test]
fn units_of_recursions_are_counted(rt: HostRuntime) -> Result<(), Fail> {
    expect_empty(other_limits_of_recursions(rt.alloc())?)
}
