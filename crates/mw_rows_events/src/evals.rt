//! What EVAL shows, and within how many units.
use mw_rows::{expect_empty, other_reports, wrong_answers};
use std::test::Fail;

const VALUES: &str = "\
(eval (+ 340282366920938463463374607431768211455 1))
        (eval ((lambda (x y) (cons y x)) 1 2))
        (eval (symbol-< 7 'z))
        (eval (if nil (+ 1 1) 2))
        (eval x)
        (eval (let ((x 1)) (list x (first '(7 8)))))
        (eval (ordp '((1 . 1) . 0)))
        (eval (ordp '((0 . 1) . 0)))
        (eval (ord< 5 '((1 . 1) . 0)))
        (eval (ord< '((1 . 2) . 0) '((1 . 1) . 9)))
        (eval (logic.proofp '(axiom (pequal* x x)) '((pequal* x x)) nil nil))
        (eval (logic.proofp '(axiom (pequal* x x)) nil nil nil))
        (eval (logic.provablep '(pequal* x x) nil nil nil))
        (eval (cons 'zz 1))
        (eval (equal '(zz . 1) (cons 'zz 1)))
        (eval (car 1 2))
        (eval (* 2 3))
        (eval (twice 4))
        (eval (lambda (x) x))
        (eval 340282366920938463463374607431768211456)
        (eval 1 2)
        (verify a (pequal* x x) (theorem (pequal* x x)))
        (eval (logic.len '(1 2 3)))
=> 1
1 EVAL - refused OVERFLOW
2 EVAL - accepted (2 . 1)
3 EVAL - accepted T
4 EVAL - accepted 2
5 EVAL - refused VARIABLES
6 EVAL - accepted (1 7)
7 EVAL - accepted T
8 EVAL - accepted NIL
9 EVAL - accepted T
10 EVAL - accepted NIL
11 EVAL - accepted T
12 EVAL - accepted NIL
13 EVAL - refused WITNESS
14 EVAL - accepted (ZZ . 1)
15 EVAL - accepted T
16 EVAL - refused TERM
17 EVAL - refused TERM
18 EVAL - refused TERM
19 EVAL - refused TERM
20 EVAL - refused RANGE
21 EVAL - refused EVENT
22 VERIFY A refused PROOF
23 EVAL - accepted 3
events 23 accepted 13 refused 10 level 1
";

const LIMITED: &str = "\
1
(eval (+ (+ 1 1) 1))
=> 1
1 EVAL - refused STEPS
----
2
(eval (+ (+ 1 1) 1))
=> 0
1 EVAL - accepted 3
----
1
(eval ((lambda (x y) (cons y x)) 1 2))
=> 0
1 EVAL - accepted (2 . 1)
----
13
(eval (logic.len '(1 2 3)))
=> 1
1 EVAL - refused STEPS
----
14
(eval (logic.len '(1 2 3)))
=> 0
1 EVAL - accepted 3
----
1
(eval (or (+ 1 1) 2))
=> 1
1 EVAL - refused STEPS
----
2
(eval (or (+ 1 1) 2))
=> 0
1 EVAL - accepted 2
----
1
(eval (if nil (car (car 1)) 2))
=> 0
1 EVAL - accepted 2
----
3
(eval (equal (cons 1 2) (cons 1 2)))
=> 0
1 EVAL - accepted T
----
1
(eval (+ 340282366920938463463374607431768211455 1))
=> 1
1 EVAL - refused OVERFLOW
";

#[test]
fn terms_are_evaluated(rt: HostRuntime) -> Result<(), Fail> {
    expect_empty(wrong_answers(rt.alloc(), &["check"], VALUES, 4096)?)
}

#[test]
fn units_are_counted(rt: HostRuntime) -> Result<(), Fail> {
    expect_empty(other_reports(rt.alloc(), LIMITED)?)
}
