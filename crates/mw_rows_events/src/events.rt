//! The fate of each kind of event.
use mw_rows::{expect_empty, wrong_answers};
use std::test::Fail;

const PROOFS: &str = "
=> 0
events 0 accepted 0 refused 0 level 1
----
(verify refl (pequal* x x) (axiom (pequal* x x)))
=> 0
1 VERIFY REFL accepted
events 1 accepted 1 refused 0 level 1
----
(verify s (por* (pequal* x y) (pnot* (pequal* x y)))
 (propositional-schema (por* (pequal* x y) (pnot* (pequal* x y)))))
=> 1
1 VERIFY S refused PROOF
events 1 accepted 0 refused 1 level 1
----
(verify z (pequal* t nil) (axiom (pequal* t nil)))
=> 1
1 VERIFY Z refused FORMULA
events 1 accepted 0 refused 1 level 1
----
(verify z (pequal* 't 'nil) (axiom (pequal* 't 'nil)))
=> 1
1 VERIFY Z refused PROOF
events 1 accepted 0 refused 1 level 1
----
(verify c (pequal* x y) (axiom (pequal* x x)))
=> 1
1 VERIFY C refused CONCLUSION
events 1 accepted 0 refused 1 level 1
----
(verify 7 (pequal* x x) (axiom (pequal* x x)))
=> 1
1 VERIFY - refused NAME
events 1 accepted 0 refused 1 level 1
----
(verify swap (pequal* (+ b a) (+ a b))
 (instantiation (pequal* (+ b a) (+ a b)) ((axiom (pequal* (+ a b) (+ b a)))) ((a . b) (b . a))))
=> 0
1 VERIFY SWAP accepted
events 1 accepted 1 refused 0 level 1
----
(verify swap (pequal* (+ a a) (+ a a))
 (instantiation (pequal* (+ a a) (+ a a)) ((axiom (pequal* (+ a b) (+ b a)))) ((a . b) (b . a))))
=> 1
1 VERIFY SWAP refused PROOF
events 1 accepted 0 refused 1 level 1
----
(verify be (pequal* ((lambda (x) (cons x x)) '1) (cons '1 '1))
 (beta-reduction (pequal* ((lambda (x) (cons x x)) '1) (cons '1 '1))))
=> 0
1 VERIFY BE accepted
events 1 accepted 1 refused 0 level 1
----
(verify fe (por* (pnot* (pequal* a b)) (pequal* (car a) (car b)))
 (functional-equality (por* (pnot* (pequal* a b)) (pequal* (car a) (car b)))))
=> 0
1 VERIFY FE accepted
events 1 accepted 1 refused 0 level 1
----
(verify o (pequal* (+ '340282366920938463463374607431768211455 '1) '0)
 (base-eval (pequal* (+ '340282366920938463463374607431768211455 '1) '0)))
=> 1
1 VERIFY O refused PROOF
events 1 accepted 0 refused 1 level 1
----
(verify d (pequal* (- '2 '5) '0) (base-eval (pequal* (- '2 '5) '0)))
=> 0
1 VERIFY D accepted
events 1 accepted 1 refused 0 level 1
----
(verify i (pequal* x x) (induction (pequal* x x) ((axiom (pequal* x x))) ('0 () ())))
=> 1
1 VERIFY I refused PROOF
events 1 accepted 0 refused 1 level 1
----
(verify trial (por* (pequal* (+ '2 '4) '6) (pequal* x '2))
 (cut (por* (pequal* (+ '2 '4) '6) (pequal* x '2))
     ((expansion (por* (pequal* x '2) (pequal* (+ '2 '4) '6)) ((base-eval (pequal* (+ '2 '4) '6))))
      (propositional-schema (por* (pnot* (pequal* x '2)) (pequal* x '2))))))
=> 0
1 VERIFY TRIAL accepted
events 1 accepted 1 refused 0 level 1
----
(verify refl (pequal* x x) (axiom (pequal* x x)))
(verify again (pequal* x x) (theorem (pequal* x x)))
=> 0
1 VERIFY REFL accepted
2 VERIFY AGAIN accepted
events 2 accepted 2 refused 0 level 1
----
(verify again (pequal* x x) (theorem (pequal* x x)))
=> 1
1 VERIFY AGAIN refused PROOF
events 1 accepted 0 refused 1 level 1
----
(verify z (pequal* 't 'nil) (axiom (pequal* 't 'nil)))
(verify again (pequal* 't 'nil) (theorem (pequal* 't 'nil)))
=> 1
1 VERIFY Z refused PROOF
2 VERIFY AGAIN refused PROOF
events 2 accepted 0 refused 2 level 1
";

const PRINTED: &str = "\
(print 340282366920938463463374607431768211456) (print 1)
=> 1
1 PRINT - refused RANGE
2 PRINT - accepted 1
events 2 accepted 1 refused 1 level 1
----
(print 340282366920938463463374607431768211455)
=> 0
1 PRINT - accepted 340282366920938463463374607431768211455
events 1 accepted 1 refused 0 level 1
----
(print (#1=(a b) #1#))
=> 0
1 PRINT - accepted ((A B) (A B))
events 1 accepted 1 refused 0 level 1
----
(print (#1=a #01#))
=> 0
1 PRINT - accepted (A A)
events 1 accepted 1 refused 0 level 1
----
(print |a b|)
=> 0
1 PRINT - accepted |a b|
events 1 accepted 1 refused 0 level 1
----
(print |AB|)
=> 0
1 PRINT - accepted AB
events 1 accepted 1 refused 0 level 1
----
(print |12|)
=> 0
1 PRINT - accepted |12|
events 1 accepted 1 refused 0 level 1
----
(print 007)
=> 0
1 PRINT - accepted 7
events 1 accepted 1 refused 0 level 1
----
(print 'x)
=> 0
1 PRINT - accepted (QUOTE X)
events 1 accepted 1 refused 0 level 1
----
(print (a . (b . c)))
=> 0
1 PRINT - accepted (A B . C)
events 1 accepted 1 refused 0 level 1
----
(print ())
=> 0
1 PRINT - accepted NIL
events 1 accepted 1 refused 0 level 1
";

const NO_EVENTS: &str = "\
abc
=> 1
1 - - refused EVENT
events 1 accepted 0 refused 1 level 1
----
(abc)
=> 1
1 ABC - refused EVENT
events 1 accepted 0 refused 1 level 1
----
(verify x)
=> 1
1 VERIFY X refused EVENT
events 1 accepted 0 refused 1 level 1
----
(verify . x)
=> 1
1 VERIFY - refused EVENT
events 1 accepted 0 refused 1 level 1
----
(verify x . y)
=> 1
1 VERIFY X refused EVENT
events 1 accepted 0 refused 1 level 1
----
(|verify| x)
=> 1
1 |verify| - refused EVENT
events 1 accepted 0 refused 1 level 1
----
(define k (x) x nil)
=> 1
1 DEFINE K refused EVENT
events 1 accepted 0 refused 1 level 1
----
(foo 340282366920938463463374607431768211456)
=> 1
1 FOO - refused RANGE
events 1 accepted 0 refused 1 level 1
----
340282366920938463463374607431768211456
=> 1
1 - - refused RANGE
events 1 accepted 0 refused 1 level 1
";

#[test]
fn formulas_have_the_fates_of_their_proofs(rt: HostRuntime) -> Result<(), Fail> {
    expect_empty(wrong_answers(rt.alloc(), &["check"], PROOFS, 4096)?)
}

#[test]
fn objects_are_printed(rt: HostRuntime) -> Result<(), Fail> {
    expect_empty(wrong_answers(rt.alloc(), &["check"], PRINTED, 4096)?)
}

#[test]
fn what_is_no_event_is_refused(rt: HostRuntime) -> Result<(), Fail> {
    expect_empty(wrong_answers(rt.alloc(), &["check"], NO_EVENTS, 4096)?)
}
