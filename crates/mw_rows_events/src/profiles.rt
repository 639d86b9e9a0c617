//! The second profile, which has multiplication, and when it can be chosen.
use mw_rows::{expect_empty, other_report, other_reports, wrap_book, wrap_lines, wrong_answers};
use std::alloc::{AllocError, Global};
use std::test::Fail;

// In the seventh, profiles are chosen after events of which none changed the theory.
const PROFILES: &str = "\
(profile 2)
(eval (* 18446744073709551615 18446744073709551617))
(eval (* 18446744073709551616 18446744073709551616))
(eval (* 3 (* 'a 5)))
=> 1
1 PROFILE - accepted
2 EVAL - accepted 340282366920938463463374607431768211455
3 EVAL - refused OVERFLOW
4 EVAL - accepted 0
events 4 accepted 3 refused 1 level 1
----
(eval (* 2 3))
(verify f (pequal* (* '2 '3) '6) (base-eval (pequal* (* '2 '3) '6)))
(define * (a b) a nil ())
(eval (* 2 3))
=> 1
1 EVAL - refused TERM
2 VERIFY F refused FORMULA
3 DEFINE * accepted
4 EVAL - accepted 2
events 4 accepted 2 refused 2 level 1
----
(profile 2)
(define * (a b) a nil ())
(skolem * y (a) y)
(verify b (pequal* (* '2 '3) '6) (base-eval (pequal* (* '2 '3) '6)))
(verify c (pequal* (* 'a '3) '0) (base-eval (pequal* (* 'a '3) '0)))
(verify o (pequal* (* '18446744073709551616 '18446744073709551616) '0)
  (base-eval (pequal* (* '18446744073709551616 '18446744073709551616) '0)))
(verify e #1=(por* (pnot* (pequal* a b)) (por* (pnot* (pequal* c d)) (pequal* (* a c) (* b d))))
  (functional-equality #1#))
(eval (list (logic.primitivep '*) (logic.apply '* '(6 7))))
=> 1
1 PROFILE - accepted
2 DEFINE * refused NAME
3 SKOLEM * refused NAME
4 VERIFY B accepted
5 VERIFY C accepted
6 VERIFY O refused PROOF
7 VERIFY E accepted
8 EVAL - accepted (T 42)
events 8 accepted 5 refused 3 level 1
----
(profile 3)
(profile 2)
(profile 2)
(profile 1)
=> 1
1 PROFILE - refused PROFILE
2 PROFILE - accepted
3 PROFILE - refused PROFILE
4 PROFILE - refused PROFILE
events 4 accepted 1 refused 3 level 1
----
(define k (x) x nil ())
(profile 2)
(profile 1)
=> 1
1 DEFINE K accepted
2 PROFILE - refused PROFILE
3 PROFILE - refused PROFILE
events 3 accepted 1 refused 2 level 1
----
(verify refl (pequal* x x) (axiom (pequal* x x)))
(profile 1)
(profile 2)
=> 1
1 VERIFY REFL accepted
2 PROFILE - refused PROFILE
3 PROFILE - refused PROFILE
events 3 accepted 1 refused 2 level 1
----
(profile 1)
(print 1)
(eval (logic.primitivep '*))
(define k (x) y nil ())
(verify z (pequal* x y) (axiom (pequal* x y)))
(switch logic.proofp)
(profile 3)
(profile 1)
(profile 2)
(eval (* 6 7))
=> 1
1 PROFILE - accepted
2 PRINT - accepted 1
3 EVAL - accepted NIL
4 DEFINE K refused VARIABLES
5 VERIFY Z refused PROOF
6 SWITCH LOGIC.PROOFP refused CLAIM
7 PROFILE - refused PROFILE
8 PROFILE - accepted
9 PROFILE - accepted
10 EVAL - accepted 42
events 10 accepted 6 refused 4 level 1
----
(profile)
(profile 1 2)
(profile . 2)
(profile x)
(profile '2)
(profile 0)
(profile 340282366920938463463374607431768211456)
(skolem w y () y)
(profile 2)
=> 1
1 PROFILE - refused EVENT
2 PROFILE - refused EVENT
3 PROFILE - refused EVENT
4 PROFILE - refused PROFILE
5 PROFILE - refused PROFILE
6 PROFILE - refused PROFILE
7 PROFILE - refused RANGE
8 SKOLEM W accepted
9 PROFILE - refused PROFILE
events 9 accepted 1 refused 8 level 1
";

const LIMITED: &str = "\
1
(profile 2)(eval (* 2 3))
=> 0
1 PROFILE - accepted
2 EVAL - accepted 6
----
1
(profile 2)(eval (* (* 2 3) 4))
=> 1
1 PROFILE - accepted
2 EVAL - refused STEPS
----
2
(profile 2)(eval (* (* 2 3) 4))
=> 0
1 PROFILE - accepted
2 EVAL - accepted 24
----
1
(profile 2)(eval (* 18446744073709551616 18446744073709551616))
=> 1
1 PROFILE - accepted
2 EVAL - refused OVERFLOW
";

// The report on a product that is shown under a checker which runs LOGIC.PROOFP, where it is not the one expected.
fn other_report_on_a_product(alloc: Global) -> Result<String, AllocError> {
    let wrap = wrap_book();
    let book = format!(in alloc;
        "(profile 2)\n{wrap}(switch wrap)\n(verify b #1=(pequal* (* '6 '7) '42) (base-eval #1#))\n"
    )?;
    let lines = wrap_lines(alloc, 2)?;
    let expected = format!(in alloc;
        "0\n1 PROFILE - accepted\n{lines}10 SWITCH WRAP accepted\n11 VERIFY B accepted\nevents 11 accepted 11 refused 0 level 2\n"
    )?;
    other_report(alloc, "10000000", book.as_str(), expected.as_str())
}

#[test]
fn a_profile_is_chosen_at_the_beginning(rt: HostRuntime) -> Result<(), Fail> {
    expect_empty(wrong_answers(rt.alloc(), &["check"], PROFILES, 4096)?)
}

#[test]
fn units_of_products_are_counted(rt: HostRuntime) -> Result<(), Fail> {
    expect_empty(other_reports(rt.alloc(), LIMITED)?)
}

#[test]
fn a_checker_of_the_second_profile_multiplies(rt: HostRuntime) -> Result<(), Fail> {
    expect_empty(other_report_on_a_product(rt.alloc())?)
}
