//! Switches to a checker of the book: what is refused, and how proofs are judged after one.
use mw_rows::{
    NEVER, expect_empty, other_answer_on_never, other_report, other_report_after_ranks, wrap_book,
    wrap_lines, wrong_answers,
};
use std::alloc::{AllocError, Global};
use std::test::Fail;

// In the last, the claim has variables of its own, whatever the formals are called, and its parts in this order.
const SWITCHES: &str = "\
(switch logic.proofp)
(switch logic.termp)
(switch 7)
=> 1
1 SWITCH LOGIC.PROOFP refused CLAIM
2 SWITCH LOGIC.TERMP refused CHECKER
3 SWITCH - refused CHECKER
events 3 accepted 0 refused 3 level 1
----
(switch)
(switch a b)
(switch . never)
(switch 340282366920938463463374607431768211456)
(switch never)
(switch car)
(switch nil)
(switch (never))
(switch logic.provablep)
(switch logic.provable-witness)
(skolem four y (a b c d) y)
(switch four)
(define three (a b c) nil nil ())
(switch three)
(define five (a b c d e) nil nil ())
(switch five)
=> 1
1 SWITCH - refused EVENT
2 SWITCH A refused EVENT
3 SWITCH - refused EVENT
4 SWITCH - refused RANGE
5 SWITCH NEVER refused CHECKER
6 SWITCH CAR refused CHECKER
7 SWITCH NIL refused CHECKER
8 SWITCH - refused CHECKER
9 SWITCH LOGIC.PROVABLEP refused CLAIM
10 SWITCH LOGIC.PROVABLE-WITNESS refused CHECKER
11 SKOLEM FOUR accepted
12 SWITCH FOUR refused CHECKER
13 DEFINE THREE accepted
14 SWITCH THREE refused CHECKER
15 DEFINE FIVE accepted
16 SWITCH FIVE refused CHECKER
events 16 accepted 3 refused 13 level 1
----
(define never (a b c d) nil nil ())
(switch never)
(verify renamed
  #1=(por* #2=(pequal* (never a b c d) 'nil)
           #3=(pnot* (pequal* (logic.provablep (logic.conclusion a) b c d) 'nil)))
  (cut #1# ((expansion (por* #3# #2#) ((axiom #2#)))
            (propositional-schema (por* (pnot* #3#) #3#)))))
(switch never)
(verify turned
  #1=(por* #3=(pnot* (pequal* (logic.provablep (logic.conclusion x) axioms thms atbl) 'nil))
           #2=(pequal* (never x axioms thms atbl) 'nil))
  (expansion #1# ((instantiation #2# ((axiom (pequal* (never a b c d) 'nil)))
                       ((a . x) (b . axioms) (c . thms) (d . atbl))))))
(switch never)
(verify claim
  #1=(por* #2=(pequal* (never x axioms thms atbl) 'nil)
           #3=(pnot* (pequal* (logic.provablep (logic.conclusion x) axioms thms atbl) 'nil)))
  (cut #1# ((theorem (por* #3# #2#))
            (propositional-schema (por* (pnot* #3#) #3#)))))
(switch never)
=> 1
1 DEFINE NEVER accepted
2 SWITCH NEVER refused CLAIM
3 VERIFY RENAMED accepted
4 SWITCH NEVER refused CLAIM
5 VERIFY TURNED accepted
6 SWITCH NEVER refused CLAIM
7 VERIFY CLAIM accepted
8 SWITCH NEVER accepted
events 8 accepted 5 refused 3 level 2
";

// Events after the switch to the checker that accepts nothing, and their lines.
const AFTER_NEVER: &str = "(verify c (pequal* x y) (axiom (pequal* x x)))
(verify z (pequal* t nil) (axiom (pequal* t nil)))
(verify 7 (pequal* x x) (axiom (pequal* x x)))
(verify q (pequal* x x) (any (pequal* x x) . thing))
(define twice (x) (+ x x) nil ())
(eval (twice 4))
(define f (x) (f x) '0 (a))
(define f (x) (f x) '0 (a b))
(define f (x) (f x) '0 ((a (pequal* (ordp '0) 't)) b))
(skolem pick y (x) (equal x y))
(switch logic.proofp)
(verify refl (pequal* x x) (axiom (pequal* x x)))
(switch never)
(switch never)
(profile 1)
";

const OF_AFTER_NEVER: &str = "1
1 DEFINE NEVER accepted
2 VERIFY CLAIM accepted
3 SWITCH NEVER accepted
4 VERIFY REFL refused NIL
5 VERIFY C refused CONCLUSION
6 VERIFY Z refused FORMULA
7 VERIFY - refused NAME
8 VERIFY Q refused NIL
9 DEFINE TWICE accepted
10 EVAL - accepted 8
11 DEFINE F refused COUNT
12 DEFINE F refused CONCLUSION
13 DEFINE F refused NIL
14 SKOLEM PICK accepted
15 SWITCH LOGIC.PROOFP refused CLAIM
16 VERIFY REFL refused NIL
17 SWITCH NEVER accepted
18 SWITCH NEVER accepted
19 PROFILE - refused PROFILE
events 19 accepted 8 refused 11 level 4
";

// A number of units, the test of a useless checker, and how it refuses within them. A run takes one unit for the checker's own call and one
// for its comparison.
const OUTCOMES: [(&str, &str, &str); 8] = [
    ("4", "(+ '1 '1)", "NIL"),
    ("3", "(+ '1 '1)", "STEPS"),
    (
        "2",
        "(+ '340282366920938463463374607431768211455 '1)",
        "OVERFLOW",
    ),
    (
        "1",
        "(+ '340282366920938463463374607431768211455 '1)",
        "STEPS",
    ),
    (
        "1",
        "(logic.provable-witness x axioms thms atbl)",
        "WITNESS",
    ),
    ("2", "(logic.provablep x axioms thms atbl)", "WITNESS"),
    ("1", "(logic.provablep x axioms thms atbl)", "STEPS"),
    ("10000000", "(logic.len thms)", "NIL"),
];

// A number of units, the number that the program ends with, and the expected answer to a theorem by the checker that runs LOGIC.PROOFP within them.
const JUDGED: [(&str, &str, &str); 2] = [
    (
        "10000000",
        "0",
        "accepted\nevents 10 accepted 10 refused 0 level 2\n",
    ),
    (
        "10",
        "1",
        "refused STEPS\nevents 10 accepted 9 refused 1 level 2\n",
    ),
];

// A recursion after the theorems on ranks and the switch, with a proof for each of its two obligations.
const DEFINED: &str = "(switch wrap)
(define app (x y)
 (if (consp x) (cons (car x) (app (cdr x) y)) y)
 (rank x)
 ((theorem (pequal* (ordp (rank x)) 't))
  (theorem (por* (pequal* (consp x) 'nil) (pequal* (ord< (rank (cdr x)) (rank x)) 't)))))
";

// A number of units, the number that the program ends with, and whether both proofs are taken within them: the first needs 1,534 units and the
// second 3,948.
const DEFINED_WITHIN: [(&str, &str, &str); 3] = [
    ("3948", "0", "accepted"),
    ("3947", "1", "refused STEPS"),
    ("10000000", "0", "accepted"),
];

/// A book that defines a checker whose two runs of this test are compared, so that it accepts nothing, proves its claim and switches
/// to it. The test is a term over the variables of the claim.
pub(crate) fn book_with_useless_checker(alloc: Global, test: &str) -> Result<String, AllocError> {
    format!(in alloc;
        "(define useless (x axioms thms atbl) (< {test} {test}) nil ())
(verify claim
 #1=(por* #2=(pequal* #3=(useless x axioms thms atbl) 'nil) #4=(pnot* (pequal* (logic.provablep (logic.conclusion x) axioms thms atbl) 'nil)))
 (cut #1#
  ((expansion (por* #4# #2#)
    ((contraction #2#
      ((cut (por* #2# #2#)
        ((cut (por* #5=(pequal* #3# (< {test} {test})) #2#)
          ((expansion (por* #2# #5#) ((axiom #5#)))
           (propositional-schema (por* (pnot* #2#) #2#))))
         (contraction #6=(por* (pnot* #5#) #2#)
          ((cut (por* #6# #6#)
            ((cut (por* #7=(pequal* (< {test} {test}) 'nil) #6#)
              ((expansion (por* #6# #7#) ((instantiation #7# ((axiom (pequal* (< a a) 'nil))) ((a . {test})))))
               (propositional-schema (por* (pnot* #6#) #6#))))
             (contraction #8=(por* (pnot* #7#) #6#)
              ((cut (por* #8# #8#)
                ((cut (por* #9=(pequal* #3# #3#) #8#)
                  ((expansion (por* #8# #9#) ((instantiation #9# ((axiom (pequal* x x))) ((x . #3#)))))
                   (propositional-schema (por* (pnot* #8#) #8#))))
                 (instantiation (por* (pnot* #9#) #8#)
                  ((axiom (por* (pnot* (pequal* x1 y1)) (por* (pnot* (pequal* x2 y2)) (por* (pnot* (pequal* x1 x2)) (pequal* y1 y2))))))
                  ((x1 . #3#) (y1 . #3#) (x2 . (< {test} {test})) (y2 . 'nil)))))))))))))))))
   (propositional-schema (por* (pnot* #4#) #4#)))))
(switch useless)
"
    )
}

// The answer to a theorem under a checker with this test, within the given number of units, where it is not refused for this reason.
fn other_outcome(
    alloc: Global,
    steps: &str,
    test: &str,
    reason: &str,
) -> Result<String, AllocError> {
    let book = book_with_useless_checker(alloc, test)?;
    let book = format!(in alloc; "{book}(verify refl (pequal* x x) (axiom (pequal* x x)))\n")?;
    let expected = format!(in alloc;
        "1\n1 DEFINE USELESS accepted\n2 VERIFY CLAIM accepted\n3 SWITCH USELESS accepted\n4 VERIFY REFL refused {reason}\n"
    )?;
    other_report(alloc, steps, book.as_str(), expected.as_str())
}

// The answers of useless checkers that are not those expected.
fn wrong_outcomes(alloc: Global) -> Result<String, AllocError> {
    let mut wrong = String::new(alloc);
    for row in &OUTCOMES {
        let other = other_outcome(alloc, row.0, row.1, row.2)?;
        wrong.push_str(other.as_str())?;
    }
    Ok(wrong)
}

// The answer to a theorem under the checker that runs LOGIC.PROOFP, after these lines, where it is not the one of the row.
fn other_wrap(alloc: Global, row: &(&str, &str, &str), lines: &str) -> Result<String, AllocError> {
    let (steps, number, end) = *row;
    let mut book = String::from_str(alloc, wrap_book())?;
    book.push_str("(switch wrap)\n(verify refl (pequal* x x) (axiom (pequal* x x)))\n")?;
    let expected = format!(in alloc;
        "{number}\n{lines}9 SWITCH WRAP accepted\n10 VERIFY REFL {end}"
    )?;
    other_report(alloc, steps, book.as_str(), expected.as_str())
}

// The reports on the checker that runs LOGIC.PROOFP that are not those expected.
fn wrong_wraps(alloc: Global) -> Result<String, AllocError> {
    let mut wrong = String::new(alloc);
    let lines = wrap_lines(alloc, 1)?;
    for row in &JUDGED {
        let other = other_wrap(alloc, row, lines.as_str())?;
        wrong.push_str(other.as_str())?;
    }
    Ok(wrong)
}

// The answer to a recursion under the checker that runs LOGIC.PROOFP, after these lines, where it is not the one of the row.
fn other_definition(
    alloc: Global,
    row: &(&str, &str, &str),
    lines: &str,
) -> Result<String, AllocError> {
    let (steps, number, end) = *row;
    let mut book = String::from_str(alloc, wrap_book())?;
    book.push_str(DEFINED)?;
    let expected = format!(in alloc;
        "{number}\n{lines}22 SWITCH WRAP accepted\n23 DEFINE APP {end}\n"
    )?;
    other_report_after_ranks(alloc, steps, book.as_str(), expected.as_str())
}

// The reports on a recursion under the checker that runs LOGIC.PROOFP that are not those expected.
fn wrong_definitions(alloc: Global) -> Result<String, AllocError> {
    let mut wrong = String::new(alloc);
    let lines = wrap_lines(alloc, 14)?;
    for row in &DEFINED_WITHIN {
        let other = other_definition(alloc, row, lines.as_str())?;
        wrong.push_str(other.as_str())?;
    }
    Ok(wrong)
}

// The answer to events after the switch to the checker that accepts nothing, where it is not the one expected.
fn other_report_after_never(alloc: Global) -> Result<String, AllocError> {
    let book = format!(in alloc; "{NEVER}{AFTER_NEVER}")?;
    other_report(alloc, "10000000", book.as_str(), OF_AFTER_NEVER)
}

#[test]
fn checkers_are_switched_to(rt: HostRuntime) -> Result<(), Fail> {
    expect_empty(other_answer_on_never(rt.alloc(), 4096)?)?;
    expect_empty(wrong_answers(rt.alloc(), &["check"], SWITCHES, 4096)?)
}

#[test]
fn a_checker_that_says_no_refuses_proofs_alone(rt: HostRuntime) -> Result<(), Fail> {
    expect_empty(other_report_after_never(rt.alloc())?)
}

#[test]
fn outcomes_of_checkers_are_told(rt: HostRuntime) -> Result<(), Fail> {
    expect_empty(wrong_outcomes(rt.alloc())?)
}

#[test]
fn a_checker_may_run_the_reference_checker(rt: HostRuntime) -> Result<(), Fail> {
    expect_empty(wrong_wraps(rt.alloc())?)
}

#[test]
fn each_proof_of_a_definition_has_all_units(rt: HostRuntime) -> Result<(), Fail> {
    expect_empty(wrong_definitions(rt.alloc())?)
}
