//! Books, and what `explain` writes of the events that are refused.
use mw_rows::{expect_empty, other_answer, wrong_answers};
use std::alloc::{AllocError, Global};
use std::test::Fail;

// Nothing is refused; formulas that are none.
const FORMULAS: &str = "\
(verify refl (pequal* x x) (axiom (pequal* x x)))
=> 0
; events 1 accepted 1 refused 0 level 1
----
(verify z (pequal* t nil) (axiom (pequal* t nil)))
(verify u (por* (pequal* x (cons y (foo x))) (pequal* (bar x) y)) ())
(verify v (pnot* (pequal* (car x x) y)) ())
=> 1
; 1 VERIFY Z refused FORMULA
(WHY 1 FORMULA T)
; 2 VERIFY U refused FORMULA
(WHY 2 FORMULA (FOO X))
; 3 VERIFY V refused FORMULA
(WHY 3 FORMULA (CAR X X) 1)
; events 3 accepted 0 refused 3 level 1
";

// Proofs: a schema that is turned round, a deep step before a later one, an instance, what an induction wants, and the conditions that steps fail.
const PROOFS: &str = "\
(verify s (por* (pequal* x y) (pnot* (pequal* x y))) (propositional-schema (por* (pequal* x y) (pnot* (pequal* x y)))))
=> 1
; 1 VERIFY S refused PROOF
(WHY 1 PROOF 1 (POR* (PEQUAL* X Y) (PNOT* (PEQUAL* X Y))) NIL (PROPOSITIONAL-SCHEMA (POR* (PEQUAL* X Y) (PNOT* (PEQUAL* X Y))) NIL NIL) RULE (POR* (PNOT* (PNOT* (PEQUAL* X Y))) (PNOT* (PEQUAL* X Y))))
; events 1 accepted 0 refused 1 level 1
----
(verify turned
 #1=(por* #2=(pequal* x x) #3=(pequal* a b))
 (cut #1#
  ((expansion (por* #3# #2#) ((contraction #2# ((expansion (por* #2# #3#) ((axiom #2#)))))))
   (propositional-schema (por* #3# (pnot* #3#))))))
=> 1
; 1 VERIFY TURNED refused PROOF
(WHY 1 PROOF 1 (POR* (PEQUAL* X X) (PEQUAL* A B)) (1 1 1) (EXPANSION (POR* (PEQUAL* X X) (PEQUAL* A B)) ((PEQUAL* X X)) NIL) RULE (POR* (PEQUAL* X X) (PEQUAL* X X)))
; events 1 accepted 0 refused 1 level 1
----
(verify swap (pequal* (+ a a) (+ a a)) (instantiation (pequal* (+ a a) (+ a a)) ((axiom (pequal* (+ a b) (+ b a)))) ((a . b) (b . a))))
(verify q (pequal* b b) (instantiation (pequal* b b) (axiom (pequal* x x)) ((x . b))))
(verify r (pequal* b b) (instantiation (pequal* b b) ((axiom (pequal* x x))) (x . b)))
=> 1
; 1 VERIFY SWAP refused PROOF
(WHY 1 PROOF 1 (PEQUAL* (+ A A) (+ A A)) NIL (INSTANTIATION (PEQUAL* (+ A A) (+ A A)) ((PEQUAL* (+ A B) (+ B A))) ((A . B) (B . A))) RULE (PEQUAL* (+ B A) (+ A B)))
; 2 VERIFY Q refused PROOF
(WHY 2 PROOF 1 (PEQUAL* B B) (1) AXIOM SHAPE)
; 3 VERIFY R refused PROOF
(WHY 3 PROOF 1 (PEQUAL* B B) NIL (INSTANTIATION (PEQUAL* B B) ((PEQUAL* X X)) (X . B)) EXTRAS)
; events 3 accepted 0 refused 3 level 1
----
(verify i (pequal* x x) (induction (pequal* x x) ((axiom (pequal* x x))) ((rank x) ((pequal* (consp x) 't)) ((((x . (cdr x))))))))
=> 1
; 1 VERIFY I refused PROOF
(WHY 1 PROOF 1 (PEQUAL* X X) NIL (INDUCTION (PEQUAL* X X) ((PEQUAL* X X)) ((RANK X) ((PEQUAL* (CONSP X) (QUOTE T))) ((((X CDR X)))))) PREMISES ((POR* (PEQUAL* X X) (PEQUAL* (CONSP X) (QUOTE T))) (POR* (PEQUAL* X X) (POR* (PNOT* (PEQUAL* (CONSP X) (QUOTE T))) (PNOT* (PEQUAL* (CDR X) (CDR X))))) (PEQUAL* (ORDP (RANK X)) (QUOTE T)) (POR* (PNOT* (PEQUAL* (CONSP X) (QUOTE T))) (PEQUAL* (ORD< (RANK (CDR X)) (RANK X)) (QUOTE T)))))
; events 1 accepted 0 refused 1 level 1
----
(verify a #1=(pequal* x x) (axioms #1#))
(verify b #1=(pequal* x x) (contraction #1# ((axiom (por* #1# (pequal* x 7))))))
(verify c #1=(pequal* x x) (axiom #1# nothing))
(verify d #1=(pequal* x x) (axiom #1# () because))
(verify e #1=(por* (pequal* x x) (pequal* x x)) (cut #1# ((axiom (pequal* x x)))))
(verify two (pequal* (+ '1 '1) '3) (base-eval (pequal* (+ '1 '1) '3)))
=> 1
; 1 VERIFY A refused PROOF
(WHY 1 PROOF 1 (PEQUAL* X X) NIL (AXIOMS (PEQUAL* X X) NIL NIL) METHOD)
; 2 VERIFY B refused PROOF
(WHY 2 PROOF 1 (PEQUAL* X X) (1) (AXIOM (POR* (PEQUAL* X X) (PEQUAL* X 7)) NIL NIL) FORMULA 7)
; 3 VERIFY C refused PROOF
(WHY 3 PROOF 1 (PEQUAL* X X) NIL (AXIOM (PEQUAL* X X) NIL NIL) SUBPROOFS)
; 4 VERIFY D refused PROOF
(WHY 4 PROOF 1 (PEQUAL* X X) NIL (AXIOM (PEQUAL* X X) NIL BECAUSE) EXTRAS)
; 5 VERIFY E refused PROOF
(WHY 5 PROOF 1 (POR* (PEQUAL* X X) (PEQUAL* X X)) NIL (CUT (POR* (PEQUAL* X X) (PEQUAL* X X)) ((PEQUAL* X X)) NIL) PREMISES 2)
; 6 VERIFY TWO refused PROOF
(WHY 6 PROOF 1 (PEQUAL* (+ (QUOTE 1) (QUOTE 1)) (QUOTE 3)) NIL (BASE-EVAL (PEQUAL* (+ (QUOTE 1) (QUOTE 1)) (QUOTE 3)) NIL NIL) RULE (PEQUAL* (+ (QUOTE 1) (QUOTE 1)) (QUOTE 2)))
; events 6 accepted 0 refused 6 level 1
";

// Definitions without their proofs or with wrong ones, and definitions that are refused for themselves.
const DEFINITIONS: &str = "\
(define app (x y) (if (consp x) (cons (car x) (app (cdr x) y)) y) (rank x) ())
(define app (x y) (if (consp x) (cons (car x) (app (cdr x) y)) y) (rank x) ((axiom (pequal* x x)) (axiom (pequal* x x))))
(define up (x) (if (consp x) (up (cdr x)) x) x ((theorem (pequal* (ordp x) 't)) ()))
(define k (x) x nil (a))
=> 1
; 1 DEFINE APP refused COUNT
(WHY 1 COUNT (PEQUAL* (ORDP (RANK X)) (QUOTE T)) (POR* (PEQUAL* (CONSP X) (QUOTE NIL)) (PEQUAL* (ORD< (RANK (CDR X)) (RANK X)) (QUOTE T))))
; 2 DEFINE APP refused CONCLUSION
(WHY 2 CONCLUSION 1 (PEQUAL* (ORDP (RANK X)) (QUOTE T)) (PEQUAL* X X))
; 3 DEFINE UP refused PROOF
(WHY 3 PROOF 1 (PEQUAL* (ORDP X) (QUOTE T)) NIL (THEOREM (PEQUAL* (ORDP X) (QUOTE T)) NIL NIL) RULE)
; 4 DEFINE K refused COUNT
(WHY 4 COUNT)
; events 4 accepted 0 refused 4 level 1
----
(define if (x) x nil ()) (define list (x) x nil ()) (define k (x x) x nil ())
(define k (x) (cond ((consp x) (let ((y (first x x))) y)) (t (frist x))) nil ())
(define k (x) x (k x) ())
(define k (x) (cons y (cons x z)) y ())
(define deep (x) (if (consp x) (deep (deep (cdr x))) x) (rank x) ())
(skolem g y (y) (equal x y))
(define-all ((p (x) (q x x) nil) (q (x y) (p x y) nil)) ())
(define-all ((p (x) x nil) (p (x) x nil)) ())
=> 1
; 1 DEFINE IF refused NAME
(WHY 1 NAME 1 IF 3)
; 2 DEFINE LIST refused NAME
(WHY 2 NAME 1 LIST)
; 3 DEFINE K refused FORMALS
(WHY 3 FORMALS 1 (X X))
; 4 DEFINE K refused TERM
(WHY 4 TERM 1 BODY (FIRST X X))
; 5 DEFINE K refused TERM
(WHY 5 TERM 1 MEASURE (K X))
; 6 DEFINE K refused VARIABLES
(WHY 6 VARIABLES 1 Y Z)
; 7 DEFINE DEEP refused NESTED
(WHY 7 NESTED 1 (DEEP (DEEP (CDR X))))
; 8 SKOLEM G refused FORMALS
(WHY 8 FORMALS 1 (Y Y))
; 9 DEFINE-ALL - refused TERM
(WHY 9 TERM 2 BODY (P X Y) 1)
; 10 DEFINE-ALL - refused NAME
(WHY 10 NAME 2 P)
; events 10 accepted 0 refused 10 level 1
";

// Switches that are refused, and a proof after one; a fault of the text.
const SWITCHES: &str = "\
(switch logic.proofp)
(switch logic.termp)
(switch nothing)
(define never (x axioms thms atbl) nil nil ())
(verify claim
 #1=(por* #2=(pequal* (never x axioms thms atbl) 'nil)
          #3=(pnot* (pequal* (logic.provablep (logic.conclusion x) axioms thms atbl) 'nil)))
 (cut #1# ((expansion (por* #3# #2#) ((axiom #2#)))
           (propositional-schema (por* (pnot* #3#) #3#)))))
(switch never)
(verify refl (pequal* x x) (axiom (pequal* x x)))
=> 1
; 1 SWITCH LOGIC.PROOFP refused CLAIM
(WHY 1 CLAIM (POR* (PEQUAL* (LOGIC.PROOFP X AXIOMS THMS ATBL) (QUOTE NIL)) (PNOT* (PEQUAL* (LOGIC.PROVABLEP (LOGIC.CONCLUSION X) AXIOMS THMS ATBL) (QUOTE NIL)))))
; 2 SWITCH LOGIC.TERMP refused CHECKER
(WHY 2 CHECKER 2)
; 3 SWITCH NOTHING refused CHECKER
(WHY 3 CHECKER)
; 7 VERIFY REFL refused NIL
(WHY 7 NIL 1 (PEQUAL* X X))
; events 7 accepted 3 refused 4 level 2
----
(verify c (pequal* x y) (axiom (pequal* x y)))
(print 12a)
=> 3
; 1 VERIFY C refused PROOF
(WHY 1 PROOF 1 (PEQUAL* X Y) NIL (AXIOM (PEQUAL* X Y) NIL NIL) RULE)
; syntax TOKEN at 54
";

// The examples of docs/BOOKS.md.
const GUIDE: &str = "\
(print 340282366920938463463374607431768211456)
(verify z)
(verfy z (pequal* x x) (axiom (pequal* x x)))
(profile 3)
=> 1
; 1 PRINT - refused RANGE
(WHY 1 RANGE)
; 2 VERIFY Z refused EVENT
(WHY 2 EVENT 4)
; 3 VERFY - refused EVENT
(WHY 3 EVENT)
; 4 PROFILE - refused PROFILE
(WHY 4 PROFILE)
; events 4 accepted 0 refused 4 level 1
----
(verify 7 (pequal* x x) (axiom (pequal* x x)))
(define car (x) x nil ())
(define-all ((p (x) x nil) (p (x) x nil)) ())
(define k (x x) x nil ())
(skolem g y (y) (equal x y))
(define k (x) (cond ((consp x) (let ((y (first x x))) y)) (t (frist x))) nil ())
(define k (x) x (k x) ())
(eval (car 1 2))
=> 1
; 1 VERIFY - refused NAME
(WHY 1 NAME 7)
; 2 DEFINE CAR refused NAME
(WHY 2 NAME 1 CAR 1)
; 3 DEFINE-ALL - refused NAME
(WHY 3 NAME 2 P)
; 4 DEFINE K refused FORMALS
(WHY 4 FORMALS 1 (X X))
; 5 SKOLEM G refused FORMALS
(WHY 5 FORMALS 1 (Y Y))
; 6 DEFINE K refused TERM
(WHY 6 TERM 1 BODY (FIRST X X))
; 7 DEFINE K refused TERM
(WHY 7 TERM 1 MEASURE (K X))
; 8 EVAL - refused TERM
(WHY 8 TERM 1 BODY (CAR 1 2) 1)
; events 8 accepted 0 refused 8 level 1
----
(verify z (pequal* t nil) (axiom (pequal* t nil)))
(verify u (por* (pequal* x (cons y (foo x))) (pequal* (bar x) y)) ())
(verify v (pnot* (pequal* (car x x) y)) ())
(define k (x) (cons y (cons x z)) y ())
(eval (cons x x))
(define deep (x) (if (consp x) (deep (deep (cdr x))) x) (rank x) ())
=> 1
; 1 VERIFY Z refused FORMULA
(WHY 1 FORMULA T)
; 2 VERIFY U refused FORMULA
(WHY 2 FORMULA (FOO X))
; 3 VERIFY V refused FORMULA
(WHY 3 FORMULA (CAR X X) 1)
; 4 DEFINE K refused VARIABLES
(WHY 4 VARIABLES 1 Y Z)
; 5 EVAL - refused VARIABLES
(WHY 5 VARIABLES 1 X)
; 6 DEFINE DEEP refused NESTED
(WHY 6 NESTED 1 (DEEP (DEEP (CDR X))))
; events 6 accepted 0 refused 6 level 1
----
(define app (x y)
 (if (consp x) (cons (car x) (app (cdr x) y)) y)
 (rank x)
 ())
(switch nothing)
(switch logic.termp)
(switch logic.proofp)
=> 1
; 1 DEFINE APP refused COUNT
(WHY 1 COUNT (PEQUAL* (ORDP (RANK X)) (QUOTE T)) (POR* (PEQUAL* (CONSP X) (QUOTE NIL)) (PEQUAL* (ORD< (RANK (CDR X)) (RANK X)) (QUOTE T))))
; 2 SWITCH NOTHING refused CHECKER
(WHY 2 CHECKER)
; 3 SWITCH LOGIC.TERMP refused CHECKER
(WHY 3 CHECKER 2)
; 4 SWITCH LOGIC.PROOFP refused CLAIM
(WHY 4 CLAIM (POR* (PEQUAL* (LOGIC.PROOFP X AXIOMS THMS ATBL) (QUOTE NIL)) (PNOT* (PEQUAL* (LOGIC.PROVABLEP (LOGIC.CONCLUSION X) AXIOMS THMS ATBL) (QUOTE NIL)))))
; events 4 accepted 0 refused 4 level 1
----
(verify z (pequal* x y) (axiom (pequal* x x)))
(verify two (pequal* (+ '1 '1) '3) (base-eval (pequal* (+ '1 '1) '3)))
(verify turned
 #1=(por* #2=(pequal* x x) #3=(pequal* a b))
 (cut #1#
  ((expansion (por* #3# #2#) ((axiom #2#)))
   (propositional-schema (por* #3# (pnot* #3#))))))
(verify b (pequal* b b) (instantiation (pequal* b b) (axiom (pequal* x x)) ((x . b))))
(verify all (pequal* x x)
 (induction (pequal* x x) ((axiom (pequal* x x)))
  ((rank x) ((pequal* (consp x) 't)) ((((x . (cdr x))))))))
=> 1
; 1 VERIFY Z refused CONCLUSION
(WHY 1 CONCLUSION 1 (PEQUAL* X Y) (PEQUAL* X X))
; 2 VERIFY TWO refused PROOF
(WHY 2 PROOF 1 (PEQUAL* (+ (QUOTE 1) (QUOTE 1)) (QUOTE 3)) NIL (BASE-EVAL (PEQUAL* (+ (QUOTE 1) (QUOTE 1)) (QUOTE 3)) NIL NIL) RULE (PEQUAL* (+ (QUOTE 1) (QUOTE 1)) (QUOTE 2)))
; 3 VERIFY TURNED refused PROOF
(WHY 3 PROOF 1 (POR* (PEQUAL* X X) (PEQUAL* A B)) (2) (PROPOSITIONAL-SCHEMA (POR* (PEQUAL* A B) (PNOT* (PEQUAL* A B))) NIL NIL) RULE (POR* (PNOT* (PNOT* (PEQUAL* A B))) (PNOT* (PEQUAL* A B))))
; 4 VERIFY B refused PROOF
(WHY 4 PROOF 1 (PEQUAL* B B) (1) AXIOM SHAPE)
; 5 VERIFY ALL refused PROOF
(WHY 5 PROOF 1 (PEQUAL* X X) NIL (INDUCTION (PEQUAL* X X) ((PEQUAL* X X)) ((RANK X) ((PEQUAL* (CONSP X) (QUOTE T))) ((((X CDR X)))))) PREMISES ((POR* (PEQUAL* X X) (PEQUAL* (CONSP X) (QUOTE T))) (POR* (PEQUAL* X X) (POR* (PNOT* (PEQUAL* (CONSP X) (QUOTE T))) (PNOT* (PEQUAL* (CDR X) (CDR X))))) (PEQUAL* (ORDP (RANK X)) (QUOTE T)) (POR* (PNOT* (PEQUAL* (CONSP X) (QUOTE T))) (PEQUAL* (ORD< (RANK (CDR X)) (RANK X)) (QUOTE T)))))
; events 5 accepted 0 refused 5 level 1
----
(define never (x axioms thms atbl) nil nil ())
(verify claim
 #1=(por* #2=(pequal* (never x axioms thms atbl) 'nil)
          #3=(pnot* (pequal* (logic.provablep (logic.conclusion x) axioms thms atbl) 'nil)))
 (cut #1# ((expansion (por* #3# #2#) ((axiom #2#)))
           (propositional-schema (por* (pnot* #3#) #3#)))))
(switch never)
(verify refl (pequal* x x) (axiom (pequal* x x)))
(eval (+ 340282366920938463463374607431768211455 1))
(eval (logic.provablep '(pequal* x x) nil nil nil))
=> 1
; 4 VERIFY REFL refused NIL
(WHY 4 NIL 1 (PEQUAL* X X))
; 5 EVAL - refused OVERFLOW
(WHY 5 OVERFLOW)
; 6 EVAL - refused WITNESS
(WHY 6 WITNESS)
; events 6 accepted 3 refused 3 level 2
";

const TABLES: [&str; 5] = [FORMULAS, PROOFS, DEFINITIONS, SWITCHES, GUIDE];

// Events that are none, or past a range, a profile or the step limit.
const LIMITED: &str = "\
abc (verify x)
(print 340282366920938463463374607431768211456)
(profile 3)
(eval (+ (+ 1 1) (+ 1 1)))
=> 1
; 1 - - refused EVENT
(WHY 1 EVENT)
; 2 VERIFY X refused EVENT
(WHY 2 EVENT 4)
; 3 PRINT - refused RANGE
(WHY 3 RANGE)
; 4 PROFILE - refused PROFILE
(WHY 4 PROFILE)
; 5 EVAL - refused STEPS
(WHY 5 STEPS)
; events 5 accepted 0 refused 5 level 1
";

// How many times a proof is cut from itself: it has some 1,600 distinct steps, and unfolds to 2^400.
const CUTS: u64 = 400;

// The proof, in which the first step of the cut in the middle is wrong.
fn long_proof(alloc: Global) -> Result<String, AllocError> {
    let mut proof = String::from_str(alloc, "(axiom (pequal* x x))")?;
    for k in 0..CUTS {
        let left = if k == CUTS / 2 { 'z' } else { 'y' };
        proof = format!(in alloc;
            "(contraction (pequal* x x) ((cut (por* (pequal* x x) (pequal* x x)) \
            ((expansion (por* (pequal* {left} {left}) (pequal* x x)) (#{k}={proof})) \
            (expansion (por* (pnot* (pequal* y y)) (pequal* x x)) (#{k}#))))))"
        )?;
    }
    Ok(proof)
}

// The expected answer to it: the place has 598 numbers.
fn expected_for_long(alloc: Global) -> Result<String, AllocError> {
    let mut expected = String::from_str(
        alloc,
        "1\n; 1 VERIFY BIG refused PROOF\n(WHY 1 PROOF 1 (PEQUAL* X X) (",
    )?;
    for _ in 1..CUTS / 2 {
        expected.push_str("1 1 1 ")?;
    }
    expected.push_str(
        "1) (CUT (POR* (PEQUAL* X X) (PEQUAL* X X)) \
        ((POR* (PEQUAL* Z Z) (PEQUAL* X X)) (POR* (PNOT* (PEQUAL* Y Y)) (PEQUAL* X X))) NIL) RULE)\n\
        ; events 1 accepted 0 refused 1 level 1\n",
    )?;
    Ok(expected)
}

// The answer to the book of that proof, where it is not the expected one.
fn other_answer_to_long(alloc: Global) -> Result<String, AllocError> {
    let proof = long_proof(alloc)?;
    let book = format!(in alloc; "(verify big (pequal* x x) {proof})")?;
    let expected = expected_for_long(alloc)?;
    other_answer(alloc, &["explain"], book.as_str(), expected.as_str(), 4096)
}

// The books above to which the answer is another one, in pieces of the given number of bytes.
fn wrong_explanations(alloc: Global, size: usize) -> Result<String, AllocError> {
    let mut wrong = String::new(alloc);
    for table in TABLES {
        wrong.push_str(wrong_answers(alloc, &["explain"], table, size)?.as_str())?;
    }
    Ok(wrong)
}

#[test]
fn each_refused_event_is_explained(rt: HostRuntime) -> Result<(), Fail> {
    expect_empty(wrong_explanations(rt.alloc(), 4096)?)
}

#[test]
fn a_book_that_is_read_byte_by_byte_is_explained_in_the_same_way(
    rt: HostRuntime,
) -> Result<(), Fail> {
    expect_empty(wrong_explanations(rt.alloc(), 1)?)
}

#[test]
fn what_is_past_a_bound_is_explained(rt: HostRuntime) -> Result<(), Fail> {
    let words = ["explain", "--steps", "2"];
    expect_empty(wrong_answers(rt.alloc(), &words, LIMITED, 4096)?)
}

#[test]
fn the_bad_step_of_a_proof_with_labels_is_found_at_once(rt: HostRuntime) -> Result<(), Fail> {
    expect_empty(other_answer_to_long(rt.alloc())?)
}
