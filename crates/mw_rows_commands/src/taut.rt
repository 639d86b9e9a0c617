//! Books of formulas, and what `taut` writes for them.
use mw_book::Status;
use mw_rows::{Answer, answer_of_command, expect_empty, other_answer, wrong_answers};
use std::alloc::{AllocError, Global};
use std::test::Fail;

const EXCLUDED_MIDDLE: &str = "(em (por* (pequal* x y) (pnot* (pequal* x y))))";

// Books of which no formula is proved.
const UNPROVED: &str = "
=> 0
; formulas 0 proved 0
----
(no (por* (pequal* x y) (pequal* y x)))
=> 1
; 1 NO FALSE (((PEQUAL* X Y)) ((PEQUAL* Y X)))
; formulas 1 proved 0
----
(no (pnot* (pequal* x y)))
=> 1
; 1 NO FALSE (((PEQUAL* X Y) . T))
; formulas 1 proved 0
----
(many (por* (pequal* a a) (por* (pequal* b b) (por* (pequal* c c) (por* (pequal* d d) (por* (pequal* e e) (por* (pequal* f f)
 (por* (pequal* g g) (por* (pequal* h h) (por* (pequal* i i) (por* (pequal* j j) (por* (pequal* k k) (por* (pequal* l l) (por* (pequal* m m) (pnot* (pequal* a a))))))))))))))))
=> 1
; 1 MANY MANY
; formulas 1 proved 0
----
7
=> 1
; 1 - SHAPE
; formulas 1 proved 0
----
(a)
=> 1
; 1 A SHAPE
; formulas 1 proved 0
----
(a (pequal* x x) b)
=> 1
; 1 A SHAPE
; formulas 1 proved 0
----
(a (pequal* x x) . b)
=> 1
; 1 A SHAPE
; formulas 1 proved 0
----
((a) (pequal* x x))
=> 1
; 1 - SHAPE
; formulas 1 proved 0
----
(a (pequal* x (none x)))
=> 1
; 1 A SHAPE
; formulas 1 proved 0
----
(large (pequal* x '340282366920938463463374607431768211456))
=> 1
; 1 LARGE SHAPE
; formulas 1 proved 0
----
(a) (b (pequal* x y)) 7
=> 1
; 1 A SHAPE
; 2 B FALSE (((PEQUAL* X Y)))
; 3 - SHAPE
; formulas 3 proved 0
----
)
=> 3
; syntax CLOSE at 0
----
(a) (b
=> 3
; 1 A SHAPE
; syntax END at 6
";

// What `taut` answers to the formula, where it is a proof.
fn proof_of(alloc: Global, formula: &str) -> Result<Option<Answer>, AllocError> {
    let answer = answer_of_command(alloc, &["taut"], formula, 4096)?;
    let is_proof = answer
        .report
        .as_str()
        .ends_with("\n; formulas 1 proved 1\n");
    Ok((answer.status == Status::Done && is_proof).then_some(answer))
}

// What `check` answers to that proof, where it is not accepted.
fn other_answer_to_the_proof_of(alloc: Global, formula: &str) -> Result<String, AllocError> {
    let Some(proof) = proof_of(alloc, formula)? else {
        return String::from_str(alloc, "no proof");
    };
    let expected = "0\n1 VERIFY EM accepted\nevents 1 accepted 1 refused 0 level 1\n";
    other_answer(alloc, &["check"], proof.report.as_str(), expected, 4096)
}

// The books above to which the answer is another one, in pieces of the given number of bytes.
fn wrong_proofs(alloc: Global, size: usize) -> Result<String, AllocError> {
    wrong_answers(alloc, &["taut"], UNPROVED, size)
}

#[test]
fn what_is_no_tautology_has_a_comment(rt: HostRuntime) -> Result<(), Fail> {
    expect_empty(wrong_proofs(rt.alloc(), 4096)?)
}

#[test]
fn what_is_read_byte_by_byte_is_answered_in_the_same_way(rt: HostRuntime) -> Result<(), Fail> {
    expect_empty(wrong_proofs(rt.alloc(), 1)?)
}

#[test]
fn a_tautology_is_proved_and_its_proof_accepted(rt: HostRuntime) -> Result<(), Fail> {
    expect_empty(other_answer_to_the_proof_of(rt.alloc(), EXCLUDED_MIDDLE)?)
}
