//! The first book, books/first.book, with the report that README.md shows for it.
use mw_rows::{expect_empty, wrong_answers};
use std::test::Fail;

const FIRST: &str = "\
; A first book: what equality and sums are good for.

; An axiom of the logic, under the name REFL.
(verify refl (pequal* x x) (axiom (pequal* x x)))

; A sum is the same the other way round, for any terms: an instance of an axiom.
(verify swap
 (pequal* (+ (car x) '1) (+ '1 (car x)))
 (instantiation (pequal* (+ (car x) '1) (+ '1 (car x)))
  ((axiom (pequal* (+ a b) (+ b a))))
  ((a . (car x)) (b . '1))))

; From A or A one concludes A. The formula is written once, and named by a label.
(verify again
 #1=(pequal* x x)
 (contraction #1# ((expansion (por* #1# #1#) ((theorem #1#))))))

; What nothing proves.
(verify wrong (pequal* x y) (axiom (pequal* x y)))

(print (the end))
=> 1
1 VERIFY REFL accepted
2 VERIFY SWAP accepted
3 VERIFY AGAIN accepted
4 VERIFY WRONG refused PROOF
5 PRINT - accepted (THE END)
events 5 accepted 4 refused 1 level 1
";

#[test]
fn the_first_book_has_the_report_that_is_shown(rt: HostRuntime) -> Result<(), Fail> {
    expect_empty(wrong_answers(rt.alloc(), &["check"], FIRST, 4096)?)
}
