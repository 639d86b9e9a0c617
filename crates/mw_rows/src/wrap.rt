//! The book books/wrap.book: a checker that runs LOGIC.PROOFP, and the proof of its claim.
use crate::row::lines_from;
use std::alloc::{AllocError, Global};

const WRAP: &str =
    "; A checker that runs LOGIC.PROOFP, and the proof of its claim: after this book it can be switched to.
;
; Most proofs here use three moves. To turn \"A or B\" round, cut it with \"not A or A\". To drop a first part \"not A\" where A is shown, turn
; \"B or A\", an expansion of A, round and cut it with \"not A or B\": that gives \"B or B\", and by contraction B. To bring a part of a long
; disjunction to its front, move brackets by associativity and turn it round.

(define wrap (x axioms thms atbl) (logic.proofp x axioms thms atbl) nil ())

; What equals an equal of a thing equals the thing: the axiom of equality, with X for both of two things that it has equal.
(verify transitivity
 #1=(por* (pnot* (pequal* y z)) (por* (pnot* (pequal* x y)) (pequal* x z)))
 (contraction #1#
  ((cut (por* #1# #1#)
    ((cut (por* (pequal* x x) #1#)
      ((expansion (por* #1# (pequal* x x)) ((instantiation (pequal* x x) ((axiom (pequal* x x))) ((x . x)))))
       (propositional-schema (por* (pnot* #1#) #1#))))
     (instantiation (por* (pnot* (pequal* x x)) #1#)
      ((axiom (por* (pnot* (pequal* x1 y1)) (por* (pnot* (pequal* x2 y2)) (por* (pnot* (pequal* x1 x2)) (pequal* y1 y2))))))
      ((x1 . x) (y1 . x) (x2 . y) (y2 . z))))))))

; What equals T does not equal NIL.
(verify truth
 #1=(por* #2=(pnot* (pequal* x 't)) #3=(pnot* (pequal* x 'nil)))
 (contraction #1#
  ((cut (por* #1# #1#)
    ((cut (por* (pequal* x x) #1#)
      ((expansion (por* #1# (pequal* x x)) ((instantiation (pequal* x x) ((axiom (pequal* x x))) ((x . x)))))
       #4=(propositional-schema (por* (pnot* #1#) #1#))))
     (cut (por* #5=(pnot* (pequal* x x)) #1#)
      ((contraction #6=(por* #1# #5#)
        ((cut (por* #6# #6#)
          ((cut (por* #7=(pequal* 't 'nil) #6#)
            ((associativity (por* #6# #7#)
              ((associativity (por* #1# #8=(por* #5# #7#))
                ((instantiation (por* #2# (por* #3# #8#))
                  ((axiom (por* (pnot* (pequal* x1 y1))
                                (por* (pnot* (pequal* x2 y2)) (por* (pnot* (pequal* x1 x2)) (pequal* y1 y2))))))
                  ((x1 . x) (y1 . 't) (x2 . x) (y2 . 'nil)))))))
             #9=(propositional-schema (por* (pnot* #6#) #6#))))
           (cut (por* #10=(pnot* #7#) #6#) ((expansion (por* #6# #10#) ((axiom #10#))) #9#))))))
       #4#)))))))

; EQUAL of a thing and itself is T.
(verify itself
 #1=(pequal* (equal x x) 't)
 (contraction #1#
  ((cut (por* #1# #1#)
    ((cut (por* (pequal* x x) #1#)
      ((expansion (por* #1# (pequal* x x)) ((instantiation (pequal* x x) ((axiom (pequal* x x))) ((x . x)))))
       (propositional-schema (por* (pnot* #1#) #1#))))
     (instantiation (por* (pnot* (pequal* x x)) #1#)
      ((axiom (por* (pnot* (pequal* x y)) (pequal* (equal x y) 't))))
      ((y . x))))))))

; The witness LOGIC.PROVABLE-WITNESS looks for a proof and tests it: is it one, and does it conclude the formula? Unless LOGIC.PROOFP
; says no to X, this test, of X and of what X concludes, is not NIL: it is its second part, a comparison of a thing with itself.
(verify test
 #1=(por* #2=(pequal* #3=(logic.proofp x axioms thms atbl) 'nil)
          #4=(pnot* (pequal* #5=(if #3# #6=(equal #7=(logic.conclusion x) #7#) 'nil) 'nil)))
 (cut #1#
  ((cut (por* #8=(pequal* #5# 't) #2#)
    ((cut (por* #2# #8#)
      ((cut (por* #9=(pequal* #5# #6#) #2#)
        ((instantiation (por* #2# #9#)
          ((axiom (por* #10=(pequal* x 'nil) (pequal* (if x y z) y))))
          ((x . #3#) (y . #6#) (z . 'nil)))
         #11=(propositional-schema (por* (pnot* #2#) #2#))))
       (contraction #12=(por* (pnot* #9#) #8#)
        ((cut (por* #12# #12#)
          ((cut (por* #13=(pequal* #6# 't) #12#)
            ((expansion (por* #12# #13#) ((instantiation #13# ((theorem (pequal* (equal x x) 't))) ((x . #7#)))))
             (propositional-schema (por* (pnot* #12#) #12#))))
           (instantiation (por* (pnot* #13#) #12#)
            ((theorem (por* (pnot* (pequal* y z)) (por* (pnot* (pequal* x y)) (pequal* x z)))))
            ((x . #5#) (y . #6#) (z . 't)))))))))
     #11#))
   (instantiation (por* (pnot* #8#) #4#) ((theorem (por* (pnot* (pequal* x 't)) (pnot* #10#)))) ((x . #5#))))))

; So the witness passes the test, which is what its axiom says.
(verify witness
 #1=(por* #2=(pequal* #3=(logic.proofp x axioms thms atbl) 'nil)
          #4=(pnot* (pequal* (#5=(lambda (proof x axioms thms atbl)
                                         #6=(if (logic.proofp proof axioms thms atbl)
                                                (equal (logic.conclusion proof) x)
                                                'nil))
                              (logic.provable-witness #7=(logic.conclusion x) axioms thms atbl)
                              #7#
                              axioms
                              thms
                              atbl)
                             'nil)))
 (cut #1#
  ((cut (por* #4# #2#)
    ((instantiation (por* #8=(pequal* (if #3# (equal #7# #7#) 'nil) 'nil) #4#)
      ((axiom (por* (pequal* #6# 'nil)
                    (pnot* (pequal* (#5# (logic.provable-witness x axioms thms atbl) x axioms thms atbl) 'nil)))))
      ((proof . x) (x . #7#)))
     (cut (por* #9=(pnot* #8#) #2#) ((theorem (por* #2# #9#)) (propositional-schema (por* (pnot* #2#) #2#))))))
   (propositional-schema (por* (pnot* #4#) #4#)))))

; That the witness passes is what LOGIC.PROVABLEP says, by its definition. So what LOGIC.PROOFP says yes to is provable: this is
; LOGIC.PROOFP's own claim.
(verify proofs
 #1=(por* #2=(pequal* (logic.proofp x axioms thms atbl) 'nil)
          #3=(pnot* (pequal* #4=(logic.provablep #5=(logic.conclusion x) axioms thms atbl) 'nil)))
 (contraction #1#
  ((cut (por* #1# #1#)
    ((cut (por* #6=(pequal* #4# #4#) #1#)
      ((expansion (por* #1# #6#) ((instantiation #6# ((axiom (pequal* x x))) ((x . #4#)))))
       #7=(propositional-schema (por* (pnot* #1#) #1#))))
     (cut (por* #8=(pnot* #6#) #1#)
      ((associativity (por* #1# #8#)
        ((cut (por* #2# #9=(por* #3# #8#))
          ((cut (por* #9# #2#)
            ((cut (por* #10=(pequal* #11=(#12=(lambda (proof x axioms thms atbl)
                                                      (if (logic.proofp proof axioms thms atbl)
                                                          (equal (logic.conclusion proof) x)
                                                          'nil))
                                          (logic.provable-witness #5# axioms thms atbl)
                                          #5#
                                          axioms
                                          thms
                                          atbl)
                                     'nil)
                        #9#)
              ((associativity (por* #9# #10#)
                ((contraction #13=(por* #3# (por* #8# #10#))
                  ((cut (por* #13# #13#)
                    ((cut (por* #14=(pequal* #4# #11#) #13#)
                      ((expansion (por* #13# #14#)
                        ((instantiation #14#
                          ((axiom (pequal* (logic.provablep x axioms thms atbl)
                                           (#12# (logic.provable-witness x axioms thms atbl) x axioms thms atbl))))
                          ((x . #5#)))))
                       (propositional-schema (por* (pnot* #13#) #13#))))
                     (instantiation (por* (pnot* #14#) #13#)
                      ((axiom (por* (pnot* (pequal* x1 y1))
                                    (por* (pnot* (pequal* x2 y2)) (por* (pnot* (pequal* x1 x2)) (pequal* y1 y2))))))
                      ((x1 . #4#) (y1 . #11#) (x2 . #4#) (y2 . 'nil)))))))))
               #15=(propositional-schema (por* (pnot* #9#) #9#))))
             (cut (por* #16=(pnot* #10#) #2#) ((theorem (por* #2# #16#)) (propositional-schema (por* (pnot* #2#) #2#))))))
           #15#))))
       #7#)))))))

; WRAP's value is LOGIC.PROOFP's, so that its claim is a theorem too.
(verify claim
 #1=(por* #2=(pequal* #3=(wrap x axioms thms atbl) 'nil)
          #4=(pnot* (pequal* (logic.provablep (logic.conclusion x) axioms thms atbl) 'nil)))
 (contraction #1#
  ((cut (por* #1# #1#)
    ((cut (por* #5=(pequal* #3# #6=(logic.proofp x axioms thms atbl)) #1#)
      ((expansion (por* #1# #5#) ((axiom #5#)))
       #7=(propositional-schema (por* (pnot* #1#) #1#))))
     (cut (por* #8=(pnot* #5#) #1#)
      ((associativity (por* #1# #8#)
        ((cut (por* #2# #9=(por* #4# #8#))
          ((associativity (por* #9# #2#)
            ((cut (por* #4# #10=(por* #8# #2#))
              ((theorem (por* #11=(pequal* #6# 'nil) #4#))
               (instantiation (por* (pnot* #11#) #10#)
                ((theorem (por* (pnot* (pequal* y z)) (por* (pnot* (pequal* x y)) (pequal* x z)))))
                ((x . #3#) (y . #6#) (z . 'nil)))))))
           (propositional-schema (por* (pnot* #9#) #9#))))))
       #7#)))))))
";

// What its events do, all of them accepted.
const WRAPPED: &str = "\
DEFINE WRAP
VERIFY TRANSITIVITY
VERIFY TRUTH
VERIFY ITSELF
VERIFY TEST
VERIFY WITNESS
VERIFY PROOFS
VERIFY CLAIM
";

/// The book books/wrap.book.
pub fn wrap_book() -> &'static str {
    WRAP
}

/// The expected lines for its events, from this number on.
pub fn wrap_lines(alloc: Global, first: u64) -> Result<String, AllocError> {
    lines_from(alloc, first, WRAPPED)
}
