//! The book books/shorthand.book, judged after books/wrap.book: a checker that takes a shorthand too, and the proof of its claim.
use crate::row::lines_from;
use std::alloc::{AllocError, Global};

const SHORTHAND: &str =
    "; A checker that takes a shorthand for modus ponens beside all proofs, judged after wrap.book: so the proof of its claim is judged by WRAP.
(switch wrap)

; Spells (modus-ponens B (p q)) out, where p concludes A and q concludes \"not A or B\". What is no such step stays as it is.
(define spell-out (x)
 (if (equal (first x) 'modus-ponens)
  (let* ((b (second x)) (p (first (third x))) (q (second (third x))) (a (logic.conclusion p)))
   (list 'contraction b
    (list (list 'cut (logic.por b b)
     (list (list 'cut (logic.por a b)
       (list (list 'expansion (logic.por b a) (list p))
        (list 'propositional-schema (logic.por (logic.pnot b) b))))
      q)))))
  x)
 nil ())

; Says yes to X where WRAP says yes to X, spelled out, and both conclude the same.
(define short (x axioms thms atbl)
 (if (equal (logic.conclusion (spell-out x)) (logic.conclusion x))
  (wrap (spell-out x) axioms thms atbl)
  nil)
 nil ())

; Of two formulas that are equal, if one is not provable neither is the other.
(verify same
 #1=(por* #2=(pnot* (pequal* a b))
          #3=(por* #4=(pequal* #5=(logic.provablep a axioms thms atbl) 'nil)
                   #6=(pnot* (pequal* #7=(logic.provablep b axioms thms atbl) 'nil))))
 (cut #1#
  ((contraction #8=(por* #9=(pequal* #5# #7#) #2#)
    ((cut (por* #8# #8#)
      ((cut (por* #10=(pequal* axioms axioms) #8#)
        ((expansion (por* #8# #10#) ((instantiation #10# #11=((axiom (pequal* x x))) ((x . axioms)))))
         #12=(propositional-schema (por* (pnot* #8#) #8#))))
       (cut (por* #13=(pnot* #10#) #8#)
        ((associativity (por* #8# #13#)
          ((contraction #14=(por* #9# #15=(por* #2# #13#))
            ((cut (por* #14# #14#)
              ((cut (por* #16=(pequal* thms thms) #14#)
                ((expansion (por* #14# #16#) ((instantiation #16# #11# ((x . thms)))))
                 #17=(propositional-schema (por* (pnot* #14#) #14#))))
               (cut (por* #18=(pnot* #16#) #14#)
                ((associativity (por* #14# #18#)
                  ((contraction #19=(por* #9# #20=(por* #15# #18#))
                    ((cut (por* #19# #19#)
                      ((cut (por* #21=(pequal* atbl atbl) #19#)
                        ((expansion (por* #19# #21#) ((instantiation #21# #11# ((x . atbl)))))
                         #22=(propositional-schema (por* (pnot* #19#) #19#))))
                       (cut (por* #23=(pnot* #21#) #19#)
                        ((associativity (por* #19# #23#)
                          ((cut (por* #9# #24=(por* #20# #23#))
                            ((associativity (por* #24# #9#)
                              ((associativity (por* #20# #25=(por* #23# #9#))
                                ((associativity (por* #15# #26=(por* #18# #25#))
                                  ((functional-equality (por* #2# (por* #13# #26#)))))))))
                             (propositional-schema (por* (pnot* #24#) #24#))))))
                         #22#))))))))
                 #17#))))))))
         #12#))))))
   (cut (por* #27=(pnot* #9#) #3#)
    ((associativity (por* #3# #27#)
      ((cut (por* #4# #28=(por* #6# #27#))
        ((associativity (por* #28# #4#)
          ((instantiation (por* #6# (por* #27# #4#))
            ((theorem (por* (pnot* (pequal* y z)) (por* (pnot* (pequal* x y)) (pequal* x z)))))
            ((x . #5#) (y . #7#) (z . 'nil)))))
         (propositional-schema (por* (pnot* #28#) #28#))))))
     (propositional-schema (por* (pnot* #3#) #3#)))))))

; So what WRAP takes for X, spelled out, shows what X concludes, if both conclude the same.
(verify spelled
 #1=(por* #2=(pequal* (wrap (spell-out x) axioms thms atbl) 'nil)
          #3=(por* #4=(pnot* (pequal* (logic.provablep #5=(logic.conclusion x) axioms thms atbl) 'nil))
                   #6=(pnot* (pequal* #7=(logic.conclusion (spell-out x)) #5#))))
 (cut #1#
  ((cut (por* #3# #2#)
    ((cut (por* #8=(pequal* (logic.provablep #7# axioms thms atbl) 'nil) #3#)
      ((associativity (por* #3# #8#)
        ((cut (por* #4# #9=(por* #6# #8#))
          ((associativity (por* #9# #4#)
            ((cut #10=(por* #6# #11=(por* #8# #4#))
              ((cut (por* #11# #6#)
                ((instantiation #10#
                  ((theorem (por* (pnot* (pequal* a b))
                                  (por* (pequal* (logic.provablep a axioms thms atbl) 'nil)
                                        (pnot* (pequal* (logic.provablep b axioms thms atbl) 'nil))))))
                  ((a . #7#) (b . #5#)))
                 (propositional-schema (por* (pnot* #6#) #6#))))
               (propositional-schema (por* (pnot* #11#) #11#))))))
           (propositional-schema (por* (pnot* #9#) #9#))))))
       #12=(propositional-schema (por* (pnot* #3#) #3#))))
     (cut (por* #13=(pnot* #8#) #2#)
      ((instantiation (por* #2# #13#) ((theorem (por* (pequal* (wrap x axioms thms atbl) 'nil) #4#))) ((x . (spell-out x))))
       (propositional-schema (por* (pnot* #2#) #2#))))))
   #12#)))

; SHORT's body is NIL unless X, spelled out, concludes what X concludes;
(verify agrees
 #1=(por* #2=(pequal* #3=(logic.conclusion (spell-out x)) #4=(logic.conclusion x))
          #5=(pequal* (if #6=(equal #3# #4#) #7=(wrap (spell-out x) axioms thms atbl) 'nil) 'nil))
 (cut #1#
  ((cut (por* #8=(pequal* #6# 'nil) #2#)
    ((instantiation (por* #2# #8#) ((axiom (por* (pequal* x y) (pequal* (equal x y) 'nil)))) ((x . #3#) (y . #4#)))
     (propositional-schema (por* (pnot* #2#) #2#))))
   (instantiation (por* (pnot* #8#) #5#)
    ((axiom (por* (pnot* (pequal* x 'nil)) (pequal* (if x y z) z))))
    ((x . #6#) (y . #7#) (z . 'nil))))))

; and unless it is NIL it is what WRAP says to X, spelled out;
(verify value
 #1=(por* #2=(pequal* #3=(if #4=(equal (logic.conclusion (spell-out x)) (logic.conclusion x))
                             #5=(wrap (spell-out x) axioms thms atbl)
                             'nil)
                      #5#)
          #6=(pequal* #3# 'nil))
 (cut #1#
  ((instantiation (por* #7=(pequal* #4# 'nil) #2#)
    ((axiom (por* #8=(pequal* x 'nil) (pequal* (if x y z) y))))
    ((x . #4#) (y . #5#) (z . 'nil)))
   (instantiation (por* (pnot* #7#) #6#)
    ((axiom (por* (pnot* #8#) (pequal* (if x y z) z))))
    ((x . #4#) (y . #5#) (z . 'nil))))))

; so where WRAP says no, the body is NIL.
(verify no
 #1=(por* #2=(pnot* (pequal* #3=(wrap (spell-out x) axioms thms atbl) 'nil))
          #4=(pequal* #5=(if (equal (logic.conclusion (spell-out x)) (logic.conclusion x)) #3# 'nil) 'nil))
 (contraction #1#
  ((associativity (por* #1# #1#)
    ((expansion (por* #2# #6=(por* #4# #1#))
      ((cut #6#
        ((associativity (por* #1# #4#)
          ((cut (por* #2# #7=(por* #4# #4#))
            ((associativity (por* #7# #2#)
              ((cut (por* #4# #8=(por* #4# #2#))
                ((theorem (por* #9=(pequal* #5# #3#) #4#))
                 (cut (por* #10=(pnot* #9#) #8#)
                  ((associativity (por* #8# #10#)
                    ((cut (por* #4# #11=(por* #2# #10#))
                      ((associativity (por* #11# #4#)
                        ((instantiation (por* #2# (por* #10# #4#))
                          ((theorem (por* (pnot* (pequal* y z)) (por* (pnot* (pequal* x y)) (pequal* x z)))))
                          ((x . #5#) (y . #3#) (z . 'nil)))))
                       (propositional-schema (por* (pnot* #11#) #11#))))))
                   (propositional-schema (por* (pnot* #8#) #8#))))))))
             (propositional-schema (por* (pnot* #7#) #7#))))))
         (propositional-schema (por* (pnot* #1#) #1#)))))))))))

; SHORT's value is its body's; so it is NIL, or X concludes something provable.
(verify claim
 #1=(por* #2=(pequal* #3=(short x axioms thms atbl) 'nil)
          #4=(pnot* (pequal* (logic.provablep #5=(logic.conclusion x) axioms thms atbl) 'nil)))
 (contraction #1#
  ((cut (por* #1# #1#)
    ((cut (por* #6=(pequal* #3#
                            #7=(if (equal #8=(logic.conclusion (spell-out x)) #5#)
                                   #9=(wrap (spell-out x) axioms thms atbl)
                                   'nil))
                #1#)
      ((expansion (por* #1# #6#) ((axiom #6#)))
       #10=(propositional-schema (por* (pnot* #1#) #1#))))
     (cut (por* #11=(pnot* #6#) #1#)
      ((associativity (por* #1# #11#)
        ((cut (por* #2# #12=(por* #4# #11#))
          ((associativity (por* #12# #2#)
            ((cut (por* #4# #13=(por* #11# #2#))
              ((cut #14=(por* #15=(pequal* #7# 'nil) #4#)
                ((contraction #16=(por* #4# #15#)
                  ((associativity (por* #16# #16#)
                    ((expansion (por* #4# #17=(por* #15# #16#))
                      ((cut #17#
                        ((associativity (por* #16# #15#)
                          ((cut (por* #4# #18=(por* #15# #15#))
                            ((associativity (por* #18# #4#)
                              ((cut (por* #15# #14#)
                                ((theorem (por* #19=(pequal* #8# #5#) #15#))
                                 (cut (por* #20=(pnot* #19#) #14#)
                                  ((associativity (por* #14# #20#)
                                    ((cut (por* #15# #21=(por* #4# #20#))
                                      ((cut (por* #21# #15#)
                                        ((theorem (por* #22=(pequal* #9# 'nil) #21#))
                                         (theorem (por* (pnot* #22#) #15#))))
                                       (propositional-schema (por* (pnot* #21#) #21#))))))
                                   (propositional-schema (por* (pnot* #14#) #14#))))))))
                             (propositional-schema (por* (pnot* #18#) #18#))))))
                         (propositional-schema (por* (pnot* #16#) #16#))))))))))
                 (propositional-schema (por* (pnot* #4#) #4#))))
               (instantiation (por* (pnot* #15#) #13#)
                ((theorem (por* (pnot* (pequal* y z)) (por* (pnot* (pequal* x y)) (pequal* x z)))))
                ((x . #3#) (y . #7#) (z . 'nil)))))))
           (propositional-schema (por* (pnot* #12#) #12#))))))
       #10#)))))))

(switch short)
";

// What its events do, all of them accepted.
const SHORTENED: &str = "\
SWITCH WRAP
DEFINE SPELL-OUT
DEFINE SHORT
VERIFY SAME
VERIFY SPELLED
VERIFY AGREES
VERIFY VALUE
VERIFY NO
VERIFY CLAIM
SWITCH SHORT
";

/// The book books/shorthand.book.
pub fn shorthand_book() -> &'static str {
    SHORTHAND
}

/// The expected lines for its events, from this number on.
pub fn shorthand_lines(alloc: Global, first: u64) -> Result<String, AllocError> {
    lines_from(alloc, first, SHORTENED)
}
