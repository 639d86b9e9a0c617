//! The book books/app.book, judged after books/ranks.book: appending associates, by induction.
use crate::row::lines_from;
use std::alloc::{AllocError, Global};

const APP: &str = "; Appending associates, shown by induction; judged after ranks.book.
(define app (x y)
 (if (consp x) (cons (car x) (app (cdr x) y)) y)
 (rank x)
 ((theorem (pequal* (ordp (rank x)) 't))
  (theorem (por* (pequal* (consp x) 'nil) (pequal* (ord< (rank (cdr x)) (rank x)) 't)))))

; In front of something that is no pair APP puts nothing.
(verify app-of-atom
 #1=(por* #2=(pequal* (consp x) 't) #3=(pequal* (app x y) y))
 (cut #1#
  ((cut (por* #4=(pequal* #5=(if (consp x) #6=(cons (car x) (app (cdr x) y)) y) y) #2#)
    ((cut (por* #2# #4#)
      ((cut (por* #7=(pequal* (consp x) 'nil) #2#) ((axiom (por* #2# #7#)) #8=(propositional-schema (por* (pnot* #2#) #2#))))
       (instantiation (por* (pnot* #7#) #4#)
        ((axiom (por* (pnot* (pequal* x 'nil)) (pequal* (if x y z) z))))
        ((x . (consp x)) (y . #6#) (z . y)))))
     #8#))
   (contraction #9=(por* (pnot* #4#) #3#)
    ((cut (por* #9# #9#)
      ((cut (por* #10=(pequal* (app x y) #5#) #9#)
        ((expansion (por* #9# #10#) ((axiom #10#)))
         (propositional-schema (por* (pnot* #9#) #9#))))
       (instantiation (por* (pnot* #10#) #9#)
        ((theorem (por* (pnot* (pequal* x y)) (por* (pnot* (pequal* y z)) (pequal* x z)))))
        ((x . (app x y)) (y . #5#) (z . y))))))))))

; In front of a pair it puts the pair's first part, and goes on with the second.
(verify app-of-pair
 #1=(por* #2=(pnot* (pequal* (consp x) 't)) #3=(pequal* (app x y) #4=(cons (car x) (app (cdr x) y))))
 (cut #1#
  ((cut (por* #5=(pequal* #6=(if (consp x) #4# y) #4#) #2#)
    ((instantiation (por* #7=(pequal* (consp x) 'nil) #5#)
      ((axiom (por* #8=(pequal* x 'nil) (pequal* (if x y z) y))))
      ((x . (consp x)) (y . #4#) (z . y)))
     (cut (por* #9=(pnot* #7#) #2#)
      ((instantiation (por* #2# #9#) ((theorem (por* (pnot* (pequal* x 't)) (pnot* #8#)))) ((x . (consp x))))
       (propositional-schema (por* (pnot* #2#) #2#))))))
   (contraction #10=(por* (pnot* #5#) #3#)
    ((cut (por* #10# #10#)
      ((cut (por* #11=(pequal* (app x y) #6#) #10#)
        ((expansion (por* #10# #11#) ((axiom #11#)))
         (propositional-schema (por* (pnot* #10#) #10#))))
       (instantiation (por* (pnot* #11#) #10#)
        ((theorem (por* (pnot* (pequal* x y)) (por* (pnot* (pequal* y z)) (pequal* x z)))))
        ((x . (app x y)) (y . #6#) (z . #4#))))))))))

; APP in front of the same thing, of equal things, and likewise CONS.
(verify app-same
 #1=(por* #2=(pnot* (pequal* a b)) #3=(pequal* (app a c) (app b c)))
 (cut #1#
  ((contraction #4=(por* #3# #2#)
    ((cut (por* #4# #4#)
      ((cut (por* (pequal* c c) #4#)
        ((expansion (por* #4# (pequal* c c)) ((instantiation (pequal* c c) ((axiom (pequal* x x))) ((x . c)))))
         #5=(propositional-schema (por* (pnot* #4#) #4#))))
       (cut (por* #6=(pnot* (pequal* c c)) #4#)
        ((associativity (por* #4# #6#)
          ((cut (por* #3# #7=(por* #2# #6#))
            ((associativity (por* #7# #3#) ((functional-equality (por* #2# (por* #6# #3#)))))
             (propositional-schema (por* (pnot* #7#) #7#))))))
         #5#))))))
   (propositional-schema (por* (pnot* #3#) #3#)))))

(verify cons-same
 #1=(por* (pnot* (pequal* a b)) (pequal* (cons c a) (cons c b)))
 (contraction #1#
  ((cut (por* #1# #1#)
    ((cut (por* (pequal* c c) #1#)
      ((expansion (por* #1# (pequal* c c)) ((instantiation (pequal* c c) ((axiom (pequal* x x))) ((x . c)))))
       (propositional-schema (por* (pnot* #1#) #1#))))
     (functional-equality (por* (pnot* (pequal* c c)) #1#)))))))

; So in front of a CONS it puts the first, and goes on with the second.
(verify app-of-cons
 #1=(pequal* #2=(app (cons a b) y) #3=(cons a (app b y)))
 (contraction #1#
  ((cut (por* #1# #1#)
    ((cut (por* #4=(pequal* #5=(cons #6=(car (cons a b)) #7=(app #8=(cdr (cons a b)) y)) #3#) #1#)
      ((expansion (por* #1# #4#)
        ((contraction #4#
          ((cut (por* #4# #4#)
            ((cut (por* #9=(pequal* #7# (app b y)) #4#)
              ((expansion (por* #4# #9#)
                ((contraction #9#
                  ((cut (por* #9# #9#)
                    ((cut (por* #10=(pequal* #8# b) #9#)
                      ((expansion (por* #9# #10#)
                        ((instantiation #10# ((axiom (pequal* (cdr (cons x y)) y))) ((x . a) (y . b)))))
                       (propositional-schema (por* #11=(pnot* #9#) #9#))))
                     (instantiation (por* (pnot* #10#) #9#)
                      ((theorem (por* (pnot* (pequal* a b)) (pequal* (app a c) (app b c)))))
                      ((a . #8#) (b . b) (c . y)))))))))
               (propositional-schema (por* #12=(pnot* #4#) #4#))))
             (contraction #13=(por* #11# #4#)
              ((cut (por* #13# #13#)
                ((cut (por* #14=(pequal* #6# a) #13#)
                  ((expansion (por* #13# #14#)
                    ((instantiation #14# ((axiom (pequal* (car (cons x y)) x))) ((x . a) (y . b)))))
                   (propositional-schema (por* (pnot* #13#) #13#))))
                 (functional-equality (por* (pnot* #14#) #13#))))))))))))
       (propositional-schema (por* (pnot* #1#) #1#))))
     (contraction #15=(por* #12# #1#)
      ((cut (por* #15# #15#)
        ((cut (por* #16=(pequal* #2# #5#) #15#)
          ((expansion (por* #15# #16#)
            ((contraction #16#
              ((cut (por* #16# #16#)
                ((cut (por* #17=(pequal* (consp (cons a b)) 't) #16#)
                  ((expansion (por* #16# #17#)
                    ((instantiation #17# ((axiom (pequal* (consp (cons x y)) 't))) ((x . a) (y . b)))))
                   (propositional-schema (por* #18=(pnot* #16#) #16#))))
                 (instantiation (por* (pnot* #17#) #16#)
                  ((theorem (por* (pnot* (pequal* (consp x) 't)) (pequal* (app x y) (cons (car x) (app (cdr x) y))))))
                  ((x . (cons a b))))))))))
           (propositional-schema (por* (pnot* #15#) #15#))))
         (instantiation (por* #18# #15#)
          ((theorem (por* (pnot* (pequal* x y)) (por* (pnot* (pequal* y z)) (pequal* x z)))))
          ((x . #2#) (y . #5#) (z . #3#))))))))))))

; The case without induction: where X is no pair, both sides are (APP Y Z).
(verify associates-at-atom
 #1=(por* #2=(pequal* #3=(app (app x y) z) #4=(app x (app y z))) #5=(pequal* (consp x) 't))
 (contraction #1#
  ((associativity (por* #1# #1#)
    ((expansion (por* #2# #6=(por* #5# #1#))
      ((cut #6#
        ((cut (por* #7=(pequal* (app y z) #4#) #5#)
          ((cut (por* #5# #7#)
            ((cut (por* #8=(pequal* #4# (app y z)) #5#)
              ((instantiation (por* #5# #8#) (#9=(theorem (por* #5# #10=(pequal* (app x y) y)))) ((y . (app y z))))
               #11=(propositional-schema (por* (pnot* #5#) #5#))))
             (instantiation (por* (pnot* #8#) #7#)
              ((theorem (por* (pnot* (pequal* x y)) (pequal* y x))))
              ((x . #4#) (y . (app y z))))))
           #11#))
         (cut (por* #12=(pnot* #7#) #1#)
          ((associativity (por* #1# #12#)
            ((contraction #13=(por* #2# #14=(por* #5# #12#))
              ((cut (por* #13# #13#)
                ((cut (por* #15=(pequal* (app y z) (app y z)) #13#)
                  ((expansion (por* #13# #15#) ((instantiation #15# ((axiom (pequal* x x))) ((x . (app y z))))))
                   #16=(propositional-schema (por* (pnot* #13#) #13#))))
                 (cut (por* #17=(pnot* #15#) #13#)
                  ((associativity (por* #13# #17#)
                    ((cut (por* #2# #18=(por* #14# #17#))
                      ((associativity (por* #18# #2#)
                        ((associativity (por* #14# #19=(por* #17# #2#))
                          ((cut (por* #5# #20=(por* #12# #19#))
                            ((cut (por* #21=(pequal* (app y z) #3#) #5#)
                              ((cut (por* #5# #21#)
                                ((cut (por* #22=(pequal* #3# (app y z)) #5#)
                                  ((cut (por* #5# #22#)
                                    ((cut (por* #10# #5#) (#9# #11#))
                                     (instantiation (por* (pnot* #10#) #22#)
                                      ((theorem (por* (pnot* (pequal* a b)) (pequal* (app a c) (app b c)))))
                                      ((a . (app x y)) (b . y) (c . z)))))
                                   #11#))
                                 (instantiation (por* (pnot* #22#) #21#)
                                  ((theorem (por* (pnot* (pequal* x y)) (pequal* y x))))
                                  ((x . #3#) (y . (app y z))))))
                               #11#))
                             (instantiation (por* (pnot* #21#) #20#)
                              ((axiom (por* (pnot* (pequal* x1 y1))
                                            (por* (pnot* (pequal* x2 y2))
                                                  (por* (pnot* (pequal* x1 x2)) (pequal* y1 y2))))))
                              ((x1 . (app y z)) (y1 . #3#) (x2 . (app y z)) (y2 . #4#)))))))))
                       (propositional-schema (por* (pnot* #18#) #18#))))))
                   #16#))))))))
           (propositional-schema (por* (pnot* #1#) #1#)))))))))))))

; Where X is a pair, the left side begins with its first part, and goes on with the left side at its second.
(verify left-at-pair
 #1=(por* #2=(pnot* (pequal* (consp x) 't))
          #3=(pequal* #4=(app (app x y) z) #5=(cons (car x) (app #6=(app (cdr x) y) z))))
 (cut #1#
  ((contraction #7=(por* #3# #2#)
    ((cut (por* #7# #7#)
      ((cut (por* #8=(pequal* #9=(app #10=(cons (car x) #6#) z) #5#) #7#)
        ((expansion (por* #7# #8#)
          ((instantiation #8#
            ((theorem (pequal* (app (cons a b) y) (cons a (app b y)))))
            ((a . (car x)) (b . #6#) (y . z)))))
         #11=(propositional-schema (por* (pnot* #7#) #7#))))
       (cut (por* #12=(pnot* #8#) #7#)
        ((associativity (por* #7# #12#)
          ((cut (por* #3# #13=(por* #2# #12#))
            ((associativity (por* #13# #3#)
              ((cut (por* #2# #14=(por* #12# #3#))
                ((cut (por* #15=(pequal* #4# #9#) #2#)
                  ((cut (por* #2# #15#)
                    ((cut (por* #16=(pequal* (app x y) #10#) #2#)
                      ((theorem (por* #2# #16#))
                       #17=(propositional-schema (por* (pnot* #2#) #2#))))
                     (instantiation (por* (pnot* #16#) #15#)
                      ((theorem (por* (pnot* (pequal* a b)) (pequal* (app a c) (app b c)))))
                      ((a . (app x y)) (b . #10#) (c . z)))))
                   #17#))
                 (instantiation (por* (pnot* #15#) #14#)
                  ((theorem (por* (pnot* (pequal* x y)) (por* (pnot* (pequal* y z)) (pequal* x z)))))
                  ((x . #4#) (y . #9#) (z . #5#)))))))
             (propositional-schema (por* (pnot* #13#) #13#))))))
         #11#))))))
   (propositional-schema (por* (pnot* #3#) #3#)))))

; The case with induction: where X is a pair and the sides are equal at its second part, so are these. The right side begins
; with the first part too, since APP goes down X there.
(verify associates-at-pair
 #1=(por* #2=(pequal* #3=(app (app x y) z) #4=(app x (app y z)))
          #5=(por* #6=(pnot* (pequal* (consp x) 't))
                   #7=(pnot* (pequal* #8=(app #9=(app (cdr x) y) z) #10=(app (cdr x) (app y z))))))
 (cut #1#
  ((associativity (por* #5# #2#)
    ((cut (por* #6# #11=(por* #7# #2#))
      ((associativity (por* #11# #6#)
        ((cut #12=(por* #7# #13=(por* #2# #6#))
          ((cut (por* #13# #7#)
            ((cut #12#
              ((cut (por* #14=(pequal* #15=(cons (car x) #8#) #16=(cons (car x) #10#)) #7#)
                ((instantiation (por* #7# #14#)
                  ((theorem (por* (pnot* (pequal* a b)) (pequal* (cons c a) (cons c b)))))
                  ((a . #8#) (b . #10#) (c . (car x))))
                 #17=(propositional-schema (por* (pnot* #7#) #7#))))
               (cut (por* #18=(pnot* #14#) #13#)
                ((associativity (por* #13# #18#)
                  ((cut (por* #2# #19=(por* #6# #18#))
                    ((associativity (por* #19# #2#)
                      ((cut (por* #6# #20=(por* #18# #2#))
                        ((contraction #21=(por* #20# #6#)
                          ((associativity (por* #21# #21#)
                            ((expansion (por* #20# #22=(por* #6# #21#))
                              ((cut #22#
                                ((cut (por* #23=(pequal* #16# #4#) #6#)
                                  ((cut (por* #6# #23#)
                                    ((cut (por* #24=(pequal* #4# #16#) #6#)
                                      ((instantiation (por* #6# #24#)
                                        ((theorem (por* #6# (pequal* (app x y) (cons (car x) #9#)))))
                                        ((y . (app y z))))
                                       #25=(propositional-schema (por* (pnot* #6#) #6#))))
                                     (instantiation (por* (pnot* #24#) #23#)
                                      ((theorem (por* (pnot* (pequal* x y)) (pequal* y x))))
                                      ((x . #4#) (y . #16#)))))
                                   #25#))
                                 (cut (por* #26=(pnot* #23#) #21#)
                                  ((associativity (por* #21# #26#)
                                    ((cut (por* #20# #27=(por* #6# #26#))
                                      ((associativity (por* #27# #20#)
                                        ((cut (por* #6# #28=(por* #26# #20#))
                                          ((cut (por* #29=(pequal* #15# #3#) #6#)
                                            ((cut (por* #6# #29#)
                                              ((cut (por* #30=(pequal* #3# #15#) #6#) ((theorem (por* #6# #30#)) #25#))
                                               (instantiation (por* (pnot* #30#) #29#)
                                                ((theorem (por* (pnot* (pequal* x y)) (pequal* y x))))
                                                ((x . #3#) (y . #15#)))))
                                             #25#))
                                           (instantiation (por* (pnot* #29#) #28#)
                                            ((axiom (por* (pnot* (pequal* x1 y1))
                                                          (por* (pnot* (pequal* x2 y2))
                                                                (por* (pnot* (pequal* x1 x2)) (pequal* y1 y2))))))
                                            ((x1 . #15#) (y1 . #3#) (x2 . #16#) (y2 . #4#)))))))
                                       (propositional-schema (por* (pnot* #27#) #27#))))))
                                   (propositional-schema (por* (pnot* #21#) #21#))))))))))))
                         (propositional-schema (por* (pnot* #20#) #20#))))))
                     (propositional-schema (por* (pnot* #19#) #19#))))))
                 #31=(propositional-schema (por* (pnot* #13#) #13#))))))
             #17#))
           #31#))))
       (propositional-schema (por* (pnot* #11#) #11#))))))
   (propositional-schema (por* (pnot* #5#) #5#)))))

; And the measure falls: the second part of a pair has a smaller rank.
(verify measure-falls
 #1=(por* #2=(pnot* (pequal* (consp x) 't)) #3=(pequal* (ord< (rank (cdr x)) (rank x)) 't))
 (cut #1#
  ((cut (por* #3# #2#)
    ((theorem (por* #4=(pequal* (consp x) 'nil) #3#))
     (cut (por* #5=(pnot* #4#) #2#)
      ((instantiation (por* #2# #5#) ((theorem (por* (pnot* (pequal* x 't)) (pnot* (pequal* x 'nil))))) ((x . (consp x))))
       (propositional-schema (por* (pnot* #2#) #2#))))))
   (propositional-schema (por* (pnot* #3#) #3#)))))

; Appending associates.
(verify associates
 #1=(pequal* (app (app x y) z) (app x (app y z)))
 (induction #1#
  ((theorem (por* #1# #2=(pequal* (consp x) 't)))
   (theorem (por* #1# (por* #3=(pnot* #2#) (pnot* (pequal* (app (app (cdr x) y) z) (app (cdr x) (app y z)))))))
   (theorem (pequal* (ordp (rank x)) 't))
   (theorem (por* #3# (pequal* (ord< (rank (cdr x)) (rank x)) 't))))
  ((rank x) (#2#) ((((x . (cdr x))))))))
";

// What its events do, all of them accepted.
const APPENDED: &str = "\
DEFINE APP
VERIFY APP-OF-ATOM
VERIFY APP-OF-PAIR
VERIFY APP-SAME
VERIFY CONS-SAME
VERIFY APP-OF-CONS
VERIFY ASSOCIATES-AT-ATOM
VERIFY LEFT-AT-PAIR
VERIFY ASSOCIATES-AT-PAIR
VERIFY MEASURE-FALLS
VERIFY ASSOCIATES
";

/// The book books/app.book.
pub fn app_book() -> &'static str {
    APP
}

/// The expected lines for its events, from this number on.
pub fn app_lines(alloc: Global, first: u64) -> Result<String, AllocError> {
    lines_from(alloc, first, APPENDED)
}
