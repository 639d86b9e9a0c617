//! An induction with its two premises: with no cases, and a measure that is the ordinal 0.
use mw_rows::{expect_empty, wrong_answers};
use std::test::Fail;

// The second premise, that the measure is an ordinal, is proved from the axiom of ORDP by some eighty steps.
const INDUCTION: &str = "\
(verify i (pequal* x x) (induction (pequal* x x) ((axiom (pequal* x x)) (CONTRACTION #1=(PEQUAL* #2=(ORDP . \
#3=(#4=(QUOTE 0))) . #5=(#6=(QUOTE T))) ((CUT (POR* #1# . #7=(#1#)) ((CUT (POR* #8=(PEQUAL* #9=(NATP . #3#) . \
#10=(#9#)) . #7#) ((EXPANSION (POR* #1# . #11=(#8#)) ((INSTANTIATION #8# #12=((AXIOM (PEQUAL* X . #13=(X)))) ((X . \
#9#))))) (PROPOSITIONAL-SCHEMA (POR* (PNOT* . #7#) . #7#)))) (CONTRACTION #14=(POR* (PNOT* . #11#) . #7#) ((CUT (POR* \
#14# . #15=(#14#)) ((CUT (POR* #16=(PEQUAL* #9# . #5#) . #15#) ((EXPANSION (POR* #14# . #17=(#16#)) ((BASE-EVAL . \
#17#))) (PROPOSITIONAL-SCHEMA (POR* (PNOT* . #15#) . #15#)))) (CONTRACTION #18=(POR* (PNOT* . #17#) . #15#) ((CUT \
(POR* #18# . #19=(#18#)) ((CUT (POR* #20=(PEQUAL* #9# . #21=(#2#)) . #19#) ((EXPANSION (POR* #18# . #22=(#20#)) \
((CONTRACTION #20# ((CUT (POR* #20# . #22#) ((CUT (POR* #23=(PEQUAL* #2# . #21#) . #22#) ((EXPANSION (POR* #20# . \
#24=(#23#)) . #25=(((INSTANTIATION #23# #12# ((X . #2#)))))) (PROPOSITIONAL-SCHEMA (POR* #26=(PNOT* . #22#) . \
#22#)))) (CONTRACTION #27=(POR* #28=(PNOT* . #24#) . #22#) ((CUT (POR* #27# . #29=(#27#)) ((CUT (POR* #23# . #29#) \
((EXPANSION (POR* #27# . #24#) . #25#) (PROPOSITIONAL-SCHEMA (POR* (PNOT* . #29#) . #29#)))) (CONTRACTION #30=(POR* \
#28# . #29#) ((CUT (POR* #30# . #31=(#30#)) ((CUT (POR* #32=(PEQUAL* #2# . #10#) . #31#) ((EXPANSION (POR* #30# . \
#33=(#32#)) ((CONTRACTION #32# ((CUT (POR* #32# . #33#) ((CUT (POR* #34=(PEQUAL* #35=(IF #36=(CONSP . #3#) #37=(IF \
(CONSP . #38=((CAR . #3#))) (IF (ORDP . #39=(#40=(CAR . #38#))) (IF (IF (EQUAL #40# . #3#) . #41=(#42=(QUOTE NIL) . \
#5#)) (IF (NATP . #43=((CDR . #38#))) (IF (< #4# . #43#) (IF (ORDP . #44=((CDR . #3#))) (IF (CONSP . #44#) (ORD< (CAR \
(CAR . #44#)) . #39#) . #5#) . #45=(#42#)) . #45#) . #45#) . #45#) . #45#) . #45#) . #10#) . #46=(#35#)) . #33#) \
((EXPANSION (POR* #32# . #47=(#34#)) ((INSTANTIATION #34# #12# ((X . #35#))))) (PROPOSITIONAL-SCHEMA (POR* #48=(PNOT* \
. #33#) . #33#)))) (CONTRACTION #49=(POR* (PNOT* . #47#) . #33#) ((CUT (POR* #49# . #50=(#49#)) ((CUT (POR* \
#51=(PEQUAL* #35# . #10#) . #50#) ((EXPANSION (POR* #49# . #52=(#51#)) ((CONTRACTION #51# ((CUT (POR* #51# . #52#) \
((CUT (POR* #53=(PEQUAL* #36# . #45#) . #52#) ((EXPANSION (POR* #51# . #54=(#53#)) ((BASE-EVAL . #54#))) \
(PROPOSITIONAL-SCHEMA (POR* #55=(PNOT* . #52#) . #52#)))) (INSTANTIATION (POR* (PNOT* . #54#) . #52#) ((AXIOM (POR* \
(PNOT* (PEQUAL* X . #45#)) (PEQUAL* (IF X Y . #56=(Z)) . #56#)))) ((X . #36#) (Y . #37#) (Z . #9#))))))))) \
(PROPOSITIONAL-SCHEMA (POR* (PNOT* . #50#) . #50#)))) (CONTRACTION #57=(POR* #55# . #50#) ((CUT (POR* #57# . \
#58=(#57#)) ((CUT (POR* #59=(PEQUAL* #35# . #21#) . #58#) ((EXPANSION (POR* #57# . #60=(#59#)) ((CONTRACTION #59# \
((CUT (POR* #59# . #60#) ((CUT (POR* #23# . #60#) ((EXPANSION (POR* #59# . #24#) . #25#) (PROPOSITIONAL-SCHEMA (POR* \
#61=(PNOT* . #60#) . #60#)))) (CONTRACTION #62=(POR* #28# . #60#) ((CUT (POR* #62# . #63=(#62#)) ((CUT (POR* #23# . \
#63#) ((EXPANSION (POR* #62# . #24#) . #25#) (PROPOSITIONAL-SCHEMA (POR* (PNOT* . #63#) . #63#)))) (CONTRACTION \
#64=(POR* #28# . #63#) ((CUT (POR* #64# . #65=(#64#)) ((CUT (POR* #66=(PEQUAL* #2# . #46#) . #65#) ((EXPANSION (POR* \
#64# . #67=(#66#)) ((INSTANTIATION #66# ((AXIOM (PEQUAL* (ORDP . #13#) (IF (CONSP . #13#) (IF (CONSP . #68=((CAR . \
#13#))) (IF (ORDP . #69=(#70=(CAR . #68#))) (IF (IF (EQUAL #70# . #3#) . #41#) (IF (NATP . #71=((CDR . #68#))) (IF (< \
#4# . #71#) (IF (ORDP . #72=((CDR . #13#))) (IF (CONSP . #72#) (ORD< (CAR (CAR . #72#)) . #69#) . #5#) . #45#) . \
#45#) . #45#) . #45#) . #45#) . #45#) (NATP . #13#))))) ((X . #4#))))) (PROPOSITIONAL-SCHEMA (POR* (PNOT* . #65#) . \
#65#)))) (INSTANTIATION (POR* (PNOT* . #67#) . #65#) #73=((AXIOM (POR* (PNOT* (PEQUAL* X1 Y1)) (POR* (PNOT* (PEQUAL* \
X2 . #74=(Y2))) (POR* (PNOT* (PEQUAL* X1 X2)) (PEQUAL* Y1 . #74#)))))) (#75=(X1 . #2#) (Y1 . #35#) . #76=((X2 . #2#) \
(Y2 . #2#)))))))))))))))))) (PROPOSITIONAL-SCHEMA (POR* (PNOT* . #58#) . #58#)))) (INSTANTIATION (POR* #61# . #58#) \
#73# ((X1 . #35#) #77=(Y1 . #2#) (X2 . #35#) (Y2 . #9#))))))))))))))))) (PROPOSITIONAL-SCHEMA (POR* (PNOT* . #31#) . \
#31#)))) (INSTANTIATION (POR* #48# . #31#) #73# (#75# (Y1 . #9#) . #76#)))))))))))))))) (PROPOSITIONAL-SCHEMA (POR* \
(PNOT* . #19#) . #19#)))) (INSTANTIATION (POR* #26# . #19#) #73# ((X1 . #9#) #77# (X2 . #9#) (Y2 . \
#6#)))))))))))))))) ('0 () ())))
=> 0
1 VERIFY I accepted
events 1 accepted 1 refused 0 level 1
";

#[test]
fn an_induction_is_accepted(rt: HostRuntime) -> Result<(), Fail> {
    expect_empty(wrong_answers(rt.alloc(), &["check"], INDUCTION, 4096)?)
}
