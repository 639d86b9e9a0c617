//! The book books/ranks.book, after which others define recursive functions: theorems up to the two that a recursion down CDR owes.
use crate::row::{expected_after, other_report};
use std::alloc::{AllocError, Global};

const RANKS: &str =
    "; Theorems on ranks, from equality's own up to the two that a recursion down CDR owes, each proved from the ones before it.

; Equality holds the other way round.
(VERIFY SYMMETRY #1=(POR* #2=(PNOT* (PEQUAL* X Y)) . #3=(#4=(PEQUAL* Y . #5=(X)))) (CUT #1# ((CONTRACTION #6=(POR* #4# . #7=(#2#)) ((CUT
(POR* #6# . #8=(#6#)) ((CUT (POR* #9=(PEQUAL* X . #5#) . #8#) ((EXPANSION (POR* #6# . #10=(#9#)) . #11=(((AXIOM . #10#)))) .
#12=((PROPOSITIONAL-SCHEMA (POR* (PNOT* . #8#) . #8#))))) (CUT (POR* #13=(PNOT* . #10#) . #8#) ((ASSOCIATIVITY (POR* #6# . #14=(#13#))
((CUT (POR* #4# . #15=(#16=(POR* #2# . #14#))) ((ASSOCIATIVITY (POR* #16# . #3#) ((CUT (POR* #2# . #17=(#18=(POR* #13# . #3#)))
((CONTRACTION #19=(POR* #18# . #7#) ((CUT (POR* #19# . #20=(#19#)) ((CUT (POR* #9# . #20#) ((EXPANSION (POR* #19# . #10#) . #11#) .
#21=((PROPOSITIONAL-SCHEMA (POR* (PNOT* . #20#) . #20#))))) (CUT (POR* #13# . #20#) ((ASSOCIATIVITY (POR* #19# . #14#) ((CUT (POR* #18# .
#15#) ((ASSOCIATIVITY (POR* #16# . #17#) ((CUT #22=(POR* #2# . #23=(#24=(POR* #13# . #17#))) ((CUT (POR* #24# . #7#) ((INSTANTIATION #22#
((AXIOM (POR* (PNOT* (PEQUAL* X1 Y1)) (POR* (PNOT* (PEQUAL* X2 . #25=(Y2))) (POR* (PNOT* (PEQUAL* X1 X2)) (PEQUAL* Y1 . #25#)))))) ((X1 .
X) (Y1 . Y) (X2 . X) (Y2 . X))) (PROPOSITIONAL-SCHEMA (POR* (PNOT* . #7#) . #7#)))) (PROPOSITIONAL-SCHEMA (POR* (PNOT* . #23#) .
#23#)))))) . #26=((PROPOSITIONAL-SCHEMA (POR* (PNOT* . #15#) . #15#))))))) . #21#)))))) (PROPOSITIONAL-SCHEMA (POR* (PNOT* . #17#) .
#17#)))))) . #26#)))) . #12#)))))) (PROPOSITIONAL-SCHEMA (POR* (PNOT* . #3#) . #3#)))))

; What equals an equal of a thing equals the thing.
(VERIFY TRANSITIVITY #1=(POR* #2=(PNOT* (PEQUAL* X . #3=(Y))) . #4=(#5=(POR* #6=(PNOT* (PEQUAL* Y . #7=(Z))) . #8=(#9=(PEQUAL* X .
#7#))))) (CUT #1# ((CUT (POR* #10=(PEQUAL* Y . #11=(X)) . #12=(#2#)) ((THEOREM (POR* #2# . #13=(#10#))) (PROPOSITIONAL-SCHEMA (POR* (PNOT*
. #12#) . #12#)))) (CUT (POR* #14=(PNOT* . #13#) . #4#) ((ASSOCIATIVITY (POR* #5# . #15=(#14#)) ((CUT (POR* #6# . #16=(#17=(POR* #9# .
#15#))) ((ASSOCIATIVITY (POR* #17# . #18=(#6#)) ((CONTRACTION #19=(POR* #9# #20=(POR* #14# . #18#)) ((CUT (POR* #19# . #21=(#19#)) ((CUT
(POR* #22=(PEQUAL* Y . #3#) . #21#) ((EXPANSION (POR* #19# . #23=(#22#)) ((INSTANTIATION #22# ((AXIOM (PEQUAL* X . #11#))) ((X . Y))))) .
#24=((PROPOSITIONAL-SCHEMA (POR* (PNOT* . #21#) . #21#))))) (CUT (POR* #25=(PNOT* . #23#) . #21#) ((ASSOCIATIVITY (POR* #19# . #26=(#25#))
((CUT (POR* #9# . #27=(#28=(POR* #20# . #26#))) ((ASSOCIATIVITY (POR* #28# . #8#) ((ASSOCIATIVITY (POR* #20# . #29=((POR* #25# . #8#)))
((INSTANTIATION (POR* #14# (POR* #6# . #29#)) ((AXIOM (POR* (PNOT* (PEQUAL* X1 Y1)) (POR* (PNOT* (PEQUAL* X2 . #30=(Y2))) (POR* (PNOT*
(PEQUAL* X1 X2)) (PEQUAL* Y1 . #30#)))))) ((X1 . Y) (Y1 . X) (X2 . Y) (Y2 . Z))))))) (PROPOSITIONAL-SCHEMA (POR* (PNOT* . #27#) .
#27#)))))) . #24#)))))))) (PROPOSITIONAL-SCHEMA (POR* (PNOT* . #16#) . #16#)))))) (PROPOSITIONAL-SCHEMA (POR* (PNOT* . #4#) . #4#)))))))

; What equals T does not equal NIL.
(VERIFY TRUTH #1=(POR* #2=(PNOT* (PEQUAL* X #3=(QUOTE T))) #4=(PNOT* (PEQUAL* X . #5=(#6=(QUOTE NIL))))) (CONTRACTION #1# ((CUT (POR* #1#
. #7=(#1#)) ((CUT (POR* #8=(PEQUAL* X X) . #7#) ((EXPANSION (POR* #1# . #9=(#8#)) ((AXIOM . #9#))) . #10=((PROPOSITIONAL-SCHEMA (POR*
(PNOT* . #7#) . #7#))))) (CUT (POR* #11=(PNOT* . #9#) . #7#) ((CONTRACTION #12=(POR* #1# #11#) ((CUT (POR* #12# . #13=(#12#)) ((CUT (POR*
#14=(PEQUAL* #3# . #5#) . #13#) ((ASSOCIATIVITY (POR* #12# . #15=(#14#)) ((ASSOCIATIVITY (POR* #1# . #16=((POR* #11# . #15#)))
((INSTANTIATION (POR* #2# (POR* #4# . #16#)) ((AXIOM (POR* (PNOT* (PEQUAL* X1 Y1)) (POR* (PNOT* (PEQUAL* X2 . #17=(Y2))) (POR* (PNOT*
(PEQUAL* X1 X2)) (PEQUAL* Y1 . #17#)))))) ((X1 . X) (Y1 . #3#) (X2 . X) (Y2 . #6#))))))) . #18=((PROPOSITIONAL-SCHEMA (POR* (PNOT* . #13#)
. #13#))))) (CUT (POR* #19=(PNOT* . #15#) . #13#) ((EXPANSION (POR* #12# . #20=(#19#)) ((AXIOM . #20#))) . #18#)))))) . #10#)))))))

; A natural is no pair.
(VERIFY NATURALS #1=(POR* #2=(PNOT* (PEQUAL* #3=(NATP . #4=(X)) . #5=((QUOTE T)))) . #6=(#7=(PEQUAL* (CONSP . #4#) . #8=((QUOTE NIL)))))
(CONTRACTION #1# ((CUT (POR* #1# . #9=(#1#)) ((CONTRACTION #10=(POR* #2# . #9#) ((CUT (POR* #10# . #11=(#10#)) ((CUT (POR* #7# . #11#)
((ASSOCIATIVITY (POR* #10# . #6#) ((CUT (POR* #2# . #12=(#13=(POR* #1# . #6#))) ((ASSOCIATIVITY (POR* #13# . #14=(#2#)) ((CUT #15=(POR*
#1# . #16=(#17=(POR* #7# . #14#))) ((CUT (POR* #17# . #9#) ((EXPANSION #15# ((CUT #17# ((AXIOM (POR* #18=(PEQUAL* #3# . #8#) . #6#)) (CUT
(POR* #19=(PNOT* #18#) . #14#) ((INSTANTIATION (POR* #2# #19#) ((THEOREM (POR* (PNOT* (PEQUAL* X . #5#)) (PNOT* (PEQUAL* X . #8#))))) ((X
. #3#))) . #20=((PROPOSITIONAL-SCHEMA . #21=((POR* #22=(PNOT* . #14#) . #14#)))))))))) . #23=((PROPOSITIONAL-SCHEMA (POR* (PNOT* . #9#) .
#9#))))) (PROPOSITIONAL-SCHEMA (POR* (PNOT* . #16#) . #16#)))))) (PROPOSITIONAL-SCHEMA (POR* (PNOT* . #12#) . #12#)))))) .
#24=((PROPOSITIONAL-SCHEMA (POR* (PNOT* . #11#) . #11#))))) (CUT (POR* #25=(PNOT* . #6#) . #11#) ((ASSOCIATIVITY (POR* #10# . #26=(#25#))
((EXPANSION (POR* #2# #27=(POR* #1# . #26#)) ((CUT #27# ((CUT (POR* #25# . #9#) ((ASSOCIATIVITY #27# ((EXPANSION (POR* #2# #28=(POR* #7# .
#26#)) ((CUT #28# ((PROPOSITIONAL-SCHEMA (POR* #25# . #6#)) . #29=((PROPOSITIONAL-SCHEMA (POR* (PNOT* . #26#) . #26#))))))))) . #23#)) .
#29#)))))) . #24#)))))) (CUT (POR* #22# . #9#) ((ASSOCIATIVITY (POR* #1# . #30=(#22#)) ((CUT (POR* #2# . #31=(#32=(POR* #7# . #30#)))
((ASSOCIATIVITY (POR* #32# . #14#) ((EXPANSION (POR* #7# . #21#) #20#))) (PROPOSITIONAL-SCHEMA (POR* (PNOT* . #31#) . #31#)))))) .
#23#)))))))

; What is no pair is an ordinal exactly where it is a natural.
(VERIFY ORDINALS #1=(POR* #2=(PNOT* (PEQUAL* #3=(CONSP . #4=(X)) . #5=(#6=(QUOTE NIL)))) . #7=(#8=(PEQUAL* #9=(ORDP . #4#) .
#10=(#11=(NATP . #4#))))) (CONTRACTION #1# ((CUT (POR* #1# . #12=(#1#)) ((CUT (POR* #13=(PEQUAL* #9# #14=(IF #3# #15=(IF (CONSP .
#16=((CAR . #4#))) (IF (ORDP . #17=(#18=(CAR . #16#))) (IF (IF (EQUAL #18# #19=(QUOTE 0)) #6# . #20=((QUOTE T))) (IF (NATP . #21=((CDR .
#16#))) (IF (< #19# . #21#) (IF (ORDP . #22=((CDR . #4#))) (IF (CONSP . #22#) (ORD< (CAR (CAR . #22#)) . #17#) . #20#) . #5#) . #5#) .
#5#) . #5#) . #5#) . #5#) . #10#)) . #12#) ((EXPANSION (POR* #1# . #23=(#13#)) ((AXIOM . #23#))) . #24=((PROPOSITIONAL-SCHEMA (POR* (PNOT*
. #12#) . #12#))))) (CUT (POR* #25=(PNOT* . #23#) . #12#) ((ASSOCIATIVITY (POR* #1# . #26=(#25#)) ((CUT (POR* #2# . #27=(#28=(POR* #8# .
#26#))) ((CUT (POR* #29=(PEQUAL* #14# . #10#) . #30=(#2#)) ((INSTANTIATION (POR* #2# . #31=(#29#)) ((AXIOM (POR* (PNOT* (PEQUAL* X . #5#))
(PEQUAL* (IF X . #32=(Y . #33=(Z))) . #33#)))) ((X . #3#) (Y . #15#) . #34=((Z . #11#)))) (PROPOSITIONAL-SCHEMA (POR* (PNOT* . #30#) .
#30#)))) (CUT (POR* #35=(PNOT* . #31#) . #27#) ((ASSOCIATIVITY (POR* #28# . #36=(#35#)) ((CUT (POR* #8# . #37=(#38=(POR* #25# . #36#)))
((ASSOCIATIVITY (POR* #38# . #7#) ((INSTANTIATION (POR* #25# (POR* #35# . #7#)) ((THEOREM (POR* (PNOT* (PEQUAL* X Y)) (POR* (PNOT*
(PEQUAL* . #32#)) (PEQUAL* X . #33#))))) ((X . #9#) (Y . #14#) . #34#)))) (PROPOSITIONAL-SCHEMA (POR* (PNOT* . #37#) . #37#))))))
(PROPOSITIONAL-SCHEMA (POR* (PNOT* . #27#) . #27#)))))))) . #24#)))))))

; Of two things that are no pairs the order of ordinals is the order of naturals.
(VERIFY ORDER #1=(POR* #2=(PNOT* (PEQUAL* #3=(CONSP . #4=(X)) . #5=((QUOTE NIL)))) #6=(POR* #7=(PNOT* (PEQUAL* #8=(CONSP . #9=(Y)) . #5#))
. #10=(#11=(PEQUAL* #12=(ORD< . #13=(X . #9#)) . #14=(#15=(< . #13#)))))) (CONTRACTION #1# ((CUT (POR* #1# . #16=(#1#)) ((CUT (POR*
#17=(PEQUAL* #12# #18=(IF #3# #19=(IF #8# (IF (EQUAL . #20=((CAR . #21=((CAR . #4#))) (CAR . #22=((CAR . #9#))))) (IF (EQUAL . #23=((CDR .
#21#) (CDR . #22#))) (ORD< (CDR . #4#) (CDR . #9#)) (< . #23#)) (ORD< . #20#)) . #5#) . #24=(#25=(IF #8# #26=(QUOTE T) . #14#)))) . #16#)
((EXPANSION (POR* #1# . #27=(#17#)) ((AXIOM . #27#))) . #28=((PROPOSITIONAL-SCHEMA (POR* (PNOT* . #16#) . #16#))))) (CUT (POR* #29=(PNOT*
. #27#) . #16#) ((ASSOCIATIVITY (POR* #1# . #30=(#29#)) ((CUT (POR* #2# . #31=(#32=(POR* #6# . #30#))) ((CUT (POR* #33=(PEQUAL* #18# .
#24#) . #34=(#2#)) ((INSTANTIATION (POR* #2# . #35=(#33#)) #36=((AXIOM (POR* (PNOT* (PEQUAL* X . #5#)) (PEQUAL* (IF X . #37=(Y . #38=(Z)))
. #38#)))) ((X . #3#) (Y . #19#) . #39=((Z . #25#)))) (PROPOSITIONAL-SCHEMA (POR* (PNOT* . #34#) . #34#)))) (CUT (POR* #40=(PNOT* . #35#)
. #31#) ((ASSOCIATIVITY (POR* #32# . #41=(#40#)) ((ASSOCIATIVITY (POR* #6# . #42=(#43=(POR* #29# . #41#))) ((CUT (POR* #7# .
#44=(#45=(POR* #11# . #42#))) ((CUT (POR* #46=(PEQUAL* #25# . #14#) . #47=(#7#)) ((INSTANTIATION (POR* #7# . #48=(#46#)) #36# ((X . #8#)
(Y . #26#) . #49=((Z . #15#)))) (PROPOSITIONAL-SCHEMA (POR* (PNOT* . #47#) . #47#)))) (CUT (POR* #50=(PNOT* . #48#) . #44#)
((ASSOCIATIVITY (POR* #45# . #51=(#50#)) ((CUT (POR* #11# . #52=(#53=(POR* #43# . #51#))) ((ASSOCIATIVITY (POR* #53# . #10#) ((CUT (POR*
#43# . #54=((POR* #50# . #10#))) ((CUT (POR* #55=(PEQUAL* #12# . #24#) . #42#) ((ASSOCIATIVITY (POR* #43# . #56=(#55#)) ((INSTANTIATION
(POR* #29# (POR* #40# . #56#)) #57=((THEOREM (POR* (PNOT* (PEQUAL* . #13#)) (POR* (PNOT* (PEQUAL* . #37#)) (PEQUAL* X . #38#))))) (#58=(X
. #12#) (Y . #18#) . #39#)))) (PROPOSITIONAL-SCHEMA (POR* (PNOT* . #42#) . #42#)))) (INSTANTIATION (POR* (PNOT* . #56#) . #54#) #57# (#58#
(Y . #25#) . #49#)))))) (PROPOSITIONAL-SCHEMA (POR* (PNOT* . #52#) . #52#)))))) (PROPOSITIONAL-SCHEMA (POR* (PNOT* . #44#) .
#44#)))))))))) (PROPOSITIONAL-SCHEMA (POR* (PNOT* . #31#) . #31#)))))))) . #28#)))))))

; What equals a natural is one.
(VERIFY NATURAL-TWIN #1=(POR* #2=(PNOT* (PEQUAL* X . #3=(Y))) . #4=((POR* (PNOT* (PEQUAL* #5=(NATP . #3#) . #6=(#7=(QUOTE T)))) (PEQUAL*
#8=(NATP X) . #6#)))) (CUT #1# ((CUT (POR* #9=(PEQUAL* #8# #5#) . #10=(#2#)) ((FUNCTIONAL-EQUALITY (POR* #2# . #11=(#9#)))
(PROPOSITIONAL-SCHEMA (POR* (PNOT* . #10#) . #10#)))) (INSTANTIATION (POR* (PNOT* . #11#) . #4#) ((THEOREM (POR* #2# (POR* (PNOT* (PEQUAL*
Y . #12=(Z))) (PEQUAL* X . #12#))))) ((X . #8#) (Y . #5#) (Z . #7#))))))

; A rank is a natural,
(VERIFY RANK-NATURAL #1=(PEQUAL* (NATP #2=(RANK . #3=(X))) . #4=((QUOTE T))) (CONTRACTION #1# ((CUT (POR* #1# . #5=(#1#)) ((CUT (POR*
#6=(PEQUAL* (NATP . #7=(#8=(IF #9=(CONSP . #3#) #10=(+ #11=(QUOTE 1) #12=(+ (RANK (CAR . #3#)) (RANK (CDR . #3#)))) . #13=(#14=(QUOTE
0))))) . #4#) . #5#) ((EXPANSION (POR* #1# . #15=(#6#)) ((CONTRACTION #6# ((CUT #16=(POR* #6# . #15#) ((CONTRACTION #16# ((CUT (POR* #16#
. #17=(#16#)) ((CUT #18=(POR* #6# . #17#) ((ASSOCIATIVITY #19=(POR* #16# . #15#) ((CUT #18# ((ASSOCIATIVITY #19# ((CUT #18# ((CUT #19#
((EXPANSION #18# ((CUT #16# ((CUT (POR* #20=(PEQUAL* #8# . #21=(#10#)) . #15#) ((CUT (POR* #22=(PEQUAL* #8# . #13#) . #23=(#20#)) ((CUT
(POR* #20# . #24=(#22#)) ((INSTANTIATION (POR* #25=(PEQUAL* #9# . #26=((QUOTE NIL))) . #23#) ((AXIOM (POR* #27=(PEQUAL* X . #26#) (PEQUAL*
#28=(IF X Y . #29=(Z)) . #30=(Y))))) . #31=(((X . #9#) #32=(Y . #10#) (Z . #14#)))) (INSTANTIATION (POR* (PNOT* #25#) . #24#) ((AXIOM
(POR* (PNOT* #27#) (PEQUAL* #28# . #29#)))) . #31#))) (PROPOSITIONAL-SCHEMA (POR* #33=(PNOT* . #23#) . #23#)))) (CONTRACTION #34=(POR*
#35=(PNOT* . #24#) . #15#) ((CUT (POR* #34# . #36=(#34#)) ((CONTRACTION #37=(POR* #35# . #36#) ((CUT (POR* #37# . #38=(#37#)) ((CUT (POR*
#6# . #38#) ((ASSOCIATIVITY (POR* #37# . #15#) ((CUT (POR* #35# . #39=(#40=(POR* #34# . #15#))) ((ASSOCIATIVITY (POR* #40# . #41=(#35#))
((CUT #42=(POR* #34# . #43=(#44=(POR* #6# . #41#))) ((CUT (POR* #44# . #36#) ((EXPANSION #42# ((CONTRACTION #44# ((CUT (POR* #44# . #43#)
((CUT (POR* #45=(PEQUAL* (NATP . #13#) . #4#) . #43#) ((EXPANSION (POR* #44# . #46=(#45#)) ((BASE-EVAL . #46#))) .
#47=((PROPOSITIONAL-SCHEMA (POR* (PNOT* . #43#) . #43#))))) (CUT (POR* #48=(PNOT* . #46#) . #43#) ((ASSOCIATIVITY (POR* #44# . #49=(#48#))
((CUT (POR* #6# . #50=(#51=(POR* #35# . #49#))) ((ASSOCIATIVITY (POR* #51# . #15#) ((INSTANTIATION (POR* #35# (POR* #48# . #15#))
#52=((THEOREM (POR* (PNOT* (PEQUAL* X . #30#)) (POR* (PNOT* (PEQUAL* (NATP . #30#) . #4#)) (PEQUAL* (NATP . #3#) . #4#))))) (#53=(X . #8#)
(Y . #14#))))) (PROPOSITIONAL-SCHEMA (POR* (PNOT* . #50#) . #50#)))))) . #47#)))))))) . #54=((PROPOSITIONAL-SCHEMA (POR* (PNOT* . #36#) .
#36#))))) . #47#)))) (PROPOSITIONAL-SCHEMA (POR* (PNOT* . #39#) . #39#)))))) . #55=((PROPOSITIONAL-SCHEMA (POR* (PNOT* . #38#) . #38#)))))
(CUT (POR* #56=(PNOT* . #15#) . #38#) ((ASSOCIATIVITY (POR* #37# . #57=(#56#)) ((EXPANSION (POR* #35# #58=(POR* #34# . #57#)) ((CUT #58#
((CUT (POR* #56# . #36#) ((ASSOCIATIVITY #58# ((EXPANSION (POR* #35# . #59=(#60=(POR* #6# . #57#))) . #61=(((CUT #60#
(#62=(PROPOSITIONAL-SCHEMA (POR* #56# . #15#)) . #63=((PROPOSITIONAL-SCHEMA (POR* (PNOT* . #57#) . #57#)))))))))) . #54#)) . #63#)))))) .
#55#)))))) (CUT (POR* #64=(PNOT* . #41#) . #36#) ((ASSOCIATIVITY (POR* #34# . #65=(#64#)) ((CUT (POR* #35# . #66=(#67=(POR* #6# . #65#)))
((ASSOCIATIVITY (POR* #67# . #41#) ((EXPANSION (POR* #6# . #68=((POR* #64# . #41#))) ((PROPOSITIONAL-SCHEMA . #68#)))))
(PROPOSITIONAL-SCHEMA (POR* (PNOT* . #66#) . #66#)))))) . #54#)))))))) (CONTRACTION #69=(POR* #33# . #15#) ((CUT (POR* #69# . #70=(#69#))
((CONTRACTION #71=(POR* #33# . #70#) ((CUT (POR* #71# . #72=(#71#)) ((CUT (POR* #6# . #72#) ((ASSOCIATIVITY (POR* #71# . #15#) ((CUT (POR*
#33# . #73=(#74=(POR* #69# . #15#))) ((ASSOCIATIVITY (POR* #74# . #75=(#33#)) ((CUT #76=(POR* #69# . #77=(#78=(POR* #6# . #75#))) ((CUT
(POR* #78# . #70#) ((EXPANSION #76# ((CONTRACTION #78# ((CUT (POR* #78# . #77#) ((CUT (POR* #79=(PEQUAL* (NATP . #21#) . #4#) . #77#)
((EXPANSION (POR* #78# . #80=(#79#)) ((INSTANTIATION #79# ((AXIOM (PEQUAL* (NATP (+ A B)) . #4#))) ((A . #11#) (B . #12#))))) .
#81=((PROPOSITIONAL-SCHEMA (POR* (PNOT* . #77#) . #77#))))) (CUT (POR* #82=(PNOT* . #80#) . #77#) ((ASSOCIATIVITY (POR* #78# . #83=(#82#))
((CUT (POR* #6# . #84=(#85=(POR* #33# . #83#))) ((ASSOCIATIVITY (POR* #85# . #15#) ((INSTANTIATION (POR* #33# (POR* #82# . #15#)) #52#
(#53# #32#)))) (PROPOSITIONAL-SCHEMA (POR* (PNOT* . #84#) . #84#)))))) . #81#)))))))) . #86=((PROPOSITIONAL-SCHEMA (POR* (PNOT* . #70#) .
#70#))))) . #81#)))) (PROPOSITIONAL-SCHEMA (POR* (PNOT* . #73#) . #73#)))))) . #87=((PROPOSITIONAL-SCHEMA (POR* (PNOT* . #72#) . #72#)))))
(CUT (POR* #56# . #72#) ((ASSOCIATIVITY (POR* #71# . #57#) ((EXPANSION (POR* #33# #88=(POR* #69# . #57#)) ((CUT #88# ((CUT (POR* #56# .
#70#) ((ASSOCIATIVITY #88# ((EXPANSION (POR* #33# . #59#) . #61#))) . #86#)) . #63#)))))) . #87#)))))) (CUT (POR* #89=(PNOT* . #75#) .
#70#) ((ASSOCIATIVITY (POR* #69# . #90=(#89#)) ((CUT (POR* #33# . #91=(#92=(POR* #6# . #90#))) ((ASSOCIATIVITY (POR* #92# . #75#)
((EXPANSION (POR* #6# . #93=((POR* #89# . #75#))) ((PROPOSITIONAL-SCHEMA . #93#))))) (PROPOSITIONAL-SCHEMA (POR* (PNOT* . #91#) .
#91#)))))) . #86#)))))))))) . #94=(#62#))) . #95=((PROPOSITIONAL-SCHEMA (POR* (PNOT* . #17#) . #17#))))))) . #95#)))) . #95#)) (CUT (POR*
#56# . #17#) ((ASSOCIATIVITY (POR* #16# . #57#) ((EXPANSION (POR* #6# . #59#) . #61#))) . #95#)))))) . #94#)))))) (PROPOSITIONAL-SCHEMA
(POR* (PNOT* . #5#) . #5#)))) (CONTRACTION #96=(POR* #56# . #5#) ((CUT (POR* #96# . #97=(#96#)) ((CUT (POR* #98=(PEQUAL* #2# . #7#) .
#97#) ((EXPANSION (POR* #96# . #99=(#98#)) ((AXIOM . #99#))) (PROPOSITIONAL-SCHEMA (POR* (PNOT* . #97#) . #97#)))) (INSTANTIATION (POR*
(PNOT* . #99#) . #97#) #52# ((X . #2#) (Y . #8#))))))))))))

; so it is no pair.
(VERIFY RANK-NO-PAIR #1=(PEQUAL* (CONSP . #2=(#3=(RANK . #4=(X)))) . #5=((QUOTE NIL))) (CONTRACTION #1# ((CUT (POR* #1# . #6=(#1#)) ((CUT
(POR* #7=(PEQUAL* (NATP . #2#) . #8=((QUOTE T))) . #6#) ((EXPANSION (POR* #1# . #9=(#7#)) ((THEOREM . #9#))) (PROPOSITIONAL-SCHEMA (POR*
(PNOT* . #6#) . #6#)))) (INSTANTIATION (POR* (PNOT* . #9#) . #6#) ((THEOREM (POR* (PNOT* (PEQUAL* (NATP . #4#) . #8#)) (PEQUAL* (CONSP .
#4#) . #5#)))) ((X . #3#))))))))

; One more than a natural is above 0.
(VERIFY POSITIVE #1=(PEQUAL* (< #2=(QUOTE 0) . #3=(#4=(+ #5=(QUOTE 1) . #6=(A)))) . #7=(#8=(QUOTE T))) (CONTRACTION #1# ((CUT (POR* #1# .
#9=(#1#)) ((CUT (POR* #10=(PEQUAL* #11=(NATP . #3#) . #12=(#13=(QUOTE NIL))) . #9#) ((CONTRACTION #14=(POR* #1# . #15=(#10#)) ((CUT (POR*
#14# . #16=(#14#)) ((CONTRACTION #17=(POR* #18=(PEQUAL* #19=(< A . #3#) . #12#) . #16#) ((CUT (POR* #17# . #20=(#17#)) ((CUT (POR*
#21=(PEQUAL* #22=(< . #23=(A . #24=(#2#))) . #12#) . #20#) ((EXPANSION (POR* #17# . #25=(#21#)) ((AXIOM . #25#))) .
#26=((PROPOSITIONAL-SCHEMA (POR* (PNOT* . #20#) . #20#))))) (CUT (POR* #27=(PNOT* . #25#) . #20#) ((ASSOCIATIVITY (POR* #17# . #28=(#27#))
((CUT (POR* #18# . #29=(#30=(POR* #14# . #28#))) ((ASSOCIATIVITY (POR* #30# . #31=(#18#)) ((CUT (POR* #14# . #32=((POR* #27# . #31#)))
((CUT (POR* #33=(PEQUAL* #4# . #24#) . #16#) ((ASSOCIATIVITY (POR* #14# . #34=(#33#)) ((CUT (POR* #1# . #35=(#36=(POR* #10# . #34#)))
((ASSOCIATIVITY (POR* #36# . #9#) ((INSTANTIATION (POR* #10# (POR* #33# . #9#)) ((AXIOM (POR* (PEQUAL* (NATP . #6#) . #12#) (POR* (PEQUAL*
. #23#) (PEQUAL* (< #2# . #6#) . #7#))))) ((A . #4#))))) (PROPOSITIONAL-SCHEMA (POR* (PNOT* . #35#) . #35#)))))) .
#37=((PROPOSITIONAL-SCHEMA (POR* (PNOT* . #16#) . #16#))))) (CUT (POR* #38=(PNOT* . #34#) . #32#) ((CUT (POR* #39=(PEQUAL* #19# #22#) .
#40=(#38#)) ((CONTRACTION #41=(POR* #38# . #42=(#39#)) ((CUT (POR* #41# . #43=(#41#)) ((CUT (POR* #44=(PEQUAL* A . #6#) . #43#)
((EXPANSION (POR* #41# . #45=(#44#)) . #46=(((INSTANTIATION #44# ((AXIOM (PEQUAL* X X))) ((X . A)))))) (PROPOSITIONAL-SCHEMA (POR* (PNOT*
. #43#) . #43#)))) (FUNCTIONAL-EQUALITY (POR* #47=(PNOT* . #45#) . #43#)))))) (PROPOSITIONAL-SCHEMA (POR* (PNOT* . #40#) . #40#))))
(INSTANTIATION (POR* (PNOT* . #42#) . #32#) #48=((THEOREM (POR* (PNOT* (PEQUAL* X Y)) (POR* (PNOT* (PEQUAL* Y . #49=(Z))) (PEQUAL* X .
#49#))))) (#50=(X . #19#) (Y . #22#) (Z . #13#))))))))) (PROPOSITIONAL-SCHEMA (POR* (PNOT* . #29#) . #29#)))))) . #26#)))))) (CUT (POR*
#51=(PNOT* . #31#) . #16#) ((EXPANSION (POR* #14# . #52=(#51#)) ((CONTRACTION #51# ((CUT (POR* #51# . #52#) ((CUT (POR* #53=(PEQUAL* #19#
. #7#) . #52#) ((EXPANSION (POR* #51# . #54=(#53#)) ((CONTRACTION #53# ((CUT (POR* #53# . #54#) ((CUT (POR* #55=(PEQUAL* #56=(< A .
#57=((+ A #5#))) . #7#) . #54#) ((EXPANSION (POR* #53# . #58=(#55#)) ((AXIOM . #58#))) (PROPOSITIONAL-SCHEMA (POR* #59=(PNOT* . #54#) .
#54#)))) (CONTRACTION #60=(POR* (PNOT* . #58#) . #54#) ((CUT (POR* #60# . #61=(#60#)) ((CUT (POR* #62=(PEQUAL* #19# #56#) . #61#)
((EXPANSION (POR* #60# . #63=(#62#)) ((CONTRACTION #62# ((CUT (POR* #62# . #63#) ((CUT (POR* #64=(PEQUAL* #4# . #57#) . #63#) ((EXPANSION
(POR* #62# . #65=(#64#)) ((INSTANTIATION #64# ((AXIOM (PEQUAL* #66=(+ A B) (+ B . #6#)))) . #67=(((A . #5#) (B . A))))))
(PROPOSITIONAL-SCHEMA (POR* #68=(PNOT* . #63#) . #63#)))) (CONTRACTION #69=(POR* (PNOT* . #65#) . #63#) ((CUT (POR* #69# . #70=(#69#))
((CUT (POR* #44# . #70#) ((EXPANSION (POR* #69# . #45#) . #46#) (PROPOSITIONAL-SCHEMA (POR* (PNOT* . #70#) . #70#)))) (FUNCTIONAL-EQUALITY
(POR* #47# . #70#)))))))))))) (PROPOSITIONAL-SCHEMA (POR* (PNOT* . #61#) . #61#)))) (INSTANTIATION (POR* #68# . #61#) #48# (#50# (Y .
#56#) (Z . #8#))))))))))))) (PROPOSITIONAL-SCHEMA (POR* (PNOT* . #52#) . #52#)))) (INSTANTIATION (POR* #59# . #52#) #71=((THEOREM (POR*
(PNOT* (PEQUAL* X . #7#)) (PNOT* (PEQUAL* X . #12#))))) (#50#)))))))) . #37#)))))) . #72=((PROPOSITIONAL-SCHEMA (POR* (PNOT* . #9#) .
#9#))))) (CUT (POR* #73=(PNOT* . #15#) . #9#) ((EXPANSION (POR* #1# . #74=(#73#)) ((CONTRACTION #73# ((CUT (POR* #73# . #74#) ((CUT (POR*
#75=(PEQUAL* #11# . #7#) . #74#) ((EXPANSION (POR* #73# . #76=(#75#)) ((INSTANTIATION #75# ((AXIOM (PEQUAL* (NATP #66#) . #7#))) . #67#)))
(PROPOSITIONAL-SCHEMA (POR* (PNOT* . #74#) . #74#)))) (INSTANTIATION (POR* (PNOT* . #76#) . #74#) #71# ((X . #11#))))))))) . #72#)))))))

; The order of ranks is that of naturals.
(VERIFY RANK-ORDER #1=(PEQUAL* (ORD< . #2=(#3=(RANK . #4=(X)) . #5=(#6=(RANK . #7=(Y))))) (< . #2#)) (CONTRACTION #1# ((CUT (POR* #1# .
#8=(#1#)) ((CUT (POR* #9=(PEQUAL* (CONSP . #5#) . #10=((QUOTE NIL))) . #8#) ((EXPANSION (POR* #1# . #11=(#9#)) ((INSTANTIATION #9#
#12=((THEOREM . #13=(#14=(PEQUAL* (CONSP #3#) . #10#)))) ((X . Y))))) (PROPOSITIONAL-SCHEMA (POR* (PNOT* . #8#) . #8#)))) (CONTRACTION
#15=(POR* (PNOT* . #11#) . #8#) ((CUT (POR* #15# . #16=(#15#)) ((CUT (POR* #14# . #16#) ((EXPANSION (POR* #15# . #13#) #12#)
(PROPOSITIONAL-SCHEMA (POR* (PNOT* . #16#) . #16#)))) (INSTANTIATION (POR* (PNOT* . #13#) . #16#) ((THEOREM (POR* (PNOT* (PEQUAL* (CONSP .
#4#) . #10#)) (POR* (PNOT* (PEQUAL* (CONSP . #7#) . #10#)) (PEQUAL* (ORD< . #17=(X . #7#)) (< . #17#)))))) ((X . #3#) (Y . #6#))))))))))))

; A rank is an ordinal.
(VERIFY RANK-ORDINAL #1=(PEQUAL* #2=(ORDP . #3=(#4=(RANK . #5=(X)))) . #6=(#7=(QUOTE T))) (CONTRACTION #1# ((CUT (POR* #1# . #8=(#1#))
((CUT (POR* #9=(PEQUAL* #10=(NATP . #3#) . #6#) . #8#) ((EXPANSION (POR* #1# . #11=(#9#)) ((THEOREM . #11#))) (PROPOSITIONAL-SCHEMA (POR*
(PNOT* . #8#) . #8#)))) (CONTRACTION #12=(POR* (PNOT* . #11#) . #8#) ((CUT (POR* #12# . #13=(#12#)) ((CUT (POR* #14=(PEQUAL* #2# #10#) .
#13#) ((EXPANSION (POR* #12# . #15=(#14#)) ((CONTRACTION #14# ((CUT (POR* #14# . #15#) ((CUT (POR* #16=(PEQUAL* (CONSP . #3#) .
#17=((QUOTE NIL))) . #15#) ((EXPANSION (POR* #14# . #18=(#16#)) ((THEOREM . #18#))) (PROPOSITIONAL-SCHEMA (POR* #19=(PNOT* . #15#) .
#15#)))) (INSTANTIATION (POR* (PNOT* . #18#) . #15#) ((THEOREM (POR* (PNOT* (PEQUAL* (CONSP . #5#) . #17#)) (PEQUAL* (ORDP . #5#) (NATP .
#5#))))) ((X . #4#))))))))) (PROPOSITIONAL-SCHEMA (POR* (PNOT* . #13#) . #13#)))) (INSTANTIATION (POR* #19# . #13#) ((THEOREM (POR* (PNOT*
(PEQUAL* X Y)) (POR* (PNOT* (PEQUAL* Y . #20=(Z))) (PEQUAL* X . #20#))))) ((X . #2#) (Y . #10#) (Z . #7#))))))))))))

; The rest of a pair has a smaller rank.
(VERIFY RANK-FALLS #1=(POR* #2=(PEQUAL* #3=(CONSP . #4=(X)) . #5=((QUOTE NIL))) . #6=((PEQUAL* #7=(ORD< . #8=(#9=(RANK #10=(CDR . #4#)) .
#11=(#12=(RANK . #4#)))) . #13=(#14=(QUOTE T))))) (CUT #1# ((CUT (POR* #15=(PEQUAL* #16=(IF #3# #17=(+ #18=(QUOTE 1) (+ #19=(RANK (CAR .
#4#)) . #20=(#9#))) . #21=(#22=(QUOTE 0))) . #23=(#17#)) . #24=(#2#)) ((INSTANTIATION (POR* #2# . #25=(#15#)) ((AXIOM (POR* #26=(PEQUAL* X
. #5#) (PEQUAL* (IF X . #27=(Y . #28=(Z))) . #29=(Y))))) ((X . #3#) #30=(Y . #17#) (Z . #22#))) (PROPOSITIONAL-SCHEMA (POR* (PNOT* . #24#)
. #24#)))) (CUT (POR* #31=(PNOT* . #25#) . #6#) ((CUT (POR* #32=(PEQUAL* #12# . #23#) . #33=(#31#)) ((CONTRACTION #34=(POR* #31# .
#35=(#32#)) ((CUT (POR* #34# . #36=(#34#)) ((CUT (POR* #37=(PEQUAL* #12# #16#) . #36#) ((EXPANSION (POR* #34# . #38=(#37#)) ((AXIOM .
#38#))) (PROPOSITIONAL-SCHEMA (POR* (PNOT* . #36#) . #36#)))) (INSTANTIATION (POR* (PNOT* . #38#) . #36#) #39=((THEOREM (POR* #40=(PNOT*
(PEQUAL* X . #29#)) (POR* (PNOT* (PEQUAL* . #27#)) (PEQUAL* X . #28#))))) ((X . #12#) (Y . #16#) (Z . #17#))))))) (PROPOSITIONAL-SCHEMA
(POR* (PNOT* . #33#) . #33#)))) (CUT (POR* #41=(PNOT* . #35#) . #6#) ((CUT (POR* #42=(PEQUAL* #43=(< . #8#) #44=(< #9# . #23#)) .
#45=(#41#)) ((CONTRACTION #46=(POR* #41# . #47=(#42#)) ((CUT (POR* #46# . #48=(#46#)) ((CUT (POR* #49=(PEQUAL* #9# . #20#) . #48#)
((EXPANSION (POR* #46# . #50=(#49#)) ((INSTANTIATION #49# ((AXIOM (PEQUAL* X . #4#))) ((X . #9#))))) (PROPOSITIONAL-SCHEMA (POR* (PNOT* .
#48#) . #48#)))) (FUNCTIONAL-EQUALITY (POR* (PNOT* . #50#) . #48#)))))) (PROPOSITIONAL-SCHEMA (POR* (PNOT* . #45#) . #45#)))) (CUT (POR*
#51=(PNOT* . #47#) . #6#) ((CUT #52=(POR* #53=(PEQUAL* #43# . #13#) . #54=(#51#)) ((CONTRACTION #55=(POR* #51# . #56=(#53#)) ((CUT (POR*
#55# . #57=(#55#)) ((CONTRACTION #58=(POR* #51# . #57#) ((CUT (POR* #58# . #59=(#58#)) ((CUT (POR* #53# . #59#) ((ASSOCIATIVITY (POR* #58#
. #56#) ((CUT (POR* #51# . #60=(#61=(POR* #55# . #56#))) ((ASSOCIATIVITY (POR* #61# . #54#) ((CUT #62=(POR* #55# . #63=(#52#)) ((CUT (POR*
#52# . #57#) ((EXPANSION #62# ((CONTRACTION #52# ((CUT (POR* #52# . #63#) ((CUT (POR* #64=(PEQUAL* #44# . #13#) . #63#) ((EXPANSION (POR*
#52# . #65=(#64#)) ((CONTRACTION #64# ((CUT (POR* #64# . #65#) ((CUT (POR* #66=(PEQUAL* #67=(< #22# . #68=(#69=(+ #18# #19#))) . #13#) .
#65#) ((EXPANSION (POR* #64# . #70=(#66#)) ((INSTANTIATION #66# ((THEOREM (PEQUAL* (< #22# (+ #18# . #71=(A))) . #13#))) ((A . #19#)))))
(PROPOSITIONAL-SCHEMA (POR* #72=(PNOT* . #65#) . #65#)))) (CONTRACTION #73=(POR* (PNOT* . #70#) . #65#) ((CUT (POR* #73# . #74=(#73#))
((CUT (POR* #75=(PEQUAL* #44# . #76=(#67#)) . #74#) ((EXPANSION (POR* #73# . #77=(#75#)) ((CONTRACTION #75# ((CUT (POR* #75# . #77#) ((CUT
(POR* #78=(PEQUAL* #79=(< #80=(+ #9# . #21#) . #81=(#82=(+ #9# . #68#))) . #76#) . #77#) ((EXPANSION (POR* #75# . #83=(#78#))
((INSTANTIATION #78# ((AXIOM (PEQUAL* (< #84=(+ A B) (+ A . #85=(C))) (< . #86=(B . #85#))))) (#87=(A . #9#) (B . #22#) (C . #69#)))))
(PROPOSITIONAL-SCHEMA (POR* #88=(PNOT* . #77#) . #77#)))) (CONTRACTION #89=(POR* (PNOT* . #83#) . #77#) ((CUT (POR* #89# . #90=(#89#))
((CUT (POR* #91=(PEQUAL* #44# #79#) . #90#) ((EXPANSION (POR* #89# . #92=(#91#)) ((CONTRACTION #91# ((CUT (POR* #91# . #92#) ((CUT (POR*
#93=(PEQUAL* #17# . #81#) . #92#) ((EXPANSION (POR* #91# . #94=(#93#)) ((CONTRACTION #93# ((CUT (POR* #93# . #94#) ((CUT (POR*
#95=(PEQUAL* #96=(+ #69# . #20#) . #81#) . #94#) ((EXPANSION (POR* #93# . #97=(#95#)) ((INSTANTIATION #95# ((AXIOM (PEQUAL* #84# (+ B .
#71#)))) ((A . #69#) (B . #9#))))) (PROPOSITIONAL-SCHEMA (POR* #98=(PNOT* . #94#) . #94#)))) (CONTRACTION #99=(POR* (PNOT* . #97#) . #94#)
((CUT (POR* #99# . #100=(#99#)) ((CUT (POR* #101=(PEQUAL* #17# #96#) . #100#) ((EXPANSION (POR* #99# . #102=(#101#)) ((CONTRACTION #101#
((CUT (POR* #101# . #102#) ((CUT (POR* #103=(PEQUAL* #96# . #23#) . #102#) ((EXPANSION (POR* #101# . #104=(#103#)) ((INSTANTIATION #103#
((AXIOM (PEQUAL* (+ #84# . #85#) (+ A (+ . #86#))))) ((A . #18#) (B . #19#) (C . #9#))))) (PROPOSITIONAL-SCHEMA (POR* #105=(PNOT* . #102#)
. #102#)))) (INSTANTIATION (POR* (PNOT* . #104#) . #102#) #106=((THEOREM (POR* #40# (PEQUAL* Y . #4#)))) ((X . #96#) #30#))))))))
(PROPOSITIONAL-SCHEMA (POR* (PNOT* . #100#) . #100#)))) (INSTANTIATION (POR* #105# . #100#) #39# ((X . #17#) (Y . #96#) (Z .
#82#))))))))))))) (PROPOSITIONAL-SCHEMA (POR* #107=(PNOT* . #92#) . #92#)))) (CONTRACTION #108=(POR* #98# . #92#) ((CUT (POR* #108# .
#109=(#108#)) ((CUT (POR* #110=(PEQUAL* #9# #80#) . #109#) ((EXPANSION (POR* #108# . #111=(#110#)) ((CONTRACTION #110# ((CUT (POR* #110# .
#111#) ((CUT (POR* #112=(PEQUAL* #80# . #20#) . #111#) ((EXPANSION (POR* #110# . #113=(#112#)) ((CONTRACTION #112# ((CUT (POR* #112# .
#113#) ((INSTANTIATION (POR* #114=(PEQUAL* #115=(NATP . #20#) . #5#) . #113#) ((AXIOM (POR* (PEQUAL* (NATP . #71#) . #5#) (PEQUAL* (+ A .
#21#) . #71#)))) (#87#)) (CUT (POR* #116=(PNOT* #114#) . #113#) ((EXPANSION (POR* #112# . #117=(#116#)) ((CONTRACTION #116# ((CUT (POR*
#116# . #117#) ((CUT (POR* #118=(PEQUAL* #115# . #13#) . #117#) ((EXPANSION (POR* #116# . #119=(#118#)) ((INSTANTIATION #118# ((THEOREM
(PEQUAL* (NATP . #11#) . #13#))) (#120=(X . #10#))))) (PROPOSITIONAL-SCHEMA (POR* (PNOT* . #117#) . #117#)))) (INSTANTIATION (POR* (PNOT*
. #119#) . #117#) ((THEOREM (POR* (PNOT* (PEQUAL* X . #13#)) (PNOT* #26#)))) ((X . #115#))))))))) (PROPOSITIONAL-SCHEMA (POR* #121=(PNOT*
. #113#) . #113#)))))))))) (PROPOSITIONAL-SCHEMA (POR* #122=(PNOT* . #111#) . #111#)))) (INSTANTIATION (POR* #121# . #111#) #106# ((X .
#80#) (Y . #9#))))))))) (PROPOSITIONAL-SCHEMA (POR* (PNOT* . #109#) . #109#)))) (FUNCTIONAL-EQUALITY (POR* #122# . #109#))))))))))))
(PROPOSITIONAL-SCHEMA (POR* (PNOT* . #90#) . #90#)))) (INSTANTIATION (POR* #107# . #90#) #39# (#123=(X . #44#) (Y . #79#) (Z .
#67#))))))))))))) (PROPOSITIONAL-SCHEMA (POR* (PNOT* . #74#) . #74#)))) (INSTANTIATION (POR* #88# . #74#) #39# (#123# (Y . #67#) .
#124=((Z . #14#)))))))))))))) . #125=((PROPOSITIONAL-SCHEMA (POR* (PNOT* . #63#) . #63#))))) (CUT (POR* #72# . #63#) ((ASSOCIATIVITY (POR*
#52# . #126=(#72#)) ((CUT (POR* #53# . #127=(#128=(POR* #51# . #126#))) ((ASSOCIATIVITY (POR* #128# . #56#) ((INSTANTIATION (POR* #51#
(POR* #72# . #56#)) #39# ((X . #43#) (Y . #44#) . #124#)))) (PROPOSITIONAL-SCHEMA (POR* (PNOT* . #127#) . #127#)))))) . #125#)))))))) .
#129=((PROPOSITIONAL-SCHEMA (POR* (PNOT* . #57#) . #57#))))) . #125#)))) (PROPOSITIONAL-SCHEMA (POR* (PNOT* . #60#) . #60#)))))) .
#130=((PROPOSITIONAL-SCHEMA (POR* (PNOT* . #59#) . #59#))))) (CUT (POR* #131=(PNOT* . #56#) . #59#) ((ASSOCIATIVITY (POR* #58# .
#132=(#131#)) ((EXPANSION (POR* #51# #133=(POR* #55# . #132#)) ((CUT #133# ((CUT (POR* #131# . #57#) ((ASSOCIATIVITY #133# ((EXPANSION
(POR* #51# #134=(POR* #53# . #132#)) ((CUT #134# ((PROPOSITIONAL-SCHEMA (POR* #131# . #56#)) . #135=((PROPOSITIONAL-SCHEMA (POR* (PNOT* .
#132#) . #132#))))))))) . #129#)) . #135#)))))) . #130#)))))) (CUT (POR* #136=(PNOT* . #54#) . #57#) ((ASSOCIATIVITY (POR* #55# .
#137=(#136#)) ((CUT (POR* #51# . #138=(#139=(POR* #53# . #137#))) ((ASSOCIATIVITY (POR* #139# . #54#) ((EXPANSION (POR* #53# . #140=((POR*
#136# . #54#))) #141=((PROPOSITIONAL-SCHEMA . #140#))))) (PROPOSITIONAL-SCHEMA (POR* (PNOT* . #138#) . #138#)))))) . #129#)))))) . #141#))
(CONTRACTION #142=(POR* #131# . #6#) ((CUT (POR* #142# . #143=(#142#)) ((CUT (POR* #144=(PEQUAL* #7# #43#) . #143#) ((EXPANSION (POR*
#142# . #145=(#144#)) ((INSTANTIATION #144# ((THEOREM (PEQUAL* (ORD< . #146=(#12# (RANK . #29#))) (< . #146#)))) (#120# (Y . X)))))
(PROPOSITIONAL-SCHEMA (POR* (PNOT* . #143#) . #143#)))) (INSTANTIATION (POR* (PNOT* . #145#) . #143#) #39# ((X . #7#) (Y . #43#) .
#124#)))))))))))))))
";

const OF_RANKS: &str = "1 VERIFY SYMMETRY accepted
2 VERIFY TRANSITIVITY accepted
3 VERIFY TRUTH accepted
4 VERIFY NATURALS accepted
5 VERIFY ORDINALS accepted
6 VERIFY ORDER accepted
7 VERIFY NATURAL-TWIN accepted
8 VERIFY RANK-NATURAL accepted
9 VERIFY RANK-NO-PAIR accepted
10 VERIFY POSITIVE accepted
11 VERIFY RANK-ORDER accepted
12 VERIFY RANK-ORDINAL accepted
13 VERIFY RANK-FALLS accepted
";

/// The book books/ranks.book.
pub fn ranks_book() -> &'static str {
    RANKS
}

/// How `check` ends under this step limit on the theorems on ranks with these events after them and what it writes, as a row has it, where it
/// does not end with the expected number or the report does not begin with their lines and then the expected ones, and else no text.
pub fn other_report_after_ranks(
    alloc: Global,
    steps: &str,
    events: &str,
    expected: &str,
) -> Result<String, AllocError> {
    let mut book = String::from_str(alloc, ranks_book())?;
    book.push_str(events)?;
    let expected = expected_after(alloc, OF_RANKS, expected)?;
    other_report(alloc, steps, book.as_str(), expected.as_str())
}
