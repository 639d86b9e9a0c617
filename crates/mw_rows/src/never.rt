//! A switch to a checker that accepts nothing.
use crate::row::other_answer;
use std::alloc::{AllocError, Global};

/// A checker that accepts nothing, its claim, the switch to it, and a theorem that it does not take.
pub const NEVER: &str = "(define never (x axioms thms atbl) nil nil ())
(verify claim
 #1=(por* #2=(pequal* (never x axioms thms atbl) 'nil)
          #3=(pnot* (pequal* (logic.provablep (logic.conclusion x) axioms thms atbl) 'nil)))
 (cut #1# ((expansion (por* #3# #2#) ((axiom #2#)))
           (propositional-schema (por* (pnot* #3#) #3#)))))
(switch never)
(verify refl (pequal* x x) (axiom (pequal* x x)))
";

/// The expected report on it.
pub const OF_NEVER: &str = "1 DEFINE NEVER accepted
2 VERIFY CLAIM accepted
3 SWITCH NEVER accepted
4 VERIFY REFL refused NIL
events 4 accepted 3 refused 1 level 2
";

/// How `check` ends on it and what it writes, where this is not the expected answer, and else no text. Each read gives at most the given number of bytes.
pub fn other_answer_on_never(alloc: Global, size: usize) -> Result<String, AllocError> {
    let expected = format!(in alloc; "1\n{OF_NEVER}")?;
    other_answer(alloc, &["check"], NEVER, expected.as_str(), size)
}
