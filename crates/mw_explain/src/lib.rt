//! What is shown of a refused event: the first bad part of an object that is not a term or not a formula, what definitions lack, and the
//! condition that fails of the first bad step of a proof.
#![tactic(auto, using(crate::proofs::Growing::growing))]

mod condition;
mod definition;
mod draft_name;
mod extras;
mod formula_part;
mod one_draft;
mod other_variables;
mod place;
mod putting_first;
mod raw_part;
mod raw_parts;
mod shown_part;
mod step_shown;
mod term_part;
mod wrong_shown;

pub use condition::{Wrong, wrong_step};
pub use definition::definition_shown;
pub use formula_part::bad_formula;
pub use raw_part::bad_raw;
pub use shown_part::{arity_shown, part_shown};
pub use term_part::bad_term;
pub use wrong_shown::bad_step_shown;
