//! Proofs as steps: each distinct proof once, after its subproofs, which it names by their numbers; events after such steps, with the
//! numbers in place of their proofs; and a second judge, which goes through logs of these.
#![tactic(auto)]

mod collected;
mod conclusion;
mod entry;
mod flat;
mod flat_event;
mod flattening;
mod item;
mod member;
mod number;
mod numbered;
mod numbers;
mod step;
mod steps;
mod verdict;
mod walk;

pub use flat::{Flat, is_step_word};
pub use flat_event::write_flat;
pub use flattening::flatten;
pub use verdict::{Objection, Verdict};
