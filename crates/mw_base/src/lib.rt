//! The values of the primitive functions, and the rule of proof that computes them.
#![tactic(auto)]

mod answers;
mod application;
mod applied;
mod compare;
mod constants;
mod rule;
mod truths;
mod values;

pub use application::{apply, apply_reserved};
pub use applied::Applied;
pub use constants::{are_constants, is_constant};
pub use rule::base_eval;
pub use truths::Truths;
pub use values::blocks_of_names;
