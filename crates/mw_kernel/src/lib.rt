//! The kernel: a theory that is sound, and the events that change it.
#![tactic(auto)]

mod checker;
mod claims;
mod eval;
mod explainer;
mod fate;
mod judging;
mod kernel;
mod rewriting;
mod running;
mod switch;
mod why;

pub use checker::Checker;
pub use claims::claim;
pub use explainer::Explainer;
pub use fate::Fate;
pub use kernel::Kernel;
pub use mw_theory::{Event, event_of};
