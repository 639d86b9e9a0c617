//! The rules of proof over a heap, by their methods, and the formulas that a proof may cite.
#![tactic(auto)]

mod basis;
mod known;
mod method;
mod rules;

pub use basis::Basis;
pub use known::Known;
pub use method::Method;
pub use rules::{follows, is_known};
