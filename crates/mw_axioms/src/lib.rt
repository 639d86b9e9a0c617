//! The axioms of the primitives, as objects in a heap.
#![tactic(auto)]

mod axioms;
mod table;

pub use axioms::{Axioms, build};
