//! Proofs by five more rules, made proofs by the twelve methods.
#![tactic(auto)]

mod further;
mod further_step;
mod lower;
mod method;
mod parts;
mod replace;
mod rules;
mod steps;
mod subproofs;
mod turn;
mod walk;

pub use lower::Lower;
