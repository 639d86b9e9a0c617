//! What is shown of an event that is refused: of its name, its formula, its definitions or its proofs what is wrong.
#![tactic(auto, using(crate::proofs::Growing::growing))]

mod definitions;
mod event_parts;
mod explainer;
mod proofs;

pub use explainer::EventParts;
