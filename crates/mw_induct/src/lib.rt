//! The rule of induction, as a test on the conclusions of its premises.
#![tactic(auto)]

mod cases;
mod falls;
mod instance;
mod looks;
mod premises;
mod scheme;
mod shapes;
mod steps;

pub use premises::premises_hold;
