// Truth in the standard model: laws that each step of a theory keeps it.
#![tactic(auto)]

pub mod admission;
pub mod axioms;
pub mod methods;
pub mod soundness;
