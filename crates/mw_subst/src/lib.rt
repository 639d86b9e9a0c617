//! Simultaneous substitution of terms for variables.
#![tactic(auto)]

mod formula;
mod instance;
mod memo;
mod part;
mod read;
mod sigma;
mod steps;
mod walk;

pub use formula::formulas_substituted;
pub use instance::is_instance;
pub use read::sigma_of;
pub use sigma::Sigma;
pub use steps::Steps;
pub use walk::{substitute, substitute_counted};
