//! What the words of the command line ask for.
#![tactic(auto)]

mod number;
mod program;
mod theorem_name;
mod words;

pub use theorem_name::TheoremName;
pub use words::{Request, request_of};
