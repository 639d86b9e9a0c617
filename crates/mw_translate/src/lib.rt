//! Expansion of raw terms: abbreviations, plain numbers, T and NIL.
#![tactic(auto)]

mod abbreviation;
mod build;
mod calls;
mod context;
mod expansion;
mod folds;
mod let_forms;
mod lets;
mod lists;
mod made;
mod memo;
mod part;
mod places;
mod progress;
mod shape;
mod table;
mod terms;
mod walk;

pub use abbreviation::{Abbreviation, abbreviation_named};
pub use build::{call_of_one, call_of_two, list_of_one, list_of_two, quoted_symbol};
pub use expansion::{Expanded, arities_of, expand, expand_under};
pub use lets::put_before;
pub use table::look_up;
