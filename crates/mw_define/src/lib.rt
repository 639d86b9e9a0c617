//! Definitions: their tests, what they owe, and their axioms.
#![tactic(auto)]

mod admission;
mod admitted;
mod axioms;
mod block;
mod collect;
mod descent;
mod draft;
mod drafts;
mod foreseeing;
mod item;
mod known;
mod listed;
mod listing;
mod mention;
mod names;
mod nested;
mod nested_call;
mod newer;
mod obligations;
mod opening;
mod owing;
mod piece;
mod recursion;
mod testing;
mod witness;

pub use admission::{admit_block, admit_block_within, admit_function, admit_function_within};
pub use admitted::{Admitted, Entry, Owed};
pub use block::{add_name, expanded_body};
pub use draft::Draft;
pub use drafts::{are_drafts, read_drafts};
pub use nested_call::{NestedCall, first_nested_call};
pub use newer::arities_of_drafts;
pub use witness::admit_witness;
