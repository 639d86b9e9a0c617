//! The built-in definitions: as objects in a heap, as entries of a theory and of its arity table, and as code.
#![tactic(auto)]

mod define;
mod definition;
mod entries;
mod preamble;
mod primitives;
mod read;
mod rows;
mod text;

pub use definition::Definition;
pub use entries::Entries;
pub use preamble::{Preamble, admit_all};
