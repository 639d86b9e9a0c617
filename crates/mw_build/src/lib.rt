//! Objects made from templates: tables of pieces, which one interpreter reads.
#![tactic(auto)]

mod machine;
mod parts;
mod piece;

pub use machine::{make, make_all};
pub use piece::{Piece, Variable};
