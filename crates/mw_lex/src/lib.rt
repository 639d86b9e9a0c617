//! Bytes cut into lexemes: the classes of bytes and their runs, and what a token stands for in a heap.
#![tactic(auto)]

mod atoms;
mod class;
mod slots;
mod token;

pub use atoms::Atoms;
pub use class::{
    Class, classify, constituents, digits, glued_to_bar, glued_to_token, line_bytes, name_bytes,
    white,
};
pub use slots::Slots;
pub use token::{Token, few_digits, token_of};
