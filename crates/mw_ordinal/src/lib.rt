//! The order of ordinals and the test for them, over a heap.
#![tactic(auto)]

mod heap_order;
mod turn;

pub use heap_order::{is_ordinal, ordinal_less};
