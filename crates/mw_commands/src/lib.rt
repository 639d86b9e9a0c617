//! The definitions of what the commands `taut`, `lower`, `slice`, `flat`, `recheck` and `explain` owe, with the laws that check them.
#![tactic(auto)]

pub mod explaining;
pub mod flattening;
pub mod lowering;
pub mod proving;
pub mod rechecking;
pub mod slicing;
pub mod texts;
pub mod trial;
