//! How much work and memory there is.

pub(crate) mod looks;
pub(crate) mod memory;
