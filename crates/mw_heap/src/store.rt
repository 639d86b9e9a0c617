//! Objects in memory: each is kept once, and named by its index.

pub(crate) mod cell;
pub(crate) mod heap;
pub(crate) mod lengths;
pub(crate) mod mark;
pub(crate) mod notes;
pub(crate) mod reference;
pub(crate) mod sets;
pub(crate) mod view;
