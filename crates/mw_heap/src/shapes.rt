//! The shapes that an object may have: lists and their members, formulas and their parts, bare names.

pub(crate) mod all_members;
pub(crate) mod bare;
pub(crate) mod formula_parts;
pub(crate) mod list;
pub(crate) mod members;
pub(crate) mod parts;
