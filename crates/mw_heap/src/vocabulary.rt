//! What has a name of its own in the logic: its words, primitives and profiles, and the reasons of a refusal.

pub(crate) mod primitive;
pub(crate) mod primitive_name;
pub(crate) mod profile;
pub(crate) mod refusal;
pub(crate) mod word;
