//! How functions of a block call each other.

/// They have a call in an actual of a call; or they have no calls of the block; or they have some, none in an actual of another.
#[derive(Clone, Copy)]
pub(crate) enum Recursion {
    Nested,
    Absent,
    Present,
}
