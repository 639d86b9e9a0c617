//! The rules that the code names, by their places in the table.

pub(crate) const SCHEMA: usize = 0;

pub(crate) const COMMUTED: usize = 5;

pub(crate) const RESOLVED: usize = 8;

pub(crate) const DOUBLED: usize = 9;

pub(crate) const LEFT: usize = 10;

pub(crate) const RIGHT: usize = 11;

pub(crate) const NEITHER: usize = 21;

pub(crate) const NOT: usize = 42;

pub(crate) const LAW: usize = 43;

pub(crate) const KEPT_FROM: usize = 45;

pub(crate) const CARRIED: usize = 68;

// These are each the first of three rules: one makes the formula that a part comes to, the next the proof from it, the last the proof of it.
pub(crate) const KEPT: u8 = 44;

pub(crate) const DENIAL: u8 = 47;

pub(crate) const UNDENIED: u8 = 50;

pub(crate) const FIRST: u8 = 53;

pub(crate) const SECOND: u8 = 56;

pub(crate) const BOTH: u8 = 59;

pub(crate) const FIRST_KEPT: u8 = 62;

pub(crate) const SECOND_KEPT: u8 = 65;
