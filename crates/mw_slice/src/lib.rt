//! What a theorem rests on: the accepted events of a book, in heaps of their own, and those of them that a theorem needs, also as they
//! are written.
#![tactic(auto)]

mod added;
mod basis;
mod candidate;
mod copies;
mod copying;
mod event;
mod firsts;
mod gathering;
mod heaps;
mod indexed;
mod kept;
mod names;
mod nil;
mod part;
mod picked;
mod picking;
mod positions;
mod slicer;
mod walk;

pub use copies::Copies;
pub use copying::copy;
pub use kept::{write_absent, write_slice};
pub use picked::Picked;
pub use positions::Positions;
pub use slicer::Slicer;
