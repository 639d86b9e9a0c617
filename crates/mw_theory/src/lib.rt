//! What is kept of a theory that is sound, what may be added to it, and the events by their members.
#![tactic(auto)]

mod adding;
mod admitting;
mod beginning;
mod coding;
mod define;
mod event;
mod front;
mod judge;
mod mark;
mod pairs;
mod profile;
mod proofs;
mod settling;
mod symbol;
mod theory;
mod verify;
mod waking;
mod wanted;
mod world;

pub use admitting::{Drafts, admit};
pub use event::{Event, event_of};
pub use judge::Judge;
pub use symbol::is_symbol;
pub use theory::Theory;
pub use wanted::members_wanted;
pub use world::World;
