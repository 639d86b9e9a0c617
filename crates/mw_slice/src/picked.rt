//! What is picked for a name.
use crate::Positions;

/// The events that a theorem rests on, by their places.
#[derive(Drop)]
pub enum Picked {
    /// The places of the events, that of the theorem last.
    Events(Positions),
    /// No theorem has the name.
    Absent,
    /// Memory was refused.
    Memory,
}
