//! Places of events.
ghost use Rattle.std.specs.Prelude.{◌≡◌};

use std::marker::Model;

/// Places of events in a list, counted from 0, in order.
#[derive(Drop)]
pub struct Positions {
    places: Vec<u64>,
}

impl Model for Positions {
    ghost use Rattle.std.specs.Prelude.{ℕ, List};

    ghost Value = { List ℕ };

    ghost view = { λ p. p.places.items };
}

impl Positions {
    // These places.
    pub(crate) fn new(places: Vec<u64>) -> Positions
        ensures { result ≡ places.items }
    {
        Positions { places }
    }

    /// The places.
    pub fn as_slice(&self) -> &[u64]
        ensures { result.now ≡ self.now }
    {
        self.places.as_slice()
    }
}
