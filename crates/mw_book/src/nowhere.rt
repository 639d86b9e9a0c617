//! A sink that takes everything and keeps nothing.
ghost use Rattle.std.specs.Prelude.{None};
ghost use Rattle.mw_port.specs.Memories.{no_faults};

use mw_port::{Halt, Sink};

/// Where the lines go that nobody is to read. It keeps nothing of what it took, and never fails.
#[derive(Drop)]
pub(crate) struct Nowhere;

impl Sink for Nowhere {
    ghost taken = { λ s. None };

    ghost faults = { λ s. no_faults };

    ghost shortages = { λ s. no_faults };

    fn write(&mut self, piece: &[u8]) -> Result<usize, Halt> {
        Ok(piece.len())
    }
}
