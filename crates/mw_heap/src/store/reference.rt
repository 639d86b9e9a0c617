//! The name of an object in a heap.
ghost use Rattle.std.specs.Prelude.{◌≡◌};

use std::marker::Model;

/// An object of a heap, by its index. Equal objects of one heap have equal references.
#[derive(Clone, Copy, Debug, PartialEq, Eq, PartialOrd, Ord, Hash)]
pub struct Ref {
    index: u32,
}

impl Model for Ref {
    ghost use Rattle.std.specs.Prelude.{ℕ};

    ghost Value = { ℕ };

    ghost view = { λ r. r.index };

    ghost inverse = { λ n. record { index = n } };
}

impl Ref {
    // The reference to the object at this index.
    pub(crate) fn new(index: u32) -> Ref
        ensures { result ≡ index }
    {
        Ref { index }
    }

    // The index, as a cell has it.
    pub(crate) fn short_index(self) -> u32
        ensures { result ≡ self }
    {
        self.index
    }

    /// The index of the object in its heap.
    pub fn index(self) -> usize
        ensures { result ≡ self }
    {
        self.index as usize
    }
}
