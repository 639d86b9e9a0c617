//! A point in the growth of a heap.
ghost use Rattle.std.specs.Prelude.{◌≡◌};

use crate::Ref;
use std::marker::Model;

/// How many objects a heap has had at some time, to go back to by `Heap::cut_back`.
#[derive(Clone, Copy, Debug, PartialEq, Eq, PartialOrd, Ord, Hash)]
pub struct Mark {
    cells: usize,
}

impl Model for Mark {
    ghost use Rattle.std.specs.Prelude.{ℕ};

    ghost Value = { ℕ };

    ghost view = { λ m. m.cells };

    ghost inverse = { λ n. record { cells = n } };
}

impl Mark {
    // The mark at this number of cells.
    pub(crate) fn new(cells: usize) -> Mark
        ensures { result ≡ cells }
    {
        Mark { cells }
    }

    /// The number of objects that stand before this one.
    pub fn before(x: Ref) -> Mark
        ensures { result ≡ x }
    {
        Mark::new(x.index())
    }

    /// The number of objects.
    pub fn cells(self) -> usize
        ensures { result ≡ self }
    {
        self.cells
    }
}
