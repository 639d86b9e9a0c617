//! Which cells wait for which parts.
ghost use Rattle.std.specs.Prelude.{◌≡◌, ℕ, ◌++◌, ◌∷◌, [], cond, nat_eq, OnOk};
ghost use Rattle.mw_term.specs.Watching.{cells_noted};

use indexmap::IndexMap;
use mw_heap::{Memory, Ref};
use std::alloc::Global;

/// Cells, each noted with the parts that it waits for.
#[derive(Drop)]
pub(crate) struct Notes {
    pub by_part: IndexMap<Ref, Vec<Ref>>,
    alloc: Global,
}

impl Notes {
    /// No notes. They take no memory.
    pub fn new(alloc: Global) -> Notes
        ensures { result.by_part.entries ≡ [] }
    {
        Notes {
            by_part: IndexMap::new(alloc),
            alloc,
        }
    }

    /// Notes a cell with a part. The one error is out of memory: then the notes of this part may be lost.
    pub fn add(&mut self, part: Ref, cell: Ref) -> Result<(), Memory>
        ensures { OnOk result ((w : ℕ) → cells_noted self.new.by_part.entries w ≡ cond (nat_eq part w) (cells_noted self.old.by_part.entries w ++ cell ∷ []) (cells_noted self.old.by_part.entries w)) }
    {
        let mut cells = self.take(part);
        cells.push(cell)?;
        self.by_part.insert(part, cells)?;
        Ok(())
    }

    /// Forgets the cells that are noted with a part, and answers them.
    pub fn take(&mut self, part: Ref) -> Vec<Ref>
        ensures taken { result.items ≡ cells_noted self.old.by_part.entries part }
        ensures rest { (w : ℕ) → cells_noted self.new.by_part.entries w ≡ cond (nat_eq part w) [] (cells_noted self.old.by_part.entries w) }
    {
        match self.by_part.swap_remove(&part) {
            Some(cells) => cells,
            None => Vec::new(self.alloc),
        }
    }
}
