//! Notes on cells.
ghost use Rattle.std.specs.Prelude.{◌≡◌, ℕ, ◌<◌, [], ◌∷◌, ◌++◌, length, slice_get, nat_eq, None, Some, OnOk};
ghost use Rattle.std.specs.Map.{lookup};

use crate::{Memory, Ref};
use std::alloc::Global;
use std::marker::Model;

/// What a walk notes of cells, each noted once: another cell. A note is found by the place of its cell, with no search, and all are
/// dropped at once, so that notes can be used again for the next walk.
#[derive(Drop)]
pub struct Notes {
    // the cells that are noted, each with its note, in the order in which they came
    entries: Vec<(Ref, Ref)>,
    // for each place where among the entries its cell may stand; what was there before says nothing, since the entry is of another cell
    indices: Vec<u32>,
}

impl Model for Notes {
    ghost use Rattle.std.specs.Prelude.{ℕ, List};
    ghost use Rattle.mw_heap.specs.Indices.{AreIndexed};

    ghost Value = { List (ℕ × ℕ) };

    ghost view = { λ n. n.entries.items };

    ghost invariant = { λ n. AreIndexed n.entries.items n.indices.items };
}

// Makes room for an index at the place of a cell.
fn make_room(indices: &mut Vec<u32>, x: Ref) -> Result<(), Memory>
    ensures room { OnOk result (x < length indices.new.items) }
    ensures kept { (place index : ℕ) → slice_get indices.old.items place ≡ Some index → slice_get indices.new.items place ≡ Some index }
{
    if indices.len() <= x.index() {
        indices.resize(x.index() + 1, 0)?;
    }
    Ok(())
}

impl Notes {
    /// No notes.
    pub fn new(alloc: Global) -> Notes
        ensures { result ≡ [] }
    {
        Notes {
            entries: Vec::new(alloc),
            indices: Vec::new(alloc),
        }
    }

    /// Drops all notes. It takes no time, and keeps their memory.
    pub fn clear(&mut self)
        ensures { self.new ≡ [] }
    {
        self.entries.clear();
    }

    /// What is noted of a cell, if it is noted.
    #[inline(always)]
    pub fn find(&self, x: Ref) -> Option<Ref>
        ensures { result ≡ lookup (nat_eq x) self.now }
    {
        let Some(index) = self.indices.get(x.index()) else {
            return None;
        };
        let Some(entry) = self.entries.get(*index as usize) else {
            return None;
        };
        if entry.0 == x { Some(entry.1) } else { None }
    }

    /// Notes a cell that is not noted yet. It takes memory in proportion to the place of the cell, unless one as far was noted before. The
    /// error is out of memory.
    #[inline(always)]
    pub fn add(&mut self, x: Ref, note: Ref) -> Result<(), Memory>
        requires new { lookup (nat_eq x) self.old ≡ None }
        ensures added { OnOk result (self.new ≡ self.old ++ (x, note) ∷ []) }
    {
        let Ok(index) = u32::try_from(self.entries.len()) else {
            return Err(Memory);
        };
        make_room(&mut self.indices, x)?;
        self.entries.push((x, note))?;
        self.indices[x.index()] = index;
        Ok(())
    }
}
