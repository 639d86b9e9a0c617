//! The definitions of a theory in blocks.
ghost use Rattle.std.specs.Prelude.{◌≡◌, ◌<◌, ◌≤◌, [], ◌∷◌, ◌++◌, length, take, slice_get, Some, OnOk, OnErr};

use crate::Definition;
use mw_heap::Memory;
use std::alloc::Global;
use std::marker::Model;

/// The definitions of a theory in the order in which they were admitted: a list of blocks, the oldest first, each the list of its
/// definitions. `AreEntries` says which blocks they mean.
#[derive(Drop)]
pub struct Entries {
    blocks: Vec<Vec<Definition>>,
}

impl Model for Entries {
    ghost use Rattle.std.specs.Prelude.{List, map};
    ghost use Rattle.mw_preamble.specs.declared.definition.Definition.{Definition};

    ghost Value = { List (List Definition) };

    ghost view = { λ e. map (λ v. v.items) e.blocks.items };
}

impl Entries {
    /// No blocks.
    pub fn new(alloc: Global) -> Entries
        ensures { result ≡ [] }
    {
        Entries {
            blocks: Vec::new(alloc),
        }
    }

    /// The number of blocks.
    pub fn len(&self) -> usize
        ensures { result ≡ length self.now }
    {
        self.blocks.len()
    }

    /// The definitions of the block at this place, the oldest block first.
    pub fn block(&self, index: usize) -> &[Definition]
        requires { index < length self.now }
        ensures { slice_get self.now index ≡ Some result.now }
    {
        self.blocks[index].as_slice()
    }

    /// Adds a block. If memory runs out nothing changes.
    pub fn add(&mut self, block: Vec<Definition>) -> Result<(), Memory>
        ensures added { OnOk result (self.new ≡ self.old ++ block.items ∷ []) }
        ensures err { OnErr result (self.new ≡ self.old) }
    {
        self.blocks.push(block)?;
        Ok(())
    }

    /// Keeps the `count` oldest blocks.
    pub fn cut(&mut self, count: usize)
        requires { count ≤ length self.old }
        ensures { self.new ≡ take count self.old }
    {
        self.blocks.truncate(count);
    }
}
