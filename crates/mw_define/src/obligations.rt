//! The obligations of a block.
ghost use Rattle.std.specs.Prelude.{◌≡◌, ◌+◌, ◌-◌, ◌^◌, min, [], length};
ghost use Rattle.mw_define.specs.Owed.{is_past};

use indexmap::IndexSet;
use mw_heap::Ref;
use std::alloc::Global;

/// The formulas that a block was found to owe, each once and in order, and how many it may owe, where that is bounded.
#[derive(Drop)]
pub(crate) struct Obligations {
    pub formulas: IndexSet<Ref>,
    pub most: Option<u64>,
}

impl Obligations {
    pub fn new(most: Option<u64>, alloc: Global) -> Obligations
        ensures formulas { result.formulas.keys ≡ [] }
        ensures most { result.most ≡ most }
    {
        Obligations {
            formulas: IndexSet::new(alloc),
            most,
        }
    }

    // Whether these are more than the block may owe.
    pub fn are_too_many(&self) -> bool
        ensures { result ≡ is_past self.now.most (length self.now.formulas.keys) }
    {
        match self.most {
            Some(most) => self.formulas.len() as u64 > most,
            None => false,
        }
    }

    // Whether they may be more than the block may owe once this many more are added. The sum is cut off.
    pub fn may_be_too_many_with(&self, more: usize) -> bool
        ensures { result ≡ is_past self.now.most (min (length self.now.formulas.keys + more) (2 ^ 64 - 1)) }
    {
        match self.most {
            Some(most) => (self.formulas.len() as u64).saturating_add(more as u64) > most,
            None => false,
        }
    }
}
