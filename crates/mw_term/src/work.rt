//! Work that labels may have go over the same cells again and again.
ghost use Rattle.std.specs.Prelude.{◌≡◌, ◌+◌, ◌-◌, ◌^◌, OnOk, OnErr};

use mw_heap::{Memory, take_look};
use std::alloc::Global;

/// Where work takes its memory from, and how many looks at cells are left to it.
#[derive(Drop)]
pub(crate) struct Work {
    pub alloc: Global,
    pub looks_left: u64,
    // how many parts the last walk over a term met: the next one begins with room for as many, since labels may share what is walked
    pub parts: usize,
}

impl Work {
    /// Work that may take this many looks.
    pub fn new(alloc: Global, looks: u64) -> Work
        ensures { result.looks_left ≡ looks }
    {
        Work {
            alloc,
            looks_left: looks,
            parts: 0,
        }
    }

    /// Work that looks at each cell a few times at most, so that it needs no bound.
    pub fn of_one_walk(alloc: Global) -> Work
        ensures { result.looks_left ≡ 2 ^ 64 - 1 }
    {
        Work::new(alloc, u64::MAX)
    }

    /// Takes a look. The error is that none is left: so much work is answered as out of memory.
    pub fn take_look(&mut self) -> Result<(), Memory>
        ensures taken { OnOk result (self.old.looks_left ≡ self.new.looks_left + 1) }
        ensures none { OnErr result (self.old.looks_left ≡ 0) }
        ensures kept { OnErr result (self.new ≡ self.old) }
    {
        take_look(&mut self.looks_left)
    }

    /// Takes a look for each 64 bytes of a name that is searched for. The error is that fewer are left.
    pub fn take_looks_at(&mut self, name: &[u8]) -> Result<(), Memory> {
        let looks = name.len() as u64 / 64;
        if looks > self.looks_left {
            return Err(Memory);
        }
        self.looks_left -= looks;
        Ok(())
    }
}
