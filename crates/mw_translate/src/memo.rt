//! What was made so far.
ghost use Rattle.std.specs.Prelude.{◌≡◌, ◌⊎◌, ◌++◌, ◌∷◌, [], OnOk, IfOk, IfErr, Some, None};
ghost use Rattle.mw_translate.specs.Memo.{found, AreUnique, IsForward};
ghost use Rattle.mw_translate.specs.Parts.{part_at};

use crate::made::Made;
use crate::part::{Kind, Part};
use crate::progress::Progress;
use indexmap::IndexMap;
use mw_heap::{Memory, Ref};
use std::alloc::Global;

/// What was made of each part so far.
#[derive(Drop)]
pub(crate) struct Memo {
    pub made: IndexMap<Part, Made>,
}

impl Memo {
    pub fn new(alloc: Global) -> Memo
        ensures { result.made.entries ≡ [] }
    {
        Memo {
            made: IndexMap::new(alloc),
        }
    }

    // What was made of a part, if anything was.
    pub fn find(&self, part: &Part) -> Option<Made>
        ensures { result ≡ found self.now.made.entries part.now }
    {
        self.made.get(part).copied()
    }

    // What was made of a part; or that part is wanted.
    pub fn forward(&self, part: &Part) -> Progress
        ensures { IsForward self.now.made.entries part.now result }
    {
        match self.find(part) {
            Some(made) => Progress::Made(made),
            None => Progress::Wants(*part),
        }
    }

    // What was made of a cell as a part of this kind; or that part is wanted.
    pub fn forward_to(&self, kind: Kind, cell: Ref) -> Progress
        ensures { IsForward self.now.made.entries (part_at kind cell) result }
    {
        self.forward(&Part { kind, cell })
    }

    // What was made of two parts; or the first of them of which nothing was made.
    pub fn find_both(&self, first: &Part, second: &Part) -> Result<(Made, Made), Part>
        ensures both { IfOk result (λ m. (found self.now.made.entries first.now ≡ Some m.0) × (found self.now.made.entries second.now ≡ Some m.1)) }
        ensures wanted { IfErr result (λ p. (found self.now.made.entries p ≡ None) × ((p ≡ first.now) ⊎ (p ≡ second.now))) }
    {
        let Some(one) = self.find(first) else {
            return Err(*first);
        };
        let Some(two) = self.find(second) else {
            return Err(*second);
        };
        Ok((one, two))
    }

    // What was made of three parts; or the first of them of which nothing was made.
    pub fn find_three(
        &self,
        first: &Part,
        second: &Part,
        third: &Part,
    ) -> Result<(Made, Made, Made), Part>
        ensures three { IfOk result (λ m. (found self.now.made.entries first.now ≡ Some m.0) × (found self.now.made.entries second.now ≡ Some m.1) × (found self.now.made.entries third.now ≡ Some m.2)) }
        ensures wanted { IfErr result (λ p. (found self.now.made.entries p ≡ None) × ((p ≡ first.now) ⊎ ((p ≡ second.now) ⊎ (p ≡ third.now)))) }
    {
        let (one, two) = self.find_both(first, second)?;
        match self.find(third) {
            Some(three) => Ok((one, two, three)),
            None => Err(*third),
        }
    }

    // Adds what was made of a part that has no entry.
    pub fn add(&mut self, part: Part, made: Made) -> Result<(), Memory>
        requires new { found self.old.made.entries part ≡ None }
        requires unique { AreUnique self.old.made.entries }
        ensures added { OnOk result (self.new.made.entries ≡ self.old.made.entries ++ (part, made) ∷ []) }
        ensures unique { OnOk result (AreUnique self.new.made.entries) }
    {
        self.made.insert(part, made)?;
        Ok(())
    }
}
