//! Results so far.
ghost use Rattle.std.specs.Prelude.{◌≡◌, [], OnOk, None};
ghost use Rattle.mw_subst.specs.Memo.{found, Adds, AreUnique};

use crate::part::Part;
use mw_heap::{Heap, Memory, Notes, Ref};

/// What was made of each part.
#[derive(Drop)]
pub(crate) struct Memo {
    pub terms: Notes,
    pub lists: Notes,
}

impl Memo {
    // No results, in notes that the heap lends.
    pub fn lent(heap: &mut Heap) -> Memo
        ensures objects { heap.new.objects ≡ heap.old.objects }
        ensures terms { result.terms ≡ [] }
        ensures lists { result.lists ≡ [] }
    {
        Memo {
            terms: heap.lend_notes(),
            lists: heap.lend_notes(),
        }
    }

    // Gives the notes back to the heap.
    pub fn give_back(self, heap: &mut Heap)
        ensures { heap.new.objects ≡ heap.old.objects }
    {
        heap.take_notes(self.terms);
        heap.take_notes(self.lists);
    }

    // What was made of a part, if it was looked at.
    #[inline(always)]
    pub fn find(&self, part: Part) -> Option<Ref>
        ensures { result ≡ found self.now.terms self.now.lists part }
    {
        match part {
            Part::Term(x) => self.terms.find(x),
            Part::Terms(x) => self.lists.find(x),
        }
    }

    // Keeps what was made of a new part.
    #[inline(always)]
    pub fn add(&mut self, part: Part, made: Ref) -> Result<(), Memory>
        requires new { found self.old.terms self.old.lists part ≡ None }
        requires unique { AreUnique self.old.terms self.old.lists }
        ensures added { OnOk result (Adds self.old.terms self.old.lists self.new.terms self.new.lists part made) }
        ensures unique { OnOk result (AreUnique self.new.terms self.new.lists) }
    {
        match part {
            Part::Term(x) => self.terms.add(x, made)?,
            Part::Terms(x) => self.lists.add(x, made)?,
        }
        Ok(())
    }
}
