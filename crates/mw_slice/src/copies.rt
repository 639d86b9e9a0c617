//! Which cells of another heap have copies.
ghost use Rattle.std.specs.Prelude.{◌≡◌, ◌<◌, ℕ, [], length, cond, nat_eq, None, Some, OnOk};
ghost use Rattle.mw_slice.specs.Copies.{copy_of};

use mw_heap::{Memory, Ref};
use std::alloc::Global;
use std::marker::Model;

/// The copies of the cells of one object of another heap, by the places of the cells there. They are kept for one object after
/// another, so that a cell is found without a search, and none of the last object has to be taken out for the next.
#[derive(Drop)]
pub struct Copies {
    notes: Vec<Note>,
    // which object it is: a note of another is none
    round: u32,
}

/// A copy, and for which object it was made.
#[derive(Clone, Copy)]
pub(crate) struct Note {
    pub round: u32,
    pub made: Ref,
}

impl Model for Copies {
    ghost use Rattle.std.specs.Prelude.{ℕ, List, Option};
    ghost use Rattle.mw_slice.specs.Copies.{noted, AreNotes};

    ghost Value = { List (Option ℕ) };

    ghost view = { λ c. noted c.round c.notes.items };

    ghost invariant = { λ c. AreNotes c.round c.notes.items };
}

impl Copies {
    /// No copies.
    pub fn new(alloc: Global) -> Copies
        ensures { result ≡ [] }
    {
        Copies {
            notes: Vec::new(alloc),
            round: 1,
        }
    }

    /// No copies any more.
    pub(crate) fn begin(&mut self)
        ensures { (x : ℕ) → copy_of self.new x ≡ None }
    {
        match self.round.checked_add(1) {
            Some(round) => self.round = round,
            None => self.notes.clear(),
        }
    }

    /// The copy of a cell, if it has one.
    pub(crate) fn get(&self, x: Ref) -> Option<Ref>
        ensures { result ≡ copy_of self.now x }
    {
        let note = self.notes.get(x.index())?;
        if note.round == self.round {
            Some(note.made)
        } else {
            None
        }
    }

    // Makes room for the note of a cell.
    fn make_room(&mut self, x: Ref) -> Result<(), Memory>
        ensures room { OnOk result (x < length self.new) }
        ensures kept { OnOk result ((y : ℕ) → copy_of self.new y ≡ copy_of self.old y) }
    {
        if self.notes.len() <= x.index() {
            self.notes
                .resize(x.index() + 1, Note { round: 0, made: x })?;
        }
        Ok(())
    }

    /// Notes the copy of a cell. It takes memory in proportion to the place of the cell, unless one as far was noted before.
    pub(crate) fn put(&mut self, x: Ref, made: Ref) -> Result<(), Memory>
        ensures { OnOk result ((y : ℕ) → copy_of self.new y ≡ cond (nat_eq x y) (Some made) (copy_of self.old y)) }
    {
        self.make_room(x)?;
        self.notes[x.index()] = Note {
            round: self.round,
            made,
        };
        Ok(())
    }
}
