//! The formulas that a proof may cite.
ghost use Rattle.std.specs.Prelude.{◌≡◌, ◌-◌, ◌==◌, ◌≤◌, [], ◌∷◌, length, drop, OnOk, OnErr};
ghost use Rattle.std.specs.List.{list_any};

use indexmap::IndexSet;
use mw_heap::{Memory, Ref};
use std::alloc::Global;
use std::marker::Model;

/// Objects that are known, as axioms or theorems: their references in a list, of which the newest comes first.
#[derive(Drop)]
pub struct Known {
    // oldest first
    entries: Vec<Entry>,
    // each once, in the order in which they first came
    distinct: IndexSet<Ref>,
}

/// A member of the list, and how many distinct ones there are up to it.
#[derive(Clone, Copy)]
pub(crate) struct Entry {
    pub reference: Ref,
    pub distinct: usize,
}

impl Model for Known {
    ghost use Rattle.std.specs.Prelude.{ℕ, List};
    ghost use Rattle.mw_rules.specs.Known.{references, AreCounted};

    ghost Value = { List ℕ };

    ghost view = { λ k. references k.entries.items };

    ghost invariant = { λ k. AreCounted k.entries.items k.distinct.keys };
}

impl Known {
    /// Nothing is known.
    pub fn new(alloc: Global) -> Known
        ensures { result ≡ [] }
    {
        Known {
            entries: Vec::new(alloc),
            distinct: IndexSet::new(alloc),
        }
    }

    /// The length of the list.
    pub fn len(&self) -> usize
        ensures { result ≡ length self.now }
    {
        self.entries.len()
    }

    /// Adds an object, also one that is known already. If memory runs out nothing changes.
    pub fn add(&mut self, x: Ref) -> Result<(), Memory>
        ensures added { OnOk result (self.new ≡ x ∷ self.old) }
        ensures err { OnErr result (self.new ≡ self.old) }
    {
        let had = self.distinct.len();
        self.distinct.insert(x)?;
        let entry = Entry {
            reference: x,
            distinct: self.distinct.len(),
        };
        if self.entries.push(entry).is_err() {
            self.distinct.truncate(had);
            return Err(Memory);
        }
        Ok(())
    }

    /// Whether the object is known.
    pub fn holds(&self, x: Ref) -> bool
        ensures { result ≡ list_any (λ y. x == y) self.now }
    {
        self.distinct.contains(&x)
    }

    /// Keeps the `count` oldest.
    pub fn cut(&mut self, count: usize)
        requires { count ≤ length self.old }
        ensures { self.new ≡ drop (length self.old - count) self.old }
    {
        let distinct = match count {
            0 => 0,
            _ => self.entries[count - 1].distinct,
        };
        self.entries.truncate(count);
        self.distinct.truncate(distinct);
    }
}
