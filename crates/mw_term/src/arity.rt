//! The arities of functions.
ghost use Rattle.std.specs.Prelude.{◌≡◌, ℕ, ◌+◌, ◌-◌, ◌<◌, ◌≤◌, List, [], ◌∷◌, length, drop, true, None, IfOk, OnOk, OnErr};
ghost use Rattle.mw_model.specs.Terms.Object.{is_name, name_of_bytes};
ghost use Rattle.mw_model.specs.Terms.Term.{arity_of};

use indexmap::IndexMap;
use mw_heap::Memory;
use std::alloc::Global;
use std::marker::Model;

/// How many arguments each function takes. Seen as an arity table, whose newest pair comes first.
#[derive(Drop)]
pub struct Arity {
    // oldest first
    arities: IndexMap<Vec<u8>, u64>,
    alloc: Global,
}

impl Model for Arity {
    ghost use Rattle.mw_model.specs.Terms.Term.{ArityTable};
    ghost use Rattle.mw_term.specs.Tables.{coded_table, table_of, AreArities};

    ghost Value = { ArityTable };

    ghost coded = { coded_table };

    ghost view = { λ a. table_of a.arities.entries };

    ghost invariant = { λ a. AreArities a.arities.entries };
}

impl Arity {
    /// A table with no functions.
    pub fn new(alloc: Global) -> Arity
        ensures { result ≡ [] }
    {
        Arity {
            arities: IndexMap::new(alloc),
            alloc,
        }
    }

    /// The number of functions.
    pub fn len(&self) -> usize
        ensures { result ≡ length self.now }
    {
        self.arities.len()
    }

    /// How many arguments the function of this name takes, where it is in the table.
    pub fn lookup(&self, name: &[u8]) -> Option<u64>
        requires { is_name name.now ≡ true }
        ensures { result ≡ arity_of self.now (name_of_bytes name.now) }
    {
        self.arities.get(name).copied()
    }

    /// The name of the function at this place, the oldest first, and how many arguments it takes.
    pub fn nth(&self, index: usize) -> (&[u8], u64)
        requires { index < length self.now }
        ensures name { is_name result.0.now ≡ true }
        ensures pair { drop (length self.now - (index + 1)) self.now ≡ (name_of_bytes result.0.now, result.1) ∷ drop (length self.now - index) self.now }
    {
        let Some((name, count)) = self.arities.get_index(index) else {
            unreachable!()
        };
        (name.as_slice(), *count)
    }

    /// Adds a function that takes `count` arguments. If memory runs out nothing changes.
    pub fn add(&mut self, name: &[u8], count: u64) -> Result<(), Memory>
        requires name { is_name name.now ≡ true }
        requires absent { arity_of self.old (name_of_bytes name.now) ≡ None }
        ensures added { OnOk result (self.new ≡ (name_of_bytes name.now, count) ∷ self.old) }
        ensures err { OnErr result (self.new ≡ self.old) }
    {
        let owned = Vec::from_slice(self.alloc, name)?;
        self.arities.insert(owned, count)?;
        Ok(())
    }

    /// Keeps the `count` oldest functions.
    pub fn cut(&mut self, count: usize)
        requires { count ≤ length self.old }
        ensures { self.new ≡ drop (length self.old - count) self.old }
    {
        self.arities.truncate(count);
    }
}
