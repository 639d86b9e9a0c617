//! Substitutions.
ghost use Rattle.std.specs.Prelude.{◌≡◌, List, [], ◌∷◌, ◌++◌, IfOk, OnOk, OnErr};
ghost use Rattle.mw_subst.specs.Sigma.{term_for, HasOneMore};

use indexmap::IndexMap;
use mw_heap::{Memory, Ref};
use std::alloc::Global;
use std::marker::Model;

/// Pairs of a variable and the term for it, by their references. Of several pairs for a variable the first counts.
#[derive(Drop)]
pub struct Sigma {
    pairs: Vec<(Ref, Ref)>,
    firsts: IndexMap<Ref, Ref>,
    alloc: Global,
}

impl Model for Sigma {
    ghost use Rattle.std.specs.Prelude.{ℕ, List};
    ghost use Rattle.mw_subst.specs.Sigma.{HasFirsts};

    ghost Value = { List (ℕ × ℕ) };

    ghost view = { λ s. s.pairs.items };

    ghost invariant = { λ s. HasFirsts s.pairs.items s.firsts.entries };
}

// Keeps the term for a variable that has none yet.
fn put_first(firsts: &mut IndexMap<Ref, Ref>, variable: Ref, term: Ref) -> Result<(), Memory>
    ensures put { OnOk result (HasOneMore firsts.old.entries firsts.new.entries variable term) }
    ensures err { OnErr result (firsts.new.entries ≡ firsts.old.entries) }
{
    if firsts.get(&variable).is_some() {
        return Ok(());
    }
    firsts.insert(variable, term)?;
    Ok(())
}

impl Sigma {
    /// The substitution of nothing.
    pub fn new(alloc: Global) -> Sigma
        ensures { result ≡ [] }
    {
        Sigma {
            pairs: Vec::new(alloc),
            firsts: IndexMap::new(alloc),
            alloc,
        }
    }

    /// Adds a pair at the end. If memory runs out nothing changes.
    pub fn put(&mut self, variable: Ref, term: Ref) -> Result<(), Memory>
        ensures added { OnOk result (self.new ≡ self.old ++ (variable, term) ∷ []) }
        ensures err { OnErr result (self.new ≡ self.old) }
    {
        self.pairs.reserve(1)?;
        put_first(&mut self.firsts, variable, term)?;
        self.pairs.push((variable, term))?;
        Ok(())
    }

    /// The term for a variable, where there is one.
    pub fn find(&self, variable: Ref) -> Option<Ref>
        ensures { result ≡ term_for self.now variable }
    {
        self.firsts.get(&variable).copied()
    }

    // The allocator.
    pub(crate) fn alloc(&self) -> Global {
        self.alloc
    }
}
