//! The free variables of the bodies of lambdas.
ghost use Rattle.std.specs.Prelude.{◌≡◌, List, [], Some, OnOk};
ghost use Rattle.std.specs.Option.{option_copied};
ghost use Rattle.mw_model.specs.Terms.Object.{Object};
ghost use Rattle.mw_term.specs.Bodies.{variables_found, AreVariablesOf, AreBodies};

use indexmap::{IndexMap, IndexSet};
use mw_heap::{Memory, Ref};
use std::alloc::Global;

/// The free variables of the bodies that were walked, since many heads may have one body.
#[derive(Drop)]
pub(crate) struct Bodies {
    pub found: IndexMap<Ref, IndexSet<Ref>>,
    // how many variables these are in all, and as many more for each body as take the memory that it takes
    held: usize,
}

// The variables that are held at most, but for those of one body alone: labels could make them as many as there are looks. They take some 30
// megabytes.
const MOST_HELD: usize = 1 << 20;

// The variables that take as much memory as a body that has none.
const VARIABLES_FOR_A_BODY: usize = 16;

impl Bodies {
    /// No bodies. It takes no memory.
    pub fn new(alloc: Global) -> Bodies
        ensures { result.found.entries ≡ [] }
    {
        Bodies {
            found: IndexMap::new(alloc),
            held: 0,
        }
    }

    /// The free variables of a body, where they are held.
    pub fn find(&self, body: Ref) -> Option<&IndexSet<Ref>>
        ensures { option_copied result ≡ variables_found self.now.found.entries body }
    {
        self.found.get(&body)
    }

    // Counts this many more variables with those that are held. Where that makes too many, these are forgotten first.
    fn make_room_for(&mut self, more: usize)
        ensures { (os : List Object) → AreBodies os self.old.found.entries → AreBodies os self.new.found.entries }
    {
        if more <= MOST_HELD.saturating_sub(self.held) {
            self.held += more;
            return;
        }
        self.found.clear();
        self.held = more;
    }

    /// Adds the free variables of a body, and forgets those of the others where they would be too many. The one error is out of memory.
    pub fn add(&mut self, body: Ref, variables: IndexSet<Ref>) -> Result<(), Memory>
        ensures added { OnOk result (variables_found self.new.found.entries body ≡ Some variables) }
        ensures bodies { OnOk result ((os : List Object) → AreBodies os self.old.found.entries → AreVariablesOf os body variables.keys → AreBodies os self.new.found.entries) }
    {
        self.make_room_for(variables.len() + VARIABLES_FOR_A_BODY);
        self.found.insert(body, variables)?;
        Ok(())
    }
}
