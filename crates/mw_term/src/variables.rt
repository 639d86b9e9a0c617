//! Lists of variables.
ghost use Rattle.std.specs.Prelude.{◌≡◌};

use indexmap::IndexSet;
use mw_heap::Ref;
use std::marker::Model;

/// Variables, each once, as references to their symbols. Seen as the list of these.
#[derive(Drop)]
pub struct Vars {
    symbols: IndexSet<Ref>,
}

impl Model for Vars {
    ghost use Rattle.std.specs.Prelude.{List, ℕ};

    ghost Value = { List ℕ };

    ghost view = { λ v. v.symbols.keys };
}

impl Vars {
    pub(crate) fn from_set(symbols: IndexSet<Ref>) -> Vars
        ensures { result ≡ symbols.keys }
    {
        Vars { symbols }
    }

    /// The references, in order.
    pub fn as_slice(&self) -> &[Ref]
        ensures { result.now ≡ self.now }
    {
        self.symbols.as_slice()
    }
}
