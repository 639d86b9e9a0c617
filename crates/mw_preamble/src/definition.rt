//! A definition by its parts.
ghost use Rattle.std.specs.Prelude.{◌≡◌};
ghost use Rattle.mw_preamble.specs.Defining.{spelling_of};

use mw_heap::Ref;

/// A function or a witness of a theory, by the objects of its parts in a heap. Formals, and the free variables of a witness, are a
/// list of symbols.
#[derive(Clone, Copy)]
pub enum Definition {
    /// A function.
    Function {
        name: Ref,
        formals: Ref,
        body: Ref,
    },
    /// A witness, whose value is put for the bound variable.
    Witness {
        name: Ref,
        bound: Ref,
        free: Ref,
        body: Ref,
    },
}

impl Definition {
    /// The name, the formals, and the body that has code, as a table of code takes them: a witness has no code.
    pub fn spelling(&self) -> (Ref, Ref, Option<Ref>)
        ensures { result ≡ spelling_of self.now }
    {
        match *self {
            Definition::Function {
                name,
                formals,
                body,
            } => (name, formals, Some(body)),
            Definition::Witness { name, free, .. } => (name, free, None),
        }
    }
}
