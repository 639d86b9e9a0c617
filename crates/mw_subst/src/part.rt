//! Parts of a term.
ghost use Rattle.std.specs.Prelude.{◌≡◌};
ghost use Rattle.mw_subst.specs.Memo.{other_kind};

use mw_heap::Ref;

/// A part of a term: a term, or a list of terms.
#[derive(Clone, Copy)]
pub(crate) enum Part {
    Term(Ref),
    Terms(Ref),
}

impl Part {
    // The same cell as the other kind of part.
    pub fn other_kind(&self) -> Part
        ensures { result ≡ other_kind self.now }
    {
        match *self {
            Part::Term(x) => Part::Terms(x),
            Part::Terms(x) => Part::Term(x),
        }
    }
}
