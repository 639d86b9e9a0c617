//! The pieces of which templates are made.
ghost use Rattle.std.specs.Prelude.{◌≡◌, true};
ghost use Rattle.mw_model.specs.Terms.Object.{is_name};
ghost use Rattle.mw_build.specs.Pieces.{name_of, taken_by};

use mw_heap::{Primitive, Word};

/// A variable of the axioms.
#[derive(Clone, Copy)]
pub enum Variable {
    X,
    Y,
    Z,
    A,
    B,
    C,
    X1,
    X2,
    Y1,
    Y2,
}

/// What comes next in a template: an object, or what is made of the newest of the objects before it.
#[derive(Clone, Copy)]
pub enum Piece {
    /// The symbol that a word is.
    Word(Word),
    /// The symbol that a variable is.
    Variable(Variable),
    /// A natural.
    Number(u8),
    /// The given object of this number.
    Given(usize),
    /// The pair of the newest two.
    Pair,
    /// The list of the newest objects, as many as this.
    List(usize),
    /// The list of a word and the newest objects.
    Form(Word, usize),
    /// The list of a primitive's name and the newest objects.
    Call(Primitive, usize),
    /// What the rule of this number makes of the newest objects.
    Rule(usize, usize),
}

impl Variable {
    // The name.
    pub(crate) fn name(self) -> &'static [u8]
        ensures name { result.now ≡ (name_of self).bytes }
        ensures valid { is_name result.now ≡ true }
    {
        match self {
            Variable::X => b"X",
            Variable::Y => b"Y",
            Variable::Z => b"Z",
            Variable::A => b"A",
            Variable::B => b"B",
            Variable::C => b"C",
            Variable::X1 => b"X1",
            Variable::X2 => b"X2",
            Variable::Y1 => b"Y1",
            Variable::Y2 => b"Y2",
        }
    }
}

impl Piece {
    // How many of the newest objects it takes.
    pub(crate) fn taken(self) -> usize
        ensures { result ≡ taken_by self }
    {
        match self {
            Piece::Word(_) | Piece::Variable(_) | Piece::Number(_) | Piece::Given(_) => 0,
            Piece::Pair => 2,
            Piece::List(count) => count,
            Piece::Form(_, count) => count,
            Piece::Call(_, count) => count,
            Piece::Rule(_, count) => count,
        }
    }
}
