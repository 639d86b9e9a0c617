//! The names of the primitive functions.
ghost use Rattle.std.specs.Prelude.{◌≡◌};
ghost use Rattle.mw_model.specs.Terms.Object.{Name};
ghost use Rattle.mw_heap.specs.Variants.{profile_of};
ghost use Rattle.mw_heap.specs.PrimitiveNames.{primitive_bytes, word_named, first_named};

use crate::{Primitive, Profile};

// All of them; the last is the product.
static PRIMITIVES: [Primitive; 13] = [
    Primitive::If,
    Primitive::Equal,
    Primitive::Consp,
    Primitive::Cons,
    Primitive::Car,
    Primitive::Cdr,
    Primitive::Symbolp,
    Primitive::SymbolLess,
    Primitive::Natp,
    Primitive::Less,
    Primitive::Plus,
    Primitive::Minus,
    Primitive::Times,
];

impl Primitive {
    /// The name.
    pub fn name(self) -> &'static [u8]
        ensures { result.now ≡ primitive_bytes self }
    {
        match self {
            Primitive::If => b"IF",
            Primitive::Equal => b"EQUAL",
            Primitive::Consp => b"CONSP",
            Primitive::Cons => b"CONS",
            Primitive::Car => b"CAR",
            Primitive::Cdr => b"CDR",
            Primitive::Symbolp => b"SYMBOLP",
            Primitive::SymbolLess => b"SYMBOL-<",
            Primitive::Natp => b"NATP",
            Primitive::Less => b"<",
            Primitive::Plus => b"+",
            Primitive::Minus => b"-",
            Primitive::Times => b"*",
        }
    }

    /// The primitive function of this name that the profile has.
    pub fn named(name: &[u8], profile: Profile) -> Option<Primitive>
        ensures { (f : Name) → f.bytes ≡ name.now → result ≡ word_named (profile_of profile) f }
    {
        match profile {
            Profile::One => first_named(&PRIMITIVES[..12], name),
            Profile::Two => first_named(&PRIMITIVES, name),
        }
    }
}

// The first with this name.
fn first_named(among: &[Primitive], name: &[u8]) -> Option<Primitive>
    ensures { result ≡ first_named among.now name.now }
{
    for primitive in among {
        if primitive.name() == name {
            return Some(*primitive);
        }
    }
    None
}
