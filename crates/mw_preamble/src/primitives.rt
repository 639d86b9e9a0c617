//! The arities of the primitives.
ghost use Rattle.std.specs.Prelude.{◌≡◌, IfOk};
ghost use Rattle.mw_model.specs.Values.Primitive.{One};
ghost use Rattle.mw_model.specs.Values.Primitive as model;
ghost use Rattle.mw_heap.specs.Variants.{profile_of};

use mw_heap::{Memory, Primitive, Profile};
use mw_term::Arity;
use std::alloc::Global;

// The primitives of both profiles, and how many arguments each takes, in order.
static PRIMITIVES: [(Primitive, u64); 12] = [
    (Primitive::If, 3),
    (Primitive::Equal, 2),
    (Primitive::Consp, 1),
    (Primitive::Cons, 2),
    (Primitive::Car, 1),
    (Primitive::Cdr, 1),
    (Primitive::Symbolp, 1),
    (Primitive::SymbolLess, 2),
    (Primitive::Natp, 1),
    (Primitive::Less, 2),
    (Primitive::Plus, 2),
    (Primitive::Minus, 2),
];

// The table of the profile's primitives.
pub(crate) fn primitive_arities(alloc: Global, profile: Profile) -> Result<Arity, Memory>
    ensures { IfOk result (λ a. a ≡ model.primitive_arities (profile_of profile)) }
{
    let mut arity = shared_arities(alloc)?;
    match profile {
        Profile::One => Ok(arity),
        Profile::Two => {
            arity.add(Primitive::Times.name(), 2)?;
            Ok(arity)
        }
    }
}

// The table of the primitives of both profiles, which are those of the first.
fn shared_arities(alloc: Global) -> Result<Arity, Memory>
    ensures { IfOk result (λ a. a ≡ model.primitive_arities One) }
{
    let mut arity = Arity::new(alloc);
    for (primitive, count) in &PRIMITIVES {
        arity.add(primitive.name(), *count)?;
    }
    Ok(arity)
}
