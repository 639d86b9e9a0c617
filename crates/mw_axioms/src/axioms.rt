//! The axioms of the primitives in a heap.
ghost use Rattle.std.specs.Prelude.{◌≡◌, IfOk, map};
ghost use Rattle.mw_model.specs.Terms.Term.{formula_object};
ghost use Rattle.mw_model.specs.Proofs.Axioms.{primitive_axioms};
ghost use Rattle.mw_heap.specs.Objects.{object_at, Grows};
ghost use Rattle.mw_heap.specs.Variants.{profile_of};
ghost use Rattle.mw_build.specs.Stacks.{AreIn};

use crate::table::{OF_TIMES, SHARED};
use mw_build::make_all;
use mw_heap::{Heap, Memory, Profile, Ref};
use std::marker::Model;

/// Axioms, in order, as references to the objects of their formulas.
#[derive(Drop)]
pub struct Axioms {
    formulas: Vec<Ref>,
}

impl Model for Axioms {
    ghost use Rattle.std.specs.Prelude.{List, ℕ};

    ghost Value = { List ℕ };

    ghost view = { λ a. a.formulas.items };
}

impl Axioms {
    /// These references, in the memory that they have.
    pub fn from_vec(formulas: Vec<Ref>) -> Axioms
        ensures { result ≡ formulas.items }
    {
        Axioms { formulas }
    }

    /// The references, in order.
    pub fn as_slice(&self) -> &[Ref]
        ensures { result.now ≡ self.now }
    {
        self.formulas.as_slice()
    }
}

/// Makes the axioms of the profile's primitives.
pub fn build(heap: &mut Heap, profile: Profile) -> Result<Axioms, Memory>
    ensures grows { Grows heap.old.objects heap.new.objects }
    ensures within { IfOk result (λ a. AreIn heap.new.objects a) }
    ensures axioms { IfOk result (λ a. map (object_at heap.new.objects) a ≡ map formula_object (primitive_axioms (profile_of profile))) }
{
    let mut formulas = Vec::new(heap.alloc());
    make_all(heap, &SHARED, &mut formulas)?;
    match profile {
        Profile::One => {}
        Profile::Two => make_all(heap, &OF_TIMES, &mut formulas)?,
    }
    Ok(Axioms { formulas })
}
