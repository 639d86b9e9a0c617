//! What a proof may rest on.
use crate::known::Known;
use mw_heap::Profile;

/// What a proof may rest on: the axioms, the theorems proved before, and the profile that says which primitives there are.
#[derive(Clone, Copy)]
pub struct Basis<'a> {
    pub axioms: &'a Known,
    pub theorems: &'a Known,
    pub profile: Profile,
}
