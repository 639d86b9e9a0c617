//! What comes of a definition.
use mw_heap::{Ref, Refusal};

/// A function or a witness to be added: its name, the list of its formals, of which a witness has the bound variable first, and its
/// expanded body.
#[derive(Clone, Copy, Debug, PartialEq, Eq)]
pub struct Entry {
    pub name: Ref,
    pub formals: Ref,
    pub body: Ref,
}

/// What an admitted definition owes and adds: the list of its obligations, the list of its axioms, and its entries, in order.
#[derive(Drop)]
pub struct Owed {
    pub obligations: Ref,
    pub axioms: Ref,
    pub entries: Vec<Entry>,
}

/// A definition that passes its tests, the first test that it fails, or out of memory.
#[derive(Drop)]
pub enum Admitted {
    Obligations(Owed),
    Refused(Refusal),
    Memory,
}
