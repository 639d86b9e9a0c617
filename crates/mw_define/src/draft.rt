//! Definitions as an event gives them.
use mw_heap::Ref;

/// The name of a function, the list of its formals, its body and its measure.
#[derive(Clone, Copy, Debug, PartialEq, Eq)]
pub struct Draft {
    pub name: Ref,
    pub formals: Ref,
    pub body: Ref,
    pub measure: Ref,
}
