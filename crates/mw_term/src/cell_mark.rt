//! What is known of one object, in one byte.
ghost use Rattle.std.specs.Prelude.{◌≡◌, ◌<◌, List, length, cond, false};
ghost use Rattle.mw_model.specs.Terms.Object.{Object};
ghost use Rattle.mw_model.specs.Terms.Term.{ArityTable};
ghost use Rattle.mw_heap.specs.Objects.{object_at};
ghost use Rattle.mw_term.specs.Marking.{AreMarks, mark_of_object};

use mw_heap::Ref;
use std::marker::Model;

/// What an object is under an arity table: a term, a proper list of terms, a formula, the head of a lambda call. There is a bit for each,
/// since `Marks` keeps a mark for each object of a heap.
#[derive(Drop)]
pub(crate) struct CellMark {
    bits: u8,
}

const _: () = prove!(size_of::<CellMark>() == 1);

const TERM: u8 = 1;

const TERMS: u8 = 2;

const FORMULA: u8 = 4;

const HEAD: u8 = 8;

impl Model for CellMark {
    ghost use Rattle.mw_term.specs.Marking.{ObjectMark, coded_mark};
    ghost use Rattle.mw_term.specs.Packing.{unpacked};

    ghost Value = { ObjectMark };

    ghost coded = { coded_mark };

    ghost view = { λ m. unpacked m.bits };
}

/// The mark of an object, where its mark stands.
pub(crate) fn mark_at(marks: &[CellMark], x: Ref) -> &CellMark
    requires { x < length marks.now }
    ensures { (A : ArityTable) (os : List Object) → AreMarks A os marks.now → result.now ≡ mark_of_object A (object_at os x) }
{
    &marks[x.index()]
}

impl CellMark {
    pub(crate) fn new(is_term: bool, is_terms: bool, is_formula: bool, is_head: bool) -> CellMark
        ensures { result ≡ record { is_term = is_term; is_terms = is_terms; is_formula = is_formula; is_head = is_head } }
    {
        CellMark {
            bits: bit(is_term, TERM)
                | bit(is_terms, TERMS)
                | bit(is_formula, FORMULA)
                | bit(is_head, HEAD),
        }
    }

    /// The mark of what is neither a formula nor the head of a lambda call.
    pub(crate) fn no_formula(is_term: bool, is_terms: bool) -> CellMark
        ensures { result ≡ record { is_term = is_term; is_terms = is_terms; is_formula = false; is_head = false } }
    {
        CellMark::new(is_term, is_terms, false, false)
    }

    /// Whether another mark is not this one.
    pub(crate) fn differs_from(&self, other: &CellMark) -> bool
        ensures { result ≡ false → self.now ≡ other.now }
    {
        self.bits != other.bits
    }

    pub(crate) fn is_term(&self) -> bool
        ensures { result ≡ self.now.is_term }
    {
        self.bits & TERM != 0
    }

    pub(crate) fn is_terms(&self) -> bool
        ensures { result ≡ self.now.is_terms }
    {
        self.bits & TERMS != 0
    }

    pub(crate) fn is_formula(&self) -> bool
        ensures { result ≡ self.now.is_formula }
    {
        self.bits & FORMULA != 0
    }

    pub(crate) fn is_head(&self) -> bool
        ensures { result ≡ self.now.is_head }
    {
        self.bits & HEAD != 0
    }
}

// The bit of a test that says yes.
fn bit(is: bool, bit: u8) -> u8
    ensures { result ≡ cond is bit 0 }
{
    if is { bit } else { 0 }
}
