//! Formulas as lists: the parts of a disjunction and of an equation, and tests of what a part is. A formula is told by its first member, as
//! the logic's own checker tells it: of what begins with POR* or PEQUAL* the parts are the second and the third member, and a missing one
//! counts as NIL.
ghost use Rattle.std.specs.Prelude.{◌≡◌, IfSome, is_some};
ghost use Rattle.mw_model.specs.Terms.Object.{same_object, second_of, third_of};
ghost use Rattle.mw_model.specs.Laws.Rules.{is_or_object, is_equal_object, or_object, not_object, equal_object};
ghost use Rattle.mw_heap.specs.Parts.{part_at, IsPart};

use crate::{Heap, Ref, Word};

impl Heap {
    /// A and B of A or B.
    pub fn or_parts(&self, x: Option<Ref>) -> Option<(Option<Ref>, Option<Ref>)>
        requires { IsPart self.now.objects x }
        ensures within { IfSome result (λ p. IsPart self.now.objects p.0 × IsPart self.now.objects p.1) }
        ensures or { is_or_object (part_at self.now.objects x) ≡ is_some result }
        ensures parts { IfSome result (λ p. (part_at self.now.objects p.0 ≡ second_of (part_at self.now.objects x)) × (part_at self.now.objects p.1 ≡ third_of (part_at self.now.objects x))) }
    {
        let x = x?;
        if self.is_headed(x, Word::Por) {
            Some((self.second_of(x), self.third_of(x)))
        } else {
            None
        }
    }

    /// a and b of a = b.
    pub fn equal_parts(&self, x: Option<Ref>) -> Option<(Option<Ref>, Option<Ref>)>
        requires { IsPart self.now.objects x }
        ensures within { IfSome result (λ p. IsPart self.now.objects p.0 × IsPart self.now.objects p.1) }
        ensures equal { is_equal_object (part_at self.now.objects x) ≡ is_some result }
        ensures parts { IfSome result (λ p. (part_at self.now.objects p.0 ≡ second_of (part_at self.now.objects x)) × (part_at self.now.objects p.1 ≡ third_of (part_at self.now.objects x))) }
    {
        let x = x?;
        if self.is_headed(x, Word::Pequal) {
            Some((self.second_of(x), self.third_of(x)))
        } else {
            None
        }
    }

    /// Whether x is: A or B.
    pub fn is_or(&self, x: Option<Ref>, a: Option<Ref>, b: Option<Ref>) -> bool
        requires within { IsPart self.now.objects x }
        requires first_within { IsPart self.now.objects a }
        requires second_within { IsPart self.now.objects b }
        ensures { result ≡ same_object (part_at self.now.objects x) (or_object (part_at self.now.objects a) (part_at self.now.objects b)) }
    {
        self.is_list3(x, Word::Por, a, b)
    }

    /// Whether x is: not A.
    pub fn is_not(&self, x: Option<Ref>, a: Option<Ref>) -> bool
        requires within { IsPart self.now.objects x }
        requires part_within { IsPart self.now.objects a }
        ensures { result ≡ same_object (part_at self.now.objects x) (not_object (part_at self.now.objects a)) }
    {
        self.is_list2(x, Word::Pnot, a)
    }

    /// Whether x is: a = b.
    pub fn is_equal(&self, x: Option<Ref>, a: Option<Ref>, b: Option<Ref>) -> bool
        requires within { IsPart self.now.objects x }
        requires first_within { IsPart self.now.objects a }
        requires second_within { IsPart self.now.objects b }
        ensures { result ≡ same_object (part_at self.now.objects x) (equal_object (part_at self.now.objects a) (part_at self.now.objects b)) }
    {
        self.is_list3(x, Word::Pequal, a, b)
    }
}
