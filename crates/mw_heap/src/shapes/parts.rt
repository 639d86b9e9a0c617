//! Parts of objects by their place, and tests of what a part is. A part is a reference, or nothing where the object has no such
//! part, which counts as NIL: so each call here has an answer for each object.
ghost use Rattle.std.specs.Prelude.{◌≡◌, ◌<◌, true, IfSome};
ghost use Rattle.mw_model.specs.Terms.Object.{Symbol, Pair, name_of_bytes, is_name, same_object, car, cdr, second_of, third_of, NIL, list1, list2, list3};
ghost use Rattle.mw_model.specs.Values.Primitive.{number, is_pair};
ghost use Rattle.mw_heap.specs.Objects.{object_at, IsIn};
ghost use Rattle.mw_heap.specs.Parts.{part_at, IsPart};
ghost use Rattle.mw_heap.specs.Words.{word_object};

use crate::{Heap, Ref, View, Word};

impl Heap {
    /// The first part of a pair; None if it is not a pair.
    pub fn car(&self, x: Ref) -> Option<Ref>
        requires { IsIn self.now.objects x }
        ensures within { IsPart self.now.objects result }
        ensures value { part_at self.now.objects result ≡ car (object_at self.now.objects x) }
        ensures older { IfSome result (λ r. r < x) }
    {
        match self.view(x) {
            View::Pair(first, _) => Some(first),
            _ => None,
        }
    }

    /// The second part of a pair; None if it is not a pair.
    pub fn cdr(&self, x: Ref) -> Option<Ref>
        requires { IsIn self.now.objects x }
        ensures within { IsPart self.now.objects result }
        ensures value { part_at self.now.objects result ≡ cdr (object_at self.now.objects x) }
        ensures older { IfSome result (λ r. r < x) }
    {
        match self.view(x) {
            View::Pair(_, second) => Some(second),
            _ => None,
        }
    }

    /// The second member of a list; nothing where there is none.
    pub fn second_of(&self, x: Ref) -> Option<Ref>
        requires { IsIn self.now.objects x }
        ensures within { IsPart self.now.objects result }
        ensures value { part_at self.now.objects result ≡ second_of (object_at self.now.objects x) }
        ensures older { IfSome result (λ r. r < x) }
    {
        self.car(self.cdr(x)?)
    }

    /// The third member of a list; nothing where there is none.
    pub fn third_of(&self, x: Ref) -> Option<Ref>
        requires { IsIn self.now.objects x }
        ensures within { IsPart self.now.objects result }
        ensures value { part_at self.now.objects result ≡ third_of (object_at self.now.objects x) }
        ensures older { IfSome result (λ r. r < x) }
    {
        self.second_of(self.cdr(x)?)
    }

    /// The number of a natural; 0 for any other object.
    pub fn number(&self, x: Option<Ref>) -> u128
        requires { IsPart self.now.objects x }
        ensures { result ≡ number (part_at self.now.objects x) }
    {
        let Some(x) = x else {
            return 0;
        };
        match self.view(x) {
            View::Nat(n) => n,
            _ => 0,
        }
    }

    /// Whether it is a pair.
    pub fn is_pair(&self, x: Option<Ref>) -> bool
        requires { IsPart self.now.objects x }
        ensures { result ≡ is_pair (part_at self.now.objects x) }
    {
        match x {
            Some(x) => matches!(self.view(x), View::Pair(_, _)),
            None => false,
        }
    }

    /// Whether it is the symbol of this name.
    pub fn is_named(&self, x: Option<Ref>, name: &[u8]) -> bool
        requires within { IsPart self.now.objects x }
        requires name { is_name name.now ≡ true }
        ensures { result ≡ same_object (part_at self.now.objects x) (Symbol (name_of_bytes name.now)) }
    {
        match x {
            Some(x) => match self.view(x) {
                View::Symbol => self.name_of(x) == name,
                _ => false,
            },
            None => name == b"NIL".as_slice(),
        }
    }

    /// Whether it is NIL.
    pub fn is_nil(&self, x: Option<Ref>) -> bool
        requires { IsPart self.now.objects x }
        ensures { result ≡ same_object (part_at self.now.objects x) NIL }
    {
        self.is_word(x, Word::Nil)
    }

    /// Whether two parts are equal.
    pub fn is_same(&self, x: Option<Ref>, y: Option<Ref>) -> bool
        requires first_within { IsPart self.now.objects x }
        requires second_within { IsPart self.now.objects y }
        ensures { result ≡ same_object (part_at self.now.objects x) (part_at self.now.objects y) }
    {
        match (x, y) {
            (Some(x), Some(y)) => self.same(x, y),
            (Some(x), None) => self.is_nil(Some(x)),
            (None, y) => self.is_nil(y),
        }
    }

    /// Whether its first part is the word.
    pub fn is_headed(&self, x: Ref, word: Word) -> bool
        requires { IsIn self.now.objects x }
        ensures { result ≡ same_object (car (object_at self.now.objects x)) (word_object word) }
    {
        self.is_word(self.car(x), word)
    }

    /// Whether it is the list (WORD a).
    pub fn is_list2(&self, x: Option<Ref>, word: Word, a: Option<Ref>) -> bool
        requires within { IsPart self.now.objects x }
        requires member_within { IsPart self.now.objects a }
        ensures { result ≡ same_object (part_at self.now.objects x) (list2 (word_object word) (part_at self.now.objects a)) }
    {
        let Some(x) = x else {
            return false;
        };
        match self.view(x) {
            View::Pair(head, rest) => self.is_word(Some(head), word)
                && self.is_list_of_one(rest, a),
            _ => false,
        }
    }

    /// Whether it is the list (WORD a b).
    pub fn is_list3(&self, x: Option<Ref>, word: Word, a: Option<Ref>, b: Option<Ref>) -> bool
        requires within { IsPart self.now.objects x }
        requires first_within { IsPart self.now.objects a }
        requires second_within { IsPart self.now.objects b }
        ensures { result ≡ same_object (part_at self.now.objects x) (list3 (word_object word) (part_at self.now.objects a) (part_at self.now.objects b)) }
    {
        let Some(x) = x else {
            return false;
        };
        match self.view(x) {
            View::Pair(head, rest) => self.is_word(Some(head), word)
                && self.is_list_of_two(rest, a, b),
            _ => false,
        }
    }

    // Whether it is the list (a).
    fn is_list_of_one(&self, x: Ref, a: Option<Ref>) -> bool
        requires within { IsIn self.now.objects x }
        requires member_within { IsPart self.now.objects a }
        ensures { result ≡ same_object (object_at self.now.objects x) (list1 (part_at self.now.objects a)) }
    {
        match self.view(x) {
            View::Pair(first, rest) => self.is_same(Some(first), a) && self.is_nil(Some(rest)),
            _ => false,
        }
    }

    // Whether it is the list (a b).
    fn is_list_of_two(&self, x: Ref, a: Option<Ref>, b: Option<Ref>) -> bool
        requires within { IsIn self.now.objects x }
        requires first_within { IsPart self.now.objects a }
        requires second_within { IsPart self.now.objects b }
        ensures { result ≡ same_object (object_at self.now.objects x) (Pair (part_at self.now.objects a) (list1 (part_at self.now.objects b))) }
    {
        match self.view(x) {
            View::Pair(first, rest) => self.is_same(Some(first), a) && self.is_list_of_one(rest, b),
            _ => false,
        }
    }
}
