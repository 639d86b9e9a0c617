//! Members of lists.
ghost use Rattle.std.specs.Prelude.{◌≡◌, true, false, IfSome, MatchOption};
ghost use Rattle.mw_model.specs.Terms.Object.{Object, same_object, list2, list3};
ghost use Rattle.mw_heap.specs.Objects.{object_at, IsIn};
ghost use Rattle.mw_heap.specs.Words.{word_object};

use crate::{Heap, Ref, View, Word};

impl Heap {
    /// The member a of the list (WORD a); nothing where it is no such list.
    pub fn member_after(&self, x: Ref, word: Word) -> Option<Ref>
        requires { IsIn self.now.objects x }
        ensures within { IfSome result (λ a. IsIn self.now.objects a) }
        ensures member { MatchOption result ((a : Object) → same_object (object_at self.now.objects x) (list2 (word_object word) a) ≡ false) (λ a. object_at self.now.objects x ≡ list2 (word_object word) (object_at self.now.objects a)) }
    {
        let View::Pair(head, rest) = self.view(x) else {
            return None;
        };
        let View::Pair(first, end) = self.view(rest) else {
            return None;
        };
        if self.is_word(Some(head), word) && self.is_nil(Some(end)) {
            Some(first)
        } else {
            None
        }
    }

    /// The members a and b of the list (WORD a b); nothing where it is no such list.
    pub fn members_after(&self, x: Ref, word: Word) -> Option<(Ref, Ref)>
        requires { IsIn self.now.objects x }
        ensures within { IfSome result (λ p. IsIn self.now.objects p.0 × IsIn self.now.objects p.1) }
        ensures members { MatchOption result ((a b : Object) → same_object (object_at self.now.objects x) (list3 (word_object word) a b) ≡ false) (λ p. object_at self.now.objects x ≡ list3 (word_object word) (object_at self.now.objects p.0) (object_at self.now.objects p.1)) }
    {
        let View::Pair(head, rest) = self.view(x) else {
            return None;
        };
        let View::Pair(first, rest) = self.view(rest) else {
            return None;
        };
        let View::Pair(second, end) = self.view(rest) else {
            return None;
        };
        if self.is_word(Some(head), word) && self.is_nil(Some(end)) {
            Some((first, second))
        } else {
            None
        }
    }
}
