//! All members of a list: of one to five, and of a list of any length.
ghost use Rattle.std.specs.Prelude.{◌≡◌, ◌<◌, false, All, MatchOption, IfOk};
ghost use Rattle.mw_model.specs.Terms.Object.{Pair, has_members, list1, list2, list3, list4};
ghost use Rattle.mw_heap.specs.Objects.{object_at, IsIn};
ghost use Rattle.mw_heap.specs.Lists.{list_object, proper_list};

use crate::{Heap, Memory, Ref, View};

impl Heap {
    /// The member of a list of one.
    pub fn one_member(&self, x: Ref) -> Option<Ref>
        requires { IsIn self.now.objects x }
        ensures { MatchOption result (has_members 1 (object_at self.now.objects x) ≡ false) (λ m. (object_at self.now.objects x ≡ list1 (object_at self.now.objects m)) × (m < x)) }
    {
        match self.view(x) {
            View::Pair(first, rest) if self.is_nil(Some(rest)) => Some(first),
            _ => None,
        }
    }

    /// The members of a list of two.
    pub fn two_members(&self, x: Ref) -> Option<(Ref, Ref)>
        requires { IsIn self.now.objects x }
        ensures { MatchOption result (has_members 2 (object_at self.now.objects x) ≡ false) (λ m. (object_at self.now.objects x ≡ list2 (object_at self.now.objects m.0) (object_at self.now.objects m.1)) × (m.0 < x) × (m.1 < x)) }
    {
        let View::Pair(first, rest) = self.view(x) else {
            return None;
        };
        match self.one_member(rest) {
            Some(second) => Some((first, second)),
            None => None,
        }
    }

    /// The members of a list of three.
    pub fn three_members(&self, x: Ref) -> Option<(Ref, Ref, Ref)>
        requires { IsIn self.now.objects x }
        ensures { MatchOption result (has_members 3 (object_at self.now.objects x) ≡ false) (λ m. (object_at self.now.objects x ≡ list3 (object_at self.now.objects m.0) (object_at self.now.objects m.1) (object_at self.now.objects m.2)) × (m.0 < x) × (m.1 < x) × (m.2 < x)) }
    {
        let View::Pair(first, rest) = self.view(x) else {
            return None;
        };
        match self.two_members(rest) {
            Some(others) => Some((first, others.0, others.1)),
            None => None,
        }
    }

    /// The members of a list of four.
    pub fn four_members(&self, x: Ref) -> Option<(Ref, Ref, Ref, Ref)>
        requires { IsIn self.now.objects x }
        ensures { MatchOption result (has_members 4 (object_at self.now.objects x) ≡ false) (λ m. (object_at self.now.objects x ≡ list4 (object_at self.now.objects m.0) (object_at self.now.objects m.1) (object_at self.now.objects m.2) (object_at self.now.objects m.3)) × (m.0 < x) × (m.1 < x) × (m.2 < x) × (m.3 < x)) }
    {
        let View::Pair(first, rest) = self.view(x) else {
            return None;
        };
        match self.three_members(rest) {
            Some(others) => Some((first, others.0, others.1, others.2)),
            None => None,
        }
    }

    /// The members of a list of five.
    pub fn five_members(&self, x: Ref) -> Option<(Ref, Ref, Ref, Ref, Ref)>
        requires { IsIn self.now.objects x }
        ensures { MatchOption result (has_members 5 (object_at self.now.objects x) ≡ false) (λ m. (object_at self.now.objects x ≡ Pair (object_at self.now.objects m.0) (list4 (object_at self.now.objects m.1) (object_at self.now.objects m.2) (object_at self.now.objects m.3) (object_at self.now.objects m.4))) × (m.0 < x) × (m.1 < x) × (m.2 < x) × (m.3 < x) × (m.4 < x)) }
    {
        let View::Pair(first, rest) = self.view(x) else {
            return None;
        };
        match self.four_members(rest) {
            Some(others) => Some((first, others.0, others.1, others.2, others.3)),
            None => None,
        }
    }

    /// The members of a list in order, up to its end, whatever ends it. It takes time in proportion to their number. The error is out of
    /// memory.
    pub fn list_members(&self, list: Ref) -> Result<Vec<Ref>, Memory>
        requires { IsIn self.now.objects list }
        ensures within { IfOk result (λ members. All (IsIn self.now.objects) members.items) }
        ensures members { IfOk result (λ members. list_object self.now.objects members.items ≡ proper_list (object_at self.now.objects list)) }
    {
        let mut members = Vec::new(self.alloc());
        let mut rest = list;
        while let View::Pair(first, more) = self.view(rest) {
            members.push(first)?;
            rest = more;
        }
        Ok(members)
    }
}
