//! T and NIL at hand.
ghost use Rattle.std.specs.Prelude.{◌≡◌, ◌≤◌, ◌+◌, IfOk, OnErr};
ghost use Rattle.mw_model.specs.Terms.Object.{truth_of, car, cdr};
ghost use Rattle.mw_heap.specs.Objects.{object_at, IsIn, Grows};
ghost use Rattle.mw_base.specs.Truths.{AreTruths};

use mw_heap::{Heap, Memory, Ref};

/// The references of T and NIL.
#[derive(Clone, Copy, Debug, PartialEq, Eq)]
pub struct Truths {
    pub t: Ref,
    pub nil: Ref,
}

impl Truths {
    /// T and NIL in a heap. The error is out of memory: no room of the heap is then smaller than before.
    pub fn new(heap: &mut Heap) -> Result<Truths, Memory>
        ensures grows { Grows heap.old.objects heap.new.objects }
        ensures made { IfOk result (AreTruths heap.new.objects) }
        ensures spare { heap.old.spare ≤ heap.new.spare + 2 }
        ensures err { OnErr result (heap.new.objects ≡ heap.old.objects) }
        ensures err_spare { OnErr result (heap.old.spare ≤ heap.new.spare) }
    {
        let (t, nil) = heap.truths()?;
        Ok(Truths { t, nil })
    }

    /// T or NIL.
    #[inline(always)]
    pub fn of(&self, heap: &Heap, holds: bool) -> Ref
        requires { AreTruths heap.now.objects self.now }
        ensures within { IsIn heap.now.objects result }
        ensures value { object_at heap.now.objects result ≡ truth_of holds }
    {
        let _ = heap;
        if holds { self.t } else { self.nil }
    }

    /// The first part of a pair; NIL of anything else.
    #[inline(always)]
    pub fn car_of(&self, heap: &Heap, x: Ref) -> Ref
        requires truths { AreTruths heap.now.objects self.now }
        requires within { IsIn heap.now.objects x }
        ensures within { IsIn heap.now.objects result }
        ensures value { object_at heap.now.objects result ≡ car (object_at heap.now.objects x) }
    {
        match heap.pair_of(x) {
            Some((first, _)) => first,
            None => self.nil,
        }
    }

    /// The second part of a pair; NIL of anything else.
    #[inline(always)]
    pub fn cdr_of(&self, heap: &Heap, x: Ref) -> Ref
        requires truths { AreTruths heap.now.objects self.now }
        requires within { IsIn heap.now.objects x }
        ensures within { IsIn heap.now.objects result }
        ensures value { object_at heap.now.objects result ≡ cdr (object_at heap.now.objects x) }
    {
        match heap.pair_of(x) {
            Some((_, rest)) => rest,
            None => self.nil,
        }
    }
}
