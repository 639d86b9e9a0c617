//! Answers from what was found.
ghost use Rattle.std.specs.Prelude.{◌≡◌, ◌<◌, ◌≤◌, ◌+◌, false, MatchOption};
ghost use Rattle.mw_model.specs.Terms.Object.{Natural, Pair};
ghost use Rattle.mw_heap.specs.Objects.{object_at, IsIn, Grows};
ghost use Rattle.mw_base.specs.declared.applied.Applied.TheVariants.{Overflow};
ghost use Rattle.mw_base.specs.Answers.{Answers, IsAnswered};

use crate::Applied;
use mw_heap::{Heap, Memory, Ref};

// The pair.
pub(crate) fn pair(heap: &mut Heap, first: Ref, second: Ref) -> Applied
    requires first_in { IsIn heap.old.objects first }
    requires second_in { IsIn heap.old.objects second }
    ensures grows { Grows heap.old.objects heap.new.objects }
    ensures answer { Answers heap.new.objects false (Pair (object_at heap.old.objects first) (object_at heap.old.objects second)) result }
    ensures room { 0 < heap.old.spare → IsAnswered result }
    ensures spare { heap.old.spare ≤ heap.new.spare + 1 }
{
    match heap.cons(first, second) {
        Ok(value) => Applied::Value(value),
        Err(Memory) => Applied::Memory,
    }
}

// The natural, or Overflow where there is none.
pub(crate) fn natural(heap: &mut Heap, n: Option<u128>) -> Applied
    ensures grows { Grows heap.old.objects heap.new.objects }
    ensures answer { MatchOption n (result ≡ Overflow) (λ n. Answers heap.new.objects false (Natural n) result) }
    ensures room { 0 < heap.old.spare → IsAnswered result }
    ensures spare { heap.old.spare ≤ heap.new.spare + 1 }
{
    let Some(n) = n else {
        return Applied::Overflow;
    };
    match heap.nat(n) {
        Ok(value) => Applied::Value(value),
        Err(Memory) => Applied::Memory,
    }
}
