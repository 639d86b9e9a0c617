//! The conclusions of subproofs.
ghost use Rattle.std.specs.Prelude.{◌≡◌, ◌<◌, ℕ, IfOk, unwrap_or};
ghost use Rattle.mw_model.specs.Terms.Object.{car, cdr, NIL};
ghost use Rattle.mw_heap.specs.Objects.{object_at, IsIn, Grows};
ghost use Rattle.mw_bad_steps.specs.Shown.{Shows};
ghost use Rattle.mw_bad_steps.specs.Members.{conclusions_in};

use mw_heap::{Heap, Memory, Ref, View};

/// The second members of the members of a list, as `seconds_of` gives them.
pub(crate) fn conclusions_shown(heap: &mut Heap, subproofs: Ref) -> Result<Vec<Ref>, Memory>
    requires { IsIn heap.old.objects subproofs }
    ensures grows { Grows heap.old.objects heap.new.objects }
    ensures shown { IfOk result (λ v. Shows heap.new.objects v.items (conclusions_in (object_at heap.old.objects subproofs))) }
{
    let nil = heap.nil()?;
    seconds_of(heap, subproofs, nil)
}

/// The second members of the members of a list; NIL where there is none.
pub fn seconds_of(heap: &Heap, list: Ref, nil: Ref) -> Result<Vec<Ref>, Memory>
    requires within { IsIn heap.now.objects list }
    requires nil_in { IsIn heap.now.objects nil }
    requires nil { object_at heap.now.objects nil ≡ NIL }
    ensures { IfOk result (λ v. Shows heap.now.objects v.items (conclusions_in (object_at heap.now.objects list))) }
{
    let mut seconds = Vec::new(heap.alloc());
    let mut rest = list;
    while let View::Pair(p, more) = heap.view(rest) {
        seconds.push(or_nil(heap.second_of(p), nil))?;
        rest = more;
    }
    Ok(seconds)
}

// The part, and NIL where there is none.
pub(crate) fn or_nil(part: Option<Ref>, nil: Ref) -> Ref
    ensures { result ≡ unwrap_or part nil }
{
    match part {
        Some(part) => part,
        None => nil,
    }
}

/// The two parts of a pair; NIL twice of any other object.
pub fn first_and_rest(heap: &Heap, x: Ref, nil: Ref) -> (Ref, Ref)
    requires within { IsIn heap.now.objects x }
    requires nil_in { IsIn heap.now.objects nil }
    requires nil { object_at heap.now.objects nil ≡ NIL }
    ensures below { (n : ℕ) → x < n → nil < n → (result.0 < n) × (result.1 < n) }
    ensures first { object_at heap.now.objects result.0 ≡ car (object_at heap.now.objects x) }
    ensures rest { object_at heap.now.objects result.1 ≡ cdr (object_at heap.now.objects x) }
{
    match heap.view(x) {
        View::Pair(first, rest) => (first, rest),
        _ => (nil, nil),
    }
}
