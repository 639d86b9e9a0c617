//! The members of a proof.
ghost use Rattle.std.specs.Prelude.{◌≡◌, is_some, IfSome};
ghost use Rattle.mw_heap.specs.Objects.{object_at, IsIn};
ghost use Rattle.mw_proof.specs.Step.{has_proof_shape};
ghost use Rattle.mw_proof.specs.Members.{AreMembers, IsNext};

use mw_heap::{Heap, Ref, View};

/// The members of a proof: what it is a list of.
#[derive(Clone, Copy)]
pub struct Members {
    pub method: Ref,
    pub conclusion: Ref,
    pub subproofs: Ref,
    pub extras: Ref,
}

/// The members, where it is a list of two to four. For one that is missing stands the NIL at the list's end.
pub fn members_of(heap: &Heap, p: Ref) -> Option<Members>
    requires { IsIn heap.now.objects p }
    ensures shape { is_some result ≡ has_proof_shape (object_at heap.now.objects p) }
    ensures members { IfSome result (λ m. AreMembers heap.now.objects p m) }
{
    let View::Pair(method, rest) = heap.view(p) else {
        return None;
    };
    let View::Pair(conclusion, rest) = heap.view(rest) else {
        return None;
    };
    let (subproofs, rest) = next_member(heap, rest);
    let (extras, end) = next_member(heap, rest);
    if !heap.is_nil(Some(end)) {
        return None;
    }
    Some(Members {
        method,
        conclusion,
        subproofs,
        extras,
    })
}

// The next member of a list and the rest; the end twice where there is none.
fn next_member(heap: &Heap, x: Ref) -> (Ref, Ref)
    requires { IsIn heap.now.objects x }
    ensures { IsNext heap.now.objects x result.0 result.1 }
{
    match heap.view(x) {
        View::Pair(first, rest) => (first, rest),
        _ => (x, x),
    }
}
