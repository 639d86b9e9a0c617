//! What must hold of one proof.
ghost use Rattle.std.specs.Prelude.{◌≡◌, ◌<◌, true, All, length, IfOk};
ghost use Rattle.mw_heap.specs.Objects.{object_at, IsIn, Grows};
ghost use Rattle.mw_heap.specs.Variants.{profile_of};
ghost use Rattle.mw_term.specs.Marking.{AreMarks};
ghost use Rattle.mw_model.specs.Terms.Term.{ArityTable};
ghost use Rattle.mw_proof.specs.Judging.{basis, is_step_on};
ghost use Rattle.mw_proof.specs.Gathered.{AreIn, AddsSubproofs};

use crate::conclusions::conclusions_of;
use crate::members::members_of;
use indexmap::IndexSet;
use mw_heap::{Heap, Memory, Profile, Ref};
use mw_rules::{Basis, Known, Method, follows};
use mw_term::{Marks, is_formula};

/// Whether all holds of an object that must hold of a proof, but that its subproofs are proofs; then these are added to those found. The
/// marks reach to the object at least. The error is out of memory.
pub fn decide(
    heap: &mut Heap,
    p: Ref,
    found: &mut IndexSet<Ref>,
    axioms: &Known,
    theorems: &Known,
    profile: Profile,
    marks: &Marks,
) -> Result<bool, Memory>
    requires marks { (A : ArityTable) × AreMarks A heap.old.objects marks.now }
    requires within { p < length marks.now }
    requires axioms { All (IsIn heap.old.objects) axioms.now }
    requires theorems { All (IsIn heap.old.objects) theorems.now }
    requires all_within { AreIn heap.old.objects found.old.keys }
    ensures grows { Grows heap.old.objects heap.new.objects }
    ensures answer { IfOk result (λ b. (A : ArityTable) → AreMarks A heap.old.objects marks.now → b ≡ is_step_on (basis heap.old.objects A axioms.now theorems.now (profile_of profile)) (object_at heap.old.objects p)) }
    ensures found { IfOk result (λ b. b ≡ true → AddsSubproofs heap.old.objects p found.old.keys found.new.keys) }
{
    let Some(members) = members_of(heap, p) else {
        return Ok(false);
    };
    let Some(method) = Method::of(heap, members.method) else {
        return Ok(false);
    };
    if !is_formula(marks, members.conclusion) {
        return Ok(false);
    }
    let most = method.most_subproofs();
    let Some(conclusions) = conclusions_of(heap, members.subproofs, found, marks, most)? else {
        return Ok(false);
    };
    let basis = Basis {
        axioms,
        theorems,
        profile,
    };
    follows(
        heap,
        method,
        members.conclusion,
        &conclusions,
        members.extras,
        &basis,
        marks,
    )
}
