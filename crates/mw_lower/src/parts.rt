//! What a derivation is made of.
ghost use Rattle.std.specs.Prelude.{◌≡◌, ◌<◌, [], true, false, None, length, IfOk, MatchOption};
ghost use Rattle.mw_model.specs.Terms.Term.{ArityTable};
ghost use Rattle.mw_heap.specs.Objects.{object_at, IsIn};
ghost use Rattle.mw_term.specs.Marking.{AreMarks};
ghost use Rattle.mw_proof.specs.Gathered.{AreIn, AddsSubproofs};
ghost use Rattle.mw_proof.specs.Judging.{Basis};
ghost use Rattle.mw_lower.specs.Parts.{AreParts};
ghost use Rattle.mw_lower.specs.Turned.{derived_on};

use crate::further::most_premises;
use indexmap::IndexSet;
use mw_heap::{Heap, Memory, Ref};
use mw_proof::{conclusions_of, members_of};
use mw_term::{Marks, take_searches};

// The looks that a premise takes: labels may share a list of premises among many steps, and what replaces one by REPLACE has some forty
// cells for each.
const LOOKS_FOR_A_PREMISE: u64 = 32;

// Adds the subproofs of p to those found; or it is no derivation. It looks at one more subproof at most than the rule takes.
fn add_subproofs(
    heap: &mut Heap,
    p: Ref,
    found: &mut IndexSet<Ref>,
    marks: &Marks,
) -> Result<bool, Memory>
    requires marks { (A : ArityTable) × AreMarks A heap.old.objects marks.now }
    requires within { p < length marks.now }
    requires all_within { AreIn heap.old.objects found.old.keys }
    ensures same { heap.new.objects ≡ heap.old.objects }
    ensures none { IfOk result (λ t. t ≡ false → (b : Basis) → AreMarks b.table heap.old.objects marks.now → derived_on b (object_at heap.old.objects p) ≡ None) }
    ensures found { IfOk result (λ t. t ≡ true → AddsSubproofs heap.old.objects p found.old.keys found.new.keys) }
{
    let Some(step) = members_of(heap, p) else {
        return Ok(false);
    };
    let most = most_premises(heap, step.method);
    let Some(conclusions) = conclusions_of(heap, step.subproofs, found, marks, most)? else {
        return Ok(false);
    };
    let premises = conclusions.len() as u64;
    take_searches(heap, premises.saturating_mul(LOOKS_FOR_A_PREMISE))?;
    Ok(true)
}

// Adds the proof, its subproofs, theirs and so on to a set that has nothing yet, each once and after its own; or it is no derivation.
fn add_parts(
    heap: &mut Heap,
    proof: Ref,
    found: &mut IndexSet<Ref>,
    marks: &Marks,
) -> Result<bool, Memory>
    requires marks { (A : ArityTable) × AreMarks A heap.old.objects marks.now }
    requires all { length marks.now ≡ length heap.old.objects }
    requires within { IsIn heap.old.objects proof }
    requires empty { found.old.keys ≡ [] }
    ensures same { heap.new.objects ≡ heap.old.objects }
    ensures none { IfOk result (λ t. t ≡ false → (b : Basis) → AreMarks b.table heap.old.objects marks.now → derived_on b (object_at heap.old.objects proof) ≡ None) }
    ensures parts { IfOk result (λ t. t ≡ true → AreParts heap.old.objects proof found.new.keys) }
{
    found.insert(proof)?;
    let mut next = 0;
    while next < found.len() {
        let p = found.as_slice()[next];
        if !add_subproofs(heap, p, found, marks)? {
            return Ok(false);
        }
        next += 1;
    }
    found.sort_unstable()?;
    Ok(true)
}

/// The proof, its subproofs, theirs and so on, each once and after its own; nothing where it is no derivation.
pub(crate) fn parts(
    heap: &mut Heap,
    proof: Ref,
    marks: &Marks,
) -> Result<Option<IndexSet<Ref>>, Memory>
    requires marks { (A : ArityTable) × AreMarks A heap.old.objects marks.now }
    requires all { length marks.now ≡ length heap.old.objects }
    requires within { IsIn heap.old.objects proof }
    ensures same { heap.new.objects ≡ heap.old.objects }
    ensures parts { IfOk result (λ o. MatchOption o ((b : Basis) → AreMarks b.table heap.old.objects marks.now → derived_on b (object_at heap.old.objects proof) ≡ None) (λ s. AreParts heap.old.objects proof s.keys)) }
{
    let mut found = IndexSet::new(heap.alloc());
    if !add_parts(heap, proof, &mut found, marks)? {
        return Ok(None);
    }
    Ok(Some(found))
}
