//! Judging proofs, each distinct one at most once.
ghost use Rattle.std.specs.Prelude.{◌≡◌, ◌<◌, true, [], All, length, IfOk};
ghost use Rattle.mw_heap.specs.Objects.{object_at, IsIn, Grows};
ghost use Rattle.mw_heap.specs.Variants.{profile_of};
ghost use Rattle.mw_term.specs.Marking.{AreMarks};
ghost use Rattle.mw_model.specs.Terms.Term.{ArityTable};
ghost use Rattle.mw_proof.specs.Step.{is_proof};
ghost use Rattle.mw_heap.specs.Lists.{list_object};
ghost use Rattle.mw_rules.specs.Basis.{IsBasisIn};
ghost use Rattle.mw_proof.specs.Judging.{basis_over, is_proof_on};
ghost use Rattle.mw_proof.specs.Judgments.{IsJudgment, Reaches, DecidesEach, HasStepForEach, HasStepForSome};

use crate::step::decide;
use indexmap::IndexSet;
use mw_heap::{Heap, Memory, Profile, Ref};
use mw_rules::{Basis, Known};
use mw_subst::Steps;
use mw_term::{Arity, Marks};
use std::marker::Brand;
use std::sync::ledger::{Blank, Ledger};

/// Whether an object is a proof, or out of memory.
#[derive(Clone, Copy, Debug, PartialEq, Eq)]
pub enum Judged {
    Good,
    Bad,
    Memory,
}

/// Whether `proof` is a proof from these axioms and theorems, under the arity table and in the profile. It extends the marks, which are
/// under that table, to all objects that the heap has at entry, and no further. It looks at each distinct proof once, and takes a step for
/// it: the proof, its subproofs, theirs and so on, up to the first of which something does not hold, or at which memory runs out.
pub fn judge_counted<L: Ledger>(
    heap: &mut Heap,
    proof: Ref,
    axioms: &Known,
    theorems: &Known,
    arity: &Arity,
    profile: Profile,
    marks: &mut Marks,
    steps: &mut Steps<L>,
) -> Judged
    requires within { IsIn heap.old.objects proof }
    requires axioms { All (IsIn heap.old.objects) axioms.now }
    requires theorems { All (IsIn heap.old.objects) theorems.now }
    requires marked { AreMarks arity.now heap.old.objects marks.old }
    ensures grows { Grows heap.old.objects heap.new.objects }
    ensures marked { AreMarks arity.now heap.new.objects marks.new }
    ensures judged { IsJudgment result (is_proof (list_object heap.old.objects axioms.now) (list_object heap.old.objects theorems.now) arity.now (profile_of profile) (object_at heap.old.objects proof)) }
    ensures reaches { Reaches result (length marks.old) (length heap.old.objects) (length marks.new) }
    ensures decided { DecidesEach result heap.old.objects proof steps.old steps.new }
{
    let below = heap.mark();
    let Ok(()) = marks.extend(heap, arity, below) else {
        return Judged::Memory;
    };
    let basis = Basis {
        axioms,
        theorems,
        profile,
    };
    let mut found = IndexSet::new(heap.alloc());
    match all_hold(heap, proof, &basis, marks, &mut found, steps) {
        Ok(true) => Judged::Good,
        Ok(false) => Judged::Bad,
        Err(_) => Judged::Memory,
    }
}

/// Whether `proof` is a proof from these axioms and theorems, under the arity table and in the profile. It extends the marks, which
/// are under that table, to all objects that the heap has at entry, and no further.
pub fn judge(
    heap: &mut Heap,
    proof: Ref,
    axioms: &Known,
    theorems: &Known,
    arity: &Arity,
    profile: Profile,
    marks: &mut Marks,
) -> Judged
    requires within { IsIn heap.old.objects proof }
    requires axioms { All (IsIn heap.old.objects) axioms.now }
    requires theorems { All (IsIn heap.old.objects) theorems.now }
    requires marked { AreMarks arity.now heap.old.objects marks.old }
    ensures grows { Grows heap.old.objects heap.new.objects }
    ensures marked { AreMarks arity.now heap.new.objects marks.new }
    ensures judged { IsJudgment result (is_proof (list_object heap.old.objects axioms.now) (list_object heap.old.objects theorems.now) arity.now (profile_of profile) (object_at heap.old.objects proof)) }
    ensures reaches { Reaches result (length marks.old) (length heap.old.objects) (length marks.new) }
{
    let basis = Basis {
        axioms,
        theorems,
        profile,
    };
    judge_uncounted::<Brand>(heap, proof, &basis, arity, marks, Blank::new(1))
}

// The same over a ledger that nobody reads.
fn judge_uncounted<L: Ledger>(
    heap: &mut Heap,
    proof: Ref,
    basis: &Basis,
    arity: &Arity,
    marks: &mut Marks,
    blank: Blank,
) -> Judged
    requires within { IsIn heap.old.objects proof }
    requires basis { IsBasisIn heap.old.objects basis.now }
    requires marked { AreMarks arity.now heap.old.objects marks.old }
    requires name { blank.name ≡ L.name }
    requires parts { blank.parts ≡ L.parts }
    requires some { 0 < blank.parts }
    ensures grows { Grows heap.old.objects heap.new.objects }
    ensures marked { AreMarks arity.now heap.new.objects marks.new }
    ensures judged { IsJudgment result (is_proof_on (basis_over heap.old.objects arity.now basis.now) (object_at heap.old.objects proof)) }
    ensures reaches { Reaches result (length marks.old) (length heap.old.objects) (length marks.new) }
{
    let mut steps = Steps::<L>::new(blank);
    judge_counted(
        heap,
        proof,
        basis.axioms,
        basis.theorems,
        arity,
        basis.profile,
        marks,
        &mut steps,
    )
}

// Whether all holds of a proof, its subproofs, theirs and so on that must hold of each, one after another: then each is a proof. It ends
// at the first of which it does not hold. The set of those found is the caller's, and empty at first: each step of the loop costs more to
// prove where it owns the set.
fn all_hold<L: Ledger>(
    heap: &mut Heap,
    proof: Ref,
    basis: &Basis,
    marks: &Marks,
    found: &mut IndexSet<Ref>,
    steps: &mut Steps<L>,
) -> Result<bool, Memory>
    requires marks { (A : ArityTable) × AreMarks A heap.old.objects marks.now }
    requires all { length marks.now ≡ length heap.old.objects }
    requires within { IsIn heap.old.objects proof }
    requires basis { IsBasisIn heap.old.objects basis.now }
    requires none_found { found.old.keys ≡ [] }
    ensures grows { Grows heap.old.objects heap.new.objects }
    ensures judged { IfOk result (λ b. (A : ArityTable) → AreMarks A heap.old.objects marks.now → b ≡ is_proof_on (basis_over heap.old.objects A basis.now) (object_at heap.old.objects proof)) }
    ensures each { IfOk result (λ b. b ≡ true → HasStepForEach heap.old.objects proof steps.old steps.new) }
    ensures most { HasStepForSome heap.old.objects proof steps.old steps.new }
{
    found.insert(proof)?;
    let mut next = 0;
    while next < found.len() {
        let p = found.as_slice()[next];
        steps.tick();
        let holds = decide(
            heap,
            p,
            found,
            basis.axioms,
            basis.theorems,
            basis.profile,
            marks,
        )?;
        if !holds {
            return Ok(false);
        }
        next += 1;
    }
    Ok(true)
}
