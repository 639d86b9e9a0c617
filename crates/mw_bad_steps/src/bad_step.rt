//! Looking for the first step that does not follow though its subproofs are proofs.
ghost use Rattle.std.specs.Prelude.{◌≡◌, ℕ, ◌<◌, List, [], ◌∷◌, map, All, IfOk, IfSome};
ghost use Rattle.mw_model.specs.Terms.Term.{ArityTable};
ghost use Rattle.mw_heap.specs.Objects.{object_at, IsIn, Grows};
ghost use Rattle.mw_heap.specs.Lists.{list_object};
ghost use Rattle.mw_heap.specs.Variants.{profile_of};
ghost use Rattle.mw_term.specs.Marking.{AreMarks};
ghost use Rattle.mw_proof.specs.Step.{is_proof};
ghost use Rattle.mw_proof.specs.Judging.{basis_over, is_proof_on};
ghost use Rattle.mw_commands.specs.Commands.ExplanationSteps.{first_bad};
ghost use Rattle.mw_bad_steps.specs.BadStep.{MayLook, IsOpen, IsUnopened, Advances, number_of, Finds, placed_in};

use indexmap::IndexSet;
use mw_heap::{Heap, Memory, Profile, Ref, View};
use mw_proof::decide;
use mw_rules::{Basis, Known};
use mw_term::{Arity, Marks};

/// A step of a proof, and the numbers of the subproofs that lead to it, from 1 on: none for the proof itself.
#[derive(Drop)]
pub struct BadStep {
    pub place: Vec<u64>,
    pub step: Ref,
}

// A proof whose subproofs are looked at: those that are left, and how many are not.
#[derive(Clone, Copy)]
pub struct Open {
    proof: Ref,
    left: Option<Ref>,
    number: u64,
}

// A proof with all its subproofs left.
fn unopened(heap: &Heap, proof: Ref) -> Open
    requires { IsIn heap.now.objects proof }
    ensures { IsUnopened heap.now.objects proof result }
{
    Open {
        proof,
        left: heap.third_of(proof),
        number: 0,
    }
}

// Looks at the next subproof, where one is left: opens it, unless it is known to be good.
fn advance(
    heap: &Heap,
    last: Open,
    good: &IndexSet<Ref>,
    path: &mut Vec<Open>,
) -> Result<bool, Memory>
    requires { IsOpen heap.now.objects last }
    ensures { IfOk result (Advances heap.now.objects last good.now.keys path.old.items path.new.items) }
{
    let Some(list) = last.left else {
        return Ok(false);
    };
    let View::Pair(p, more) = heap.view(list) else {
        return Ok(false);
    };
    let Some(number) = last.number.checked_add(1) else {
        return Err(Memory);
    };
    path.push(Open {
        proof: last.proof,
        left: Some(more),
        number,
    })?;
    if !good.contains(&p) {
        path.push(unopened(heap, p))?;
    }
    Ok(true)
}

// The numbers of those that are open.
fn place_of(heap: &Heap, path: &[Open]) -> Result<Vec<u64>, Memory>
    ensures { IfOk result (λ v. v.items ≡ map number_of path.now) }
{
    let mut place = Vec::new(heap.alloc());
    for w in path {
        place.push(w.number)?;
    }
    Ok(place)
}

// Finds the first step of a proof that does not follow though its subproofs are proofs. Then the path leads to it.
fn find(
    heap: &mut Heap,
    proof: Ref,
    basis: &Basis,
    marks: &Marks,
    good: &mut IndexSet<Ref>,
    found: &mut IndexSet<Ref>,
    path: &mut Vec<Open>,
) -> Result<Option<Ref>, Memory>
    requires may { MayLook heap.old.objects proof basis.now marks.now }
    requires none_good { good.old.keys ≡ [] }
    requires none_found { found.old.keys ≡ [] }
    requires none_open { path.old.items ≡ [] }
    ensures grows { Grows heap.old.objects heap.new.objects }
    ensures found { IfOk result (λ o. (A : ArityTable) → AreMarks A heap.old.objects marks.now → Finds (is_proof_on (basis_over heap.old.objects A basis.now)) heap.old.objects proof path.new.items o) }
{
    path.push(unopened(heap, proof))?;
    while let Some(last) = path.pop() {
        let step = last.proof;
        if advance(heap, last, good, path)? {
            continue;
        }
        let holds = decide(
            heap,
            step,
            found,
            basis.axioms,
            basis.theorems,
            basis.profile,
            marks,
        )?;
        if !holds {
            return Ok(Some(step));
        }
        good.insert(step)?;
    }
    Ok(None)
}

// The first step of a proof that does not follow though its subproofs are proofs, with its place.
fn look(
    heap: &mut Heap,
    proof: Ref,
    basis: &Basis,
    marks: &Marks,
) -> Result<Option<BadStep>, Memory>
    requires { MayLook heap.old.objects proof basis.now marks.now }
    ensures grows { Grows heap.old.objects heap.new.objects }
    ensures within { IfOk result (λ o. IfSome o (λ b. IsIn heap.old.objects b.step)) }
    ensures bad { IfOk result (λ o. (A : ArityTable) → AreMarks A heap.old.objects marks.now → first_bad (is_proof_on (basis_over heap.old.objects A basis.now)) (object_at heap.old.objects proof) ≡ placed_in heap.old.objects o) }
{
    let mut good = Box::new(heap.alloc(), IndexSet::new(heap.alloc()))?;
    let mut found = Box::new(heap.alloc(), IndexSet::new(heap.alloc()))?;
    let mut path = Vec::new(heap.alloc());
    let step = find(heap, proof, basis, marks, &mut good, &mut found, &mut path)?;
    match step {
        None => Ok(None),
        Some(step) => {
            let place = place_of(heap, &path)?;
            Ok(Some(BadStep { place, step }))
        }
    }
}

/// The first step that is not a proof though its subproofs are, with its place: subproofs come first, from left to right. None of a proof.
/// Proofs are those from these axioms and theorems, under the arity table and in the profile. Each distinct proof is looked at once. It
/// extends the marks, which are under that table, to all objects that the heap has at entry. The error is out of memory.
pub fn first_bad_step(
    heap: &mut Heap,
    proof: Ref,
    axioms: &Known,
    theorems: &Known,
    arity: &Arity,
    profile: Profile,
    marks: &mut Marks,
) -> Result<Option<BadStep>, Memory>
    requires within { IsIn heap.old.objects proof }
    requires axioms { All (IsIn heap.old.objects) axioms.now }
    requires theorems { All (IsIn heap.old.objects) theorems.now }
    requires marked { AreMarks arity.now heap.old.objects marks.old }
    ensures grows { Grows heap.old.objects heap.new.objects }
    ensures marked { AreMarks arity.now heap.new.objects marks.new }
    ensures within { IfOk result (λ o. IfSome o (λ b. IsIn heap.old.objects b.step)) }
    ensures bad { IfOk result (λ o. first_bad (is_proof (list_object heap.old.objects axioms.now) (list_object heap.old.objects theorems.now) arity.now (profile_of profile)) (object_at heap.old.objects proof) ≡ placed_in heap.old.objects o) }
{
    let below = heap.mark();
    marks.extend(heap, arity, below)?;
    let basis = Basis {
        axioms,
        theorems,
        profile,
    };
    look(heap, proof, &basis, marks)
}
