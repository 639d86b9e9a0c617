//! What is shown of a step that is not a proof though its subproofs are.
ghost use Rattle.std.specs.Prelude.{◌≡◌, ◌<◌, ◌++◌, length, All, IfOk};
ghost use Rattle.mw_model.specs.Terms.Term.{ArityTable};
ghost use Rattle.mw_model.specs.Values.Definition.{arity_table};
ghost use Rattle.mw_model.specs.Events.Theory.{Theory};
ghost use Rattle.mw_heap.specs.Objects.{object_at, IsIn, Grows};
ghost use Rattle.mw_heap.specs.Lists.{list_object};
ghost use Rattle.mw_heap.specs.Variants.{profile_of};
ghost use Rattle.mw_rules.specs.Basis.{IsBasisIn};
ghost use Rattle.mw_term.specs.Marking.{AreMarks};
ghost use Rattle.mw_commands.specs.Commands.ExplanationSteps.{wrong_step, bad_step_shown};
ghost use Rattle.mw_bad_steps.specs.Shown.{Shows};
ghost use Rattle.mw_explain.specs.Condition.{HasProofs, IsWrong};
ghost use Rattle.mw_explain.specs.declared.condition.Wrong.TheVariants.{Shape, Formula as Part, Premises, Induction, Rule};

use crate::condition::{Wrong, wrong_step};
use crate::extras::premises_of;
use crate::place::place_shown;
use crate::shown_part::part_shown;
use crate::step_shown::condition_shown;
use mw_bad_steps::{first_bad_step, mended};
use mw_commands::explaining::bad_steps;
use mw_heap::{Heap, Memory, Profile, Ref};
use mw_proof::members_of;
use mw_rules::{Basis, Known};
use mw_term::{Arity, Marks, is_formula};

// The first references, and then the others.
fn joined(first: Vec<Ref>, others: &[Ref]) -> Result<Vec<Ref>, Memory>
    ensures { IfOk result (λ v. v.items ≡ first.items ++ others.now) }
{
    let mut all = first;
    all.extend_from_slice(others)?;
    Ok(all)
}

// An object that is not a list of two to four members, and the word SHAPE.
fn shape_shown(heap: &mut Heap, step: Ref) -> Result<Vec<Ref>, Memory>
    requires { IsIn heap.old.objects step }
    ensures grows { Grows heap.old.objects heap.new.objects }
    ensures shown { IfOk result (λ v. (t : Theory) → IsWrong t heap.old.objects (object_at heap.old.objects step) Shape → Shows heap.new.objects v.items (wrong_step t (object_at heap.old.objects step))) }
{
    let word = heap.symbol(b"SHAPE")?;
    let mut shown = Vec::new(heap.alloc());
    shown.push(step)?;
    shown.push(word)?;
    Ok(shown)
}

// A step whose conclusion is not a formula, because of this part.
fn formula_shown(heap: &mut Heap, arity: &Arity, step: Ref, part: Ref) -> Result<Vec<Ref>, Memory>
    requires step { IsIn heap.old.objects step }
    requires part { IsIn heap.old.objects part }
    ensures grows { Grows heap.old.objects heap.new.objects }
    ensures shown { IfOk result (λ v. (t : Theory) → arity_table t.definitions ≡ arity.now → IsWrong t heap.old.objects (object_at heap.old.objects step) (Part part) → Shows heap.new.objects v.items (wrong_step t (object_at heap.old.objects step))) }
{
    let shown = condition_shown(heap, step, b"FORMULA", None)?;
    let parts = part_shown(heap, arity, Some(part))?;
    joined(shown, &parts)
}

// A step that does not have the number of subproofs of its method.
fn count_shown(heap: &mut Heap, step: Ref, count: u64) -> Result<Vec<Ref>, Memory>
    requires { IsIn heap.old.objects step }
    ensures grows { Grows heap.old.objects heap.new.objects }
    ensures shown { IfOk result (λ v. (t : Theory) → IsWrong t heap.old.objects (object_at heap.old.objects step) (Premises count) → Shows heap.new.objects v.items (wrong_step t (object_at heap.old.objects step))) }
{
    let number = heap.nat(count as u128)?;
    condition_shown(heap, step, b"PREMISES", Some(number))
}

// A step by INDUCTION.
fn induction_shown(heap: &mut Heap, step: Ref, marks: &Marks) -> Result<Vec<Ref>, Memory>
    requires within { step < length marks.now }
    requires marks { (A : ArityTable) × AreMarks A heap.old.objects marks.now }
    ensures grows { Grows heap.old.objects heap.new.objects }
    ensures shown { IfOk result (λ v. (t : Theory) → AreMarks (arity_table t.definitions) heap.old.objects marks.now → IsWrong t heap.old.objects (object_at heap.old.objects step) Induction → Shows heap.new.objects v.items (wrong_step t (object_at heap.old.objects step))) }
{
    let Some(members) = members_of(heap, step) else {
        return Ok(Vec::new(heap.alloc()));
    };
    if !is_formula(marks, members.conclusion) {
        return Ok(Vec::new(heap.alloc()));
    }
    match premises_of(heap, members.conclusion, members.extras, marks)? {
        Some(premises) => condition_shown(heap, step, b"PREMISES", Some(premises)),
        None => condition_shown(heap, step, b"EXTRAS", None),
    }
}

// What is shown of a step that is not a proof though its subproofs are.
fn wrong_shown(
    heap: &mut Heap,
    step: Ref,
    basis: &Basis,
    arity: &Arity,
    marks: &mut Marks,
) -> Result<Vec<Ref>, Memory>
    requires within { step < length marks.old }
    requires basis { IsBasisIn heap.old.objects basis.now }
    requires marked { AreMarks arity.now heap.old.objects marks.old }
    ensures grows { Grows heap.old.objects heap.new.objects }
    ensures marked { AreMarks arity.now heap.new.objects marks.new }
    ensures shown { IfOk result (λ v. (t : Theory) → t.axioms ≡ list_object heap.old.objects basis.now.axioms.now → t.theorems ≡ list_object heap.old.objects basis.now.theorems.now → arity_table t.definitions ≡ arity.now → t.definitions.profile ≡ profile_of basis.now.profile → HasProofs t (object_at heap.old.objects step) → Shows heap.new.objects v.items (wrong_step t (object_at heap.old.objects step))) }
{
    match wrong_step(heap, arity, marks, step) {
        Wrong::Shape => shape_shown(heap, step),
        Wrong::Method => condition_shown(heap, step, b"METHOD", None),
        Wrong::Formula(part) => formula_shown(heap, arity, step, part),
        Wrong::Subproofs => condition_shown(heap, step, b"SUBPROOFS", None),
        Wrong::Extras => condition_shown(heap, step, b"EXTRAS", None),
        Wrong::Premises(count) => count_shown(heap, step, count),
        Wrong::Induction => induction_shown(heap, step, marks),
        // What the row wants is the conclusion with which it would hold, where one is meant.
        Wrong::Rule => {
            let conclusion = mended(
                heap,
                step,
                basis.axioms,
                basis.theorems,
                arity,
                basis.profile,
                marks,
            )?;
            condition_shown(heap, step, b"RULE", conclusion)
        }
    }
}

/// What is shown of an object that is not a proof from these axioms and theorems, under the arity table and in the profile: the place of
/// its first bad step as a list of numbers; that step, with its subproofs' conclusions in place of the subproofs; the first condition
/// that fails of it; and what that condition wants. Nothing is shown of a proof. It extends the marks, which are under that table. What
/// is made takes looks from those that the heap allows. The error is out of memory, also where no look is left.
pub fn bad_step_shown(
    heap: &mut Heap,
    proof: Ref,
    axioms: &Known,
    theorems: &Known,
    arity: &Arity,
    profile: Profile,
    marks: &mut Marks,
) -> Result<Vec<Ref>, Memory>
    requires within { IsIn heap.old.objects proof }
    requires axioms { All (IsIn heap.old.objects) axioms.now }
    requires theorems { All (IsIn heap.old.objects) theorems.now }
    requires marked { AreMarks arity.now heap.old.objects marks.old }
    ensures grows { Grows heap.old.objects heap.new.objects }
    ensures marked { AreMarks arity.now heap.new.objects marks.new }
    ensures shown { IfOk result (λ v. (t : Theory) → t.axioms ≡ list_object heap.old.objects axioms.now → t.theorems ≡ list_object heap.old.objects theorems.now → arity_table t.definitions ≡ arity.now → t.definitions.profile ≡ profile_of profile → Shows heap.new.objects v.items (bad_step_shown t (object_at heap.old.objects proof))) }
{
    let Some(bad) = first_bad_step(heap, proof, axioms, theorems, arity, profile, marks)? else {
        return Ok(Vec::new(heap.alloc()));
    };
    bad_steps();
    let below = heap.mark();
    marks.extend(heap, arity, below)?;
    let basis = Basis {
        axioms,
        theorems,
        profile,
    };
    let shown = wrong_shown(heap, bad.step, &basis, arity, marks)?;
    let place = place_shown(heap, &bad.place)?;
    let mut all = Vec::new(heap.alloc());
    all.push(place)?;
    joined(all, &shown)
}
