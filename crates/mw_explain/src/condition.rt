//! The first condition that fails of a step which is not a proof though its subproofs are.
ghost use Rattle.std.specs.Prelude.{◌≡◌, ◌<◌, length};
ghost use Rattle.mw_model.specs.Terms.Term.{ArityTable};
ghost use Rattle.mw_model.specs.Values.Definition.{arity_table};
ghost use Rattle.mw_model.specs.Events.Theory.{Theory};
ghost use Rattle.mw_heap.specs.Objects.{object_at, IsIn};
ghost use Rattle.mw_term.specs.Marking.{AreMarks};
ghost use Rattle.mw_rules.specs.Methods.{method_of_logic};
ghost use Rattle.mw_commands.specs.Commands.ExplanationSteps.{are_extras, subproof_count};
ghost use Rattle.mw_explain.specs.Condition.{HasProofs, IsPartIn, IsWrong, IsWrongRow};

use crate::formula_part::bad_formula;
use mw_bad_steps::{has_members, is_list};
use mw_heap::{Heap, Ref};
use mw_proof::members_of;
use mw_rules::Method;
use mw_term::{Arity, Marks, is_substitution};

/// The first condition that a step fails.
#[derive(Clone, Copy, Debug, PartialEq, Eq)]
pub enum Wrong {
    /// It is not a proper list of two to four members.
    Shape,
    /// Its first member does not name a method.
    Method,
    /// Its conclusion is not a formula, because of this part.
    Formula(Ref),
    /// Its third member is not a proper list.
    Subproofs,
    /// Its extras are not of the kind that the method has.
    Extras,
    /// It does not have the number of subproofs of its method, which is this.
    Premises(u64),
    /// It is by INDUCTION, and its extras or its subproofs' conclusions are wrong.
    Induction,
    /// The row of its method does not hold.
    Rule,
}

// How many subproofs a method has, other than INDUCTION.
fn subproof_count(method: Method) -> u64
    ensures { result ≡ subproof_count (method_of_logic method) }
{
    match method {
        Method::Cut => 2,
        Method::Expansion | Method::Contraction | Method::Associativity | Method::Instantiation =>
            1,
        _ => 0,
    }
}

// Whether these are extras of a method other than INDUCTION.
fn are_extras(heap: &Heap, marks: &Marks, method: Method, extras: Ref) -> bool
    requires within { IsIn heap.now.objects extras }
    requires marked { extras < length marks.now }
    ensures { (A : ArityTable) → AreMarks A heap.now.objects marks.now → result ≡ are_extras A (method_of_logic method) (object_at heap.now.objects extras) }
{
    match method {
        Method::Instantiation => is_substitution(heap, marks, extras),
        _ => heap.is_nil(Some(extras)),
    }
}

// The condition on extras, on the number of subproofs, or the row.
fn wrong_row(heap: &Heap, marks: &Marks, method: Method, subproofs: Ref, extras: Ref) -> Wrong
    requires subproofs { IsIn heap.now.objects subproofs }
    requires extras { IsIn heap.now.objects extras }
    requires marked { extras < length marks.now }
    ensures { (A : ArityTable) → AreMarks A heap.now.objects marks.now → IsWrongRow A (method_of_logic method) (object_at heap.now.objects subproofs) (object_at heap.now.objects extras) result }
{
    if let Method::Induction = method {
        return Wrong::Induction;
    }
    if !are_extras(heap, marks, method, extras) {
        return Wrong::Extras;
    }
    let count = subproof_count(method);
    if has_members(heap, subproofs, count) {
        Wrong::Rule
    } else {
        Wrong::Premises(count)
    }
}

/// The first condition that fails of a step, if its subproofs are proofs and it is not one. The marks are under the table. It takes no
/// memory.
pub fn wrong_step(heap: &Heap, arity: &Arity, marks: &Marks, step: Ref) -> Wrong
    requires marked { AreMarks arity.now heap.now.objects marks.now }
    requires within { step < length marks.now }
    ensures wrong { (t : Theory) → arity_table t.definitions ≡ arity.now → HasProofs t (object_at heap.now.objects step) → IsWrong t heap.now.objects (object_at heap.now.objects step) result }
    ensures within { IsPartIn heap.now.objects result }
{
    let Some(members) = members_of(heap, step) else {
        return Wrong::Shape;
    };
    let Some(method) = Method::of(heap, members.method) else {
        return Wrong::Method;
    };
    if let Some(part) = bad_formula(heap, arity, marks, members.conclusion) {
        return Wrong::Formula(part);
    }
    if !is_list(heap, members.subproofs) {
        return Wrong::Subproofs;
    }
    wrong_row(heap, marks, method, members.subproofs, members.extras)
}
