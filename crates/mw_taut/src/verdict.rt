//! What is found of a datum that may give a formula.
ghost use Rattle.std.specs.Prelude.{◌≡◌, true, None, IfOk, OnOk, MatchOption};
ghost use Rattle.mw_model.specs.Terms.Object.{Object};
ghost use Rattle.mw_model.specs.Laws.Rules.{is_formula_object};
ghost use Rattle.mw_commands.specs.Commands.TautologyBook.{formula_given, initial_arities};
ghost use Rattle.mw_heap.specs.Objects.{object_at, IsIn, Grows};
ghost use Rattle.mw_term.specs.Marking.{AreMarks};
ghost use Rattle.mw_taut.specs.Members.{IsNamed};
ghost use Rattle.mw_taut.specs.Verdicts.{IsVerdict, is_theorem};

use crate::deciding::{Decision, decide};
use mw_heap::{Heap, Memory, Ref, View, Word, form_of};
use mw_term::{Arity, Marks, is_formula};

/// What is found of a datum.
#[derive(Clone, Copy, Debug, PartialEq, Eq)]
pub enum Verdict {
    /// It gives no formula.
    Shape,
    /// Its formula has more than twelve equations.
    Many,
    /// Its formula is false under this choice.
    Fails(Ref),
    /// Its formula is a tautology: the event that proves it.
    Theorem(Ref),
}

impl Verdict {
    /// Whether the formula was proved.
    pub fn is_theorem(&self) -> bool
        ensures { result ≡ is_theorem self.now }
    {
        matches!(self, Verdict::Theorem(_))
    }
}

// The name and the formula, if it is a list of two whose first member is a symbol. That it holds no natural out of range is known from
// the view.
fn members_of(heap: &Heap, x: Ref) -> Option<(Ref, Ref)>
    requires { IsIn heap.now.objects x }
    ensures { MatchOption result (formula_given (object_at heap.now.objects x) ≡ None) (λ m. IsNamed heap.now.objects (object_at heap.now.objects x) m.0 m.1) }
{
    heap.in_range(x);
    let Some((name, formula)) = heap.two_members(x) else {
        return None;
    };
    match heap.view(name) {
        View::Symbol => Some((name, formula)),
        _ => None,
    }
}

// What is found of a datum with these members, of which the second is a formula.
fn decided(heap: &mut Heap, arity: &Arity, name: Ref, formula: Ref) -> Result<Verdict, Memory>
    requires arity { arity.now ≡ initial_arities }
    requires named { (x : Object) × IsNamed heap.old.objects x name formula }
    requires formula { is_formula_object arity.now (object_at heap.old.objects formula) ≡ true }
    ensures grows { Grows heap.old.objects heap.new.objects }
    ensures verdict { IfOk result (λ v. (x : Object) → IsNamed heap.old.objects x name formula → IsVerdict heap.new.objects x v) }
{
    match decide(heap, formula, arity) {
        Decision::Proof(proof) => {
            let theorem = form_of(heap, Word::Verify, &[name, formula, proof])?;
            Ok(Verdict::Theorem(theorem))
        }
        Decision::Choice(choice) => Ok(Verdict::Fails(choice)),
        Decision::Many => Ok(Verdict::Many),
        Decision::Memory => Err(Memory),
    }
}

/// What is found of a datum. Objects that have no marks yet get them, except those that are made here. Besides that it takes the
/// time of `decide`. The error is out of memory, also where `decide` answers so; the heap may have grown then.
pub fn verdict_on(
    heap: &mut Heap,
    arity: &Arity,
    marks: &mut Marks,
    x: Ref,
) -> Result<Verdict, Memory>
    requires within { IsIn heap.old.objects x }
    requires arity { arity.now ≡ initial_arities }
    requires marked { AreMarks arity.now heap.old.objects marks.old }
    ensures grows { Grows heap.old.objects heap.new.objects }
    ensures marked { OnOk result (AreMarks arity.now heap.new.objects marks.new) }
    ensures verdict { IfOk result (IsVerdict heap.new.objects (object_at heap.old.objects x)) }
{
    let Some((name, formula)) = members_of(heap, x) else {
        return Ok(Verdict::Shape);
    };
    marks.extend(heap, arity, heap.mark())?;
    if !is_formula(marks, formula) {
        return Ok(Verdict::Shape);
    }
    decided(heap, arity, name, formula)
}
