//! The claim of a checker.
ghost use Rattle.std.specs.Prelude.{◌≡◌, true, [], ◌∷◌, IfOk};
ghost use Rattle.mw_model.specs.Terms.Object.{Name, Symbol, NIL, named};
ghost use Rattle.mw_model.specs.Terms.Term.{Term, Constant, Equal, Not, term_object, formula_object};
ghost use Rattle.mw_model.specs.Values.Primitive.{is_symbol, name_of};
ghost use Rattle.mw_model.specs.Events.Writing.{var, call};
ghost use Rattle.mw_model.specs.Events.Theory.{on_the_theory, claim};
ghost use Rattle.mw_heap.specs.Objects.{object_at, IsIn, Grows};

use mw_heap::{Heap, Memory, Ref, Word, form_of, list_of};

/// The formula (por* (pequal* (f x axioms thms atbl) 'nil) (pnot* (pequal* (logic.provablep (logic.conclusion x) axioms thms atbl) 'nil))),
/// where f is the name. The error is out of memory.
pub fn claim(heap: &mut Heap, name: Ref) -> Result<Ref, Memory>
    requires within { IsIn heap.old.objects name }
    requires symbol { is_symbol (object_at heap.old.objects name) ≡ true }
    ensures grows { Grows heap.old.objects heap.new.objects }
    ensures claim { IfOk result (λ r. IsIn heap.new.objects r × (object_at heap.new.objects r ≡ formula_object (claim (name_of (object_at heap.old.objects name))))) }
{
    let x = heap.symbol(b"X")?;
    let refuses = answers_nil(heap, name, x)?;
    let proved = has_proof(heap)?;
    form_of(heap, Word::Por, &[refuses, proved])
}

// The formula (pnot* (pequal* (logic.provablep (logic.conclusion x) axioms thms atbl) 'nil)).
fn has_proof(heap: &mut Heap) -> Result<Ref, Memory>
    ensures grows { Grows heap.old.objects heap.new.objects }
    ensures made { IfOk result (λ r. IsIn heap.new.objects r × (object_at heap.new.objects r ≡ formula_object (Not (Equal (on_the_theory (named "LOGIC.PROVABLEP") (call "LOGIC.CONCLUSION" (var "X" ∷ []))) (Constant NIL))))) }
{
    let conclusion = conclusion(heap)?;
    let provable = heap.symbol(b"LOGIC.PROVABLEP")?;
    let unproved = answers_nil(heap, provable, conclusion)?;
    form_of(heap, Word::Pnot, &[unproved])
}

// The term (logic.conclusion x).
fn conclusion(heap: &mut Heap) -> Result<Ref, Memory>
    ensures grows { Grows heap.old.objects heap.new.objects }
    ensures made { IfOk result (λ r. IsIn heap.new.objects r × (object_at heap.new.objects r ≡ term_object (call "LOGIC.CONCLUSION" (var "X" ∷ [])))) }
{
    let function = heap.symbol(b"LOGIC.CONCLUSION")?;
    let x = heap.symbol(b"X")?;
    list_of(heap, &[function, x])
}

// The formula (pequal* (f a axioms thms atbl) 'nil).
fn answers_nil(heap: &mut Heap, function: Ref, argument: Ref) -> Result<Ref, Memory>
    requires function { IsIn heap.old.objects function }
    requires argument { IsIn heap.old.objects argument }
    ensures grows { Grows heap.old.objects heap.new.objects }
    ensures within { IfOk result (IsIn heap.new.objects) }
    ensures formula { IfOk result (λ r. (f : Name) (t : Term) → object_at heap.old.objects function ≡ Symbol f → object_at heap.old.objects argument ≡ term_object t → object_at heap.new.objects r ≡ formula_object (Equal (on_the_theory f t) (Constant NIL))) }
{
    let call = call_on_the_theory(heap, function, argument)?;
    let nil = heap.nil()?;
    let constant = form_of(heap, Word::Quote, &[nil])?;
    form_of(heap, Word::Pequal, &[call, constant])
}

// The term (f a axioms thms atbl).
fn call_on_the_theory(heap: &mut Heap, function: Ref, argument: Ref) -> Result<Ref, Memory>
    requires function { IsIn heap.old.objects function }
    requires argument { IsIn heap.old.objects argument }
    ensures grows { Grows heap.old.objects heap.new.objects }
    ensures within { IfOk result (IsIn heap.new.objects) }
    ensures term { IfOk result (λ r. (f : Name) (t : Term) → object_at heap.old.objects function ≡ Symbol f → object_at heap.old.objects argument ≡ term_object t → object_at heap.new.objects r ≡ term_object (on_the_theory f t)) }
{
    let axioms = heap.symbol(b"AXIOMS")?;
    let theorems = heap.symbol(b"THMS")?;
    let arities = heap.symbol(b"ATBL")?;
    let arguments = list_of(heap, &[argument, axioms, theorems, arities])?;
    heap.cons(function, arguments)
}
