//! The formula that a measure falls at a call, and that one is an ordinal.
ghost use Rattle.std.specs.Prelude.{◌≡◌, List, Some, IfOk};
ghost use Rattle.mw_model.specs.Terms.Term.{Term, formula_object};
ghost use Rattle.mw_model.specs.Terms.Reading.{term_of};
ghost use Rattle.mw_model.specs.Events.Obligation.{ordinal_formula};
ghost use Rattle.mw_heap.specs.Objects.{object_at, IsIn, Grows};
ghost use Rattle.mw_define.specs.Descent.{Falls};

use mw_equal::reduced;
use mw_heap::{Heap, Memory, Ref, Word};
use mw_translate::{call_of_one, call_of_two, quoted_symbol};

// (ordp measure) = 't.
pub(crate) fn is_ordinal(heap: &mut Heap, measure: Ref) -> Result<Ref, Memory>
    requires { IsIn heap.old.objects measure }
    ensures grows { Grows heap.old.objects heap.new.objects }
    ensures made { IfOk result (λ r. IsIn heap.new.objects r × ((m : Term) → term_of (object_at heap.old.objects measure) ≡ Some m → object_at heap.new.objects r ≡ formula_object (ordinal_formula m))) }
{
    let call = call_of_one(heap, Word::Ordp, measure)?;
    let truth = quoted_symbol(heap, Word::T)?;
    call_of_two(heap, Word::Pequal, call, truth)
}

// (ord< lower measure) = 't, where lower is the measure of the called function with the actuals for its formals.
pub(crate) fn falls(
    heap: &mut Heap,
    formals: Ref,
    called_measure: Ref,
    actuals: Ref,
    measure: Ref,
) -> Result<Ref, Memory>
    requires formals_in { IsIn heap.old.objects formals }
    requires called_in { IsIn heap.old.objects called_measure }
    requires actuals_in { IsIn heap.old.objects actuals }
    requires measure_in { IsIn heap.old.objects measure }
    ensures grows { Grows heap.old.objects heap.new.objects }
    ensures made { IfOk result (λ r. IsIn heap.new.objects r × Falls heap.old.objects formals called_measure actuals measure (object_at heap.new.objects r)) }
{
    let function = call_of_two(heap, Word::Lambda, formals, called_measure)?;
    let lower = reduced(heap, function, actuals)?;
    let call = call_of_two(heap, Word::OrdLess, lower, measure)?;
    let truth = quoted_symbol(heap, Word::T)?;
    call_of_two(heap, Word::Pequal, call, truth)
}
