//! What calls of a block owe.
ghost use Rattle.std.specs.Prelude.{◌≡◌, ◌∷◌, [], true, IfOk, OnOk};
ghost use Rattle.mw_model.specs.Terms.Term.{Formula, formula_object, is_among};
ghost use Rattle.mw_model.specs.Values.Primitive.{is_symbol, name_of};
ghost use Rattle.mw_model.specs.Events.Obligation.{ordinal_formula, measure_of};
ghost use Rattle.mw_heap.specs.Objects.{object_at, IsIn, Grows};
ghost use Rattle.mw_term.specs.Parts.{names_at};
ghost use Rattle.mw_define.specs.Collecting.{HasTests, IsPartOf, AreFoundCalls, found_calls};
ghost use Rattle.mw_define.specs.Knowing.{AreKnown};
ghost use Rattle.mw_define.specs.Descent.{Owes};
ghost use Rattle.mw_define.specs.Blocks.{functions_at, measures_at};
ghost use Rattle.mw_define.specs.Owed.{IsReadBack, Adds, AreBlock, IsNamed, owed_at, calls_of, OwesOne};
ghost use Rattle.mw_define.specs.declared.item.Part.TheVariants as part;

use crate::collect::find_calls;
use crate::descent::{falls, is_ordinal};
use crate::draft::Draft;
use crate::foreseeing::foresee;
use crate::item::FoundCall;
use crate::known::Known;
use crate::nested::are_nested;
use crate::obligations::Obligations;
use crate::recursion::Recursion;
use crate::testing::under_each;
use indexmap::IndexSet;
use mw_heap::{Heap, Memory, Ref};
use mw_term::{take_searches, take_searches_since};

// That the measure falls at a call, under those of its tests that mention no function of the block.
fn obligation(
    heap: &mut Heap,
    call: &FoundCall,
    formals: Ref,
    called_measure: Ref,
    measure: Ref,
    known: &mut Known,
    looks_left: &mut u64,
) -> Result<Ref, Memory>
    requires tests { HasTests heap.old.objects call.now.tests }
    requires actuals_in { IsIn heap.old.objects call.now.actuals }
    requires formals_in { IsIn heap.old.objects formals }
    requires called_in { IsIn heap.old.objects called_measure }
    requires measure_in { IsIn heap.old.objects measure }
    requires known { AreKnown heap.old.objects known.old.names.keys known.old }
    ensures grows { Grows heap.old.objects heap.new.objects }
    ensures known { OnOk result (AreKnown heap.new.objects known.old.names.keys known.new) }
    ensures made { IfOk result (λ r. IsIn heap.new.objects r × Owes (names_at heap.old.objects known.old.names.keys) heap.old.objects formals called_measure call.now.actuals measure call.now.tests (object_at heap.new.objects r)) }
{
    let below = falls(heap, formals, called_measure, call.actuals, measure)?;
    under_each(heap, call.tests, below, known, looks_left)
}

// Adds a formula where it is not there yet: equal formulas have equal references.
fn add_formula(heap: &Heap, owed: &mut Obligations, formula: Ref) -> Result<(), Memory>
    requires { IsIn heap.now.objects formula }
    ensures { OnOk result ((F : Formula) → object_at heap.now.objects formula ≡ formula_object F → IsReadBack F → Adds heap.now.objects heap.now.objects owed.old owed.new (F ∷ [])) }
{
    heap.order();
    owed.formulas.insert(formula)?;
    Ok(())
}

// The function of the block that has this name.
pub(crate) fn function_named(
    heap: &Heap,
    names: &IndexSet<Ref>,
    block: &[Draft],
    name: Ref,
) -> Draft
    requires block { AreBlock heap.now.objects names.now.keys block.now }
    requires within { IsIn heap.now.objects name }
    requires symbol { is_symbol (object_at heap.now.objects name) ≡ true }
    requires among { is_among (name_of (object_at heap.now.objects name)) (names_at heap.now.objects names.now.keys) ≡ true }
    ensures { IsNamed heap.now.objects block.now name result }
{
    heap.order();
    let Some(index) = names.get_index_of(&name) else {
        unreachable!()
    };
    block[index]
}

// Adds what a function owes at one of its calls, unless too much is owed already. Many calls may share their tests and a measure, which
// are walked or copied for each.
fn owe_call(
    heap: &mut Heap,
    block: &[Draft],
    function: &Draft,
    call: &FoundCall,
    owed: &mut Obligations,
    known: &mut Known,
) -> Result<(), Memory>
    requires block { AreBlock heap.old.objects known.old.names.keys block.now }
    requires named { IsNamed heap.old.objects block.now function.now.name function.now }
    requires call { IsPartOf heap.old.objects (names_at heap.old.objects known.old.names.keys) (part.Call call.now.name call.now.actuals) × HasTests heap.old.objects call.now.tests }
    requires known { AreKnown heap.old.objects known.old.names.keys known.old }
    ensures grows { Grows heap.old.objects heap.new.objects }
    ensures known { OnOk result (AreKnown heap.new.objects known.old.names.keys known.new) }
    ensures owed { OnOk result (Adds heap.old.objects heap.new.objects owed.old owed.new (owed_at heap.old.objects block.now function.now (found_calls (functions_at heap.old.objects block.now) heap.old.objects (call.now ∷ [])))) }
{
    if owed.are_too_many() {
        return Ok(());
    }
    let had = heap.mark();
    let mut looks_left = u64::MAX;
    let called = function_named(heap, &known.names, block, call.name);
    let formula = obligation(
        heap,
        call,
        called.formals,
        called.measure,
        function.measure,
        known,
        &mut looks_left,
    )?;
    add_formula(heap, owed, formula)?;
    Ok(take_searches_since(heap, had, u64::MAX.saturating_sub(looks_left))?)
}

// Adds that the measure of a function is an ordinal.
fn owe_ordinal(
    heap: &mut Heap,
    block: &[Draft],
    function: &Draft,
    owed: &mut Obligations,
) -> Result<(), Memory>
    requires { IsNamed heap.old.objects block.now function.now.name function.now }
    ensures grows { Grows heap.old.objects heap.new.objects }
    ensures owed { OnOk result (Adds heap.old.objects heap.new.objects owed.old owed.new (ordinal_formula (measure_of (measures_at heap.old.objects block.now) (name_of (object_at heap.old.objects function.now.name))) ∷ [])) }
{
    let formula = is_ordinal(heap, function.measure)?;
    add_formula(heap, owed, formula)
}

// The most looks at the actuals of one function's calls: where more are needed the answer is out of memory. It is the number of
// searches at which the event's 2^26 looks are used up, of which they take four each once they are over.
const MOST_LOOKS: u64 = 1 << 24;

// Adds what a function owes, where none of its calls is in an actual of another: the ordinal first, and then what it owes at each call.
// Where the calls would take far too many looks, none is begun. These are all its calls.
fn owe_found(
    heap: &mut Heap,
    block: &[Draft],
    function: &Draft,
    calls: &[FoundCall],
    owed: &mut Obligations,
    known: &mut Known,
    looks_left: &mut u64,
) -> Result<Recursion, Memory>
    requires block { AreBlock heap.old.objects known.old.names.keys block.now }
    requires named { IsNamed heap.old.objects block.now function.now.name function.now }
    requires calls { AreFoundCalls heap.old.objects (names_at heap.old.objects known.old.names.keys) calls.now }
    requires all { found_calls (functions_at heap.old.objects block.now) heap.old.objects calls.now ≡ calls_of heap.old.objects block.now function.now }
    requires known { AreKnown heap.old.objects known.old.names.keys known.old }
    ensures grows { Grows heap.old.objects heap.new.objects }
    ensures known { OnOk result (AreKnown heap.new.objects known.old.names.keys known.new) }
    ensures owed { IfOk result (OwesOne heap.old.objects heap.new.objects block.now function.now owed.old owed.new) }
{
    if are_nested(heap, calls, known, looks_left)? {
        return Ok(Recursion::Nested);
    }
    owe_ordinal(heap, block, function, owed)?;
    foresee(heap, block, calls, owed, known)?;
    for call in calls {
        owe_call(heap, block, function, call, owed, known)?;
    }
    if calls.is_empty() {
        Ok(Recursion::Absent)
    } else {
        Ok(Recursion::Present)
    }
}

// The same, where its calls are to be found.
pub(crate) fn owe_function(
    heap: &mut Heap,
    block: &[Draft],
    function: &Draft,
    owed: &mut Obligations,
    known: &mut Known,
) -> Result<Recursion, Memory>
    requires block { AreBlock heap.old.objects known.old.names.keys block.now }
    requires named { IsNamed heap.old.objects block.now function.now.name function.now }
    requires known { AreKnown heap.old.objects known.old.names.keys known.old }
    ensures grows { Grows heap.old.objects heap.new.objects }
    ensures known { OnOk result (AreKnown heap.new.objects known.old.names.keys known.new) }
    ensures owed { IfOk result (OwesOne heap.old.objects heap.new.objects block.now function.now owed.old owed.new) }
{
    let calls = find_calls(heap, function.body, known)?;
    let mut looks_left = MOST_LOOKS;
    let recursion = owe_found(
        heap,
        block,
        function,
        calls.as_slice(),
        owed,
        known,
        &mut looks_left,
    )?;
    take_searches(heap, MOST_LOOKS.saturating_sub(looks_left))?;
    Ok(recursion)
}
