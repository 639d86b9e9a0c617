//! The lists of the obligations and of the axioms of a block.
ghost use Rattle.std.specs.Prelude.{◌≡◌, false, [], length, IfOk, map};
ghost use Rattle.mw_model.specs.Terms.Object.{NIL};
ghost use Rattle.mw_model.specs.Values.Definition.{function_axiom};
ghost use Rattle.mw_model.specs.Laws.RulesInduction.{formulas_object};
ghost use Rattle.mw_heap.specs.Objects.{object_at, IsIn, Grows};
ghost use Rattle.mw_translate.specs.Lets.{prepend, AreAllIn};
ghost use Rattle.mw_define.specs.Blocks.{functions_at, AreExpanded, Each2, IsAxiomOf};
ghost use Rattle.mw_define.specs.Knowing.{AreKnown};
ghost use Rattle.mw_define.specs.Owed.{AreBlock, joined, is_past, OwesAll, IsListed, IsOwing};

use crate::axioms::function_axiom;
use crate::draft::Draft;
use crate::known::Known;
use crate::listed::Listed;
use crate::obligations::Obligations;
use crate::owing::owe_function;
use crate::recursion::Recursion;
use indexmap::IndexSet;
use mw_heap::{Heap, Memory, Ref};
use mw_translate::put_before;

// What functions come to with one more.
fn with_next(recursion: Recursion, next: Recursion) -> Recursion
    ensures { result ≡ joined recursion next }
{
    match next {
        Recursion::Absent => recursion,
        _ => next,
    }
}

// Adds what each function of the block owes.
fn owe_each(
    heap: &mut Heap,
    block: &[Draft],
    owed: &mut Obligations,
    known: &mut Known,
) -> Result<Recursion, Memory>
    requires block { AreBlock heap.old.objects known.old.names.keys block.now }
    requires known { AreKnown heap.old.objects known.old.names.keys known.old }
    ensures grows { Grows heap.old.objects heap.new.objects }
    ensures owed { IfOk result (OwesAll heap.old.objects heap.new.objects block.now owed.old owed.new) }
{
    let mut recursion = Recursion::Absent;
    for function in block {
        match owe_function(heap, block, function, owed, known)? {
            Recursion::Nested => return Ok(Recursion::Nested),
            next => recursion = with_next(recursion, next),
        }
    }
    Ok(recursion)
}

// The list of these formulas.
fn list_of(heap: &mut Heap, formulas: &[Ref]) -> Result<Ref, Memory>
    requires { AreAllIn heap.old.objects formulas.now }
    ensures grows { Grows heap.old.objects heap.new.objects }
    ensures made { IfOk result (λ r. IsIn heap.new.objects r × (object_at heap.new.objects r ≡ prepend heap.old.objects formulas.now NIL)) }
{
    let copy = Vec::from_slice(heap.alloc(), formulas)?;
    let nil = heap.nil()?;
    put_before(heap, copy, nil)
}

// The list of what a block with recursive calls owes.
fn list_present(heap: &mut Heap, owed: &Obligations) -> Result<Listed, Memory>
    requires { is_past owed.now.most (length owed.now.formulas.keys) ≡ false → AreAllIn heap.old.objects owed.now.formulas.keys }
    ensures grows { Grows heap.old.objects heap.new.objects }
    ensures listed { IfOk result (IsListed heap.old.objects heap.new.objects Recursion.Present owed.now) }
{
    if owed.are_too_many() {
        return Ok(Listed::TooMany);
    }
    let list = list_of(heap, owed.formulas.as_slice())?;
    Ok(Listed::Formulas(list))
}

// The list of what a block owes: nothing where it has no recursive calls, whose measures may be anything.
fn list_owed(heap: &mut Heap, recursion: Recursion, owed: &Obligations) -> Result<Listed, Memory>
    requires { recursion ≡ Recursion.Present → is_past owed.now.most (length owed.now.formulas.keys) ≡ false → AreAllIn heap.old.objects owed.now.formulas.keys }
    ensures grows { Grows heap.old.objects heap.new.objects }
    ensures listed { IfOk result (IsListed heap.old.objects heap.new.objects recursion owed.now) }
{
    match recursion {
        Recursion::Nested => Ok(Listed::Nested),
        Recursion::Absent => Ok(Listed::Formulas(heap.nil()?)),
        Recursion::Present => list_present(heap, owed),
    }
}

// The list of what a block owes, where nothing is owed yet.
fn list_all(
    heap: &mut Heap,
    block: &[Draft],
    owed: &mut Obligations,
    known: &mut Known,
) -> Result<Listed, Memory>
    requires block { AreBlock heap.old.objects known.old.names.keys block.now }
    requires none { owed.old.formulas.keys ≡ [] }
    requires known { AreKnown heap.old.objects known.old.names.keys known.old }
    ensures grows { Grows heap.old.objects heap.new.objects }
    ensures listed { IfOk result (IsOwing heap.old.objects heap.new.objects block.now owed.old.most) }
{
    let recursion = owe_each(heap, block, owed, known)?;
    list_owed(heap, recursion, owed)
}

// The list of the obligations of a block with functions of these names, in order and each once. Once one more than it may owe was made,
// only the ordinals of measures follow, which are few.
pub(crate) fn list_obligations(
    heap: &mut Heap,
    names: IndexSet<Ref>,
    block: &[Draft],
    most: Option<u64>,
) -> Result<Listed, Memory>
    requires { AreBlock heap.old.objects names.keys block.now }
    ensures grows { Grows heap.old.objects heap.new.objects }
    ensures listed { IfOk result (IsOwing heap.old.objects heap.new.objects block.now most) }
{
    let mut owed = Obligations::new(most, heap.alloc());
    let mut known = Known::new(names, heap.alloc());
    list_all(heap, block, &mut owed, &mut known)
}

// The axioms of a block.
fn axioms_of(heap: &mut Heap, block: &[Draft]) -> Result<Vec<Ref>, Memory>
    requires { AreExpanded heap.old.objects block.now }
    ensures grows { Grows heap.old.objects heap.new.objects }
    ensures made { IfOk result (λ v. Each2 (IsAxiomOf heap.old.objects heap.new.objects) block.now v.items) }
{
    let mut axioms = Vec::new(heap.alloc());
    for function in block {
        let axiom = function_axiom(heap, function.name, function.formals, function.body)?;
        axioms.push(axiom)?;
    }
    Ok(axioms)
}

// The list of the axioms of a block, in order.
pub(crate) fn list_axioms(heap: &mut Heap, block: &[Draft]) -> Result<Ref, Memory>
    requires { AreExpanded heap.old.objects block.now }
    ensures grows { Grows heap.old.objects heap.new.objects }
    ensures made { IfOk result (λ r. IsIn heap.new.objects r × (object_at heap.new.objects r ≡ formulas_object (map function_axiom (functions_at heap.old.objects block.now)))) }
{
    let axioms = axioms_of(heap, block)?;
    let nil = heap.nil()?;
    put_before(heap, axioms, nil)
}
