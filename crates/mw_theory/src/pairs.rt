//! The names of a block, each with the number of its formals.
ghost use Rattle.std.specs.Prelude.{◌≡◌, All, IfOk, OnOk, map};
ghost use Rattle.mw_model.specs.Terms.Term.{ArityTable, table_object};
ghost use Rattle.mw_heap.specs.Objects.{object_at, IsIn, Grows};
ghost use Rattle.mw_translate.specs.Expands.{ArePairsOfSymbols, with_pairs};
ghost use Rattle.mw_preamble.specs.Defining.{spelling_of};
ghost use Rattle.mw_theory.specs.Adding.{formal_count, pair_of, AreNew, EndsWith};

use crate::front::with_pair;
use mw_heap::{Heap, Memory, Ref};
use mw_preamble::Definition;
use mw_term::{Arity, Formals};

/// The name of each definition, and how many formals it has.
pub(crate) fn pairs_of(heap: &Heap, block: &[Definition]) -> Result<Vec<(Ref, u64)>, Memory>
    requires { All (λ d. IsIn heap.now.objects (spelling_of d).1) block.now }
    ensures { IfOk result (λ v. v.items ≡ map (pair_of heap.now.objects) block.now) }
{
    let mut pairs = Vec::new(heap.alloc());
    for definition in block {
        let (name, formals, _) = definition.spelling();
        let count = count_formals(heap, formals)?;
        pairs.push((name, count))?;
    }
    Ok(pairs)
}

// How many formals a list of distinct variables has.
fn count_formals(heap: &Heap, formals: Ref) -> Result<u64, Memory>
    requires { IsIn heap.now.objects formals }
    ensures { IfOk result (λ n. n ≡ formal_count (object_at heap.now.objects formals)) }
{
    match Formals::of_list(heap, formals)? {
        Some(formals) => Ok(formals.len() as u64),
        None => Ok(0),
    }
}

/// Adds these to the arity table, the last one newest. If memory runs out, some may stay in front of those that were there.
pub(crate) fn add_pairs(arity: &mut Arity, heap: &Heap, pairs: &[(Ref, u64)]) -> Result<(), Memory>
    requires symbols { ArePairsOfSymbols heap.now.objects pairs.now }
    requires new { AreNew heap.now.objects arity.old pairs.now }
    ensures added { OnOk result (arity.new ≡ with_pairs heap.now.objects pairs.now arity.old) }
    ensures kept { EndsWith arity.new arity.old }
{
    for pair in pairs {
        arity.add(heap.name_of(pair.0), pair.1)?;
    }
    Ok(())
}

/// Puts these in front of the list of an arity table, the last one foremost.
pub(crate) fn list_pairs(heap: &mut Heap, pairs: &[(Ref, u64)], list: Ref) -> Result<Ref, Memory>
    requires symbols { ArePairsOfSymbols heap.old.objects pairs.now }
    requires list { IsIn heap.old.objects list }
    ensures grows { Grows heap.old.objects heap.new.objects }
    ensures within { IfOk result (IsIn heap.new.objects) }
    ensures listed { (A : ArityTable) → object_at heap.old.objects list ≡ table_object A → IfOk result (λ r. object_at heap.new.objects r ≡ table_object (with_pairs heap.old.objects pairs.now A)) }
{
    let mut list = list;
    for pair in pairs {
        list = with_pair(heap, pair.0, pair.1, list)?;
    }
    Ok(list)
}
