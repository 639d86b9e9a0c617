//! Expansion of raw terms.
ghost use Rattle.std.specs.Prelude.{◌≡◌, ◌++◌, [], true, IfOk};
ghost use Rattle.mw_model.specs.Terms.Term.{are_distinct};
ghost use Rattle.mw_heap.specs.Objects.{object_at, IsIn, Grows};
ghost use Rattle.mw_translate.specs.Expands.{IsExpanded, ArePairsOfSymbols, pair_names, with_pairs};

use crate::walk::walk;
use mw_heap::{Heap, Memory, Ref};
use mw_term::Arity;

/// What a raw term expands to: the object of a term under the arity table, or no term; or that memory ran out.
#[derive(Clone, Copy, Debug, PartialEq, Eq)]
pub enum Expanded {
    Term(Ref),
    NotTerm,
    Memory,
}

/// Expands a raw term under two arity tables, the newer one in front. Time and memory are in proportion to the distinct objects of the
/// raw term and of its expansion, with two exceptions: each LET copies its names and values and looks for the variables of its expanded
/// body, and each head of a lambda call looks for those of its body, so what several of them share counts once for each. Each object that
/// is looked at takes one of the looks that the heap allows, and each cell that is made takes eight, those of a LET before it is made. The
/// answer is out of memory if no looks are left.
pub fn expand_under(heap: &mut Heap, raw: Ref, newer: &Arity, older: &Arity) -> Expanded
    requires { IsIn heap.old.objects raw }
    ensures grows { Grows heap.old.objects heap.new.objects }
    ensures expanded { IsExpanded (newer.now ++ older.now) heap.new.objects (object_at heap.old.objects raw) result }
{
    match walk(heap, raw, newer, older) {
        Ok(Some(term)) => Expanded::Term(term),
        Ok(None) => Expanded::NotTerm,
        Err(_) => Expanded::Memory,
    }
}

/// Makes the arity table of these functions, the last one newest. Each is given by its name, a symbol, and by how many arguments it takes.
/// The one error is out of memory.
pub fn arities_of(heap: &Heap, new: &[(Ref, u64)]) -> Result<Arity, Memory>
    requires symbols { ArePairsOfSymbols heap.now.objects new.now }
    requires distinct { are_distinct (pair_names heap.now.objects new.now) ≡ true }
    ensures { IfOk result (λ t. t ≡ with_pairs heap.now.objects new.now []) }
{
    let mut table = Arity::new(heap.alloc());
    for pair in new {
        table.add(heap.name_of(pair.0), pair.1)?;
    }
    Ok(table)
}

/// Expands a raw term, as `expand_under` does, under the arity table with new functions in front, the last one newest. Each is given by
/// its name, a symbol, and by how many arguments it takes.
pub fn expand(heap: &mut Heap, raw: Ref, arity: &Arity, new: &[(Ref, u64)]) -> Expanded
    requires within { IsIn heap.old.objects raw }
    requires symbols { ArePairsOfSymbols heap.old.objects new.now }
    requires distinct { are_distinct (pair_names heap.old.objects new.now) ≡ true }
    ensures grows { Grows heap.old.objects heap.new.objects }
    ensures expanded { IsExpanded (with_pairs heap.old.objects new.now arity.now) heap.new.objects (object_at heap.old.objects raw) result }
{
    match arities_of(heap, new) {
        Ok(newer) => expand_under(heap, raw, &newer, arity),
        Err(_) => Expanded::Memory,
    }
}
