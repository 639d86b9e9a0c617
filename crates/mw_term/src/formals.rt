//! Formals as sets of symbols.
ghost use Rattle.std.specs.Prelude.{◌≡◌, true, [], ◌∷◌, ◌++◌, Some, None, IfOk, OnOk, IfSome, option_map, nat_eq, if◌then◌else◌};
ghost use Rattle.std.specs.List.{list_any};
ghost use Rattle.mw_model.specs.Values.Primitive.{is_symbol, name_of};
ghost use Rattle.mw_model.specs.Terms.Term.{is_among};
ghost use Rattle.mw_heap.specs.Objects.{object_at, IsIn};
ghost use Rattle.mw_term.specs.Parts.{formals_of, names_at, AreSymbols, is_new_variable};

use crate::names::is_variable_symbol;
use crate::work::Work;
use indexmap::IndexSet;
use mw_heap::{Heap, Memory, Ref, View};

/// Whether the symbol x is among these.
pub fn is_among_symbols(heap: &Heap, symbols: &IndexSet<Ref>, x: Ref) -> bool
    requires within { IsIn heap.now.objects x }
    requires symbol { is_symbol (object_at heap.now.objects x) ≡ true }
    requires symbols { AreSymbols heap.now.objects symbols.now.keys }
    ensures among { result ≡ is_among (name_of (object_at heap.now.objects x)) (names_at heap.now.objects symbols.now.keys) }
    ensures held { result ≡ list_any (nat_eq x) symbols.now.keys }
{
    heap.order();
    symbols.contains(&x)
}

// The formals of which x is the list, where it is one of distinct variables.
pub(crate) fn formal_set(
    heap: &Heap,
    x: Ref,
    work: &mut Work,
) -> Result<Option<IndexSet<Ref>>, Memory>
    requires { IsIn heap.now.objects x }
    ensures formals { IfOk result (λ o. option_map (λ s. names_at heap.now.objects s.keys) o ≡ formals_of (object_at heap.now.objects x)) }
    ensures symbols { IfOk result (λ o. IfSome o (λ s. AreSymbols heap.now.objects s.keys)) }
{
    let mut formals = IndexSet::new(work.alloc);
    if add_formals(heap, &mut formals, x, work)? {
        Ok(Some(formals))
    } else {
        Ok(None)
    }
}

// Adds the members of x where there are no formals yet, up to the first that is no new variable, and says whether x is a list of distinct
// variables.
fn add_formals(
    heap: &Heap,
    formals: &mut IndexSet<Ref>,
    x: Ref,
    work: &mut Work,
) -> Result<bool, Memory>
    requires within { IsIn heap.now.objects x }
    requires none { formals.old.keys ≡ [] }
    ensures formals { IfOk result (λ b. (if b then Some (names_at heap.now.objects formals.new.keys) else None) ≡ formals_of (object_at heap.now.objects x)) }
    ensures symbols { OnOk result (AreSymbols heap.now.objects formals.new.keys) }
{
    let mut rest = x;
    while let View::Pair(first, more) = heap.view(rest) {
        work.take_look()?;
        if !add_formal(heap, formals, first)? {
            return Ok(false);
        }
        rest = more;
    }
    Ok(heap.is_nil(Some(rest)))
}

// Adds x where it is a variable that is not there yet, and says whether it is.
fn add_formal(heap: &Heap, formals: &mut IndexSet<Ref>, x: Ref) -> Result<bool, Memory>
    requires within { IsIn heap.now.objects x }
    requires symbols { AreSymbols heap.now.objects formals.old.keys }
    ensures new { IfOk result (λ b. b ≡ is_new_variable (names_at heap.now.objects formals.old.keys) (object_at heap.now.objects x)) }
    ensures added { IfOk result (λ b. formals.new.keys ≡ (if b then formals.old.keys ++ x ∷ [] else formals.old.keys)) }
{
    match heap.view(x) {
        View::Symbol => {
            if !is_variable_symbol(heap, x) || is_among_symbols(heap, formals, x) {
                return Ok(false);
            }
            formals.insert(x)?;
            Ok(true)
        }
        _ => Ok(false),
    }
}
