//! The variables of the terms of a draft that are no formals.
ghost use Rattle.std.specs.Prelude.{◌≡◌, ◌++◌, ◌∷◌, [], true, map, Option, IfOk, IfSome, OnOk};
ghost use Rattle.std.specs.Option.{option_map_or};
ghost use Rattle.mw_model.specs.Terms.Object.{Symbol, same_name};
ghost use Rattle.mw_model.specs.Terms.Term.{Term, firsts, occurrences, variables, is_among};
ghost use Rattle.mw_model.specs.Values.Primitive.{is_symbol, name_of};
ghost use Rattle.mw_model.specs.Events.Expansion.{without};
ghost use Rattle.mw_heap.specs.Objects.{object_at, IsIn};
ghost use Rattle.mw_term.specs.Parts.{names_at, AreSymbols};
ghost use Rattle.mw_explain.specs.Drafts.{IsExpandedTo, formals_at};
ghost use Rattle.mw_explain.specs.OtherVariables.{put_others};
ghost use Rattle.mw_bad_steps.specs.Shown.{Shows};

use indexmap::IndexSet;
use mw_heap::{Heap, Memory, Ref};
use mw_term::{Formals, is_among_symbols, vars_counted};

// Whether a symbol is one of the formals, where there are any.
fn is_formal(heap: &Heap, formals: &Option<Formals>, x: Ref) -> bool
    requires within { IsIn heap.now.objects x }
    requires symbol { is_symbol (object_at heap.now.objects x) ≡ true }
    requires formals { IfSome formals.now (AreSymbols heap.now.objects) }
    ensures { result ≡ is_among (name_of (object_at heap.now.objects x)) (formals_at heap.now.objects formals.now) }
{
    match formals {
        Some(formals) => formals.contains(heap, x),
        None => false,
    }
}

// Puts a symbol that is none of the formals behind the others, where it is not there yet.
fn put_other(
    heap: &Heap,
    formals: &Option<Formals>,
    others: &mut IndexSet<Ref>,
    x: Ref,
) -> Result<(), Memory>
    requires within { IsIn heap.now.objects x }
    requires symbol { is_symbol (object_at heap.now.objects x) ≡ true }
    requires formals { IfSome formals.now (AreSymbols heap.now.objects) }
    requires symbols { AreSymbols heap.now.objects others.old.keys }
    ensures symbols { OnOk result (AreSymbols heap.now.objects others.new.keys) }
    ensures put { OnOk result (names_at heap.now.objects others.new.keys ≡ put_others (formals_at heap.now.objects formals.now) (names_at heap.now.objects others.old.keys) (name_of (object_at heap.now.objects x) ∷ [])) }
{
    if is_formal(heap, formals, x) {
        return Ok(());
    }
    if is_among_symbols(heap, others, x) {
        return Ok(());
    }
    others.insert(x)?;
    Ok(())
}

// Puts those of these symbols that are none of the formals behind the others, each once.
fn put_each(
    heap: &Heap,
    formals: &Option<Formals>,
    others: &mut IndexSet<Ref>,
    symbols: &[Ref],
) -> Result<(), Memory>
    requires given { AreSymbols heap.now.objects symbols.now }
    requires formals { IfSome formals.now (AreSymbols heap.now.objects) }
    requires symbols { AreSymbols heap.now.objects others.old.keys }
    ensures symbols { OnOk result (AreSymbols heap.now.objects others.new.keys) }
    ensures put { OnOk result (names_at heap.now.objects others.new.keys ≡ put_others (formals_at heap.now.objects formals.now) (names_at heap.now.objects others.old.keys) (names_at heap.now.objects symbols.now)) }
{
    for x in symbols {
        put_other(heap, formals, others, *x)?;
    }
    Ok(())
}

// Puts the variables of a term that are not formals behind the others; nothing where there is no term.
fn put_variables(
    heap: &Heap,
    formals: &Option<Formals>,
    others: &mut IndexSet<Ref>,
    term: Option<Ref>,
    looks_left: &mut u64,
) -> Result<(), Memory>
    requires term { IfSome term (IsIn heap.now.objects) }
    requires formals { IfSome formals.now (AreSymbols heap.now.objects) }
    requires symbols { AreSymbols heap.now.objects others.old.keys }
    ensures symbols { OnOk result (AreSymbols heap.now.objects others.new.keys) }
    ensures put { OnOk result ((o : Option Term) → IsExpandedTo heap.now.objects o term → names_at heap.now.objects others.new.keys ≡ put_others (formals_at heap.now.objects formals.now) (names_at heap.now.objects others.old.keys) (option_map_or variables o [])) }
{
    let Some(term) = term else {
        return Ok(());
    };
    let variables = vars_counted(heap, term, looks_left)?;
    put_each(heap, formals, others, variables.as_slice())
}

// The variables of a body and a measure that are not formals, in order of first occurrence, the body first. Where there is no term there are
// no variables.
pub(crate) fn other_variables(
    heap: &Heap,
    formals: &Option<Formals>,
    body: Option<Ref>,
    measure: Option<Ref>,
    looks_left: &mut u64,
) -> Result<Vec<Ref>, Memory>
    requires body { IfSome body (IsIn heap.now.objects) }
    requires measure { IfSome measure (IsIn heap.now.objects) }
    requires formals { IfSome formals.now (AreSymbols heap.now.objects) }
    ensures { IfOk result (λ v. (b m : Option Term) → IsExpandedTo heap.now.objects b body → IsExpandedTo heap.now.objects m measure → Shows heap.now.objects v.items (map Symbol (without (firsts same_name (option_map_or occurrences b [] ++ option_map_or occurrences m [])) (formals_at heap.now.objects formals.now)))) }
{
    let mut others = IndexSet::new(heap.alloc());
    put_variables(heap, formals, &mut others, body, looks_left)?;
    put_variables(heap, formals, &mut others, measure, looks_left)?;
    Ok(Vec::from_slice(heap.alloc(), others.as_slice())?)
}
