//! A walk over a term, for its free variables.
ghost use Rattle.std.specs.Prelude.{◌≡◌, List, [], ◌∷◌, map, All, Some, true, IfOk, OnOk};
ghost use Rattle.mw_model.specs.Terms.Object.{Symbol};
ghost use Rattle.mw_model.specs.Terms.Term.{Term, variables};
ghost use Rattle.mw_model.specs.Terms.Reading.{term_of};
ghost use Rattle.mw_model.specs.Values.Primitive.{is_symbol, name_of};
ghost use Rattle.mw_heap.specs.Objects.{object_at, IsIn};
ghost use Rattle.mw_term.specs.Parts.{names_at, AreSymbols};
ghost use Rattle.mw_term.specs.Occurrences.{object_variables, IsPartIn, AreFound, IsLooked};

use crate::formals::is_among_symbols;
use crate::part::Part;
use crate::variables::Vars;
use crate::work::Work;
use indexmap::IndexSet;
use mw_heap::{Heap, Memory, Ref, View, Word};

/// The free variables of a term, in order of first occurrence. Those of a lambda call are those of its actuals. The one error is out of
/// memory. It takes time and memory in proportion to the distinct objects that make up the term. Of an object that is no term it gives some
/// symbols.
pub fn vars(heap: &Heap, t: Ref) -> Result<Vars, Memory>
    requires { IsIn heap.now.objects t }
    ensures within { IfOk result (All (IsIn heap.now.objects)) }
    ensures symbols { IfOk result (λ vs. AreSymbols heap.now.objects vs) }
    ensures variables { IfOk result (λ vs. (u : Term) → term_of (object_at heap.now.objects t) ≡ Some u → map (object_at heap.now.objects) vs ≡ map Symbol (variables u)) }
{
    let mut work = Work::of_one_walk(heap.alloc());
    let symbols = variables_in(heap, t, &mut work)?;
    Ok(Vars::from_set(symbols))
}

/// The same, where each cell that is looked at takes a look from those that are left. The errors are out of memory, and that no look is
/// left.
pub fn vars_counted(heap: &Heap, t: Ref, looks_left: &mut u64) -> Result<Vars, Memory>
    requires { IsIn heap.now.objects t }
    ensures within { IfOk result (All (IsIn heap.now.objects)) }
    ensures symbols { IfOk result (λ vs. AreSymbols heap.now.objects vs) }
    ensures variables { IfOk result (λ vs. (u : Term) → term_of (object_at heap.now.objects t) ≡ Some u → map (object_at heap.now.objects) vs ≡ map Symbol (variables u)) }
{
    let mut work = Work::new(heap.alloc(), *looks_left);
    let symbols = variables_in(heap, t, &mut work)?;
    *looks_left = work.looks_left;
    Ok(Vars::from_set(symbols))
}

// The free variables of a term.
pub(crate) fn variables_in(heap: &Heap, term: Ref, work: &mut Work) -> Result<IndexSet<Ref>, Memory>
    requires { IsIn heap.now.objects term }
    ensures symbols { IfOk result (λ s. AreSymbols heap.now.objects s.keys) }
    ensures names { IfOk result (λ s. names_at heap.now.objects s.keys ≡ object_variables (object_at heap.now.objects term)) }
{
    let mut found = IndexSet::new(work.alloc);
    find_variables(heap, &mut found, term, work)?;
    Ok(found)
}

// Finds the free variables of a term, where none are found yet.
fn find_variables(
    heap: &Heap,
    found: &mut IndexSet<Ref>,
    term: Ref,
    work: &mut Work,
) -> Result<(), Memory>
    requires within { IsIn heap.now.objects term }
    requires none_found { found.old.keys ≡ [] }
    ensures symbols { OnOk result (AreSymbols heap.now.objects found.new.keys) }
    ensures names { OnOk result (names_at heap.now.objects found.new.keys ≡ object_variables (object_at heap.now.objects term)) }
{
    let mut looked = IndexSet::with_capacity(work.alloc, work.parts)?;
    look_at_parts(heap, found, &mut looked, term, work)?;
    work.parts = looked.len();
    Ok(())
}

// The same, where no part is looked at yet. Each part of the term is looked at once.
fn look_at_parts(
    heap: &Heap,
    found: &mut IndexSet<Ref>,
    looked: &mut IndexSet<Part>,
    term: Ref,
    work: &mut Work,
) -> Result<(), Memory>
    requires within { IsIn heap.now.objects term }
    requires none_found { found.old.keys ≡ [] }
    requires none_looked { looked.old.keys ≡ [] }
    ensures symbols { OnOk result (AreSymbols heap.now.objects found.new.keys) }
    ensures names { OnOk result (names_at heap.now.objects found.new.keys ≡ object_variables (object_at heap.now.objects term)) }
{
    let mut waiting = Vec::new(work.alloc);
    waiting.push(Part::Term(term))?;
    while let Some(part) = waiting.pop() {
        work.take_look()?;
        if !looked.insert(part)? {
            continue;
        }
        look(heap, found, &mut waiting, part)?;
    }
    Ok(())
}

// Finds the variable that a part is, or has its parts wait, the first of them last.
fn look(
    heap: &Heap,
    found: &mut IndexSet<Ref>,
    waiting: &mut Vec<Part>,
    part: Part,
) -> Result<(), Memory>
    requires within { IsPartIn heap.now.objects part }
    requires symbols { AreSymbols heap.now.objects found.old.keys }
    ensures { OnOk result (IsLooked heap.now.objects part found.old.keys found.new.keys waiting.old.items waiting.new.items) }
{
    match part {
        Part::Term(x) => match heap.view(x) {
            View::Nat(_) => Ok(()),
            View::Symbol => add_symbol(heap, found, x),
            View::Pair(head, actuals) => {
                if !heap.is_word(Some(head), Word::Quote) {
                    waiting.push(Part::Terms(actuals))?;
                }
                Ok(())
            }
        },
        Part::Terms(x) => {
            if let View::Pair(first, rest) = heap.view(x) {
                waiting.push(Part::Terms(rest))?;
                waiting.push(Part::Term(first))?;
            }
            Ok(())
        }
    }
}

// Adds the symbol x where it is not there yet.
fn add_symbol(heap: &Heap, symbols: &mut IndexSet<Ref>, x: Ref) -> Result<(), Memory>
    requires within { IsIn heap.now.objects x }
    requires symbol { is_symbol (object_at heap.now.objects x) ≡ true }
    requires symbols { AreSymbols heap.now.objects symbols.old.keys }
    ensures { OnOk result (AreFound heap.now.objects symbols.old.keys symbols.new.keys (name_of (object_at heap.now.objects x) ∷ [])) }
{
    if !is_among_symbols(heap, symbols, x) {
        symbols.insert(x)?;
    }
    Ok(())
}
