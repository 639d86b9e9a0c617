//! Whether a term has no other variables than some.
ghost use Rattle.std.specs.Prelude.{◌≡◌, IsSome, IfOk, OnOk};
ghost use Rattle.std.specs.List.{list_all};
ghost use Rattle.mw_model.specs.Terms.Term.{is_among};
ghost use Rattle.mw_heap.specs.Objects.{object_at, IsIn};
ghost use Rattle.mw_term.specs.Parts.{names_at, AreSymbols};
ghost use Rattle.mw_term.specs.Occurrences.{is_closed_object};
ghost use Rattle.mw_term.specs.Bodies.{variables_found, AreBodies};

use crate::bodies::Bodies;
use crate::formals::is_among_symbols;
use crate::gather::variables_in;
use crate::work::Work;
use indexmap::IndexSet;
use mw_heap::{Heap, Memory, Ref};

// Whether each of the variables is among the names. It takes a look for each that it tests.
fn are_among(
    heap: &Heap,
    names: &IndexSet<Ref>,
    variables: &IndexSet<Ref>,
    work: &mut Work,
) -> Result<bool, Memory>
    requires names { AreSymbols heap.now.objects names.now.keys }
    requires variables { AreSymbols heap.now.objects variables.now.keys }
    ensures { IfOk result (λ b. b ≡ list_all (λ y. is_among y (names_at heap.now.objects names.now.keys)) (names_at heap.now.objects variables.now.keys)) }
{
    for x in variables.as_slice() {
        work.take_look()?;
        if !is_among_symbols(heap, names, *x) {
            return Ok(false);
        }
    }
    Ok(true)
}

// Whether each free variable of the term is among the names.
pub(crate) fn is_closed(
    heap: &Heap,
    names: &IndexSet<Ref>,
    term: Ref,
    work: &mut Work,
) -> Result<bool, Memory>
    requires within { IsIn heap.now.objects term }
    requires symbols { AreSymbols heap.now.objects names.now.keys }
    ensures { IfOk result (λ b. b ≡ is_closed_object (names_at heap.now.objects names.now.keys) (object_at heap.now.objects term)) }
{
    let variables = variables_in(heap, term, work)?;
    are_among(heap, names, &variables, work)
}

// The same of the body of a lambda. It is walked where its variables are not held, which they are then.
pub(crate) fn is_closed_body(
    heap: &Heap,
    names: &IndexSet<Ref>,
    body: Ref,
    bodies: &mut Bodies,
    work: &mut Work,
) -> Result<bool, Memory>
    requires within { IsIn heap.now.objects body }
    requires symbols { AreSymbols heap.now.objects names.now.keys }
    requires bodies { AreBodies heap.now.objects bodies.old.found.entries }
    ensures closed { IfOk result (λ b. b ≡ is_closed_object (names_at heap.now.objects names.now.keys) (object_at heap.now.objects body)) }
    ensures bodies { OnOk result (AreBodies heap.now.objects bodies.new.found.entries) }
    ensures held { OnOk result (IsSome (variables_found bodies.new.found.entries body)) }
{
    if let Some(variables) = bodies.find(body) {
        return are_among(heap, names, variables, work);
    }
    is_closed_new_body(heap, names, body, bodies, work)
}

// The same of a body whose variables are not held. They are held then.
fn is_closed_new_body(
    heap: &Heap,
    names: &IndexSet<Ref>,
    body: Ref,
    bodies: &mut Bodies,
    work: &mut Work,
) -> Result<bool, Memory>
    requires within { IsIn heap.now.objects body }
    requires symbols { AreSymbols heap.now.objects names.now.keys }
    requires bodies { AreBodies heap.now.objects bodies.old.found.entries }
    ensures closed { IfOk result (λ b. b ≡ is_closed_object (names_at heap.now.objects names.now.keys) (object_at heap.now.objects body)) }
    ensures bodies { OnOk result (AreBodies heap.now.objects bodies.new.found.entries) }
    ensures held { OnOk result (IsSome (variables_found bodies.new.found.entries body)) }
{
    let variables = variables_in(heap, body, work)?;
    let closed = are_among(heap, names, &variables, work)?;
    bodies.add(body, variables)?;
    Ok(closed)
}
