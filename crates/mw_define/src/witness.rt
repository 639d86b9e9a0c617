//! Witnesses.
ghost use Rattle.std.specs.Prelude.{IfOk};
ghost use Rattle.mw_heap.specs.Objects.{IsIn, Grows};
ghost use Rattle.mw_term.specs.Parts.{AreSymbols};
ghost use Rattle.mw_define.specs.Tests.{IsWitness, IsFormedWitness, OwedWitness};

use crate::admitted::{Admitted, Entry, Owed};
use crate::axioms::choice_axiom;
use crate::names::is_new_name;
use mw_heap::{Heap, Memory, Ref, Refusal};
use mw_term::{Arity, Formals};
use mw_translate::{Expanded, expand, list_of_one};

// The axiom of a witness, and its entry; it owes nothing.
fn owed_by(heap: &mut Heap, name: Ref, list: Ref, free: Ref, term: Ref) -> Result<Owed, Memory>
    requires name_in { IsIn heap.old.objects name }
    requires list_in { IsIn heap.old.objects list }
    requires free_in { IsIn heap.old.objects free }
    requires term_in { IsIn heap.old.objects term }
    ensures grows { Grows heap.old.objects heap.new.objects }
    ensures owed { IfOk result (OwedWitness heap.old.objects heap.new.objects name list free term) }
{
    let axiom = choice_axiom(heap, name, list, free, term)?;
    let axioms = list_of_one(heap, axiom)?;
    let obligations = heap.nil()?;
    let entry = Entry {
        name,
        formals: list,
        body: term,
    };
    let entries = Vec::from_slice(heap.alloc(), &[entry])?;
    Ok(Owed {
        obligations,
        axioms,
        entries,
    })
}

// The witness whose name and formals passed their tests: its body has to expand to a term, whose free variables have to be formals.
fn formed_witness(
    heap: &mut Heap,
    name: Ref,
    list: Ref,
    free: Ref,
    body: Ref,
    formals: &Formals,
    arity: &Arity,
) -> Result<Admitted, Memory>
    requires name_in { IsIn heap.old.objects name }
    requires list_in { IsIn heap.old.objects list }
    requires free_in { IsIn heap.old.objects free }
    requires body_in { IsIn heap.old.objects body }
    requires formals { AreSymbols heap.old.objects formals.now }
    ensures grows { Grows heap.old.objects heap.new.objects }
    ensures admitted { IfOk result (IsFormedWitness arity.now heap.old.objects heap.new.objects name list free body formals.now) }
{
    match expand(heap, body, arity, &[]) {
        Expanded::Term(term) => {
            if !formals.closes(heap, term)? {
                return Ok(Admitted::Refused(Refusal::Variables));
            }
            let owed = owed_by(heap, name, list, free, term)?;
            Ok(Admitted::Obligations(owed))
        }
        Expanded::NotTerm => Ok(Admitted::Refused(Refusal::Term)),
        Expanded::Memory => Err(Memory),
    }
}

/// Tests the witness of this name, whose value is to be put for the bound variable in the body, which may have the free variables of
/// the list besides. The first of the tests that fails is the reason of the refusal: that the name is new, that the variables are
/// formals, that the raw body expands to a term, and that this has no other variables. Where all pass it answers no obligation, the
/// axiom, and one entry, of whose formals the bound variable is the first.
pub fn admit_witness(
    heap: &mut Heap,
    name: Ref,
    bound: Ref,
    free: Ref,
    body: Ref,
    arity: &Arity,
) -> Admitted
    requires name_in { IsIn heap.old.objects name }
    requires bound_in { IsIn heap.old.objects bound }
    requires free_in { IsIn heap.old.objects free }
    requires body_in { IsIn heap.old.objects body }
    ensures grows { Grows heap.old.objects heap.new.objects }
    ensures admitted { IsWitness arity.now heap.old.objects heap.new.objects name bound free body result }
{
    if !is_new_name(heap, name, arity) {
        return Admitted::Refused(Refusal::Name);
    }
    let Ok(list) = heap.cons(bound, free) else {
        return Admitted::Memory;
    };
    let formals = match Formals::of_list(heap, list) {
        Ok(Some(formals)) => formals,
        Ok(None) => return Admitted::Refused(Refusal::Formals),
        Err(_) => return Admitted::Memory,
    };
    match formed_witness(heap, name, list, free, body, &formals, arity) {
        Ok(admitted) => admitted,
        Err(_) => Admitted::Memory,
    }
}
