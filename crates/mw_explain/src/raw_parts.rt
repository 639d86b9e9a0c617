//! The parts of a raw term that should be raw terms, from left to right.
ghost use Rattle.std.specs.Prelude.{◌≡◌, ℕ, ◌<◌, ◌++◌, true, is_some, map, IfOk, OnOk};
ghost use Rattle.mw_model.specs.Terms.Term.{arity_of};
ghost use Rattle.mw_model.specs.Values.Primitive.{is_symbol, name_of};
ghost use Rattle.mw_model.specs.Events.Expansion.{abbreviation_of};
ghost use Rattle.mw_heap.specs.Objects.{object_at, IsIn};
ghost use Rattle.mw_bad_steps.specs.Members.{members_in};
ghost use Rattle.mw_explain.specs.RawParts.{clause_members, binding_members, let_members, form_members, called_members, lambda_members, raw_parts, AreBefore, PutsParts};

use crate::term_part::third_member;
use mw_heap::{Heap, Memory, Ref, View, take_look};
use mw_term::Arity;
use mw_translate::{Abbreviation, abbreviation_named, look_up};

// The parts so far, and how many looks are left for more.
#[derive(Drop)]
struct Parts {
    refs: Vec<Ref>,
    looks_left: u64,
}

// Puts the members of a list behind the parts.
fn put_members(heap: &Heap, list: Ref, parts: &mut Parts) -> Result<(), Memory>
    requires { IsIn heap.now.objects list }
    ensures { OnOk result (PutsParts heap.now.objects list (members_in (object_at heap.now.objects list)) parts.old.refs.items parts.new.refs.items) }
{
    let mut rest = list;
    while let View::Pair(first, more) = heap.view(rest) {
        take_look(&mut parts.looks_left)?;
        parts.refs.push(first)?;
        rest = more;
    }
    Ok(())
}

// Puts the members of clauses behind the parts.
fn put_clauses(heap: &Heap, clauses: Ref, parts: &mut Parts) -> Result<(), Memory>
    requires { IsIn heap.now.objects clauses }
    ensures { OnOk result (PutsParts heap.now.objects clauses (clause_members (object_at heap.now.objects clauses)) parts.old.refs.items parts.new.refs.items) }
{
    let mut rest = clauses;
    while let View::Pair(clause, more) = heap.view(rest) {
        take_look(&mut parts.looks_left)?;
        put_members(heap, clause, parts)?;
        rest = more;
    }
    Ok(())
}

// Puts what follows the names of bindings behind the parts, up to a binding that is not a pair.
fn put_bindings(heap: &Heap, bindings: Ref, parts: &mut Parts) -> Result<(), Memory>
    requires { IsIn heap.now.objects bindings }
    ensures { OnOk result (PutsParts heap.now.objects bindings (binding_members (object_at heap.now.objects bindings)) parts.old.refs.items parts.new.refs.items) }
{
    let mut rest = bindings;
    while let View::Pair(binding, more) = heap.view(rest) {
        take_look(&mut parts.looks_left)?;
        let View::Pair(_, values) = heap.view(binding) else {
            return Ok(());
        };
        put_members(heap, values, parts)?;
        rest = more;
    }
    Ok(())
}

// Puts what follows the names of the bindings of a LET or a LET*, and its body, behind the parts.
fn put_let(heap: &Heap, rest: Ref, parts: &mut Parts) -> Result<(), Memory>
    requires { IsIn heap.now.objects rest }
    ensures { OnOk result (PutsParts heap.now.objects rest (let_members (object_at heap.now.objects rest)) parts.old.refs.items parts.new.refs.items) }
{
    let View::Pair(bindings, body) = heap.view(rest) else {
        return Ok(());
    };
    put_bindings(heap, bindings, parts)?;
    put_members(heap, body, parts)
}

// Puts the actuals of a call behind the parts, where one of the tables has its name.
fn put_actuals(
    heap: &Heap,
    newer: &Arity,
    older: &Arity,
    name: Ref,
    actuals: Ref,
    parts: &mut Parts,
) -> Result<(), Memory>
    requires name { IsIn heap.now.objects name }
    requires symbol { is_symbol (object_at heap.now.objects name) ≡ true }
    requires actuals { IsIn heap.now.objects actuals }
    ensures { OnOk result (PutsParts heap.now.objects actuals (called_members (is_some (arity_of (newer.now ++ older.now) (name_of (object_at heap.now.objects name)))) (object_at heap.now.objects actuals)) parts.old.refs.items parts.new.refs.items) }
{
    match look_up(newer, older, heap.name_of(name)) {
        Some(_) => put_members(heap, actuals, parts),
        None => Ok(()),
    }
}

// Puts the parts of a form behind the parts, by the word or the name that it begins with.
fn put_form(
    heap: &Heap,
    newer: &Arity,
    older: &Arity,
    name: Ref,
    rest: Ref,
    parts: &mut Parts,
) -> Result<(), Memory>
    requires name { IsIn heap.now.objects name }
    requires symbol { is_symbol (object_at heap.now.objects name) ≡ true }
    requires rest { IsIn heap.now.objects rest }
    ensures { OnOk result (PutsParts heap.now.objects rest (form_members (is_some (arity_of (newer.now ++ older.now) (name_of (object_at heap.now.objects name)))) (abbreviation_of (name_of (object_at heap.now.objects name))) (object_at heap.now.objects rest)) parts.old.refs.items parts.new.refs.items) }
{
    match abbreviation_named(heap, name) {
        Abbreviation::Quote => Ok(()),
        Abbreviation::Cond => put_clauses(heap, rest, parts),
        Abbreviation::Let => put_let(heap, rest, parts),
        Abbreviation::LetStar => put_let(heap, rest, parts),
        Abbreviation::Other => put_actuals(heap, newer, older, name, rest, parts),
        _ => put_members(heap, rest, parts),
    }
}

// Puts the body and the actuals of a lambda call behind the parts, where its head has a body.
fn put_lambda(heap: &Heap, head: Ref, actuals: Ref, parts: &mut Parts) -> Result<(), Memory>
    requires head { IsIn heap.now.objects head }
    requires actuals { IsIn heap.now.objects actuals }
    ensures { OnOk result ((x : ℕ) → head < x → actuals < x → PutsParts heap.now.objects x (lambda_members (object_at heap.now.objects head) (object_at heap.now.objects actuals)) parts.old.refs.items parts.new.refs.items) }
{
    let Some(body) = third_member(heap, head) else {
        return Ok(());
    };
    parts.refs.push(body)?;
    put_members(heap, actuals, parts)
}

// Puts the parts of a raw term behind the parts.
fn put_parts(
    heap: &Heap,
    newer: &Arity,
    older: &Arity,
    x: Ref,
    parts: &mut Parts,
) -> Result<(), Memory>
    requires { IsIn heap.now.objects x }
    ensures { OnOk result (PutsParts heap.now.objects x (raw_parts (newer.now ++ older.now) (object_at heap.now.objects x)) parts.old.refs.items parts.new.refs.items) }
{
    let View::Pair(head, rest) = heap.view(x) else {
        return Ok(());
    };
    match heap.view(head) {
        View::Symbol => put_form(heap, newer, older, head, rest, parts),
        _ => put_lambda(heap, head, rest, parts),
    }
}

// The parts of a raw term. What is put takes looks from those that are left.
pub(crate) fn parts_of(
    heap: &Heap,
    newer: &Arity,
    older: &Arity,
    x: Ref,
    looks_left: &mut u64,
) -> Result<Vec<Ref>, Memory>
    requires { IsIn heap.now.objects x }
    ensures parts { IfOk result (λ v. map (object_at heap.now.objects) v.items ≡ raw_parts (newer.now ++ older.now) (object_at heap.now.objects x)) }
    ensures before { IfOk result (λ v. AreBefore x v.items) }
{
    let mut parts = Parts {
        refs: Vec::new(heap.alloc()),
        looks_left: *looks_left,
    };
    put_parts(heap, newer, older, x, &mut parts)?;
    *looks_left = parts.looks_left;
    Ok(parts.refs)
}
