//! The definition in a row.
ghost use Rattle.std.specs.Prelude.{◌≡◌, [], ◌∷◌, List};
ghost use Rattle.mw_model.specs.Terms.Object.{Name, Symbol};
ghost use Rattle.mw_model.specs.Terms.Term.{Term, formula_object};
ghost use Rattle.mw_model.specs.Values.Definition.{Function, Block, Functions, Choice, function_axiom, choice_axiom};
ghost use Rattle.mw_heap.specs.Objects.{object_at, IsIn};
ghost use Rattle.mw_preamble.specs.Entries.{IsBlock};
ghost use Rattle.mw_preamble.specs.Rows.{IsRowOf, first_part, second_part};

use crate::Definition;
use mw_heap::{Heap, Ref, View, Word};

// The first part of a pair, or the object itself if it is not a pair.
fn first(heap: &Heap, x: Ref) -> Ref
    requires { IsIn heap.now.objects x }
    ensures within { IsIn heap.now.objects result }
    ensures part { object_at heap.now.objects result ≡ first_part (object_at heap.now.objects x) }
{
    match heap.view(x) {
        View::Pair(part, _) => part,
        _ => x,
    }
}

// The second part of a pair, or the object itself if it is not a pair.
fn second(heap: &Heap, x: Ref) -> Ref
    requires { IsIn heap.now.objects x }
    ensures within { IsIn heap.now.objects result }
    ensures part { object_at heap.now.objects result ≡ second_part (object_at heap.now.objects x) }
{
    match heap.view(x) {
        View::Pair(_, part) => part,
        _ => x,
    }
}

// The second member of a list.
fn second_member(heap: &Heap, x: Ref) -> Ref
    requires { IsIn heap.now.objects x }
    ensures within { IsIn heap.now.objects result }
    ensures part { object_at heap.now.objects result ≡ first_part (second_part (object_at heap.now.objects x)) }
{
    first(heap, second(heap, x))
}

// The third member of a list.
fn third_member(heap: &Heap, x: Ref) -> Ref
    requires { IsIn heap.now.objects x }
    ensures within { IsIn heap.now.objects result }
    ensures part { object_at heap.now.objects result ≡ first_part (second_part (second_part (object_at heap.now.objects x))) }
{
    second_member(heap, second(heap, x))
}

// The definition that a row brings: it is read off its axiom, and nothing is copied.
pub(crate) fn definition_of(heap: &Heap, row: Ref) -> Definition
    requires { IsIn heap.now.objects row }
    ensures { (B : Block) → IsRowOf B (object_at heap.now.objects row) → IsBlock heap.now.objects (result ∷ []) B }
{
    let name = first(heap, row);
    let formula = second(heap, second(heap, row));
    if heap.is_headed(formula, Word::Por) {
        witness_of(heap, name, formula)
    } else {
        function_of(heap, name, formula)
    }
}

// The function whose axiom is (PEQUAL* (NAME x1 .. xn) body).
fn function_of(heap: &Heap, name: Ref, formula: Ref) -> Definition
    requires name { IsIn heap.now.objects name }
    requires formula { IsIn heap.now.objects formula }
    ensures { (h : Function) → object_at heap.now.objects name ≡ Symbol h.name → object_at heap.now.objects formula ≡ formula_object (function_axiom h) → IsBlock heap.now.objects (result ∷ []) (Functions (h ∷ [])) }
{
    let formals = second(heap, second_member(heap, formula));
    let body = third_member(heap, formula);
    Definition::Function {
        name,
        formals,
        body,
    }
}

// The witness whose axiom is (POR* (PEQUAL* body 'NIL) (PNOT* (PEQUAL* ((LAMBDA (bound x1 .. xn) body) (NAME x1 .. xn) x1 .. xn) 'NIL))).
fn witness_of(heap: &Heap, name: Ref, formula: Ref) -> Definition
    requires name { IsIn heap.now.objects name }
    requires formula { IsIn heap.now.objects formula }
    ensures { (g y : Name) (xs : List Name) (b : Term) → object_at heap.now.objects name ≡ Symbol g → object_at heap.now.objects formula ≡ formula_object (choice_axiom g y xs b) → IsBlock heap.now.objects (result ∷ []) (Choice g y xs b) }
{
    let equation = second_member(heap, third_member(heap, formula));
    let lambda = first(heap, second_member(heap, equation));
    let formals = second_member(heap, lambda);
    Definition::Witness {
        name,
        bound: first(heap, formals),
        free: second(heap, formals),
        body: third_member(heap, lambda),
    }
}
