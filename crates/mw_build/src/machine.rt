//! The stack machine that makes objects of pieces.
ghost use Rattle.std.specs.Prelude.{◌≡◌, [], map, get_or, IfOk, OnOk};
ghost use Rattle.mw_heap.specs.Objects.{object_at, IsIn, Grows};
ghost use Rattle.mw_build.specs.Pieces.{object_of, step, run};
ghost use Rattle.mw_build.specs.Rules.{made_by, made_of};
ghost use Rattle.mw_build.specs.Stacks.{stack_of, AreIn};

use crate::parts::{call, newest, pair, part_at, symbol};
use crate::piece::Piece;
use mw_heap::{Heap, Memory, Ref, form_of, list_of};

// How deep rules may use others.
const DEPTH: usize = 16;

// What a piece makes of the given objects, and of the parts that it takes.
#[cycle(run)]
fn make_piece(
    heap: &mut Heap,
    rules: &[&'static [Piece]],
    depth: usize,
    given: &[Ref],
    parts: &[Ref],
    piece: Piece,
) -> Result<Ref, Memory>
    requires given { AreIn heap.old.objects given.now }
    requires parts { AreIn heap.old.objects parts.now }
    ensures grows { Grows heap.old.objects heap.new.objects }
    ensures made { IfOk result (λ r. IsIn heap.new.objects r × (object_at heap.new.objects r ≡ object_of (made_by (map (λ x. x.now) rules.now) depth) (map (object_at heap.old.objects) given.now) (map (object_at heap.old.objects) parts.now) piece)) }
{
    match piece {
        Piece::Word(word) => heap.word(word),
        Piece::Variable(variable) => symbol(heap, variable),
        Piece::Number(number) => heap.nat(number as u128),
        Piece::Given(number) => part_at(heap, given, number),
        Piece::Pair => pair(heap, parts),
        Piece::List(_) => list_of(heap, parts),
        Piece::Form(word, _) => form_of(heap, word, parts),
        Piece::Call(primitive, _) => call(heap, primitive, parts),
        Piece::Rule(number, _) => apply(heap, rules, depth, number, parts),
    }
}

// Does what one piece says.
#[cycle(run)]
fn take_step(
    heap: &mut Heap,
    rules: &[&'static [Piece]],
    depth: usize,
    given: &[Ref],
    stack: &mut Vec<Ref>,
    piece: Piece,
) -> Result<(), Memory>
    requires given { AreIn heap.old.objects given.now }
    requires stack { AreIn heap.old.objects stack.old.items }
    ensures grows { Grows heap.old.objects heap.new.objects }
    ensures within { OnOk result (AreIn heap.new.objects stack.new.items) }
    ensures made { OnOk result (stack_of heap.new.objects stack.new.items ≡ step (made_by (map (λ x. x.now) rules.now) depth) (map (object_at heap.old.objects) given.now) (stack_of heap.old.objects stack.old.items) piece) }
{
    let left = stack.len().saturating_sub(piece.taken());
    let made = make_piece(heap, rules, depth, given, &stack[left..], piece)?;
    stack.truncate(left);
    stack.push(made)?;
    Ok(())
}

// Does what the pieces say, in order.
#[cycle(run)]
fn run(
    heap: &mut Heap,
    rules: &[&'static [Piece]],
    depth: usize,
    given: &[Ref],
    stack: &mut Vec<Ref>,
    pieces: &[Piece],
) -> Result<(), Memory>
    requires given { AreIn heap.old.objects given.now }
    requires stack { AreIn heap.old.objects stack.old.items }
    ensures grows { Grows heap.old.objects heap.new.objects }
    ensures within { OnOk result (AreIn heap.new.objects stack.new.items) }
    ensures made { OnOk result (stack_of heap.new.objects stack.new.items ≡ run (made_by (map (λ x. x.now) rules.now) depth) (map (object_at heap.old.objects) given.now) (stack_of heap.old.objects stack.old.items) pieces.now) }
{
    for piece in pieces {
        take_step(heap, rules, depth, given, stack, *piece)?;
    }
    Ok(())
}

// What the rule of this number makes of the given objects, where rules use others no deeper than this.
#[cycle(run)]
fn apply(
    heap: &mut Heap,
    rules: &[&'static [Piece]],
    depth: usize,
    number: usize,
    given: &[Ref],
) -> Result<Ref, Memory>
    requires { AreIn heap.old.objects given.now }
    ensures grows { Grows heap.old.objects heap.new.objects }
    ensures made { IfOk result (λ r. IsIn heap.new.objects r × (object_at heap.new.objects r ≡ made_by (map (λ x. x.now) rules.now) depth number (map (object_at heap.old.objects) given.now))) }
{
    if depth == 0 {
        return heap.nil();
    }
    let pieces = pieces_at(rules, number);
    let mut stack = Vec::with_capacity(heap.alloc(), pieces.len())?;
    run(heap, rules, depth - 1, given, &mut stack, pieces)?;
    newest(heap, &mut stack)
}

// The pieces of the rule of this number, none where there is no such rule.
fn pieces_at(rules: &[&'static [Piece]], number: usize) -> &'static [Piece]
    ensures { result.now ≡ get_or (map (λ x. x.now) rules.now) number [] }
{
    match rules.get(number) {
        Some(pieces) => *pieces,
        None => &[],
    }
}

/// What the rule of this number makes of the given objects. Rules use others no deeper than 16, and what is deeper is NIL. The error is
/// out of memory.
pub fn make(
    heap: &mut Heap,
    rules: &[&'static [Piece]],
    number: usize,
    given: &[Ref],
) -> Result<Ref, Memory>
    requires { AreIn heap.old.objects given.now }
    ensures grows { Grows heap.old.objects heap.new.objects }
    ensures made { IfOk result (λ r. IsIn heap.new.objects r × (object_at heap.new.objects r ≡ made_of (map (λ x. x.now) rules.now) number (map (object_at heap.old.objects) given.now))) }
{
    apply(heap, rules, DEPTH, number, given)
}

/// Adds all that the pieces make, which use no rules and no given objects, to a stack. The error is out of memory.
pub fn make_all(heap: &mut Heap, pieces: &[Piece], stack: &mut Vec<Ref>) -> Result<(), Memory>
    requires { AreIn heap.old.objects stack.old.items }
    ensures grows { Grows heap.old.objects heap.new.objects }
    ensures within { OnOk result (AreIn heap.new.objects stack.new.items) }
    ensures made { OnOk result (stack_of heap.new.objects stack.new.items ≡ run (made_by [] 0) [] (stack_of heap.old.objects stack.old.items) pieces.now) }
{
    run(heap, &[], 0, &[], stack, pieces)
}
