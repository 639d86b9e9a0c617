//! Whether a term mentions a function of a block.
ghost use Rattle.std.specs.Prelude.{◌≡◌, ℕ, List, All, true, false, Some, IfOk, OnOk};
ghost use Rattle.mw_model.specs.Terms.Object.{Name, Pair, symbol};
ghost use Rattle.mw_model.specs.Terms.Term.{Term, Terms};
ghost use Rattle.mw_model.specs.Terms.Reading.{term_of, terms_of};
ghost use Rattle.mw_model.specs.Values.Primitive.{is_symbol};
ghost use Rattle.mw_model.specs.Values.Definition.{Function};
ghost use Rattle.mw_heap.specs.Objects.{object_at, IsIn};
ghost use Rattle.mw_term.specs.Parts.{names_at, AreSymbols};
ghost use Rattle.mw_define.specs.Collecting.{HasNames};
ghost use Rattle.mw_define.specs.Mentioning.{IsLook, Splits, IsPiece, piece_mentions};
ghost use Rattle.mw_define.specs.Knowing.{AreKnown};
ghost use Rattle.mw_define.specs.declared.piece.Piece.TheVariants as piece;

use crate::known::Known;
use crate::piece::Piece;
use indexmap::IndexSet;
use mw_heap::{Heap, Memory, Ref, View, Word, take_look};
use mw_term::is_among_symbols;

// The actuals of a lambda call and the function's body wait.
fn split_lambda(
    heap: &Heap,
    function: Ref,
    arguments: Ref,
    waiting: &mut Vec<Piece>,
) -> Result<(), Memory>
    requires function_in { IsIn heap.now.objects function }
    requires within { IsIn heap.now.objects arguments }
    requires read { (t : Term) × (term_of (Pair (object_at heap.now.objects function) (object_at heap.now.objects arguments)) ≡ Some t) }
    requires pair { is_symbol (object_at heap.now.objects function) ≡ false }
    ensures { OnOk result ((names : List Name) (x : ℕ) → object_at heap.now.objects x ≡ Pair (object_at heap.now.objects function) (object_at heap.now.objects arguments) →
        Splits names heap.now.objects (piece.Term x) waiting.old.items waiting.new.items) }
{
    waiting.push(Piece::Terms(arguments))?;
    let Some(body) = heap.third_of(function) else {
        return Ok(());
    };
    waiting.push(Piece::Term(body))?;
    Ok(())
}

// Whether a term that begins with a symbol is a call of the block, or else its actuals wait.
fn look_at_named(
    heap: &Heap,
    names: &IndexSet<Ref>,
    name: Ref,
    arguments: Ref,
    waiting: &mut Vec<Piece>,
) -> Result<bool, Memory>
    requires name_in { IsIn heap.now.objects name }
    requires within { IsIn heap.now.objects arguments }
    requires symbol { is_symbol (object_at heap.now.objects name) ≡ true }
    requires symbols { AreSymbols heap.now.objects names.now.keys }
    requires read { (t : Term) × (term_of (Pair (object_at heap.now.objects name) (object_at heap.now.objects arguments)) ≡ Some t) }
    ensures { IfOk result (λ b. (x : ℕ) → object_at heap.now.objects x ≡ Pair (object_at heap.now.objects name) (object_at heap.now.objects arguments) →
        IsLook (names_at heap.now.objects names.now.keys) heap.now.objects (piece.Term x) waiting.old.items waiting.new.items b) }
{
    if heap.is_word(Some(name), Word::Quote) {
        return Ok(false);
    }
    if heap.is_word(Some(name), Word::If) {
        waiting.push(Piece::Terms(arguments))?;
        return Ok(false);
    }
    if is_among_symbols(heap, names, name) {
        return Ok(true);
    }
    waiting.push(Piece::Terms(arguments))?;
    Ok(false)
}

fn look_at_term(
    heap: &Heap,
    names: &IndexSet<Ref>,
    x: Ref,
    waiting: &mut Vec<Piece>,
) -> Result<bool, Memory>
    requires within { IsIn heap.now.objects x }
    requires symbols { AreSymbols heap.now.objects names.now.keys }
    requires read { (t : Term) × (term_of (object_at heap.now.objects x) ≡ Some t) }
    ensures { IfOk result (IsLook (names_at heap.now.objects names.now.keys) heap.now.objects (piece.Term x) waiting.old.items waiting.new.items) }
{
    let View::Pair(head, arguments) = heap.view(x) else {
        return Ok(false);
    };
    if let View::Symbol = heap.view(head) {
        return look_at_named(heap, names, head, arguments, waiting);
    }
    split_lambda(heap, head, arguments, waiting)?;
    Ok(false)
}

// The first of a list of terms and the others wait.
fn split_terms(heap: &Heap, x: Ref, waiting: &mut Vec<Piece>) -> Result<(), Memory>
    requires within { IsIn heap.now.objects x }
    requires read { (ts : Terms) × (terms_of (object_at heap.now.objects x) ≡ Some ts) }
    ensures { OnOk result ((names : List Name) → Splits names heap.now.objects (piece.Terms x) waiting.old.items waiting.new.items) }
{
    let View::Pair(first, rest) = heap.view(x) else {
        return Ok(());
    };
    waiting.push(Piece::Terms(rest))?;
    waiting.push(Piece::Term(first))?;
    Ok(())
}

// Whether a piece is a call of the block, or else its pieces wait.
fn look(
    heap: &Heap,
    names: &IndexSet<Ref>,
    piece: Piece,
    waiting: &mut Vec<Piece>,
) -> Result<bool, Memory>
    requires within { IsPiece heap.now.objects piece }
    requires symbols { AreSymbols heap.now.objects names.now.keys }
    ensures { IfOk result (IsLook (names_at heap.now.objects names.now.keys) heap.now.objects piece waiting.old.items waiting.new.items) }
{
    match piece {
        Piece::Term(x) => look_at_term(heap, names, x, waiting),
        Piece::Terms(x) => {
            split_terms(heap, x, waiting)?;
            Ok(false)
        }
    }
}

// Notes whether a piece mentions the block, where that follows from what is known of its own pieces. Where it does not, the piece waits
// below these, to be looked at again when they are known.
fn settle(
    heap: &Heap,
    piece: &Piece,
    known: &mut Known,
    waiting: &mut Vec<Piece>,
    pieces: &mut Vec<Piece>,
) -> Result<(), Memory>
    requires within { IsPiece heap.now.objects piece.now }
    requires known { AreKnown heap.now.objects known.old.names.keys known.old }
    requires waiting { All (IsPiece heap.now.objects) waiting.old.items }
    ensures known { OnOk result (AreKnown heap.now.objects known.old.names.keys known.new) }
    ensures waiting { OnOk result (All (IsPiece heap.now.objects) waiting.new.items) }
{
    pieces.clear();
    if look(heap, &known.names, *piece, pieces)? {
        return known.note(piece, true);
    }
    if let Some(mentions) = known.find_any(pieces.as_slice()) {
        return known.note(piece, mentions);
    }
    waiting.push(*piece)?;
    waiting.append(pieces)?;
    Ok(())
}

// Whether a function of the block is called in a term or a list of terms, bodies of lambda calls included. What is found of each of its
// pieces is noted for all later questions. The question takes a look, even where the answer is known: a caller may ask it of the same tests
// for each of many calls, and nothing else would end that. Each piece of which nothing was known takes one or two more.
pub(crate) fn mentions_some(
    heap: &Heap,
    root: Piece,
    known: &mut Known,
    looks_left: &mut u64,
) -> Result<bool, Memory>
    requires within { IsPiece heap.now.objects root }
    requires known { AreKnown heap.now.objects known.old.names.keys known.old }
    ensures known { OnOk result (AreKnown heap.now.objects known.old.names.keys known.new) }
    ensures mentions { IfOk result (λ b. (B : List Function) → HasNames B (names_at heap.now.objects known.old.names.keys) → b ≡ piece_mentions B heap.now.objects root) }
{
    let mut waiting = Vec::new(heap.alloc());
    let mut pieces = Vec::new(heap.alloc());
    loop {
        take_look(looks_left)?;
        if let Some(mentions) = known.find(&root) {
            return Ok(mentions);
        }
        let piece = waiting.pop().unwrap_or(root);
        if known.find(&piece).is_none() {
            settle(heap, &piece, known, &mut waiting, &mut pieces)?;
        }
    }
}
