//! Events with the numbers of steps in place of their proofs.
ghost use Rattle.std.specs.Prelude.{◌≡◌, ℕ, ◌≤◌, true, false, List, [], ◌∷◌, ◌++◌, length, All, IfOk, OnOk};
ghost use Rattle.mw_model.specs.Terms.Object.{Natural, Pair, list1};
ghost use Rattle.mw_model.specs.Events.Fate.{event_word, longest};
ghost use Rattle.mw_model.specs.Texts.Printing.{text_of};
ghost use Rattle.mw_model.specs.Texts.Written.{IsDatumLine};
ghost use Rattle.mw_commands.specs.Commands.Subproofs.{distinct_proofs};
ghost use Rattle.mw_commands.specs.Commands.Flattening.{numbers_among, is_logged_word, OwesFlat};
ghost use Rattle.mw_heap.specs.Objects.{object_at, IsIn};
ghost use Rattle.mw_heap.specs.Words.{word_object};
ghost use Rattle.mw_theory.specs.Words.{verify_event, IsEvent};
ghost use Rattle.mw_flat.specs.FlatEvents.{numbers_object, put_before, WritesFlat};

use crate::flattening::flatten;
use mw_heap::{Heap, Memory, Ref, Word};
use mw_print::{Printed, print, text_len, write_line, write_number};
use mw_slice::{Copies, copy};
use mw_theory::{Event, event_of};
use std::alloc::Global;

// The most bytes of a text without labels: the heap measures no longer one.
const LONGEST: u64 = 65_536;

// The list of these numbers.
fn list_of_numbers(heap: &mut Heap, numbers: &[u64]) -> Result<Ref, Memory>
    ensures { IfOk result (λ r. IsIn heap.new.objects r × (object_at heap.new.objects r ≡ numbers_object numbers.now)) }
{
    let mut list = heap.nil()?;
    for index in (0..numbers.len()).rev() {
        let number = heap.nat(numbers[index] as u128)?;
        list = heap.cons(number, list)?;
    }
    Ok(list)
}

// The event of this word with these members of another heap, and then this last one.
fn event_with(
    from: &Heap,
    word: Word,
    members: &[Ref],
    last: Ref,
    to: &mut Heap,
    copies: &mut Copies,
) -> Result<Ref, Memory>
    requires members { All (IsIn from.now.objects) members.now }
    requires last { IsIn to.old.objects last }
    ensures { IfOk result (λ r. IsIn to.new.objects r × (object_at to.new.objects r ≡ Pair (word_object word) (put_before from.now.objects members.now (list1 (object_at to.old.objects last))))) }
{
    let end = to.nil()?;
    let mut list = to.cons(last, end)?;
    for index in (0..members.len()).rev() {
        let member = copy(from, members[index], to, copies)?;
        list = to.cons(member, list)?;
    }
    let first = to.word(word)?;
    to.cons(first, list)
}

// A heap for what is made for one event, in a box, so that the proofs of its owner are short.
fn boxed(alloc: Global) -> Result<Box<Heap>, Memory> {
    let heap = Heap::new(alloc)?;
    Ok(Box::new(alloc, heap)?)
}

// Writes the steps of these proofs, and then the event of this word with these members and the list of the numbers of the proofs.
fn write_with_list(
    heap: &Heap,
    word: Word,
    members: &[Ref],
    proofs: Ref,
    to: &mut Heap,
    copies: &mut Copies,
    piece: &mut Vec<u8>,
) -> Result<(), Memory>
    requires members { All (IsIn heap.now.objects) members.now }
    requires proofs { IsIn heap.now.objects proofs }
    requires empty { piece.old.items ≡ [] }
    ensures { OnOk result (WritesFlat (object_at heap.now.objects proofs) (Pair (word_object word) (put_before heap.now.objects members.now (list1 (numbers_among (distinct_proofs (object_at heap.now.objects proofs)) (object_at heap.now.objects proofs))))) piece.new.items) }
{
    let listed = heap.list_members(proofs)?;
    let numbers = flatten(heap, &listed, piece)?;
    let list = list_of_numbers(to, &numbers)?;
    let event = event_with(heap, word, members, list, to, copies)?;
    write_line(piece, to, event)
}

// The same, where the list is made in a heap of its own.
fn write_definitions(
    heap: &Heap,
    word: Word,
    members: &[Ref],
    proofs: Ref,
    copies: &mut Copies,
    piece: &mut Vec<u8>,
) -> Result<(), Memory>
    requires members { All (IsIn heap.now.objects) members.now }
    requires proofs { IsIn heap.now.objects proofs }
    requires empty { piece.old.items ≡ [] }
    ensures { OnOk result (WritesFlat (object_at heap.now.objects proofs) (Pair (word_object word) (put_before heap.now.objects members.now (list1 (numbers_among (distinct_proofs (object_at heap.now.objects proofs)) (object_at heap.now.objects proofs))))) piece.new.items) }
{
    let mut own = boxed(heap.alloc())?;
    let to: &mut Heap = &mut own;
    write_with_list(heap, word, members, proofs, to, copies, piece)
}

// Whether the text of an object is written without labels.
fn has_short_text(heap: &Heap, x: Ref) -> bool
    requires { IsIn heap.now.objects x }
    ensures { result ≡ true → length (text_of (object_at heap.now.objects x)) ≤ longest }
{
    text_len(heap, x) <= LONGEST
}

// Puts the text of an object, which is short, after what the piece has.
fn put_text(heap: &Heap, x: Ref, piece: &mut Vec<u8>) -> Result<(), Memory>
    requires within { IsIn heap.now.objects x }
    requires short { length (text_of (object_at heap.now.objects x)) ≤ longest }
    ensures { OnOk result (piece.new.items ≡ piece.old.items ++ text_of (object_at heap.now.objects x)) }
{
    match print(heap, x, piece) {
        Printed::Ok => Ok(()),
        _ => Err(Memory),
    }
}

// Puts the text of a theorem with this number in the place of its proof after what the piece has.
fn put_theorem(
    heap: &Heap,
    name: Ref,
    formula: Ref,
    number: u64,
    piece: &mut Vec<u8>,
) -> Result<(), Memory>
    requires name { IsIn heap.now.objects name }
    requires formula { IsIn heap.now.objects formula }
    requires name_short { length (text_of (object_at heap.now.objects name)) ≤ longest }
    requires formula_short { length (text_of (object_at heap.now.objects formula)) ≤ longest }
    ensures { OnOk result (piece.new.items ≡ piece.old.items ++ text_of (verify_event (object_at heap.now.objects name) (object_at heap.now.objects formula) (Natural number))) }
{
    piece.extend_from_slice(b"(VERIFY ")?;
    put_text(heap, name, piece)?;
    piece.push(b' ')?;
    put_text(heap, formula, piece)?;
    piece.push(b' ')?;
    write_number(piece, number)?;
    piece.push(b')')?;
    Ok(())
}

// Puts a theorem with this number in the place of its proof on a line, if its text is short. Nothing is copied for that. Answers whether it
// did; else the piece keeps its bytes.
fn put_short_theorem(
    heap: &Heap,
    name: Ref,
    formula: Ref,
    number: u64,
    piece: &mut Vec<u8>,
) -> Result<bool, Memory>
    requires name { IsIn heap.now.objects name }
    requires formula { IsIn heap.now.objects formula }
    ensures put { IfOk result (λ b. b ≡ true → (line : List ℕ) × IsDatumLine (verify_event (object_at heap.now.objects name) (object_at heap.now.objects formula) (Natural number)) line × (piece.new.items ≡ piece.old.items ++ line)) }
    ensures kept { IfOk result (λ b. b ≡ false → piece.new.items ≡ piece.old.items) }
{
    if !has_short_text(heap, name) || !has_short_text(heap, formula) {
        return Ok(false);
    }
    let had = piece.len();
    put_theorem(heap, name, formula, number, piece)?;
    if piece.len() - had > LONGEST as usize {
        piece.truncate(had);
        return Ok(false);
    }
    piece.push(b'\n')?;
    Ok(true)
}

// Writes a theorem with this number in the place of its proof on a line, after what the piece has.
fn write_long_theorem(
    heap: &Heap,
    name: Ref,
    formula: Ref,
    number: u64,
    to: &mut Heap,
    copies: &mut Copies,
    piece: &mut Vec<u8>,
) -> Result<(), Memory>
    requires members { All (IsIn heap.now.objects) (name ∷ formula ∷ []) }
    ensures { OnOk result ((line : List ℕ) × IsDatumLine (verify_event (object_at heap.now.objects name) (object_at heap.now.objects formula) (Natural number)) line × (piece.new.items ≡ piece.old.items ++ line)) }
{
    let number = to.nat(number as u128)?;
    let event = event_with(heap, Word::Verify, &[name, formula], number, to, copies)?;
    write_line(piece, to, event)
}

// Writes the steps of the proof of a theorem, and then the theorem with its number.
fn write_theorem(
    heap: &Heap,
    name: Ref,
    formula: Ref,
    proof: Ref,
    copies: &mut Copies,
    piece: &mut Vec<u8>,
) -> Result<(), Memory>
    requires members { All (IsIn heap.now.objects) (name ∷ formula ∷ proof ∷ []) }
    requires empty { piece.old.items ≡ [] }
    ensures { OnOk result (OwesFlat (verify_event (object_at heap.now.objects name) (object_at heap.now.objects formula) (object_at heap.now.objects proof)) piece.new.items) }
{
    let numbers = flatten(heap, &[proof], piece)?;
    if put_short_theorem(heap, name, formula, numbers[0], piece)? {
        return Ok(());
    }
    let mut own = boxed(heap.alloc())?;
    let to: &mut Heap = &mut own;
    write_long_theorem(heap, name, formula, numbers[0], to, copies, piece)
}

// Writes what is owed for the event of these members, in place of nothing.
fn write_event(
    heap: &Heap,
    event: Ref,
    members: Event,
    copies: &mut Copies,
    piece: &mut Vec<u8>,
) -> Result<bool, Memory>
    requires within { IsIn heap.now.objects event }
    requires event { IsEvent heap.now.objects event members }
    requires empty { piece.old.items ≡ [] }
    ensures word { IfOk result (λ b. b ≡ is_logged_word (event_word (object_at heap.now.objects event))) }
    ensures written { IfOk result (λ b. b ≡ true → OwesFlat (object_at heap.now.objects event) piece.new.items) }
{
    match members {
        Event::Verify {
            name,
            formula,
            proof,
        } => write_theorem(heap, name, formula, proof, copies, piece)?,
        Event::Define {
            name,
            formals,
            body,
            measure,
            proofs,
        } => {
            let others = [name, formals, body, measure];
            write_definitions(heap, Word::Define, &others, proofs, copies, piece)?;
        }
        Event::DefineAll {
            definitions,
            proofs,
        } => write_definitions(heap, Word::DefineAll, &[definitions], proofs, copies, piece)?,
        Event::Skolem { .. } | Event::Profile(_) => write_line(piece, heap, event)?,
        Event::Switch(_) | Event::Eval(_) | Event::Print(_) => return Ok(false),
    }
    Ok(true)
}

/// Writes the steps that the proofs of an event are made of, and then the event with their numbers in place of the proofs, each on a
/// line; nothing for an event whose word no log has. Answers whether it has such a word. The piece is emptied first. The error is that of
/// `flatten`, whose bounds an event may pass that no judge accepts, or out of memory: then part of this may stand.
pub fn write_flat(
    heap: &Heap,
    event: Ref,
    copies: &mut Copies,
    piece: &mut Vec<u8>,
) -> Result<bool, Memory>
    requires { IsIn heap.now.objects event }
    ensures word { IfOk result (λ b. b ≡ is_logged_word (event_word (object_at heap.now.objects event))) }
    ensures written { IfOk result (λ b. b ≡ true → OwesFlat (object_at heap.now.objects event) piece.new.items) }
{
    piece.clear();
    let Some(members) = event_of(heap, event) else {
        return Ok(false);
    };
    write_event(heap, event, members, copies, piece)
}
