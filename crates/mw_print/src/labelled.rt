//! The text of an object with labels.
ghost use Rattle.std.specs.Prelude.{◌≡◌, ◌≤◌, ℕ, suc, cond, nat_eq, Some, [], ◌∷◌, ◌++◌, ◌&&◌, leb, All, IfOk, OnOk};
ghost use Rattle.std.specs.List.{list_any};
ghost use Rattle.std.specs.Map.{lookup};
ghost use Rattle.mw_model.specs.Terms.Object.{Pair};
ghost use Rattle.mw_model.specs.Texts.Printing.{numeral};
ghost use Rattle.mw_heap.specs.Objects.{IsIn, object_at};
ghost use Rattle.mw_print.specs.Labelling.{most_label, label_text, labelled_text, labelled_next};
ghost use Rattle.mw_print.specs.Waiting.{is_one_of, IsPiece, Advances};
ghost use Rattle.mw_print.specs.declared.piece.Piece.TheVariants.{Text, Tail, Given, Close};

use crate::atom::{write_atom, write_end, write_natural};
use crate::numbers::Numbers;
use crate::piece::Piece;
use indexmap::{IndexMap, IndexSet};
use mw_heap::{Heap, Memory, Ref, View};

// The greatest label that can be read again: nine digits.
const MOST: u32 = 999999999;

// The label of a pair, if it has one.
fn number_of(numbers: &Numbers, x: Ref) -> Option<u32>
    ensures { result ≡ lookup (nat_eq x) numbers.now.given.entries }
{
    numbers.given.get(&x).copied()
}

// Whether a pair without a label gets one.
fn gets_label(again: &IndexSet<Ref>, next: u32, x: Ref) -> bool
    ensures { result ≡ (list_any (nat_eq x) again.now.keys && leb next most_label) }
{
    again.contains(&x) && next <= MOST
}

// Writes # and a number, and then this byte.
fn write_number(n: u32, byte: u8, out: &mut Vec<u8>) -> Result<(), Memory>
    ensures { OnOk result (out.new.items ≡ out.old.items ++ 35 ∷ (numeral n ++ byte ∷ [])) }
{
    out.push(b'#')?;
    write_natural(n as u128, out)?;
    out.push(byte)?;
    Ok(())
}

// Writes a byte, and leaves to be written the text of `first`, and after it what follows with `rest` after it.
fn write_open(
    byte: u8,
    first: Ref,
    rest: Ref,
    pieces: &mut Vec<Piece>,
    out: &mut Vec<u8>,
) -> Result<(), Memory>
    ensures pieces { OnOk result (pieces.new.items ≡ pieces.old.items ++ Tail rest ∷ Text first ∷ []) }
    ensures byte { OnOk result (out.new.items ≡ out.old.items ++ byte ∷ []) }
{
    out.push(byte)?;
    pieces.push(Piece::Tail(rest))?;
    pieces.push(Piece::Text(first))?;
    Ok(())
}

// Writes the next label for a pair, which has it once it is written itself.
fn write_label(
    x: Ref,
    next: &mut u32,
    pieces: &mut Vec<Piece>,
    out: &mut Vec<u8>,
) -> Result<(), Memory>
    requires { next.old ≤ most_label }
    ensures pieces { OnOk result (pieces.new.items ≡ pieces.old.items ++ Given x next.old ∷ []) }
    ensures label { OnOk result (out.new.items ≡ out.old.items ++ label_text next.old) }
    ensures next { OnOk result (next.new ≡ suc next.old) }
{
    write_number(*next, b'=', out)?;
    pieces.push(Piece::Given(x, *next))?;
    *next += 1;
    Ok(())
}

// Writes the text of an object, or of a pair's what comes before its parts.
fn write_text(
    heap: &Heap,
    again: &IndexSet<Ref>,
    x: Ref,
    numbers: &mut Numbers,
    pieces: &mut Vec<Piece>,
    out: &mut Vec<u8>,
) -> Result<(), Memory>
    requires within { IsIn heap.now.objects x }
    requires pieces { All (IsPiece heap.now.objects) pieces.old.items }
    ensures { OnOk result (Advances (is_one_of heap.now.objects again.now.keys) heap.now.objects (Text x) pieces.old.items pieces.new.items numbers.old.given.entries numbers.new.given.entries numbers.old.next numbers.new.next out.old.items out.new.items) }
{
    let View::Pair(first, rest) = heap.view(x) else {
        return write_atom(heap, x, out);
    };
    if let Some(n) = number_of(numbers, x) {
        return write_number(n, b'#', out);
    }
    heap.order();
    if !gets_label(again, numbers.next, x) {
        return write_open(b'(', first, rest, pieces, out);
    }
    write_label(x, &mut numbers.next, pieces, out)?;
    write_open(b'(', first, rest, pieces, out)
}

// Writes a dot, and leaves to be written the text of the last part of a list, and after it the parenthesis.
fn write_dot(x: Ref, pieces: &mut Vec<Piece>, out: &mut Vec<u8>) -> Result<(), Memory>
    ensures pieces { OnOk result (pieces.new.items ≡ pieces.old.items ++ Close ∷ Text x ∷ []) }
    ensures dot { OnOk result (out.new.items ≡ out.old.items ++ 32 ∷ 46 ∷ 32 ∷ []) }
{
    out.extend_from_slice(b" . ")?;
    pieces.push(Piece::Close)?;
    pieces.push(Piece::Text(x))?;
    Ok(())
}

// Writes what follows the first member of a list, or of a pair's what comes before its parts.
fn write_tail(
    heap: &Heap,
    again: &IndexSet<Ref>,
    x: Ref,
    numbers: &Numbers,
    pieces: &mut Vec<Piece>,
    out: &mut Vec<u8>,
) -> Result<(), Memory>
    requires within { IsIn heap.now.objects x }
    requires pieces { All (IsPiece heap.now.objects) pieces.old.items }
    ensures { OnOk result (Advances (is_one_of heap.now.objects again.now.keys) heap.now.objects (Tail x) pieces.old.items pieces.new.items numbers.now.given.entries numbers.now.given.entries numbers.now.next numbers.now.next out.old.items out.new.items) }
{
    let View::Pair(first, rest) = heap.view(x) else {
        return write_end(heap, x, out);
    };
    heap.order();
    if number_of(numbers, x).is_some() {
        return write_dot(x, pieces, out);
    }
    if gets_label(again, numbers.next, x) {
        return write_dot(x, pieces, out);
    }
    write_open(b' ', first, rest, pieces, out)
}

// From here on a pair has this label.
fn give_label(x: Ref, n: u32, numbers: &mut Numbers) -> Result<(), Memory>
    ensures given { OnOk result ((r : ℕ) → lookup (nat_eq r) numbers.new.given.entries ≡ cond (nat_eq x r) (Some n) (lookup (nat_eq r) numbers.old.given.entries)) }
    ensures next { numbers.new.next ≡ numbers.old.next }
{
    numbers.given.insert(x, n)?;
    Ok(())
}

// Writes the parenthesis that closes a list.
fn write_close(out: &mut Vec<u8>) -> Result<(), Memory>
    ensures { OnOk result (out.new.items ≡ out.old.items ++ 41 ∷ []) }
{
    out.push(b')')?;
    Ok(())
}

// Writes a piece, or what comes before its parts.
fn write_piece(
    heap: &Heap,
    again: &IndexSet<Ref>,
    piece: Piece,
    numbers: &mut Numbers,
    pieces: &mut Vec<Piece>,
    out: &mut Vec<u8>,
) -> Result<(), Memory>
    requires piece { IsPiece heap.now.objects piece }
    requires pieces { All (IsPiece heap.now.objects) pieces.old.items }
    ensures { OnOk result (Advances (is_one_of heap.now.objects again.now.keys) heap.now.objects piece pieces.old.items pieces.new.items numbers.old.given.entries numbers.new.given.entries numbers.old.next numbers.new.next out.old.items out.new.items) }
{
    heap.order();
    match piece {
        Piece::Text(x) => write_text(heap, again, x, numbers, pieces, out),
        Piece::Tail(x) => write_tail(heap, again, x, numbers, pieces, out),
        Piece::Given(x, n) => give_label(x, n, numbers),
        Piece::Close => write_close(out),
    }
}

// Writes the text with labels of an object, where no pair has a label and nothing was written.
fn write_labelled(
    heap: &Heap,
    again: &IndexSet<Ref>,
    x: Ref,
    numbers: &mut Numbers,
    out: &mut Vec<u8>,
) -> Result<(), Memory>
    requires within { IsIn heap.now.objects x }
    requires none_given { numbers.old.given.entries ≡ [] }
    requires empty { out.old.items ≡ [] }
    ensures text { OnOk result (out.new.items ≡ labelled_text (is_one_of heap.now.objects again.now.keys) (object_at heap.now.objects x) numbers.old.next) }
    ensures next { OnOk result (numbers.new.next ≡ labelled_next (is_one_of heap.now.objects again.now.keys) (object_at heap.now.objects x) numbers.old.next) }
{
    let mut pieces = Vec::new(heap.alloc());
    pieces.push(Piece::Text(x))?;
    while let Some(piece) = pieces.pop() {
        write_piece(heap, again, piece, numbers, &mut pieces, out)?;
    }
    Ok(())
}

/// The text with labels of an object, and the first number that no label has then. Those pairs have labels that stand in `again`, as
/// long as there are numbers for them.
pub(crate) fn labelled(
    heap: &Heap,
    again: &IndexSet<Ref>,
    x: Ref,
    first: u32,
) -> Result<(Vec<u8>, u32), Memory>
    requires { IsIn heap.now.objects x }
    ensures text { IfOk result (λ r. r.0.items ≡ labelled_text (is_one_of heap.now.objects again.now.keys) (object_at heap.now.objects x) first) }
    ensures next { IfOk result (λ r. r.1 ≡ labelled_next (is_one_of heap.now.objects again.now.keys) (object_at heap.now.objects x) first) }
{
    let mut numbers = Numbers {
        given: IndexMap::new(heap.alloc()),
        next: first,
    };
    let mut out = Vec::new(heap.alloc());
    write_labelled(heap, again, x, &mut numbers, &mut out)?;
    Ok((out, numbers.next))
}
