//! How long the texts of objects are.
ghost use Rattle.std.specs.Prelude.{◌≡◌, ◌+◌, ◌<◌, ◌≤◌, ◌^◌, ℕ, length, true};
ghost use Rattle.mw_model.specs.Terms.Object.{Object, Natural, Symbol, Pair, is_name, name_of_bytes};
ghost use Rattle.mw_heap.specs.Cells.{bytes_of};
ghost use Rattle.mw_heap.specs.Lengths.{text_told, tail_told, length_of, atom_length, IsMeasurable, IsLengthOf};

use crate::shapes::bare::is_bare_name;
use crate::store::cell::Cell;
use crate::store::sets::Naturals;
use indexmap::IndexSet;
use itoa::Buffer;
use std::mem::size_of;

/// How long the text of an object is, with what it is, which tells how it is written as the tail of a list: of a pair all but the opening
/// parenthesis, of NIL nothing, and anything else after a dot. Each number is counted from the shortest text or tail of its kind, so that
/// it fits as far as lengths matter.
#[derive(Clone, Copy)]
pub(crate) enum Length {
    /// NIL.
    Nil,
    /// No pair and not NIL: one less than the bytes of its text.
    Atom(u16),
    /// A pair: two less than the bytes of its text, and one less than those of its tail.
    Pair(u16),
    /// The text has 65,537 bytes or more, and so has the tail.
    Long,
}

// One stands beside each cell.
const _: () = prove!(size_of::<Length>() == 4);

/// The bytes of the text, of which at most 65,537 count.
pub(crate) fn text_told(length: Length) -> u32
    ensures told { result ≡ text_told length }
    ensures few { result ≤ 65537 }
{
    match length {
        Length::Nil => 3,
        Length::Atom(less) => less as u32 + 1,
        Length::Pair(less) => less as u32 + 2,
        Length::Long => 65_537,
    }
}

/// The bytes of the text as the tail of a list, but for the closing parenthesis, of which at most 65,537 count.
pub(crate) fn tail_told(length: Length) -> u32
    ensures told { result ≡ tail_told length }
    ensures few { result ≤ 65537 }
{
    match length {
        Length::Nil => 0,
        Length::Atom(less) => (less as u32 + 4).min(65_537),
        Length::Pair(less) => less as u32 + 1,
        Length::Long => 65_537,
    }
}

// The length of an object that is no pair and not NIL, and has a text of this length.
fn atom_length(text: usize) -> Length
    requires { 0 < text }
    ensures { result ≡ atom_length text }
{
    match u16::try_from(text - 1) {
        Ok(less) => Length::Atom(less),
        Err(_) => Length::Long,
    }
}

// The length of a natural.
fn natural_length(n: u128) -> Length
    ensures { result ≡ length_of (Natural n) }
{
    let mut buffer = Buffer::new();
    atom_length(buffer.format(n).len())
}

// The length of a symbol.
fn symbol_length(name: &[u8]) -> Length
    requires { is_name name.now ≡ true }
    ensures { result ≡ length_of (Symbol (name_of_bytes name.now)) }
{
    if name == b"NIL".as_slice() {
        return Length::Nil;
    }
    let bars = if is_bare_name(name) { 0 } else { 2 };
    atom_length(name.len() + bars)
}

/// The length of a pair, by those of its parts.
pub(crate) fn pair_length(first: Length, rest: Length) -> Length
    ensures { (a d : Object) → first ≡ length_of a → rest ≡ length_of d → result ≡ length_of (Pair a d) }
{
    match u16::try_from(text_told(first) + tail_told(rest)) {
        Ok(less) => Length::Pair(less),
        Err(_) => Length::Long,
    }
}

/// The length of a cell's object, by those of what the cell points to.
pub(crate) fn measure(
    cell: Cell,
    naturals: &Naturals,
    names: &IndexSet<Vec<u8>>,
    lengths: &[Length],
) -> Length
    requires { IsMeasurable naturals.now.keys (bytes_of names.now.keys) lengths.now cell }
    ensures { IsLengthOf naturals.now.keys (bytes_of names.now.keys) lengths.now cell result }
{
    match cell {
        Cell::Small(n) => natural_length(n as u128),
        Cell::Large(i) => natural_length(naturals.as_slice()[i as usize]),
        Cell::Symbol(i) => symbol_length(names.as_slice()[i as usize].as_slice()),
        Cell::Pair(first, rest) => pair_length(lengths[first as usize], lengths[rest as usize]),
    }
}
