//! Texts of atoms and lists, and texts that are too long to be shown.
ghost use Rattle.std.specs.Prelude.{IfOk};
ghost use Rattle.mw_heap.specs.Objects.{IsIn};

use crate::shared::{add_long_list, ends_with_text, holds, shared_pairs};
use mw_forms::read;
use mw_heap::{Heap, Memory, Ref};
use mw_print::{Bytes, Printed, print, text_len};
use std::alloc::Global;

// Whether an object is printed as this text, after what was written before, and the text's length is told.
fn is_shown(heap: &Heap, x: Ref, text: &[u8]) -> Result<bool, Memory>
    requires { IsIn heap.now.objects x }
{
    let mut out = b"> ".to_vec(heap.alloc())?;
    let printed = print(heap, x, &mut out);
    Ok(
        printed == Printed::Ok
            && ends_with_text(out.as_slice(), text)
            && text_len(heap, x) == text.len() as u64,
    )
}

// The datum of a text, which a blank after it ends.
fn read_ended(heap: &mut Heap, text: &[u8]) -> Result<Ref, Memory>
    ensures { IfOk result (λ x. IsIn heap.new.objects x) }
{
    let mut ended = text.to_vec(heap.alloc())?;
    ended.push(b' ')?;
    read(heap, ended.as_slice())
}

// Whether the datum of each text is printed as this text.
fn shows_each(heap: &mut Heap, texts: &[&[u8]]) -> Result<bool, Memory> {
    for text in texts {
        let x = read_ended(heap, text)?;
        if !is_shown(heap, x, text)? {
            return Ok(false);
        }
    }
    Ok(true)
}

const NATURALS: [&[u8]; 3] = [b"7", b"0", b"340282366920938463463374607431768211455"];

const BARE_NAMES: [&[u8]; 5] = [b"AB", b"NIL", b"-", b"A.1+", b"..!"];

const NAMES_IN_BARS: [&[u8]; 7] = [
    b"|a b|", b"|Ab|", b"|12|", b"|-1A|", b"|.|", b"|...|", b"|A(;|",
];

fn shows_atoms(heap: &mut Heap) -> Result<bool, Memory> {
    Ok(
        [
            shows_each(heap, &NATURALS),
            shows_each(heap, &BARE_NAMES),
            shows_each(heap, &NAMES_IN_BARS),
        ] == [Ok(true); 3],
    )
}

#[test]
fn atoms_are_shown(rt: HostRuntime) {
    assert!(rt; holds(rt.alloc(), shows_atoms));
}

const LISTS: [&[u8]; 4] = [
    b"(QUOTE A)",
    b"(7 . QUOTE)",
    b"((QUOTE A) 7 . QUOTE)",
    b"((7 . QUOTE) NIL (QUOTE A))",
];

fn shows_lists(heap: &mut Heap) -> Result<bool, Memory> {
    shows_each(heap, &LISTS)
}

#[test]
fn lists_are_shown(rt: HostRuntime) {
    assert!(rt; holds(rt.alloc(), shows_lists));
}

// Whether the text of an object is too long to be shown, and nothing is written.
fn is_long(heap: &Heap, x: Ref) -> Result<bool, Memory>
    requires { IsIn heap.now.objects x }
{
    let mut out = b"> ".to_vec(heap.alloc())?;
    let printed = print(heap, x, &mut out);
    Ok(printed == Printed::Long && out.as_slice() == b"> ".as_slice() && text_len(heap, x) == 65537)
}

// Whether the list of this member and of 32,766 times A is shown as its text, which has 65,536 bytes where the member has two.
fn shows_longest(heap: &mut Heap) -> Result<bool, Memory> {
    let mut text = Vec::new(heap.alloc());
    add_long_list(&mut text, b"(AA", 32766, b")")?;
    let x = read(heap, text.as_slice())?;
    Ok(text.len() == 65536 && is_shown(heap, x, text.as_slice())?)
}

// Whether a text of one byte more is too long.
fn tells_longer(heap: &mut Heap) -> Result<bool, Memory> {
    let mut text = Vec::new(heap.alloc());
    add_long_list(&mut text, b"(AAA", 32766, b")")?;
    let x = read(heap, text.as_slice())?;
    is_long(heap, x)
}

// Whether a text of more bytes than could be written is too long.
fn tells_shared(heap: &mut Heap) -> Result<bool, Memory> {
    let x = shared_pairs(heap)?;
    is_long(heap, x)
}

fn tells_long(heap: &mut Heap) -> Result<bool, Memory> {
    Ok([shows_longest(heap), tells_longer(heap), tells_shared(heap)] == [Ok(true); 3])
}

#[test]
fn long_texts_are_not_shown(rt: HostRuntime) {
    assert!(rt; holds(rt.alloc(), tells_long));
}

// Whether bytes show the list that they are made of, and become it.
fn keep_their_list(alloc: Global) -> Result<bool, Memory> {
    let bytes = Bytes::from_vec(b"text".to_vec(alloc)?);
    let is_kept = bytes.as_slice() == b"text".as_slice();
    Ok([is_kept, bytes.into_vec().as_slice() == b"text".as_slice()] == [true; 2])
}

#[test]
fn bytes_keep_their_list(rt: HostRuntime) {
    assert!(rt; keep_their_list(rt.alloc()) == Ok(true));
}
