//! A book in pieces of several sizes, faults that stay, steps, and what is shown of an event.
ghost use Rattle.std.specs.Prelude.{◌≡◌, ◌<◌, IfOk};
ghost use Rattle.mw_read.specs.Standing.{IsStanding, IsFree};
ghost use Rattle.mw_read.specs.Feeding.{IsAwaiting, UnreadFollows};
ghost use Rattle.mw_read.specs.declared.step.Step.TheVariants as steps;

use crate::shared::holds;
use mw_forms::{read_three, read_two};
use mw_heap::{Heap, Memory, Ref};
use mw_read::{Reader, Step, SyntaxKind, shown};

const BOOK: &[u8] = b"(a . 1)'b |c d|; after this a label\n12 (#10=(x)#10#) last";

// The data that come next, up to the answer that is none.
fn next_data(heap: &mut Heap, reader: &mut Reader, data: &mut Vec<Ref>) -> Result<Step, Memory>
    requires stands { IsStanding heap.old.objects reader.old.parser }
    requires follows { UnreadFollows reader.old }
    ensures more { IfOk result (λ s. s ≡ steps.More → IsStanding heap.new.objects reader.new.parser × IsAwaiting reader.new × IsFree reader.new.parser) }
{
    loop {
        match reader.next(heap) {
            Step::Datum(x) => data.push(x)?,
            step => return Ok(step),
        }
    }
}

// The answer after the data of the book, which is fed to a reader in pieces of this size.
fn feed_book(
    heap: &mut Heap,
    reader: &mut Reader,
    data: &mut Vec<Ref>,
    size: usize,
) -> Result<Step, Memory>
    requires some { 0 < size }
    requires stands { IsStanding heap.old.objects reader.old.parser }
    requires awaits { IsAwaiting reader.old }
    requires free { IsFree reader.old.parser }
{
    for piece in BOOK.chunks(size) {
        reader.feed(piece)?;
        let step = next_data(heap, reader, data)?;
        if !matches!(step, Step::More) {
            return Ok(step);
        }
    }
    reader.finish();
    next_data(heap, reader, data)
}

// The data of the book, which is fed in pieces of this size, and the answer after them.
fn read_book(heap: &mut Heap, size: usize) -> Result<(Vec<Ref>, Step), Memory>
    requires { 0 < size }
{
    let mut reader = Reader::new(heap.alloc());
    let mut data = Vec::new(heap.alloc());
    let step = feed_book(heap, &mut reader, &mut data, size)?;
    Ok((data, step))
}

// Whether the book has six data and then ends, and in pieces of no size from 1 to 8 it gives other data or another answer.
fn reads_in_pieces(heap: &mut Heap) -> Result<bool, Memory> {
    let (whole, end) = read_book(heap, BOOK.len())?;
    let mut others = 0usize;
    for size in 1..9 {
        let (data, last) = read_book(heap, size)?;
        if data.as_slice() != whole.as_slice() || last != end {
            others = others.saturating_add(1);
        }
    }
    Ok(whole.len() == 6 && end == Step::End && others == 0)
}

#[test]
fn pieces_of_each_size_give_the_same_data(rt: HostRuntime) {
    assert!(rt; holds(rt.alloc(), reads_in_pieces));
}

// The answers to a book that has a fault after its first datum, the last where no more bytes come.
fn answers_a_fault(heap: &mut Heap) -> Result<[Step; 3], Memory> {
    let mut reader = Reader::new(heap.alloc());
    reader.feed(b"1 ) 2")?;
    let first = reader.next(heap);
    let second = reader.next(heap);
    reader.finish();
    let third = reader.next(heap);
    Ok([first, second, third])
}

// Whether the answers are the datum, and then the fault each time.
fn keeps_a_fault(heap: &mut Heap) -> Result<bool, Memory> {
    let one = heap.nat(1)?;
    let fault = Step::Syntax(SyntaxKind::Close, 2);
    Ok(answers_a_fault(heap)? == [Step::Datum(one), fault, fault])
}

#[test]
fn a_fault_stays_the_answer(rt: HostRuntime) {
    assert!(rt; holds(rt.alloc(), keeps_a_fault));
}

// Whether the first step is the datum AB, which takes two bytes.
fn takes_a_datum(heap: &mut Heap) -> Result<bool, Memory> {
    let name = heap.symbol(b"AB")?;
    let mut reader = Reader::new(heap.alloc());
    Ok(reader.step(heap, b"ab cd") == (Step::Datum(name), 2))
}

#[test]
fn a_step_takes_what_its_datum_takes(rt: HostRuntime) {
    assert!(rt; holds(rt.alloc(), takes_a_datum));
}

// Whether VERIFY and A are shown of (VERIFY A), PRINT alone of (PRINT A), and nothing of A.
fn shows_events(heap: &mut Heap) -> Result<bool, Memory> {
    let (labelled, verify, a) = read_three(heap, b"((VERIFY A) VERIFY A)")?;
    let of_labelled = shown(heap, labelled);
    let of_atom = shown(heap, a);
    let (printed, print) = read_two(heap, b"((PRINT A) PRINT)")?;
    Ok(
        [
            of_labelled == (Some(verify), Some(a)),
            shown(heap, printed) == (Some(print), None),
            of_atom == (None, None),
        ] == [true; 3],
    )
}

#[test]
fn an_event_shows_its_word_and_label(rt: HostRuntime) {
    assert!(rt; holds(rt.alloc(), shows_events));
}
