//! Reading a book and answering its data as they come.
ghost use Rattle.std.specs.Prelude.{ℕ, ◌+◌, ◌<◌, ◌^◌, List, [], ◌++◌, length, IfOk, OnOk};
ghost use Rattle.mw_model.specs.Terms.Object.{Object};
ghost use Rattle.mw_read.specs.Standing.{Stands, IsStanding, Follows, work};
ghost use Rattle.mw_read.specs.Feeding.{IsAwaiting};
ghost use Rattle.mw_answers.specs.Answering.{HasAnswered, HasTaken, Ends, IsBegunBy, AreFirst, AreExpectedFirst};

use crate::answering::Answering;
use mw_heap::Memory;
use mw_read::{Reader, Step, SyntaxKind};

/// What was taken of a piece of the book.
#[derive(Clone, Copy)]
pub(crate) enum Taken {
    /// This many bytes, and the data that end in them.
    Bytes(usize),
    /// The data before the first fault of the book, with its offset.
    Fault(SyntaxKind, u64),
}

// Reads up to the end of a datum and answers it, or up to the end of the piece, or the first fault of the book.
fn take_datum<A: Answering>(
    answering: &mut A,
    reader: &mut Reader,
    piece: &[u8],
) -> Result<Taken, Memory>
    requires stands { IsStanding (A.objects answering.old) reader.old.parser }
    requires awaits { IsAwaiting reader.old }
    requires follows { Follows reader.old.parser piece.now }
    requires some { 0 < length piece.now }
    requires room { A.count answering.old + work reader.old.parser piece.now < 2 ^ 62 }
    requires known { HasAnswered A.answered answering.old }
    ensures takes { IfOk result (λ t. HasTaken A.objects A.unwritten A.count A.answered t answering.old reader.old.parser piece.now answering.new reader.new.parser) }
    ensures awaits { OnOk result (IsAwaiting reader.new) }
    ensures expected { (g : List ℕ) (given : List Object) → Stands (A.objects answering.old) reader.old.parser g given → AreExpectedFirst A.unwritten A.answered answering.old given (AreFirst (g ++ piece.now)) answering.new }
{
    let (step, n) = answering.step(reader, piece);
    match step {
        Step::Datum(x) => {
            answering.answer(x)?;
            Ok(Taken::Bytes(n))
        }
        Step::TooBig(word, label) => {
            answering.answer_large(word, label)?;
            Ok(Taken::Bytes(n))
        }
        Step::More => Ok(Taken::Bytes(piece.len())),
        Step::Syntax(kind, offset) => Ok(Taken::Fault(kind, offset)),
        Step::End => unreachable!(),
        Step::Memory => Err(Memory),
    }
}

/// Reads a piece of the book and answers each datum as it ends, up to the end of the piece, the first datum that took long, or the
/// first fault of the book. Whatever it answers, the lines are whole.
pub(crate) fn take_piece<A: Answering>(
    answering: &mut A,
    reader: &mut Reader,
    piece: &[u8],
) -> Result<Taken, Memory>
    requires stands { IsStanding (A.objects answering.old) reader.old.parser }
    requires awaits { IsAwaiting reader.old }
    requires follows { Follows reader.old.parser piece.now }
    requires some { 0 < length piece.now }
    requires room { A.count answering.old + work reader.old.parser piece.now < 2 ^ 62 }
    requires known { HasAnswered A.answered answering.old }
    ensures takes { IfOk result (λ t. HasTaken A.objects A.unwritten A.count A.answered t answering.old reader.old.parser piece.now answering.new reader.new.parser) }
    ensures awaits { OnOk result (IsAwaiting reader.new) }
    ensures expected { (g : List ℕ) (given : List Object) → Stands (A.objects answering.old) reader.old.parser g given → AreExpectedFirst A.unwritten A.answered answering.old given (AreFirst (g ++ piece.now)) answering.new }
{
    let mut at = 0;
    while at < piece.len() {
        match take_datum(answering, reader, &piece[at..])? {
            Taken::Bytes(n) => at += n,
            Taken::Fault(kind, offset) => return Ok(Taken::Fault(kind, offset)),
        }
        if answering.is_urgent() {
            break;
        }
    }
    Ok(Taken::Bytes(at))
}

/// Answers the datum that the end of the book completes, where it does. Where the book has a fault, that is answered with its offset.
/// Whatever it answers, the lines are whole.
pub(crate) fn finish<A: Answering>(
    answering: &mut A,
    reader: &mut Reader,
) -> Result<Option<(SyntaxKind, u64)>, Memory>
    requires stands { IsStanding (A.objects answering.old) reader.old.parser }
    requires awaits { IsAwaiting reader.old }
    requires room { A.count answering.old + work reader.old.parser [] < 2 ^ 62 }
    requires known { HasAnswered A.answered answering.old }
    ensures ends { IfOk result (λ f. (g : List ℕ) (given : List Object) → Stands (A.objects answering.old) reader.old.parser g given → Ends A.unwritten A.answered f answering.old g given answering.new) }
    ensures expected { (g : List ℕ) (given : List Object) → Stands (A.objects answering.old) reader.old.parser g given → AreExpectedFirst A.unwritten A.answered answering.old given (IsBegunBy g) answering.new }
{
    reader.finish();
    loop {
        match answering.next(reader) {
            Step::Datum(x) => answering.answer(x)?,
            Step::TooBig(word, label) => answering.answer_large(word, label)?,
            Step::End => return Ok(None),
            Step::Syntax(kind, offset) => return Ok(Some((kind, offset))),
            Step::More => unreachable!(),
            Step::Memory => return Err(Memory),
        }
    }
}
