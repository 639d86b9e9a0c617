//! A reader that is fed the bytes of a book as they come.
ghost use Rattle.std.specs.Prelude.{◌≡◌, ℕ, ◌≤◌, ◌⊎◌, true, false, List, [], ◌++◌, length, drop, None, Ok, OnOk, OnErr};
ghost use Rattle.mw_model.specs.Terms.Object.{Object};
ghost use Rattle.mw_heap.specs.Objects.{Grows};
ghost use Rattle.mw_read.specs.Standing.{Stands, IsStanding, IsFree, Follows, Says, IsLast, HasEndedWith, HasEnded};
ghost use Rattle.mw_read.specs.Feeding.{IsAwaiting, IsReady, Continues};

use crate::parser::Parser;
use crate::step::Step;
use crate::unread::Unread;
use mw_heap::{Heap, Memory};
use std::alloc::Global;

/// A reader of a book that comes in pieces: they are fed and read, or handed in at each step. After a fault, and after running out of memory,
/// the same answer comes from then on.
#[derive(Drop)]
pub struct Reader {
    parser: Parser,
    // what was fed and not read
    unread: Unread,
    // no more bytes come
    finished: bool,
}

impl Reader {
    /// A reader that was fed nothing.
    pub fn new(alloc: Global) -> Reader
        ensures stands { (os : List Object) → Stands os result.parser [] [] }
        ensures free { IsFree result.parser }
        ensures awaits { IsAwaiting result }
        ensures ready { (os : List Object) → IsReady os result }
    {
        Reader {
            parser: Parser::new(alloc),
            unread: Unread::new(alloc),
            finished: false,
        }
    }

    /// Feeds a piece of the book: its bytes come after those fed before, and are kept until they are read. If memory runs out
    /// nothing is fed. After `Syntax` and `Memory` nothing more is kept.
    pub fn feed(&mut self, piece: &[u8]) -> Result<(), Memory>
        requires more { (self.old.finished ≡ false) ⊎ HasEnded self.old.parser }
        requires follows { Follows self.old.parser (self.old.unread ++ piece.now) ⊎ HasEnded self.old.parser }
        ensures fed { OnOk result (self.old.parser.ended ≡ None → self.new ≡ record self.old { unread = self.old.unread ++ piece.now }) }
        ensures err { OnErr result (self.new ≡ self.old) }
        ensures again { (s : Step) → HasEndedWith s self.old.parser → (result ≡ Ok tt) × (self.new ≡ self.old) }
        ensures ready { (os : List Object) → IsReady os self.old → IsReady os self.new }
    {
        if self.parser.ended.is_none() {
            self.unread.add(piece)?;
        }
        Ok(())
    }

    /// No more bytes come.
    pub fn finish(&mut self)
        ensures finished { self.new ≡ record self.old { finished = true } }
        ensures ready { (os : List Object) → IsReady os self.old → IsReady os self.new }
    {
        self.finished = true;
    }

    /// What comes next in the bytes fed: the next datum, or `More` where they hold no further complete one. Where the reader was
    /// finished `End` comes in place of `More`, and a datum that the end of the book completes before it. `Syntax` and `Memory` come
    /// again from then on.
    pub fn next(&mut self, heap: &mut Heap) -> Step
        requires ready { IsReady heap.old.objects self.old }
        ensures grows { Grows heap.old.objects heap.new.objects }
        ensures ready { IsReady heap.new.objects self.new }
        ensures continues { (g : List ℕ) (given : List Object) → Stands heap.old.objects self.old.parser g given → Continues heap.new.objects self.old g given result self.new }
        ensures ended { IsLast result → HasEndedWith result self.new.parser }
        ensures again { (s : Step) → HasEndedWith s self.old.parser → (result ≡ s) × ((self.new ≡ self.old) × (heap.new.objects ≡ heap.old.objects)) }
    {
        if !self.finished {
            return self.next_unread(heap);
        }
        if self.unread.as_slice().is_empty() {
            return self.parser.finish(heap);
        }
        match self.next_unread(heap) {
            Step::More => self.parser.finish(heap),
            step => step,
        }
    }

    // What comes next in the unread bytes, as far as they go.
    fn next_unread(&mut self, heap: &mut Heap) -> Step
        requires stands { IsStanding heap.old.objects self.old.parser ⊎ HasEnded self.old.parser }
        requires follows { Follows self.old.parser self.old.unread ⊎ HasEnded self.old.parser }
        ensures grows { Grows heap.old.objects heap.new.objects }
        ensures finished { self.new.finished ≡ self.old.finished }
        ensures says { (g : List ℕ) (given : List Object) → Stands heap.old.objects self.old.parser g given → (n : ℕ) × (self.new.unread ≡ drop n self.old.unread) × Says heap.new.objects self.old.parser g given self.old.unread result n self.new.parser }
        ensures ended { IsLast result → HasEndedWith result self.new.parser }
        ensures again { (s : Step) → HasEndedWith s self.old.parser → (result ≡ s) × ((self.new ≡ self.old) × (heap.new.objects ≡ heap.old.objects)) }
    {
        let (step, n) = self.parser.step(heap, self.unread.as_slice());
        self.unread.pass(n);
        step
    }

    /// What `next` would answer if the piece were fed, and how many of its bytes that takes; but only a token that the end of the piece
    /// cuts is copied. A datum takes the bytes up to its end and not beyond: the rest of the piece, with the white space after it, comes
    /// next. After `More` the next piece does. After `Syntax` and `Memory` it answers the same again.
    pub fn step(&mut self, heap: &mut Heap, piece: &[u8]) -> (Step, usize)
        requires stands { IsStanding heap.old.objects self.old.parser ⊎ HasEnded self.old.parser }
        requires awaits { IsAwaiting self.old ⊎ HasEnded self.old.parser }
        requires follows { Follows self.old.parser piece.now ⊎ HasEnded self.old.parser }
        ensures grows { Grows heap.old.objects heap.new.objects }
        ensures rest { self.new ≡ record self.old { parser = self.new.parser } }
        ensures taken { result.1 ≤ length piece.now }
        ensures none { IsLast result.0 → result.1 ≡ 0 }
        ensures says { (g : List ℕ) (given : List Object) → Stands heap.old.objects self.old.parser g given → Says heap.new.objects self.old.parser g given piece.now result.0 result.1 self.new.parser }
        ensures ended { IsLast result.0 → HasEndedWith result.0 self.new.parser }
        ensures again { (s : Step) → HasEndedWith s self.old.parser → (result ≡ (s, 0)) × ((self.new ≡ self.old) × (heap.new.objects ≡ heap.old.objects)) }
    {
        self.parser.step(heap, piece)
    }
}
