//! What the data of a book are read into.
ghost use Rattle.std.specs.Prelude.{◌≡◌, ℕ, ◌≤◌, List, length};
ghost use Rattle.mw_model.specs.Terms.Object.{Object};
ghost use Rattle.mw_heap.specs.Objects.{Grows};
ghost use Rattle.mw_read.specs.Standing.{Stands, IsStanding, Follows, Says};
ghost use Rattle.mw_read.specs.Feeding.{IsAwaiting, IsReady, Continues};
ghost use Rattle.mw_book.specs.Keeping.{KeepsTheory, KeepsSteps};

use mw_flat::Flat;
use mw_heap::Heap;
use mw_kernel::Kernel;
use mw_read::{Reader, Step};

/// What reads the data of a book into objects of its own.
pub(crate) trait Store: Drop {
    // its objects
    ghost objects: { Self → List Object };

    // what reading leaves as it was
    ghost keeps: { Self → Self → Type 0 };

    /// What the reader reads next in a piece of the book, and how many bytes that takes.
    fn step(&mut self, reader: &mut Reader, piece: &[u8]) -> (Step, usize)
        requires stands { IsStanding (objects self.old) reader.old.parser }
        requires awaits { IsAwaiting reader.old }
        requires follows { Follows reader.old.parser piece.now }
        ensures kept { keeps self.old self.new }
        ensures reader_rest { reader.new ≡ record reader.old { parser = reader.new.parser } }
        ensures taken { result.1 ≤ length piece.now }
        ensures says { (g : List ℕ) (given : List Object) → Stands (objects self.old) reader.old.parser g given → Says (objects self.new) reader.old.parser g given piece.now result.0 result.1 reader.new.parser };

    /// What the reader reads next in the bytes that it was fed, or that the book has ended.
    fn next(&mut self, reader: &mut Reader) -> Step
        requires ready { IsReady (objects self.old) reader.old }
        ensures kept { keeps self.old self.new }
        ensures continues { (g : List ℕ) (given : List Object) → Stands (objects self.old) reader.old.parser g given → Continues (objects self.new) reader.old g given result reader.new };

    /// Whether the last datum took long to answer. Nothing is promised of it.
    fn took_long(&self) -> bool;
}

impl Store for Kernel {
    ghost objects = { λ k. k.objects };

    ghost keeps = { KeepsTheory };

    fn step(&mut self, reader: &mut Reader, piece: &[u8]) -> (Step, usize) {
        Kernel::step(self, reader, piece)
    }

    fn next(&mut self, reader: &mut Reader) -> Step {
        Kernel::next(self, reader)
    }

    fn took_long(&self) -> bool {
        Kernel::took_long(self)
    }
}

impl Store for Flat {
    ghost objects = { λ f. f.objects };

    ghost keeps = { KeepsSteps };

    fn step(&mut self, reader: &mut Reader, piece: &[u8]) -> (Step, usize) {
        Flat::step(self, reader, piece)
    }

    fn next(&mut self, reader: &mut Reader) -> Step {
        Flat::next(self, reader)
    }

    fn took_long(&self) -> bool {
        false
    }
}

impl Store for Heap {
    ghost objects = { λ h. h.objects };

    ghost keeps = { λ old new. Grows old.objects new.objects };

    fn step(&mut self, reader: &mut Reader, piece: &[u8]) -> (Step, usize) {
        reader.step(self, piece)
    }

    fn next(&mut self, reader: &mut Reader) -> Step {
        reader.next(self)
    }

    fn took_long(&self) -> bool {
        false
    }
}
