//! Answering the data of a book as they are read.
ghost use Rattle.std.specs.Prelude.{◌≡◌, ℕ, ◌+◌, ◌<◌, ◌≤◌, ◌^◌, true, false, nat_lt, List, [], ◌∷◌, ◌++◌, length, None, IfOk, OnOk, OnErr};
ghost use Rattle.mw_model.specs.Terms.Object.{Object};
ghost use Rattle.mw_model.specs.Events.Fate.{is_out_of_range};
ghost use Rattle.mw_model.specs.Reports.Request.{Request};
ghost use Rattle.mw_heap.specs.Objects.{object_at, IsIn};
ghost use Rattle.mw_read.specs.Standing.{Stands, IsStanding, Follows, Says};
ghost use Rattle.mw_read.specs.Feeding.{IsAwaiting, IsReady, Continues};
ghost use Rattle.mw_read.specs.Shown.{ShowsEvent};
ghost use Rattle.mw_answers.specs.LastTexts.{IsLastText, refused_for};
ghost use Rattle.mw_answers.specs.Answering.{Answers, HasAnswered, fault_of};

use mw_heap::{Memory, Ref};
use mw_read::{Reader, Step, SyntaxKind};

/// What reads the data of a book into its heap and answers each by lines, which wait until they are written.
pub trait Answering {
    // the objects of its heap
    ghost objects: { Self → List Object };

    // the lines that were not written yet
    ghost unwritten: { Self → List ℕ };

    // how many data were answered
    ghost count: { Self → ℕ };

    // what was asked for
    ghost request: { Self → Request };

    // for this request these data were answered
    ghost answered: { Self → Request → List Object → Type 0 };

    /// What the reader reads next in a piece of the book, and how many bytes that takes.
    fn step(&mut self, reader: &mut Reader, piece: &[u8]) -> (Step, usize)
        requires stands { IsStanding (objects self.old) reader.old.parser }
        requires awaits { IsAwaiting reader.old }
        requires follows { Follows reader.old.parser piece.now }
        ensures kept { (given : List Object) → Answers unwritten answered self.old given self.new given }
        ensures count { count self.new ≡ count self.old }
        ensures reader_rest { reader.new ≡ record reader.old { parser = reader.new.parser } }
        ensures taken { result.1 ≤ length piece.now }
        ensures says { (g : List ℕ) (given : List Object) → Stands (objects self.old) reader.old.parser g given → Says (objects self.new) reader.old.parser g given piece.now result.0 result.1 reader.new.parser };

    /// What the reader reads next in the bytes that it was fed, or that the book has ended.
    fn next(&mut self, reader: &mut Reader) -> Step
        requires ready { IsReady (objects self.old) reader.old }
        ensures kept { (given : List Object) → Answers unwritten answered self.old given self.new given }
        ensures count { count self.new ≡ count self.old }
        ensures continues { (g : List ℕ) (given : List Object) → Stands (objects self.old) reader.old.parser g given → Continues (objects self.new) reader.old g given result reader.new };

    /// Answers a datum. An error leaves the lines as they were.
    fn answer(&mut self, x: Ref) -> Result<(), Memory>
        requires within { IsIn (objects self.old) x }
        requires in_range { is_out_of_range (object_at (objects self.old) x) ≡ false }
        requires room { count self.old + 1 < 2 ^ 64 }
        requires known { HasAnswered answered self.old }
        ensures answers { OnOk result ((given : List Object) → Answers unwritten answered self.old given self.new (given ++ object_at (objects self.old) x ∷ [])) }
        ensures counted { OnOk result (count self.new ≡ count self.old + 1) }
        ensures kept { OnErr result (unwritten self.new ≡ unwritten self.old) };

    /// Answers a datum with a natural past the range, of which the reader shows the word and the label. An error leaves the lines as they
    /// were.
    fn answer_large(&mut self, word: Option<Ref>, label: Option<Ref>) -> Result<(), Memory>
        requires shows { (x : Object) × (is_out_of_range x ≡ true) × ShowsEvent (objects self.old) word label x }
        requires room { count self.old + 1 < 2 ^ 64 }
        requires known { HasAnswered answered self.old }
        ensures answers { OnOk result ((x : Object) → is_out_of_range x ≡ true → ShowsEvent (objects self.old) word label x → (given : List Object) → Answers unwritten answered self.old given self.new (given ++ x ∷ [])) }
        ensures counted { OnOk result (count self.new ≡ count self.old + 1) }
        ensures kept { OnErr result (unwritten self.new ≡ unwritten self.old) };

    /// Whether the last datum took long to answer, so that its line is written before more is read. Nothing is promised of it.
    fn is_urgent(&self) -> bool;

    /// The lines that were not written yet.
    fn lines(&self) -> &[u8]
        ensures { result.now ≡ unwritten self.now };

    /// Drops these lines, as they were written.
    fn drop_lines(&mut self)
        ensures none_left { unwritten self.new ≡ [] }
        ensures objects { objects self.new ≡ objects self.old }
        ensures count { count self.new ≡ count self.old }
        ensures answered { (q : Request) (given : List Object) → answered self.old q given → answered self.new q given };

    /// Puts the last text after the lines that were not written yet, for a book with this fault or with none. Answers whether a datum was
    /// refused, or not proved, or the theorem is missing; of a log whether an event got a no, or steps are left over.
    fn end(&mut self, fault: Option<(SyntaxKind, u64)>) -> Result<bool, Memory>
        requires known { HasAnswered answered self.old }
        ensures refused { fault ≡ None → IfOk result (λ b. (q : Request) (given : List Object) → answered self.old q given → b ≡ nat_lt 0 (refused_for q given)) }
        ensures last { OnOk result ((q : Request) (given : List Object) → answered self.old q given → (text : List ℕ) × IsLastText q given (fault_of fault) text × (unwritten self.new ≡ unwritten self.old ++ text)) };
}
