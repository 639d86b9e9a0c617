//! A parser that is handed each piece of a book in turn.
ghost use Rattle.std.specs.Prelude.{◌≡◌, ℕ, ◌+◌, ◌<◌, ◌≤◌, ◌^◌, ◌⊎◌, false, List, [], length, IfOk, None, get_or};
ghost use Rattle.mw_model.specs.Terms.Object.{Object};
ghost use Rattle.mw_model.specs.Texts.Lexemes.{Goes};
ghost use Rattle.mw_heap.specs.Objects.{IsIn, Grows};
ghost use Rattle.mw_read.specs.Machine.{State};
ghost use Rattle.mw_read.specs.Held.{Holds};
ghost use Rattle.mw_read.specs.Parsing.{IsParser, Advances, offset_of, Moves, IsAfter, Begins, IsStarted, Fits, PassesWhite};
ghost use Rattle.mw_read.specs.Standing.{Reaches, Stands, IsStanding, IsFree, Follows, Lasts, Tells, Says, Finishes, IsLast, HasEndedWith, HasEnded};

use crate::lexeme::Lexeme;
use crate::members::shown;
use crate::stack::{Stack, fault};
use crate::step::{Outcome, Step, SyntaxKind, lasting};
use indexmap::IndexMap;
use mw_heap::{Heap, Memory, Ref};
use mw_lex::{Atoms, Class, Slots, classify, glued_to_bar, glued_to_token, white};
use std::alloc::Global;

/// The piece of text that has begun and not ended, or what stands directly before.
#[derive(Clone, Copy)]
pub(crate) enum Begun {
    Nothing,
    Comment,
    Token,
    /// After an opening bar.
    Bars,
    /// After a closing bar, which may yet be glued to what follows.
    Barred,
    /// After a `#`.
    Hash,
    /// After a token whose datum is complete.
    AfterToken,
    /// After a closing bar whose datum is complete.
    AfterBar,
}

// The longest book, in bytes, which the definition of texts fixes: hours of reading.
const LIMIT: u64 = 1 << 40;

/// A parser of a book that comes in pieces.
#[derive(Drop)]
pub(crate) struct Parser {
    pub(crate) stack: Stack,
    pub(crate) begun: Begun,
    // of the text that has begun the bytes that earlier pieces had, without bars and `#`
    pub(crate) token: Vec<u8>,
    // the offset where that text begins
    pub(crate) start: u64,
    pub(crate) atoms: Atoms,
    // the fault, or the refusal of memory, that was answered
    pub(crate) ended: Option<Step>,
}

impl Parser {
    /// A parser that was handed nothing.
    pub(crate) fn new(alloc: Global) -> Parser
        ensures stands { (os : List Object) → Stands os result [] [] }
        ensures free { IsFree result }
    {
        Parser {
            stack: Stack {
                layers: Vec::new(alloc),
                labels: IndexMap::new(alloc),
                big: false,
                pairs: Slots::new(alloc),
            },
            begun: Begun::Nothing,
            token: Vec::new(alloc),
            start: 0,
            atoms: Atoms::new(alloc),
            ended: None,
        }
    }

    /// What comes next in a piece of the book, and how many of its bytes that takes. After a datum the rest of the piece comes next, and
    /// after `More` the next piece. After `Syntax` and `Memory` it answers the same again.
    pub(crate) fn step(&mut self, heap: &mut Heap, piece: &[u8]) -> (Step, usize)
        requires stands { IsStanding heap.old.objects self.old ⊎ HasEnded self.old }
        requires follows { Follows self.old piece.now ⊎ HasEnded self.old }
        ensures grows { Grows heap.old.objects heap.new.objects }
        ensures taken { result.1 ≤ length piece.now }
        ensures none { IsLast result.0 → result.1 ≡ 0 }
        ensures says { (g : List ℕ) (given : List Object) → Stands heap.old.objects self.old g given → Says heap.new.objects self.old g given piece.now result.0 result.1 self.new }
        ensures ended { IsLast result.0 → HasEndedWith result.0 self.new }
        ensures again { (s : Step) → HasEndedWith s self.old → (result ≡ (s, 0)) × ((self.new ≡ self.old) × (heap.new.objects ≡ heap.old.objects)) }
    {
        if let Some(step) = self.ended {
            return (step, 0);
        }
        let (step, n) = self.read(heap, piece);
        self.ended = lasting(&step);
        (step, n)
    }

    /// What comes next where the book has ended. After `Syntax` and `Memory` it answers the same again.
    pub(crate) fn finish(&mut self, heap: &mut Heap) -> Step
        requires stands { IsStanding heap.old.objects self.old ⊎ HasEnded self.old }
        ensures grows { Grows heap.old.objects heap.new.objects }
        ensures finishes { (g : List ℕ) (given : List Object) → Stands heap.old.objects self.old g given → Finishes heap.new.objects self.old g given result self.new }
        ensures ended { IsLast result → HasEndedWith result self.new }
        ensures again { (s : Step) → HasEndedWith s self.old → (result ≡ s) × ((self.new ≡ self.old) × (heap.new.objects ≡ heap.old.objects)) }
    {
        if let Some(step) = self.ended {
            return step;
        }
        let step = self.read_end(heap);
        self.ended = lasting(&step);
        step
    }

    // What comes next in a piece, where no fault was answered. A caller notes the answer.
    fn read(&mut self, heap: &mut Heap, piece: &[u8]) -> (Step, usize)
        requires stands { IsStanding heap.old.objects self.old }
        requires follows { Follows self.old piece.now }
        ensures grows { Grows heap.old.objects heap.new.objects }
        ensures taken { result.1 ≤ length piece.now }
        ensures none { IsLast result.0 → result.1 ≡ 0 }
        ensures says { (g : List ℕ) (given : List Object) → Stands heap.old.objects self.old g given → Says heap.new.objects self.old g given piece.now result.0 result.1 (record self.new { ended = None }) }
    {
        let room = (LIMIT - self.offset()) as usize;
        let length = piece.len().min(room);
        let (outcome, n) = match self.scan(heap, &piece[..length]) {
            Ok(found) => found,
            Err(_) => return (Step::Memory, 0),
        };
        match outcome {
            Outcome::Datum(x) => (self.datum(heap, x), n),
            Outcome::Fault(f) => (Step::Syntax(f.kind, f.offset), 0),
            Outcome::Pending => {
                if n < piece.len() {
                    return (Step::Syntax(SyntaxKind::Length, LIMIT), 0);
                }
                (Step::More, n)
            }
        }
    }

    // What comes next where the book has ended and no fault was answered. A caller notes the answer.
    fn read_end(&mut self, heap: &mut Heap) -> Step
        requires stands { IsStanding heap.old.objects self.old }
        ensures grows { Grows heap.old.objects heap.new.objects }
        ensures finishes { (g : List ℕ) (given : List Object) → Stands heap.old.objects self.old g given → Finishes heap.new.objects self.old g given result (record self.new { ended = None }) }
    {
        let outcome = match self.last(heap) {
            Ok(outcome) => outcome,
            Err(_) => return Step::Memory,
        };
        match outcome {
            Outcome::Datum(x) => self.datum(heap, x),
            Outcome::Fault(f) => Step::Syntax(f.kind, f.offset),
            Outcome::Pending => {
                if self.stack.layers.is_empty() {
                    return Step::End;
                }
                Step::Syntax(SyntaxKind::End, self.offset())
            }
        }
    }

    // The step of a datum.
    fn datum(&mut self, heap: &Heap, x: Ref) -> Step
        requires { IsIn heap.now.objects x }
        ensures tells { Tells heap.now.objects self.old.stack.big x result }
        ensures new { self.new ≡ record self.old { stack = record self.old.stack { big = false } } }
    {
        if !self.stack.big {
            return Step::Datum(x);
        }
        self.stack.big = false;
        let (word, label) = shown(heap, x);
        Step::TooBig(word, label)
    }

    // The number of bytes taken.
    fn offset(&self) -> u64
        requires { offset_of self.now < 2 ^ 49 }
        ensures { result ≡ offset_of self.now }
    {
        let n = self.token.len() as u64;
        match self.begun {
            Begun::Nothing => self.start,
            Begun::Comment => self.start + 1,
            Begun::Token => self.start + n,
            Begun::Bars => self.start + n + 1,
            Begun::Barred => self.start + n + 2,
            Begun::Hash => self.start + n + 1,
            Begun::AfterToken => self.start,
            Begun::AfterBar => self.start,
        }
    }

    // The piece, up to the first datum that is complete, or a fault.
    fn scan(&mut self, heap: &mut Heap, piece: &[u8]) -> Result<(Outcome, usize), Memory>
        requires parser { IsParser heap.old.objects self.old }
        requires started { IsStarted self.old.begun self.old.token.items }
        requires held { (t : State) × Holds heap.old.objects self.old.stack t }
        requires follows { Fits self.old.begun Goes piece.now }
        requires room { offset_of self.old + length piece.now < 2 ^ 49 }
        ensures grows { Grows heap.old.objects heap.new.objects }
        ensures taken { IfOk result (λ r. r.1 ≤ length piece.now) }
        ensures whole { IfOk result (λ r. r.0 ≡ Outcome.Pending → r.1 ≡ length piece.now) }
        ensures reaches { IfOk result (λ r. Reaches r.0 self.old piece.now r.1 self.new) }
        ensures advances { IfOk result (λ r. (t : State) → Holds heap.old.objects self.old.stack t → Advances heap.new.objects t self.old piece.now r.0 r.1 self.new) }
    {
        let mut at = 0;
        while at < piece.len() {
            let (outcome, n) = self.advance(heap, &piece[at..])?;
            at += n;
            match outcome {
                Outcome::Pending => at += self.pass_white(&piece[at..]),
                outcome => return Ok((outcome, at)),
            }
        }
        Ok((Outcome::Pending, at))
    }

    // Passes white space directly after what was read, and answers how many bytes that takes, none or one.
    fn pass_white(&mut self, rest: &[u8]) -> usize
        requires room { self.old.start + length rest.now < 2 ^ 50 }
        ensures { PassesWhite self.old rest.now result self.new }
    {
        if rest.is_empty() || !white(rest[0]) {
            return 0;
        }
        match self.begun {
            Begun::Nothing | Begun::AfterToken | Begun::AfterBar => {
                self.begun = Begun::Nothing;
                self.start += 1;
                1
            }
            _ => 0,
        }
    }

    // What the next bytes say: at least one is taken, or what has begun ends.
    fn advance(&mut self, heap: &mut Heap, rest: &[u8]) -> Result<(Outcome, usize), Memory>
        requires parser { IsParser heap.old.objects self.old }
        requires started { IsStarted self.old.begun self.old.token.items }
        requires some { 0 < length rest.now }
        requires room { offset_of self.old + length rest.now < 2 ^ 49 }
        ensures grows { Grows heap.old.objects heap.new.objects }
        ensures taken { IfOk result (λ r. r.1 ≤ length rest.now) }
        ensures moves { IfOk result (λ r. Moves r.0 self.old rest.now r.1 self.new) }
        ensures advances { IfOk result (λ r. (t : State) → Holds heap.old.objects self.old.stack t → Advances heap.new.objects t self.old rest.now r.0 r.1 self.new) }
    {
        let glued = match self.begun {
            Begun::Comment => return Ok(self.in_comment(rest)),
            Begun::Token => return self.in_token::<false>(heap, rest),
            Begun::Bars => return self.in_bars(heap, rest),
            Begun::Hash => return self.in_hash(heap, rest),
            Begun::Barred => return Ok((self.end_bars(heap, &[])?, 0)),
            Begun::AfterToken => glued_to_token(rest[0]),
            Begun::AfterBar => glued_to_bar(rest[0]),
            Begun::Nothing => false,
        };
        self.after(heap, rest, glued)
    }

    // The next bytes after what was read: `glued` says whether the first may not stand there.
    fn after(
        &mut self,
        heap: &mut Heap,
        rest: &[u8],
        glued: bool,
    ) -> Result<(Outcome, usize), Memory>
        requires parser { IsParser heap.old.objects self.old }
        requires some { 0 < length rest.now }
        requires after { IsAfter self.old.begun glued (get_or rest.now 0 0) }
        requires room { self.old.start + length rest.now < 2 ^ 49 }
        ensures grows { Grows heap.old.objects heap.new.objects }
        ensures taken { IfOk result (λ r. r.1 ≤ length rest.now) }
        ensures moves { IfOk result (λ r. Moves r.0 self.old rest.now r.1 self.new) }
        ensures advances { IfOk result (λ r. (t : State) → Holds heap.old.objects self.old.stack t → Advances heap.new.objects t self.old rest.now r.0 r.1 self.new) }
    {
        if glued {
            return Ok((fault(SyntaxKind::Token, self.start), 0));
        }
        self.begun = Begun::Nothing;
        self.fresh(heap, rest)
    }

    // A byte where no text has begun.
    fn fresh(&mut self, heap: &mut Heap, rest: &[u8]) -> Result<(Outcome, usize), Memory>
        requires parser { IsParser heap.old.objects self.old }
        requires begun { self.old.begun ≡ Begun.Nothing }
        requires some { 0 < length rest.now }
        requires room { self.old.start + length rest.now < 2 ^ 49 }
        ensures grows { Grows heap.old.objects heap.new.objects }
        ensures taken { IfOk result (λ r. r.1 ≤ length rest.now) }
        ensures moves { IfOk result (λ r. Moves r.0 self.old rest.now r.1 self.new) }
        ensures advances { IfOk result (λ r. (t : State) → Holds heap.old.objects self.old.stack t → Advances heap.new.objects t self.old rest.now r.0 r.1 self.new) }
    {
        match classify(rest[0]) {
            Class::White => {
                self.start += 1;
                Ok((Outcome::Pending, 1))
            }
            Class::Semicolon => {
                self.begun = Begun::Comment;
                Ok((Outcome::Pending, 1))
            }
            Class::Opening => Ok((self.take(heap, Lexeme::Open, 1)?, 1)),
            Class::Closing => Ok((self.take(heap, Lexeme::Close, 1)?, 1)),
            Class::Apostrophe => Ok((self.take(heap, Lexeme::Quote, 1)?, 1)),
            Class::Other => Ok((fault(SyntaxKind::Byte, self.start), 0)),
            Class::Bar => self.begin(heap, Begun::Bars, rest),
            Class::Hash => self.begin(heap, Begun::Hash, rest),
            Class::Constituent => self.begin(heap, Begun::Token, rest),
        }
    }

    // A text of more than one byte begins.
    fn begin(
        &mut self,
        heap: &mut Heap,
        begun: Begun,
        rest: &[u8],
    ) -> Result<(Outcome, usize), Memory>
        requires parser { IsParser heap.old.objects self.old }
        requires begun { self.old.begun ≡ Begun.Nothing }
        requires begins { Begins begun rest.now }
        requires room { self.old.start + length rest.now < 2 ^ 49 }
        ensures grows { Grows heap.old.objects heap.new.objects }
        ensures taken { IfOk result (λ r. r.1 ≤ length rest.now) }
        ensures moves { IfOk result (λ r. Moves r.0 self.old rest.now r.1 self.new) }
        ensures advances { IfOk result (λ r. (t : State) → Holds heap.old.objects self.old.stack t → Advances heap.new.objects t self.old rest.now r.0 r.1 self.new) }
    {
        if self.stack.is_full() {
            return Ok((fault(SyntaxKind::Dot, self.start), 0));
        }
        self.token.clear();
        self.begun = begun;
        match begun {
            Begun::Bars => {
                let (outcome, n) = self.in_bars(heap, &rest[1..])?;
                Ok((outcome, n + 1))
            }
            Begun::Hash => {
                let (outcome, n) = self.in_hash(heap, &rest[1..])?;
                Ok((outcome, n + 1))
            }
            _ => self.in_token::<true>(heap, rest),
        }
    }

    // The end of the book, for the text that has begun.
    fn last(&mut self, heap: &mut Heap) -> Result<Outcome, Memory>
        requires parser { IsParser heap.old.objects self.old }
        requires started { IsStarted self.old.begun self.old.token.items }
        requires room { offset_of self.old < 2 ^ 49 }
        ensures grows { Grows heap.old.objects heap.new.objects }
        ensures lasts { IfOk result (λ r. (t : State) → Holds heap.old.objects self.old.stack t → Lasts heap.new.objects t self.old r self.new) }
    {
        match self.begun {
            Begun::Token => self.end_token::<false>(heap, &[], false),
            Begun::Barred => self.end_bars(heap, &[]),
            Begun::Bars => Ok(fault(SyntaxKind::End, self.offset())),
            Begun::Hash => Ok(fault(SyntaxKind::End, self.offset())),
            _ => Ok(Outcome::Pending),
        }
    }
}
