//! Where lexemes end, and texts of more than one byte: tokens, names between bars, labels and comments.
ghost use Rattle.std.specs.Prelude.{◌≡◌, ℕ, ◌+◌, ◌<◌, ◌≤◌, ◌^◌, ◌⊎◌, true, false, List, ◌++◌, length, take, IfOk};
ghost use Rattle.mw_model.specs.Terms.Object.{Object, is_name_byte, name_of_bytes, Symbol};
ghost use Rattle.mw_model.specs.Texts.Lexemes.{is_constituent, is_digit, token_form, Atom, Ending};
ghost use Rattle.std.specs.List.{list_all};
ghost use Rattle.mw_heap.specs.Objects.{Grows};
ghost use Rattle.mw_read.specs.Machine.{State, on, is_full};
ghost use Rattle.mw_read.specs.Piles.{pile_of, is_ready};
ghost use Rattle.mw_read.specs.Stacks.{IsStack};
ghost use Rattle.mw_read.specs.Taken.{lexeme_at, IsBare, MayCome};
ghost use Rattle.mw_read.specs.Held.{Holds, Took};
ghost use Rattle.mw_read.specs.Parsing.{IsParser, Advances, EndsHash, meaning_of, is_inside, Moves};
ghost use Rattle.mw_read.specs.Pausing.{GoesOn};
ghost use Rattle.mw_lex.specs.Runs.{StartsWith};
ghost use Rattle.mw_read.specs.Lexing.{token_lexeme, label_lexeme};

use crate::kept::{keep_after, whole_text};
use crate::lexeme::Lexeme;
use crate::parser::{Begun, Parser};
use crate::stack::{Stack, fault};
use crate::step::{Outcome, SyntaxKind};
use mw_heap::{Heap, Memory};
use mw_lex::{
    Atoms, Token, constituents, digits, few_digits, glued_to_token, line_bytes, name_bytes,
    token_of,
};

impl Parser {
    // A token goes on, and ends where a byte follows it.
    pub(crate) fn in_token<const BEGINS: bool>(
        &mut self,
        heap: &mut Heap,
        rest: &[u8],
    ) -> Result<(Outcome, usize), Memory>
        requires parser { IsParser heap.old.objects self.old }
        requires begun { self.old.begun ≡ Begun.Token }
        requires some { (0 < length self.old.token.items) ⊎ StartsWith is_constituent rest.now }
        requires room { self.old.start + (length self.old.token.items + length rest.now) < 2 ^ 50 }
        ensures grows { Grows heap.old.objects heap.new.objects }
        ensures taken { IfOk result (λ r. r.1 ≤ length rest.now) }
        ensures starts { IfOk result (λ r. StartsWith is_constituent rest.now → 0 < r.1) }
        ensures moves { IfOk result (λ r. Moves r.0 self.old rest.now r.1 self.new) }
        ensures advances { IfOk result (λ r. (t : State) → Holds heap.old.objects self.old.stack t → Advances heap.new.objects t self.old rest.now r.0 r.1 self.new) }
    {
        let n = constituents(rest);
        if n == rest.len() {
            return self.pause(rest);
        }
        let outcome = self.end_token::<BEGINS>(heap, &rest[..n], glued_to_token(rest[n]))?;
        Ok((outcome, n))
    }

    // A name between bars goes on, up to the closing bar.
    pub(crate) fn in_bars(
        &mut self,
        heap: &mut Heap,
        rest: &[u8],
    ) -> Result<(Outcome, usize), Memory>
        requires parser { IsParser heap.old.objects self.old }
        requires begun { self.old.begun ≡ Begun.Bars }
        requires room { self.old.start + (length self.old.token.items + length rest.now) < 2 ^ 50 }
        ensures grows { Grows heap.old.objects heap.new.objects }
        ensures taken { IfOk result (λ r. r.1 ≤ length rest.now) }
        ensures moves { IfOk result (λ r. Moves r.0 self.old rest.now r.1 self.new) }
        ensures advances { IfOk result (λ r. (t : State) → Holds heap.old.objects self.old.stack t → Advances heap.new.objects t self.old rest.now r.0 r.1 self.new) }
    {
        let n = name_bytes(rest);
        if n == rest.len() {
            return self.pause(rest);
        }
        let length = self.token.len() + n;
        if rest[n] != b'|' {
            return Ok((fault(SyntaxKind::Byte, self.start + 1 + length as u64), 0));
        }
        if length == 0 {
            return Ok((fault(SyntaxKind::Token, self.start), 0));
        }
        if n + 1 == rest.len() {
            self.begun = Begun::Barred;
            self.token.extend_from_slice(&rest[..n])?;
            return Ok((Outcome::Pending, n + 1));
        }
        let outcome = self.end_bars(heap, &rest[..n])?;
        Ok((outcome, n + 1))
    }

    // The digits after a `#` go on, up to what ends them.
    pub(crate) fn in_hash(
        &mut self,
        heap: &mut Heap,
        rest: &[u8],
    ) -> Result<(Outcome, usize), Memory>
        requires parser { IsParser heap.old.objects self.old }
        requires begun { self.old.begun ≡ Begun.Hash }
        requires room { self.old.start + (length self.old.token.items + length rest.now) < 2 ^ 50 }
        ensures grows { Grows heap.old.objects heap.new.objects }
        ensures taken { IfOk result (λ r. r.1 ≤ length rest.now) }
        ensures moves { IfOk result (λ r. Moves r.0 self.old rest.now r.1 self.new) }
        ensures advances { IfOk result (λ r. (t : State) → Holds heap.old.objects self.old.stack t → Advances heap.new.objects t self.old rest.now r.0 r.1 self.new) }
    {
        let n = digits(rest);
        if self.token.len() + n > 9 {
            return Ok((fault(SyntaxKind::Label, self.start), 0));
        }
        if n == rest.len() {
            return self.pause(rest);
        }
        let outcome = self.end_hash(heap, &rest[..n], rest[n])?;
        Ok((outcome, n + 1))
    }

    // A comment goes on, up to the end of the line.
    pub(crate) fn in_comment(&mut self, rest: &[u8]) -> (Outcome, usize)
        requires begun { self.old.begun ≡ Begun.Comment }
        requires room { self.old.start + length rest.now < 2 ^ 50 }
        ensures pending { result.0 ≡ Outcome.Pending }
        ensures taken { result.1 ≤ length rest.now }
        ensures stack { self.new.stack ≡ self.old.stack }
        ensures begun { (self.new.begun ≡ Begun.Nothing) ⊎ (self.new.begun ≡ Begun.Comment) }
        ensures moves { Moves result.0 self.old rest.now result.1 self.new }
        ensures passes { (e : Ending) (t : State) (z : List ℕ) → meaning_of e t self.old (take result.1 rest.now ++ z) ≡ meaning_of e t self.new z }
    {
        let n = line_bytes(rest);
        self.start += n as u64;
        if n == rest.len() {
            return (Outcome::Pending, n);
        }
        self.start += 2;
        self.begun = Begun::Nothing;
        (Outcome::Pending, n + 1)
    }

    // A token ends after these bytes.
    pub(crate) fn end_token<const BEGINS: bool>(
        &mut self,
        heap: &mut Heap,
        bytes: &[u8],
        glued: bool,
    ) -> Result<Outcome, Memory>
        requires parser { IsParser heap.old.objects self.old }
        requires inside { is_inside self.old.begun ≡ true }
        requires token { list_all is_constituent (self.old.token.items ++ bytes.now) ≡ true }
        requires room { self.old.start + (length self.old.token.items + length bytes.now) < 2 ^ 50 }
        ensures grows { Grows heap.old.objects heap.new.objects }
        ensures took { IfOk result (λ r. (t : State) → Holds heap.old.objects self.old.stack t → is_full t ≡ false →
            Took heap.new.objects self.new.stack r (on t (token_lexeme self.old.start glued (token_form (self.old.token.items ++ bytes.now))))) }
        ensures begun { self.new.begun ≡ Begun.AfterToken }
        ensures start { self.new.start ≡ self.old.start + length (self.old.token.items ++ bytes.now) }
    {
        let start = self.start;
        self.begun = Begun::AfterToken;
        self.start += (self.token.len() + bytes.len()) as u64;
        keep_after(&mut self.token, bytes)?;
        let token = whole_text(&self.token, bytes);
        end_token::<BEGINS>(&mut self.stack, heap, &mut self.atoms, token, start, glued)
    }

    // A name between bars ends after these bytes.
    pub(crate) fn end_bars(&mut self, heap: &mut Heap, bytes: &[u8]) -> Result<Outcome, Memory>
        requires parser { IsParser heap.old.objects self.old }
        requires inside { is_inside self.old.begun ≡ true }
        requires name { list_all is_name_byte (self.old.token.items ++ bytes.now) ≡ true }
        requires some { 0 < length (self.old.token.items ++ bytes.now) }
        requires room { self.old.start + (length self.old.token.items + length bytes.now) < 2 ^ 50 }
        ensures grows { Grows heap.old.objects heap.new.objects }
        ensures took { IfOk result (λ r. (t : State) → Holds heap.old.objects self.old.stack t →
            Took heap.new.objects self.new.stack r (on t (Atom self.old.start (Symbol (name_of_bytes (self.old.token.items ++ bytes.now)))))) }
        ensures begun { self.new.begun ≡ Begun.AfterBar }
        ensures start { self.new.start ≡ self.old.start + 2 + length (self.old.token.items ++ bytes.now) }
    {
        let start = self.start;
        self.begun = Begun::AfterBar;
        self.start += (self.token.len() + bytes.len()) as u64 + 2;
        keep_after(&mut self.token, bytes)?;
        let x = heap.symbol(whole_text(&self.token, bytes))?;
        self.stack.take(heap, Lexeme::Atom(x), start)
    }

    // A label or a reference ends after these digits, with this byte.
    fn end_hash(&mut self, heap: &mut Heap, bytes: &[u8], b: u8) -> Result<Outcome, Memory>
        requires parser { IsParser heap.old.objects self.old }
        requires inside { is_inside self.old.begun ≡ true }
        requires digits { list_all is_digit (self.old.token.items ++ bytes.now) ≡ true }
        requires few { length (self.old.token.items ++ bytes.now) ≤ 9 }
        requires room { self.old.start < 2 ^ 50 }
        ensures grows { Grows heap.old.objects heap.new.objects }
        ensures took { IfOk result (λ r. (t : State) → Holds heap.old.objects self.old.stack t → is_full t ≡ false →
            Took heap.new.objects self.new.stack r (on t (label_lexeme self.old.start (self.old.token.items ++ bytes.now) b))) }
        ensures ended { IfOk result (λ r. EndsHash r (length (self.old.token.items ++ bytes.now)) b self.old self.new) }
    {
        keep_after(&mut self.token, bytes)?;
        let text = whole_text(&self.token, bytes);
        if text.is_empty() {
            return Ok(fault(SyntaxKind::Label, self.start));
        }
        let length = text.len() as u64 + 2;
        let n = few_digits(text);
        match b {
            b'=' => self.take(heap, Lexeme::Mark(n), length),
            b'#' => self.take(heap, Lexeme::Ref(n), length),
            _ => Ok(fault(SyntaxKind::Label, self.start)),
        }
    }

    // A lexeme that is not an atom ends, after this number of bytes.
    #[inline(always)]
    pub(crate) fn take(
        &mut self,
        heap: &mut Heap,
        lexeme: Lexeme,
        length: u64,
    ) -> Result<Outcome, Memory>
        requires stack { IsStack heap.old.objects self.old.stack }
        requires bare { IsBare lexeme }
        requires comes { MayCome heap.old.objects (pile_of heap.old.objects self.old.stack.layers.items) lexeme }
        requires room { self.old.start + length < 2 ^ 60 }
        ensures grows { Grows heap.old.objects heap.new.objects }
        ensures took { IfOk result (λ r. (t : State) → Holds heap.old.objects self.old.stack t → Took heap.new.objects self.new.stack r (on t (lexeme_at heap.old.objects self.old.start lexeme))) }
        ensures begun { self.new.begun ≡ Begun.Nothing }
        ensures start { self.new.start ≡ self.old.start + length }
    {
        let start = self.start;
        self.begun = Begun::Nothing;
        self.start += length;
        self.stack.take(heap, lexeme, start)
    }

    // The text that has begun goes on in the next piece.
    fn pause(&mut self, bytes: &[u8]) -> Result<(Outcome, usize), Memory>
        requires { GoesOn self.old.begun (self.old.token.items ++ bytes.now) }
        ensures all { IfOk result (λ r. r.1 ≡ length bytes.now) }
        ensures moves { IfOk result (λ r. Moves r.0 self.old bytes.now r.1 self.new) }
        ensures advances { (os : List Object) → IsParser os self.old → IfOk result (λ r. (t : State) → Holds os self.old.stack t → Advances os t self.old bytes.now r.0 r.1 self.new) }
    {
        self.token.extend_from_slice(bytes)?;
        Ok((Outcome::Pending, bytes.len()))
    }
}

// A token without bars ends: `glued` says whether what stands after it may not stand there. `BEGINS` says whether it begins in this
// piece, as most do: what they go through is compiled by itself, into the one loop that calls it.
fn end_token<const BEGINS: bool>(
    stack: &mut Stack,
    heap: &mut Heap,
    atoms: &mut Atoms,
    token: &[u8],
    start: u64,
    glued: bool,
) -> Result<Outcome, Memory>
    requires stack { IsStack heap.old.objects stack.old }
    requires begins { is_ready (pile_of heap.old.objects stack.old.layers.items) ≡ false }
    requires token { list_all is_constituent token.now ≡ true }
    requires room { start < 2 ^ 50 }
    ensures grows { Grows heap.old.objects heap.new.objects }
    ensures took { IfOk result (λ r. (t : State) → Holds heap.old.objects stack.old t → is_full t ≡ false →
        Took heap.new.objects stack.new r (on t (token_lexeme start glued (token_form token.now)))) }
{
    match token_of::<BEGINS>(atoms, heap, &mut stack.big, token)? {
        Token::Atom(x) => stack.take(heap, Lexeme::Atom(x), start),
        Token::Dot => {
            if glued {
                return Ok(fault(SyntaxKind::Token, start + 1));
            }
            stack.take(heap, Lexeme::Dot, start)
        }
        Token::Bad => Ok(fault(SyntaxKind::Token, start)),
    }
}
