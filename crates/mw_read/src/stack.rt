//! What is open: the lists, quotes and labels round the place that is read.
ghost use Rattle.std.specs.Prelude.{◌≡◌, false, List, [], length, IfOk, MatchOption};
ghost use Rattle.mw_model.specs.Terms.Object.{Object};
ghost use Rattle.mw_model.specs.Texts.Lexemes.{Open, Close, Dot, Quote, Mark, Ref as Refers};
ghost use Rattle.mw_model.specs.Texts.Grammar.{Labels, quoted};
ghost use Rattle.mw_heap.specs.Objects.{object_at, IsIn, Grows};
ghost use Rattle.mw_read.specs.Machine.{State, on};
ghost use Rattle.mw_read.specs.Named.{Agree, IsListed};
ghost use Rattle.mw_read.specs.Piles.{IsPile, pile_of, give_to, Does, IsFrames, IsInList, members_of, frames_round, Frames, HoldsDatum, closed_with, is_last, is_item, is_ready, has_member, EndsWith};
ghost use Rattle.mw_read.specs.Stacks.{IsStack, Means};
ghost use Rattle.mw_read.specs.Taken.{lexeme_at, MayCome};

use crate::labels::{begin, end, look};
use crate::lexeme::Lexeme;
use crate::pairs::pair;
use crate::step::{Fault, Outcome, SyntaxKind};
use indexmap::IndexMap;
use mw_heap::{Heap, Memory, Ref, Word};
use mw_lex::Slots;

/// A part of what is open.
#[derive(Clone, Copy)]
pub(crate) enum Layer {
    /// A list begins.
    Opening,
    /// A member of the list.
    Item(Ref),
    /// A dot after the members, whose datum has not come.
    Dot,
    /// In place of the dot the datum after it.
    Last(Ref),
    /// A quote that waits for its datum.
    Quote,
    /// A label that waits for its datum.
    Mark(u32),
}

/// What is open, the innermost last, and the labels begun in it.
#[derive(Drop)]
pub(crate) struct Stack {
    pub(crate) layers: Vec<Layer>,
    pub(crate) labels: IndexMap<u32, Option<Ref>>,
    // whether a part is a natural of 2^128 or more, which is kept as 0
    pub(crate) big: bool,
    // the pairs met lately
    pub(crate) pairs: Slots,
}

impl Stack {
    // What a lexeme at this offset makes of what is open. For an atom or a label the caller has seen that a datum may begin here.
    #[inline(always)]
    pub(crate) fn take(
        &mut self,
        heap: &mut Heap,
        lexeme: Lexeme,
        offset: u64,
    ) -> Result<Outcome, Memory>
        requires stack { IsStack heap.old.objects self.old }
        requires comes { MayCome heap.old.objects (pile_of heap.old.objects self.old.layers.items) lexeme }
        ensures grows { Grows heap.old.objects heap.new.objects }
        ensures stack { IfOk result (λ r. IsStack heap.new.objects self.new) }
        ensures datum { IfOk result (λ r. HoldsDatum heap.new.objects r) }
        ensures turn { IfOk result (λ r. (t : State) → Means heap.old.objects self.old t → Does heap.new.objects self.new.layers.items self.new.labels.entries r (on t (lexeme_at heap.old.objects offset lexeme))) }
        ensures big { IfOk result (λ r. self.new.big ≡ self.old.big) }
    {
        match lexeme {
            Lexeme::Open => self.open(offset),
            Lexeme::Close => self.close(heap, offset),
            Lexeme::Dot => self.dot(offset),
            Lexeme::Quote => self.quote(offset),
            Lexeme::Atom(x) => give(&mut self.layers, &mut self.labels, &mut self.pairs, heap, x),
            Lexeme::Mark(n) => self.mark(n, offset),
            Lexeme::Ref(n) => self.refer(heap, n, offset),
        }
    }

    // Has the innermost list the datum after its dot, so that nothing may begin?
    pub(crate) fn is_full(&self) -> bool
        ensures { (os : List Object) → IsStack os self.now → result ≡ is_ready (pile_of os self.now.layers.items) }
    {
        match self.top() {
            Some(layer) => layer.is_last(),
            None => false,
        }
    }

    // A list begins.
    fn open(&mut self, offset: u64) -> Result<Outcome, Memory>
        ensures turn { IfOk result (λ r. (os : List Object) → IsStack os self.old →
            IsStack os self.new × HoldsDatum os r × ((t : State) → Means os self.old t → Does os self.new.layers.items self.new.labels.entries r (on t (Open offset)))) }
        ensures big { IfOk result (λ r. self.new.big ≡ self.old.big) }
    {
        if self.is_full() {
            return Ok(fault(SyntaxKind::Dot, offset));
        }
        self.layers.push(Layer::Opening)?;
        Ok(Outcome::Pending)
    }

    // A closing parenthesis.
    fn close(&mut self, heap: &mut Heap, offset: u64) -> Result<Outcome, Memory>
        requires stack { IsStack heap.old.objects self.old }
        ensures grows { Grows heap.old.objects heap.new.objects }
        ensures stack { IfOk result (λ r. IsStack heap.new.objects self.new) }
        ensures datum { IfOk result (λ r. HoldsDatum heap.new.objects r) }
        ensures turn { IfOk result (λ r. (t : State) → Means heap.old.objects self.old t → Does heap.new.objects self.new.layers.items self.new.labels.entries r (on t (Close offset))) }
        ensures big { IfOk result (λ r. self.new.big ≡ self.old.big) }
    {
        let Some(top) = self.top() else {
            return Ok(fault(SyntaxKind::Close, offset));
        };
        match top {
            Layer::Opening | Layer::Item(_) => {
                let nil = heap.nil()?;
                self.close_with(heap, nil)
            }
            Layer::Last(x) => {
                self.layers.pop();
                self.close_with(heap, x)
            }
            Layer::Dot => Ok(fault(SyntaxKind::Dot, offset)),
            Layer::Quote | Layer::Mark(_) => Ok(fault(SyntaxKind::Close, offset)),
        }
    }

    // A dot.
    fn dot(&mut self, offset: u64) -> Result<Outcome, Memory>
        ensures turn { IfOk result (λ r. (os : List Object) → IsStack os self.old →
            IsStack os self.new × HoldsDatum os r × ((t : State) → Means os self.old t → Does os self.new.layers.items self.new.labels.entries r (on t (Dot offset)))) }
        ensures big { IfOk result (λ r. self.new.big ≡ self.old.big) }
    {
        if !self.is_after_member() {
            return Ok(fault(SyntaxKind::Dot, offset));
        }
        self.layers.push(Layer::Dot)?;
        Ok(Outcome::Pending)
    }

    // A quote.
    fn quote(&mut self, offset: u64) -> Result<Outcome, Memory>
        ensures turn { IfOk result (λ r. (os : List Object) → IsStack os self.old →
            IsStack os self.new × HoldsDatum os r × ((t : State) → Means os self.old t → Does os self.new.layers.items self.new.labels.entries r (on t (Quote offset)))) }
        ensures big { IfOk result (λ r. self.new.big ≡ self.old.big) }
    {
        if self.is_full() {
            return Ok(fault(SyntaxKind::Dot, offset));
        }
        self.layers.push(Layer::Quote)?;
        Ok(Outcome::Pending)
    }

    // A label.
    fn mark(&mut self, n: u32, offset: u64) -> Result<Outcome, Memory>
        ensures turn { IfOk result (λ r. (os : List Object) → IsStack os self.old → is_ready (pile_of os self.old.layers.items) ≡ false →
            IsStack os self.new × HoldsDatum os r × ((t : State) → Means os self.old t → Does os self.new.layers.items self.new.labels.entries r (on t (Mark offset n)))) }
        ensures big { IfOk result (λ r. self.new.big ≡ self.old.big) }
    {
        if !begin(&mut self.labels, n)? {
            return Ok(fault(SyntaxKind::Label, offset));
        }
        self.layers.push(Layer::Mark(n))?;
        Ok(Outcome::Pending)
    }

    // A reference to a label.
    fn refer(&mut self, heap: &mut Heap, n: u32, offset: u64) -> Result<Outcome, Memory>
        requires stack { IsStack heap.old.objects self.old }
        requires begins { is_ready (pile_of heap.old.objects self.old.layers.items) ≡ false }
        ensures grows { Grows heap.old.objects heap.new.objects }
        ensures stack { IfOk result (λ r. IsStack heap.new.objects self.new) }
        ensures datum { IfOk result (λ r. HoldsDatum heap.new.objects r) }
        ensures turn { IfOk result (λ r. (t : State) → Means heap.old.objects self.old t → Does heap.new.objects self.new.layers.items self.new.labels.entries r (on t (Refers offset n))) }
        ensures big { IfOk result (λ r. self.new.big ≡ self.old.big) }
    {
        match look(&self.labels, n) {
            Some(x) => give(&mut self.layers, &mut self.labels, &mut self.pairs, heap, x),
            None => Ok(fault(SyntaxKind::Label, offset)),
        }
    }

    // The innermost list ends in this object.
    fn close_with(&mut self, heap: &mut Heap, last: Ref) -> Result<Outcome, Memory>
        requires object { IsIn heap.old.objects last }
        requires stack { IsStack heap.old.objects self.old }
        requires list { IsInList (pile_of heap.old.objects self.old.layers.items) }
        ensures grows { Grows heap.old.objects heap.new.objects }
        ensures stack { IfOk result (λ r. IsStack heap.new.objects self.new) }
        ensures datum { IfOk result (λ r. HoldsDatum heap.new.objects r) }
        ensures turn { IfOk result (λ r. (ks : Labels) → Agree heap.old.objects self.old.labels.entries ks → Does heap.new.objects self.new.layers.items self.new.labels.entries r
            (closed_with (pile_of heap.old.objects self.old.layers.items) (object_at heap.old.objects last) ks)) }
        ensures big { IfOk result (λ r. self.new.big ≡ self.old.big) }
    {
        let list = fold(&mut self.layers, &mut self.pairs, heap, last)?;
        give(
            &mut self.layers,
            &mut self.labels,
            &mut self.pairs,
            heap,
            list,
        )
    }

    // Does a member of a list stand directly before?
    fn is_after_member(&self) -> bool
        ensures { (os : List Object) → IsStack os self.now → result ≡ has_member (pile_of os self.now.layers.items) }
    {
        match self.top() {
            Some(layer) => layer.is_item(),
            None => false,
        }
    }

    // The innermost layer.
    fn top(&self) -> Option<Layer>
        ensures { MatchOption result (self.now.layers.items ≡ []) (λ l. EndsWith self.now.layers.items l) }
    {
        top(&self.layers)
    }
}

pub(crate) fn fault(kind: SyntaxKind, offset: u64) -> Outcome
    ensures { result ≡ Outcome.Fault (record { kind = kind; offset = offset }) }
{
    Outcome::Fault(Fault { kind, offset })
}

// A datum is complete: quotes and labels that wait for it take it, and then it is a member of what is open, or an event.
fn give(
    layers: &mut Vec<Layer>,
    labels: &mut IndexMap<u32, Option<Ref>>,
    pairs: &mut Slots,
    heap: &mut Heap,
    x: Ref,
) -> Result<Outcome, Memory>
    requires object { IsIn heap.old.objects x }
    requires pile { IsPile heap.old.objects layers.old.items }
    requires waits { IsFrames (pile_of heap.old.objects layers.old.items) }
    requires listed { IsListed (length heap.old.objects) labels.old.entries }
    ensures grows { Grows heap.old.objects heap.new.objects }
    ensures datum { IfOk result (λ r. HoldsDatum heap.new.objects r) }
    ensures pile { IfOk result (λ r. IsPile heap.new.objects layers.new.items) }
    ensures listed { IfOk result (λ r. IsListed (length heap.new.objects) labels.new.entries) }
    ensures turn { IfOk result (λ r. (ks : Labels) → Agree heap.old.objects labels.old.entries ks →
        Does heap.new.objects layers.new.items labels.new.entries r (give_to (pile_of heap.old.objects layers.old.items) (object_at heap.old.objects x) ks)) }
{
    let mut x = x;
    while let Some(layer) = top(layers) {
        match layer {
            Layer::Quote => {
                layers.pop();
                x = quote(pairs, heap, x)?;
            }
            Layer::Mark(n) => {
                layers.pop();
                end(labels, n, x);
            }
            Layer::Dot => {
                layers.pop();
                layers.push(Layer::Last(x))?;
                return Ok(Outcome::Pending);
            }
            _ => {
                layers.push(Layer::Item(x))?;
                return Ok(Outcome::Pending);
            }
        }
    }
    labels.truncate(0);
    Ok(Outcome::Datum(x))
}

// `(quote x)`.
fn quote(pairs: &mut Slots, heap: &mut Heap, x: Ref) -> Result<Ref, Memory>
    requires { IsIn heap.old.objects x }
    ensures grows { Grows heap.old.objects heap.new.objects }
    ensures made { IfOk result (λ r. IsIn heap.new.objects r × (object_at heap.new.objects r ≡ quoted (object_at heap.old.objects x))) }
{
    let word = heap.word(Word::Quote)?;
    let nil = heap.nil()?;
    let tail = pair(pairs, heap, x, nil)?;
    pair(pairs, heap, word, tail)
}

// The innermost list ends: its members become pairs, the last first.
fn fold(
    layers: &mut Vec<Layer>,
    pairs: &mut Slots,
    heap: &mut Heap,
    last: Ref,
) -> Result<Ref, Memory>
    requires object { IsIn heap.old.objects last }
    requires pile { IsPile heap.old.objects layers.old.items }
    requires list { IsInList (pile_of heap.old.objects layers.old.items) }
    ensures grows { Grows heap.old.objects heap.new.objects }
    ensures pile { IfOk result (λ r. IsPile heap.new.objects layers.new.items) }
    ensures rest { IfOk result (λ r. pile_of heap.new.objects layers.new.items ≡ Frames (frames_round (pile_of heap.old.objects layers.old.items))) }
    ensures made { IfOk result (λ r. IsIn heap.new.objects r × (object_at heap.new.objects r ≡ members_of (pile_of heap.old.objects layers.old.items) (object_at heap.old.objects last))) }
{
    let mut list = last;
    while let Some(layer) = layers.pop() {
        match layer {
            Layer::Item(x) => list = pair(pairs, heap, x, list)?,
            _ => return Ok(list),
        }
    }
    Ok(list)
}

// The innermost layer.
fn top(layers: &[Layer]) -> Option<Layer>
    ensures { MatchOption result (layers.now ≡ []) (λ l. EndsWith layers.now l) }
{
    layers.last().copied()
}

impl Layer {
    fn is_last(self) -> bool
        ensures { result ≡ is_last self }
    {
        matches!(self, Layer::Last(_))
    }

    fn is_item(self) -> bool
        ensures { result ≡ is_item self }
    {
        matches!(self, Layer::Item(_))
    }
}
