//! The heap.
ghost use Rattle.std.specs.Prelude.{◌≡◌, ℕ, ◌+◌, ◌<◌, ◌≤◌, ◌^◌, List, [], true, false, length, take, IfOk, IfSome, IsOk, OnOk, OnErr, IsTrue, MatchOption};
ghost use Rattle.mw_model.specs.Terms.Object.{Symbol, Natural, Pair, T, NIL, name_of_bytes, is_name, same_object, is_before_bytes};
ghost use Rattle.mw_model.specs.Values.Primitive.{is_pair, is_symbol, name_of};
ghost use Rattle.mw_model.specs.Events.Fate.{is_out_of_range};
ghost use Rattle.mw_heap.specs.Lengths.{text_length, tail_length};
ghost use Rattle.mw_heap.specs.Parts.{part_at, IsPart};
ghost use Rattle.mw_heap.specs.Words.{word_object};
ghost use Rattle.mw_heap.specs.Objects.{object_at, IsIn, Grows, Shows, NamesOlder, AreDistinct, ArePartsOlder};

use crate::budget::looks::take_look;
use crate::store::cell::Cell;
use crate::store::lengths::{Length, tail_told, text_told};
use crate::store::sets::{
    Naturals, can_number, cell_at, counts_from, find_place, find_small, insert_measured,
    insert_name, insert_natural, insert_pair, note_place, note_small,
};
use crate::vocabulary::word::{WORDS, are_kept, word_in};
use crate::{Mark, Memory, Notes, Ref, View, Word};
use indexmap::IndexSet;
use std::alloc::Global;
use std::hash::BuildHasherDefault;
use std::marker::Model;

/// Objects, each kept once: equal objects have equal references, so that equality is one comparison. A heap only grows, but for
/// `cut_back`, and holds fewer than 2^32 objects.
#[derive(Drop)]
pub struct Heap {
    cells: IndexSet<Cell>,
    lengths: Vec<Length>,
    naturals: Naturals,
    names: IndexSet<Vec<u8>>,
    // for each name where its cell may stand, which is looked up there before it is searched for
    places: Vec<Ref>,
    // for a small natural, by its last bits, where its cell may stand, which is looked up there before it is searched for
    smalls: Vec<Ref>,
    // whether the words are known to be the first objects
    has_words: bool,
    // how many looks at cells are left to work that may look at a cell many times
    looks_left: u64,
    // those that nobody has: what they hold says nothing
    notes: Vec<Notes>,
    alloc: Global,
}

impl Model for Heap {
    ghost use Rattle.mw_heap.specs.Contents.{Contents, coded_contents};

    ghost Value = { Contents };

    ghost coded = { coded_contents };

    ghost use Rattle.std.specs.Prelude.{◌-◌, ◌^◌, length, vec_len, vec_capacity};
    ghost use Rattle.indexmap.specs.IndexSet.{spare};
    ghost use Rattle.mw_heap.specs.Cells.{objects, bytes_of};
    ghost use Rattle.mw_heap.specs.Words.{IsKept};
    ghost use Rattle.mw_heap.specs.Contents.{room};

    ghost view = { λ h. record { objects = objects h.naturals.keys (bytes_of h.names.keys) h.cells.keys; spare = room (spare h.cells) (spare h.naturals) (spare h.names) (vec_capacity h.lengths - vec_len h.lengths) (2 ^ 32 - 1 - length h.cells.keys) } };

    ghost invariant = { λ h. IsKept h.naturals.keys (bytes_of h.names.keys) h.cells.keys h.lengths.items h.has_words };
}

impl Heap {
    /// A heap with no objects.
    pub fn new(alloc: Global) -> Result<Heap, Memory>
        ensures empty { IfOk result (λ h. h.objects ≡ []) }
    {
        Ok(Heap {
            cells: IndexSet::new(alloc),
            lengths: Vec::new(alloc),
            naturals: IndexSet::with_hasher(alloc, BuildHasherDefault::new()),
            names: IndexSet::new(alloc),
            places: Vec::new(alloc),
            smalls: Vec::new(alloc),
            has_words: false,
            looks_left: u64::MAX,
            notes: Vec::new(alloc),
            alloc,
        })
    }

    /// The allocator from which the heap has its memory.
    pub fn alloc(&self) -> Global {
        self.alloc
    }

    /// Allows this number of looks at cells, in place of those that were left, to work that may look at a cell many times, as where labels share
    /// what is substituted in. A new heap allows as many as a u64 can tell.
    pub fn allow_looks(&mut self, looks: u64)
        ensures { self.new.objects ≡ self.old.objects }
    {
        self.looks_left = looks;
    }

    /// Takes one look from those that are allowed. The error is that none is left: so much work is answered as out of memory.
    #[inline(always)]
    pub fn take_look(&mut self) -> Result<(), Memory>
        ensures { self.new.objects ≡ self.old.objects }
    {
        take_look(&mut self.looks_left)
    }

    /// Takes this number of looks from those that are allowed. The error is that fewer are left.
    pub fn take_looks(&mut self, looks: u64) -> Result<(), Memory>
        ensures { self.new.objects ≡ self.old.objects }
    {
        let Some(left) = self.looks_left.checked_sub(looks) else {
            return Err(Memory);
        };
        self.looks_left = left;
        Ok(())
    }

    /// Notes on cells, with none noted yet. Those that were given back are lent again, so that their memory serves one walk after another.
    pub fn lend_notes(&mut self) -> Notes
        ensures objects { self.new.objects ≡ self.old.objects }
        ensures none { result ≡ [] }
    {
        let mut notes = match self.notes.pop() {
            Some(notes) => notes,
            None => Notes::new(self.alloc),
        };
        notes.clear();
        notes
    }

    /// Takes back notes that were lent. Without memory for that they are dropped.
    pub fn take_notes(&mut self, notes: Notes)
        ensures { self.new.objects ≡ self.old.objects }
    {
        let _ = self.notes.push(notes);
    }

    /// The natural `n`.
    pub fn nat(&mut self, n: u128) -> Result<Ref, Memory>
        ensures grows { Grows self.old.objects self.new.objects }
        ensures made { IfOk result (λ r. IsIn self.new.objects r × (object_at self.new.objects r ≡ Natural n)) }
        ensures err { OnErr result (self.new.objects ≡ self.old.objects) }
        ensures room { 0 < self.old.spare → IsOk result }
        ensures spare { self.old.spare ≤ self.new.spare + 1 }
    {
        if let Ok(small) = u32::try_from(n) {
            return self.small(small);
        }
        let had = self.naturals.len();
        let index = insert_natural(&mut self.naturals, n)?;
        match insert_measured(
            &mut self.cells,
            &mut self.lengths,
            &self.naturals,
            &self.names,
            Cell::Large(index as u32),
        ) {
            Ok(made) => Ok(made),
            Err(refusal) => {
                self.naturals.truncate(had);
                Err(refusal)
            }
        }
    }

    /// The natural `n`, which is searched for only where its cell does not stand in its noted place.
    #[inline(always)]
    pub fn small(&mut self, n: u32) -> Result<Ref, Memory>
        ensures grows { Grows self.old.objects self.new.objects }
        ensures made { IfOk result (λ r. IsIn self.new.objects r × (object_at self.new.objects r ≡ Natural n)) }
        ensures err { OnErr result (self.new.objects ≡ self.old.objects) }
        ensures room { 0 < self.old.spare → IsOk result }
        ensures spare { self.old.spare ≤ self.new.spare + 1 }
    {
        match self.known_small(n) {
            Some(known) => Ok(known),
            None => self.put_small(n),
        }
    }

    // The natural, where its cell stands in its noted place.
    #[inline(always)]
    fn known_small(&self, n: u32) -> Option<Ref>
        ensures { IfSome result (λ r. IsIn self.now.objects r × (object_at self.now.objects r ≡ Natural n)) }
    {
        find_small(&self.cells, self.smalls.as_slice(), n)
    }

    // The natural, which is searched for, and added if it is new.
    #[inline(never)]
    fn put_small(&mut self, n: u32) -> Result<Ref, Memory>
        ensures grows { Grows self.old.objects self.new.objects }
        ensures made { IfOk result (λ r. IsIn self.new.objects r × (object_at self.new.objects r ≡ Natural n)) }
        ensures err { OnErr result (self.new.objects ≡ self.old.objects) }
        ensures room { 0 < self.old.spare → IsOk result }
        ensures spare { self.old.spare ≤ self.new.spare + 1 }
    {
        let made = insert_measured(
            &mut self.cells,
            &mut self.lengths,
            &self.naturals,
            &self.names,
            Cell::Small(n),
        )?;
        note_small(&mut self.smalls, n, made);
        Ok(made)
    }

    /// The number of a natural below 2^32; None for any other object.
    #[inline(always)]
    pub fn small_number(&self, x: Ref) -> Option<u32>
        requires { IsIn self.now.objects x }
        ensures { MatchOption result ((n : ℕ) → object_at self.now.objects x ≡ Natural n → 2 ^ 32 ≤ n) (λ n. object_at self.now.objects x ≡ Natural n) }
    {
        match cell_at(&self.cells, x) {
            Cell::Small(n) => Some(n),
            _ => None,
        }
    }

    /// The symbol of this name.
    pub fn symbol(&mut self, name: &[u8]) -> Result<Ref, Memory>
        requires { is_name name.now ≡ true }
        ensures grows { Grows self.old.objects self.new.objects }
        ensures made { IfOk result (λ r. IsIn self.new.objects r × (object_at self.new.objects r ≡ Symbol (name_of_bytes name.now))) }
        ensures err { OnErr result (self.new.objects ≡ self.old.objects) }
        ensures spare { self.old.spare ≤ self.new.spare + 1 }
    {
        match self.known_symbol(name) {
            Some(known) => Ok(known),
            None => self.put_symbol(name),
        }
    }

    /// NIL.
    pub fn nil(&mut self) -> Result<Ref, Memory>
        ensures grows { Grows self.old.objects self.new.objects }
        ensures made { IfOk result (λ r. IsIn self.new.objects r × (object_at self.new.objects r ≡ NIL)) }
        ensures err { OnErr result (self.new.objects ≡ self.old.objects) }
        ensures spare { self.old.spare ≤ self.new.spare + 1 }
    {
        self.word(Word::Nil)
    }

    /// The symbol that a word is.
    pub fn word(&mut self, word: Word) -> Result<Ref, Memory>
        ensures grows { Grows self.old.objects self.new.objects }
        ensures made { IfOk result (λ r. IsIn self.new.objects r × (object_at self.new.objects r ≡ word_object word)) }
        ensures err { OnErr result (self.new.objects ≡ self.old.objects) }
        ensures spare { self.old.spare ≤ self.new.spare + 1 }
    {
        if self.has_words {
            return Ok(word.place());
        }
        self.symbol(word.name())
    }

    /// Keeps the words as the first objects, from now on and until a cut takes one away: then each is found without a search, and needs
    /// no memory. The error is out of memory, or that other objects came first: the heap may then have grown, and keeps none.
    pub fn keep_words(&mut self) -> Result<(), Memory>
        ensures { Grows self.old.objects self.new.objects }
    {
        for word in &WORDS {
            if self.symbol(word.name())? != word.place() {
                return Err(Memory);
            }
        }
        self.has_words = true;
        Ok(())
    }

    /// Whether it is the symbol that a word is.
    pub fn is_word(&self, x: Option<Ref>, word: Word) -> bool
        requires { IsPart self.now.objects x }
        ensures { result ≡ same_object (part_at self.now.objects x) (word_object word) }
    {
        if !self.has_words {
            return self.is_named(x, word.name());
        }
        match x {
            Some(x) => x == word.place(),
            None => word.place().index() == 0,
        }
    }

    /// The word whose symbol an object is; None if it is none of these. Where the words are kept its place tells, and else their names are
    /// compared.
    pub fn word_at(&self, x: Ref) -> Option<Word>
        requires { IsIn self.now.objects x }
        ensures { MatchOption result ((w : Word) → same_object (object_at self.now.objects x) (word_object w) ≡ false) (λ w. object_at self.now.objects x ≡ word_object w) }
    {
        if self.has_words {
            return word_in(x);
        }
        for word in &WORDS {
            if self.is_named(Some(x), word.name()) {
                return Some(*word);
            }
        }
        None
    }

    // The symbol of this name, where its cell stands in its noted place.
    fn known_symbol(&self, name: &[u8]) -> Option<Ref>
        requires { is_name name.now ≡ true }
        ensures { IfSome result (λ r. IsIn self.now.objects r × (object_at self.now.objects r ≡ Symbol (name_of_bytes name.now))) }
    {
        find_place(&self.cells, &self.names, self.places.as_slice(), name)
    }

    // The symbol of this name, which is searched for, and added if it is new.
    fn put_symbol(&mut self, name: &[u8]) -> Result<Ref, Memory>
        requires { is_name name.now ≡ true }
        ensures grows { Grows self.old.objects self.new.objects }
        ensures made { IfOk result (λ r. IsIn self.new.objects r × (object_at self.new.objects r ≡ Symbol (name_of_bytes name.now))) }
        ensures err { OnErr result (self.new.objects ≡ self.old.objects) }
        ensures spare { self.old.spare ≤ self.new.spare + 1 }
    {
        let owned = Vec::from_slice(self.alloc, name)?;
        self.put_name(owned)
    }

    // The same for a name that is owned, which needs no memory where there is room.
    fn put_name(&mut self, name: Vec<u8>) -> Result<Ref, Memory>
        requires { is_name name.items ≡ true }
        ensures grows { Grows self.old.objects self.new.objects }
        ensures made { IfOk result (λ r. IsIn self.new.objects r × (object_at self.new.objects r ≡ Symbol (name_of_bytes name.items))) }
        ensures err { OnErr result (self.new.objects ≡ self.old.objects) }
        ensures room { 0 < self.old.spare → IsOk result }
        ensures spare { self.old.spare ≤ self.new.spare + 1 }
    {
        let had = self.names.len();
        let index = insert_name(&mut self.names, name)?;
        match insert_measured(
            &mut self.cells,
            &mut self.lengths,
            &self.naturals,
            &self.names,
            Cell::Symbol(index as u32),
        ) {
            Ok(made) => {
                note_place(&mut self.places, index, made);
                Ok(made)
            }
            Err(refusal) => {
                self.names.truncate(had);
                Err(refusal)
            }
        }
    }

    /// T and NIL. Room for both is made before either is, so that out of memory neither is made, and no room is smaller than
    /// before.
    pub fn truths(&mut self) -> Result<(Ref, Ref), Memory>
        ensures grows { Grows self.old.objects self.new.objects }
        ensures t { IfOk result (λ r. IsIn self.new.objects r.0 × (object_at self.new.objects r.0 ≡ T)) }
        ensures nil { IfOk result (λ r. IsIn self.new.objects r.1 × (object_at self.new.objects r.1 ≡ NIL)) }
        ensures spare { self.old.spare ≤ self.new.spare + 2 }
        ensures err { OnErr result (self.new.objects ≡ self.old.objects) }
        ensures err_spare { OnErr result (self.old.spare ≤ self.new.spare) }
    {
        if self.has_words {
            return Ok((Word::T.place(), Word::Nil.place()));
        }
        let t = Vec::from_slice(self.alloc, Word::T.name())?;
        let nil = Vec::from_slice(self.alloc, Word::Nil.name())?;
        self.reserve(2)?;
        let t = self.put_name(t)?;
        let nil = self.put_name(nil)?;
        Ok((t, nil))
    }

    /// The pair of these parts.
    pub fn cons(&mut self, first: Ref, second: Ref) -> Result<Ref, Memory>
        requires first_in { IsIn self.old.objects first }
        requires second_in { IsIn self.old.objects second }
        ensures grows { Grows self.old.objects self.new.objects }
        ensures made { IfOk result (λ r. IsIn self.new.objects r × (object_at self.new.objects r ≡ Pair (object_at self.old.objects first) (object_at self.old.objects second))) }
        ensures err { OnErr result (self.new.objects ≡ self.old.objects) }
        ensures room { 0 < self.old.spare → IsOk result }
        ensures spare { self.old.spare ≤ self.new.spare + 1 }
    {
        insert_pair(&mut self.cells, &mut self.lengths, first, second)
    }

    /// The parts of a pair; None if it is not a pair.
    #[inline(always)]
    pub fn pair_of(&self, x: Ref) -> Option<(Ref, Ref)>
        requires { IsIn self.now.objects x }
        ensures within { IfSome result (λ p. IsIn self.now.objects p.0 × IsIn self.now.objects p.1) }
        ensures value { MatchOption result (is_pair (object_at self.now.objects x) ≡ false) (λ p. object_at self.now.objects x ≡ Pair (object_at self.now.objects p.0) (object_at self.now.objects p.1)) }
        ensures older { IfSome result (λ p. (p.0 < x) × (p.1 < x)) }
    {
        match cell_at(&self.cells, x) {
            Cell::Pair(first, second) => Some((Ref::new(first), Ref::new(second))),
            _ => None,
        }
    }

    /// What an object is made of. A pair's parts stand before it.
    #[inline(always)]
    pub fn view(&self, x: Ref) -> View
        requires { IsIn self.now.objects x }
        ensures shows { Shows self.now.objects result (object_at self.now.objects x) }
        ensures below { NamesOlder result x }
        ensures in_range { is_out_of_range (object_at self.now.objects x) ≡ false }
    {
        match cell_at(&self.cells, x) {
            Cell::Small(n) => View::Nat(n as u128),
            Cell::Large(i) => View::Nat(self.naturals.as_slice()[i as usize]),
            Cell::Symbol(_) => View::Symbol,
            Cell::Pair(a, b) => View::Pair(Ref::new(a), Ref::new(b)),
        }
    }

    /// The name of a symbol.
    pub fn name_of(&self, x: Ref) -> &[u8]
        requires within { IsIn self.now.objects x }
        requires symbol { is_symbol (object_at self.now.objects x) ≡ true }
        ensures { (name_of (object_at self.now.objects x)).bytes ≡ result.now }
    {
        match cell_at(&self.cells, x) {
            Cell::Symbol(i) => self.names.as_slice()[i as usize].as_slice(),
            _ => unreachable!(),
        }
    }

    /// Whether two references have equal objects, which are those of equal references.
    pub fn same(&self, x: Ref, y: Ref) -> bool
        requires first_in { IsIn self.now.objects x }
        requires second_in { IsIn self.now.objects y }
        ensures same { result ≡ same_object (object_at self.now.objects x) (object_at self.now.objects y) }
        ensures distinct { AreDistinct self.now.objects }
    {
        let _ = &self.cells;
        x == y
    }

    /// How the objects stand: no two are equal, and the parts of each pair come before it.
    pub fn order(&self)
        ensures distinct { AreDistinct self.now.objects }
        ensures older { ArePartsOlder self.now.objects }
    {
        let _ = &self.cells;
    }

    /// No natural in an object is out of range: a heap holds none.
    pub fn in_range(&self, x: Ref)
        requires { IsIn self.now.objects x }
        ensures { is_out_of_range (object_at self.now.objects x) ≡ false }
    {
        let _ = self.view(x);
    }

    /// Whether the name of the symbol `x` is before that of the symbol `y`: byte by byte, a proper prefix first.
    pub fn symbol_less(&self, x: Ref, y: Ref) -> bool
        requires first_in { IsIn self.now.objects x }
        requires second_in { IsIn self.now.objects y }
        requires first_symbol { is_symbol (object_at self.now.objects x) ≡ true }
        requires second_symbol { is_symbol (object_at self.now.objects y) ≡ true }
        ensures { result ≡ is_before_bytes (name_of (object_at self.now.objects x)).bytes (name_of (object_at self.now.objects y)).bytes }
    {
        self.name_of(x) < self.name_of(y)
    }

    /// The number of bytes in the object's text, and in what is written of it as the tail of a list, but for the closing parenthesis: nothing
    /// of NIL, each member of a pair after a space, and anything else after a dot. Of each at most 65,537 count.
    pub fn lengths(&self, x: Ref) -> (u64, u64)
        requires { IsIn self.now.objects x }
        ensures text { result.0 ≡ text_length (object_at self.now.objects x) }
        ensures tail { result.1 ≡ tail_length (object_at self.now.objects x) }
    {
        let kept = self.lengths[x.index()];
        (text_told(kept) as u64, tail_told(kept) as u64)
    }

    /// The number of objects, to go back to.
    pub fn mark(&self) -> Mark
        ensures { result ≡ length self.now.objects }
    {
        Mark::new(self.cells.len())
    }

    /// The number of objects up to this one, with it, to go back to.
    pub fn mark_after(&self, x: Ref) -> Mark
        requires { IsIn self.now.objects x }
        ensures { result ≡ x + 1 }
    {
        let _ = &self.cells;
        Mark::new(x.index() + 1)
    }

    /// The object at this index, in the order in which objects came.
    pub fn nth(&self, index: usize) -> Ref
        requires { index < length self.now.objects }
        ensures { result ≡ index }
    {
        let _ = &self.cells;
        Ref::new(index as u32)
    }

    /// How many objects a heap can come to have with the room that it has: fewer than 2^32.
    pub fn bound(&self)
        ensures { length self.now.objects + self.now.spare < 2 ^ 32 }
    {
        let _ = &self.cells;
    }

    /// Makes room for `cells` more: as many calls of `nat` and `cons` then ask for no memory. The error is out of memory, or
    /// that as many more cells could not be numbered; no room is then smaller than before.
    pub fn reserve(&mut self, cells: usize) -> Result<(), Memory>
        ensures objects { self.new.objects ≡ self.old.objects }
        ensures room { OnOk result (cells ≤ self.new.spare) }
        ensures spare { self.old.spare ≤ self.new.spare }
        ensures succeeds { cells ≤ self.old.spare → IsOk result }
    {
        self.cells.reserve(cells)?;
        self.naturals.reserve(cells)?;
        self.names.reserve(cells)?;
        self.lengths.reserve(cells)?;
        if can_number(&self.cells, cells) {
            Ok(())
        } else {
            Err(Memory)
        }
    }

    /// Makes room for about `cells` more at once, where memory allows, so that the tables are seldom made anew. It promises no room:
    /// `reserve` does, which makes as much for large naturals.
    pub fn make_room(&mut self, cells: usize)
        ensures objects { self.new.objects ≡ self.old.objects }
        ensures spare { self.old.spare ≤ self.new.spare }
    {
        if self.cells.reserve(cells).is_ok() {
            let _ = self.lengths.reserve(cells);
        }
    }

    /// Forgets each object that came after the mark. References to those that stay keep their meaning. It takes time in proportion
    /// to what goes.
    pub fn cut_back(&mut self, to: Mark)
        requires { to ≤ length self.old.objects }
        ensures kept { self.new.objects ≡ take to self.old.objects }
        ensures spare { self.old.spare ≤ self.new.spare }
    {
        let (naturals, names) = counts_from(&self.cells, to.cells());
        self.naturals.truncate(self.naturals.len() - naturals);
        self.names.truncate(self.names.len() - names);
        self.cells.truncate(to.cells());
        self.lengths.truncate(to.cells());
        self.has_words = are_kept(self.has_words, to.cells());
    }
}
