//! What is known of a block.
ghost use Rattle.std.specs.Prelude.{◌≡◌, ℕ, List, [], Some, cond, nat_eq, OnOk, IfSome};
ghost use Rattle.mw_define.specs.contracts.piece.PiecePartialEq.TheImpl.{ghosts};
ghost use Rattle.mw_define.specs.Knowing.{known_of, denial_of, IsAnswer};

use crate::piece::Piece;
use indexmap::{IndexMap, IndexSet};
use mw_heap::{Memory, Ref};
use std::alloc::Global;

/// The names of the functions of a block; the pieces of which it was found whether they mention one of these; and of the tests that were
/// met what is left to show where they fail.
#[derive(Drop)]
pub(crate) struct Known {
    pub names: IndexSet<Ref>,
    pub pieces: IndexMap<Piece, bool>,
    pub denials: IndexMap<Ref, Ref>,
}

impl Known {
    pub fn new(names: IndexSet<Ref>, alloc: Global) -> Known
        ensures names { result.names.keys ≡ names.keys }
        ensures pieces { result.pieces.entries ≡ [] }
        ensures denials { result.denials.entries ≡ [] }
    {
        Known {
            names,
            pieces: IndexMap::new(alloc),
            denials: IndexMap::new(alloc),
        }
    }

    // Whether a piece mentions the block, where that is known.
    pub fn find(&self, piece: &Piece) -> Option<bool>
        ensures { result ≡ known_of self.now piece.now }
    {
        self.pieces.get(piece).copied()
    }

    // Notes whether a piece mentions the block.
    pub fn note(&mut self, piece: &Piece, mentions: bool) -> Result<(), Memory>
        ensures noted { OnOk result ((q : Piece) → known_of self.new q ≡ cond (ghosts.eq piece.now q) (Some mentions) (known_of self.old q)) }
        ensures denials { OnOk result ((t : ℕ) → denial_of self.new t ≡ denial_of self.old t) }
        ensures names { self.new.names ≡ self.old.names }
    {
        self.pieces.insert(*piece, mentions)?;
        Ok(())
    }

    // What is left to show where a test fails, where it was made.
    pub fn find_denial(&self, test: Ref) -> Option<Ref>
        ensures { result ≡ denial_of self.now test }
    {
        self.denials.get(&test).copied()
    }

    // Notes what is left to show where a test fails.
    pub fn note_denial(&mut self, test: Ref, denial: Ref) -> Result<(), Memory>
        ensures noted { OnOk result ((t : ℕ) → denial_of self.new t ≡ cond (nat_eq test t) (Some denial) (denial_of self.old t)) }
        ensures pieces { OnOk result ((q : Piece) → known_of self.new q ≡ known_of self.old q) }
        ensures names { self.new.names ≡ self.old.names }
    {
        self.denials.insert(test, denial)?;
        Ok(())
    }

    // Whether one of these pieces mentions the block, where that follows from what is known.
    pub fn find_any(&self, pieces: &[Piece]) -> Option<bool>
        ensures { IfSome result (IsAnswer self.now pieces.now) }
    {
        let mut are_free = true;
        for piece in pieces {
            match self.find(piece) {
                Some(true) => return Some(true),
                Some(false) => {}
                None => are_free = false,
            }
        }
        if are_free { Some(false) } else { None }
    }
}
