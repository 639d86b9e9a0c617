//! The rules for making proofs, as a table of pieces in postfix order: the parts of a list come before it, and what a rule is given comes
//! before the rule. So `A, B, OR` is (por* a b), and `C, A, B, D, TURN` is what the rule TURN makes of the objects C, A, B and D.
use mw_build::Piece;
use pieces::*;

// The pieces: what is given, by letters, the forms, the steps of proofs, and the rules that other rules use.
#[rattlefmt::skip]
mod pieces {
    use mw_build::Piece::{self, Form, Given, List, Rule};
    use mw_heap::Word;

    pub(super) const A: Piece = Given(0);
    pub(super) const B: Piece = Given(1);
    pub(super) const C: Piece = Given(2);
    pub(super) const D: Piece = Given(3);
    pub(super) const E: Piece = Given(4);
    pub(super) const F: Piece = Given(5);
    pub(super) const G: Piece = Given(6);
    pub(super) const H: Piece = Given(7);
    pub(super) const I: Piece = Given(8);
    pub(super) const NOT: Piece = Form(Word::Pnot, 1);
    pub(super) const OR: Piece = Form(Word::Por, 2);
    pub(super) const ONE: Piece = List(1);
    pub(super) const TWO: Piece = List(2);
    pub(super) const BY_SCHEMA: Piece = Form(Word::PropositionalSchema, 1);
    pub(super) const BY_EXPANSION: Piece = Form(Word::Expansion, 2);
    pub(super) const BY_CONTRACTION: Piece = Form(Word::Contraction, 2);
    pub(super) const BY_ASSOCIATIVITY: Piece = Form(Word::Associativity, 2);
    pub(super) const BY_CUT: Piece = Form(Word::Cut, 2);
    pub(super) const SCHEMA: Piece = Rule(0, 1);
    pub(super) const EXPAND: Piece = Rule(1, 3);
    pub(super) const CONTRACT: Piece = Rule(2, 2);
    pub(super) const ASSOCIATE: Piece = Rule(3, 4);
    pub(super) const CUT: Piece = Rule(4, 4);
    pub(super) const COMMUTE: Piece = Rule(5, 3);
    pub(super) const INSERT: Piece = Rule(6, 4);
    pub(super) const APPEND: Piece = Rule(7, 4);
    pub(super) const RESOLVE: Piece = Rule(8, 3);
    pub(super) const DOUBLE: Piece = Rule(9, 3);
    pub(super) const TURN: Piece = Rule(12, 4);
    pub(super) const TURN_TWICE: Piece = Rule(13, 4);
    pub(super) const DETACH: Piece = Rule(14, 4);
    pub(super) const REPLACE: Piece = Rule(15, 6);
    pub(super) const GATHER: Piece = Rule(16, 3);
    pub(super) const ADD_AFTER: Piece = Rule(17, 5);
    pub(super) const ADD_BEFORE: Piece = Rule(18, 5);
    pub(super) const NOT_SECOND: Piece = Rule(19, 5);
    pub(super) const NOT_FIRST: Piece = Rule(20, 5);
    pub(super) const EXCHANGE: Piece = Rule(22, 7);
    pub(super) const EXPOSE: Piece = Rule(23, 5);
    pub(super) const GROUP: Piece = Rule(24, 5);
    pub(super) const GAIN_LEFT: Piece = Rule(25, 5);
    pub(super) const GAIN_RIGHT: Piece = Rule(26, 5);
    pub(super) const PLACE: Piece = Rule(27, 5);
    pub(super) const OWE_LEFT: Piece = Rule(28, 5);
    pub(super) const OWE_RIGHT: Piece = Rule(29, 5);
    pub(super) const OWE_ALONE: Piece = Rule(30, 4);
    pub(super) const FROM_END: Piece = Rule(31, 5);
    pub(super) const FROM_ONE: Piece = Rule(32, 7);
    pub(super) const FROM_OTHER: Piece = Rule(33, 7);
    pub(super) const FROM_KEPT: Piece = Rule(34, 5);
    pub(super) const KEEP_FROM: Piece = Rule(35, 5);
    pub(super) const TO_END: Piece = Rule(36, 5);
    pub(super) const TO_ONE: Piece = Rule(37, 7);
    pub(super) const TO_OTHER: Piece = Rule(38, 7);
    pub(super) const TO_KEPT: Piece = Rule(39, 5);
    pub(super) const KEEP_TO: Piece = Rule(40, 5);
    pub(super) const ALONE_END: Piece = Rule(41, 4);
}

// What each rule makes, and of proofs of what, by the letters that stand for them.
#[rattlefmt::skip]
pub(crate) static RULES: [&[Piece]; 69] = [
    // 0: not A or A
    &[A, NOT, A, OR, BY_SCHEMA],
    // 1: A or B, of B by C
    &[A, B, OR, C, ONE, BY_EXPANSION],
    // 2: A, of A or A by B
    &[A, B, ONE, BY_CONTRACTION],
    // 3: (A or B) or C, of A or (B or C) by D
    &[A, B, OR, C, OR, D, ONE, BY_ASSOCIATIVITY],
    // 4: A or B, of X or A by C and not X or B by D
    &[A, B, OR, C, D, TWO, BY_CUT],
    // 5: B or A, of A or B by C
    &[B, A, C, A, SCHEMA, CUT],
    // 6: A or (B or C), of A or C by D
    &[B, C, OR, A, B, C, A, B, C, A, OR, A, C, D, COMMUTE, EXPAND, ASSOCIATE, COMMUTE],
    // 7: A or (B or C), of A or B by D
    &[B, C, OR, A, B, C, A, C, A, OR, B, C, A, B, C, A, B, OR, D, EXPAND, ASSOCIATE, COMMUTE,
        ASSOCIATE, COMMUTE],
    // 8: A, of X or A by B and not X or A by C
    &[A, A, A, B, C, CUT, CONTRACT],
    // 9: not not A or B, of A or B by C
    &[B, A, NOT, NOT, B, A, NOT, NOT, C, A, NOT, NOT, A, NOT, A, NOT, SCHEMA, COMMUTE, CUT,
        COMMUTE],
    // 10: (A or B) or C, of A or C by D
    &[A, B, C, A, B, C, D, INSERT, ASSOCIATE],
    // 11: (A or B) or C, of B or C by D
    &[A, B, C, A, B, C, OR, D, EXPAND, ASSOCIATE],
    // 12: C or (A or B), of A or (B or C) by D
    &[A, B, OR, C, A, B, C, D, ASSOCIATE, COMMUTE],
    // 13: B or (C or A), of A or (B or C) by D
    &[C, A, B, A, B, C, D, TURN, TURN],
    // 14: B, of A by C and not A or B by D
    &[B, B, A, B, A, C, EXPAND, COMMUTE, D, RESOLVE],
    // 15: (A or B) or D, of A or (B or C) by E and not C or D by F
    &[A, B, OR, D, A, B, C, E, TURN, F, CUT],
    // 16: A or B, of B or (B or A) by C
    &[A, B, OR, A, B, A, B, OR, A, B, A, B, OR, OR, B, B, A, C, TURN_TWICE, EXPAND, ASSOCIATE,
        CONTRACT],
    // 17: C or (D or (A or B)), of A or (B or C) by E
    &[D, A, B, OR, C, D, A, B, OR, C, OR, A, B, C, E, ASSOCIATE, EXPAND, TURN],
    // 18: C or (D or (A or B)), of A or (B or D) by E
    &[C, D, A, B, OR, OR, A, B, D, E, TURN, EXPAND],
    // 19: (C or A) or D, where C is not (A or B), of not B or D by E
    &[C, A, B, D, A, B, OR, SCHEMA, E, REPLACE],
    // 20: B or C, of C or (B or A) by D and not A or C by E
    &[B, C, C, B, OR, C, C, B, A, C, D, E, REPLACE, COMMUTE, GATHER],
    // 21: not (A or B) or C, of not A or C by D and not B or C by E
    &[A, A, B, OR, NOT, C, A, B, OR, NOT, A, OR, C, A, B, A, B, OR, NOT, C, E, NOT_SECOND, COMMUTE,
        D, NOT_FIRST],
    // 22: A or ((B or C) or E), of B or (C or D) by F and not D or (E or A) by G
    &[B, C, OR, E, A, B, C, D, E, A, OR, F, G, REPLACE, TURN],
    // 23: A or ((B or C) or D), of B or (C or D) by E
    &[A, B, C, OR, D, OR, B, C, D, E, ASSOCIATE, EXPAND],
    // 24: ((C or D) or A) or B, of C or (D or (A or B)) by E
    &[C, D, OR, A, B, C, D, A, B, OR, E, ASSOCIATE, ASSOCIATE],
    // 25: ((C or D) or A) or B, of A or (B or C) by E
    &[A, B, C, D, A, B, C, D, E, ADD_AFTER, GROUP],
    // 26: ((C or D) or A) or B, of A or (B or D) by E
    &[A, B, C, D, A, B, C, D, E, ADD_BEFORE, GROUP],
    // 27: (A or (C or D)) or B, of C or (D or (B or A)) by E
    &[A, C, D, OR, B, C, D, OR, B, A, C, D, B, A, OR, E, ASSOCIATE, TURN, ASSOCIATE],
    // 28: (A or (C or D)) or B, of B or (A or C) by E
    &[A, B, C, D, B, A, C, D, E, ADD_AFTER, PLACE],
    // 29: (A or (C or D)) or B, of B or (A or D) by E
    &[A, B, C, D, B, A, C, D, E, ADD_BEFORE, PLACE],
    // 30: (A or C) or B, of B or A by D
    &[A, C, B, C, B, OR, A, C, B, A, C, B, A, OR, D, EXPAND, ASSOCIATE, COMMUTE, ASSOCIATE],
    // 31: D or W, where W is (B or C) or A, of A or ((W or D) or B) by E
    &[D, B, C, OR, A, OR, A, B, C, OR, A, OR, D, OR, B, C, E, GAIN_LEFT, GATHER],
    // 32: W or (D or E), where D is not (E or F) and W is (B or C) or A, of not F or (C or A) by G
    &[A, D, E, OR, B, C, A, D, E, F, C, E, F, OR, SCHEMA, G, EXCHANGE, GAIN_RIGHT],
    // 33: D or W, where W is (B or C) or A, of W or (D or E) by F and not E or (B or A) by G
    &[A, B, C, D, A, B, C, OR, A, OR, D, E, B, F, G, EXCHANGE, FROM_END],
    // 34: W or (D or E), where D is not (E or C) and W is (B or C) or A
    &[A, D, E, OR, B, C, A, D, E, C, E, C, OR, SCHEMA, EXPOSE, GAIN_RIGHT],
    // 35: D or W, where W is (B or C) or A, of W or (D or B) by E
    &[A, B, C, D, A, B, C, OR, A, OR, D, B, E, EXPOSE, FROM_END],
    // 36: B or W, where W is A or (C or D), of (W or B) or (A or C) by E
    &[B, A, C, D, OR, OR, A, A, C, D, OR, OR, B, OR, C, D, E, OWE_LEFT, GATHER],
    // 37: W or (D or B), where D is not (B or C) and W is A or (E or F), of not C or (A or F) by G
    &[A, D, B, OR, E, F, B, C, D, A, F, OR, G, NOT_SECOND, OWE_RIGHT],
    // 38: C or W, where W is A or (D or E), of W or (C or B) by F and not B or (A or D) by G
    &[A, C, D, E, A, D, E, OR, OR, C, B, A, D, OR, F, G, REPLACE, TO_END],
    // 39: W or (D or B), where D is not (B or C) and W is A or (E or C)
    &[A, D, B, OR, E, C, D, B, OR, A, C, D, B, C, B, C, OR, SCHEMA, ASSOCIATE, INSERT, OWE_RIGHT],
    // 40: C or W, where W is A or (B or D), of W or (C or B) by E
    &[A, C, B, D, A, B, D, OR, OR, C, OR, A, B, A, B, D, OR, OR, C, B, E, ASSOCIATE, INSERT,
        TO_END],
    // 41: B or W, where W is A or C, of (W or B) or A by D
    &[B, A, C, OR, A, A, C, OR, B, OR, C, D, OWE_ALONE, GATHER],
    // 42: not A
    &[A, NOT],
    // 43: A or not A
    &[A, NOT, A, A, SCHEMA, COMMUTE],
    // 44: B
    &[B],
    // 45: not B or (B or A)
    &[B, NOT, B, A, B, SCHEMA, APPEND],
    // 46: not B or (A or B)
    &[B, NOT, A, B, B, SCHEMA, INSERT],
    // 47: not C
    &[C, NOT],
    // 48: not not C or (not B or A), of not B or (A or C) by E
    &[C, B, NOT, A, OR, B, NOT, A, C, E, TURN, DOUBLE],
    // 49: not not B or (A or not C), of not C or (B or A) by D
    &[B, A, C, NOT, OR, C, NOT, B, A, D, TURN_TWICE, DOUBLE],
    // 50: F
    &[F],
    // 51: C or (not B or A), of not B or (A or C) by E
    &[B, NOT, A, C, E, TURN],
    // 52: not not B or (A or F), of not not F or (B or A) by D
    &[B, A, F, OR, F, B, A, F, B, A, OR, F, SCHEMA, D, CUT, TURN_TWICE, DOUBLE],
    // 53: D
    &[D],
    // 54: not D or ((B or C) or A), of not D or (B or A) by E
    &[B, C, OR, A, OR, D, NOT, A, D, NOT, B, C, D, NOT, B, A, E, TURN, GAIN_LEFT, COMMUTE],
    // 55: not (B or C) or (A or D), of not B or (A or D) by F and not C or A by G
    &[B, B, C, OR, NOT, A, D, OR, A, B, C, OR, NOT, B, OR, D, B, C, B, C, OR, NOT, A, G, NOT_SECOND,
        OWE_ALONE, F, NOT_FIRST],
    // 56: D
    &[D],
    // 57: not D or ((B or C) or A), of not D or (C or A) by E
    &[B, C, OR, A, OR, D, NOT, A, D, NOT, B, C, D, NOT, C, A, E, TURN, GAIN_RIGHT, COMMUTE],
    // 58: not (B or C) or (A or D), of not C or (A or D) by F and not B or A by G
    &[A, B, C, OR, NOT, D, A, D, OR, B, C, OR, NOT, B, A, B, C, OR, NOT, B, OR, A, D, OR, B, C, B,
        C, OR, NOT, A, D, OR, F, NOT_SECOND, COMMUTE, G, REPLACE, ALONE_END],
    // 59: D or G
    &[D, G, OR],
    // 60: not (D or G) or ((B or C) or A), of not D or (B or A) by E and not G or (C or A) by H
    &[A, B, C, D, G, OR, NOT, D, A, B, C, D, G, OR, NOT, D, G, H, FROM_ONE, E, FROM_OTHER],
    // 61: not (B or C) or (A or (D or G)), of not B or (A or D) by F and not C or (A or G) by I
    &[A, B, B, C, OR, NOT, D, G, A, B, C, B, C, OR, NOT, D, G, I, TO_ONE, F, TO_OTHER],
    // 62: B or D
    &[B, D, OR],
    // 63: not (B or D) or ((B or C) or A), of not D or (C or A) by E
    &[A, B, C, B, D, OR, NOT, A, B, C, B, D, OR, NOT, B, D, E, FROM_ONE, KEEP_FROM],
    // 64: not (B or C) or (A or (B or D)), of not C or (A or D) by F
    &[A, B, B, C, OR, NOT, D, A, B, C, B, C, OR, NOT, B, D, F, TO_ONE, KEEP_TO],
    // 65: D or C
    &[D, C, OR],
    // 66: not (D or C) or ((B or C) or A), of not D or (B or A) by E
    &[A, B, C, D, C, OR, NOT, D, A, B, C, D, C, OR, NOT, D, FROM_KEPT, E, FROM_OTHER],
    // 67: not (B or C) or (A or (D or C)), of not B or (A or D) by F
    &[A, B, B, C, OR, NOT, D, C, A, B, C, B, C, OR, NOT, D, TO_KEPT, F, TO_OTHER],
    // 68: B or A, of C by D and not C or (A or B) by E
    &[A, B, C, A, B, OR, D, E, DETACH, COMMUTE],
];
