//! The rules by which steps of derivations are replaced, as a table of pieces: the parts of each list stand before it, and what a rule is
//! given before the rule. So `A, B, IS` is (pequal* a b), and `A, B, IMPLY` is what the rule of implications makes of the given A and B.
ghost use Rattle.std.specs.Prelude.{◌≡◌, map, IfOk};
ghost use Rattle.mw_heap.specs.Objects.{object_at, IsIn, Grows};
ghost use Rattle.mw_build.specs.Stacks.{AreIn};
ghost use Rattle.mw_lower.specs.Rules.{rule_made};

use mw_build::Piece::{self, Form, Given, List, Pair, Rule};
use mw_build::{Variable, make};
use mw_heap::{Heap, Memory, Ref, Word};

// The rules that the code names, by their places in the table.

pub(crate) const COMMUTED: usize = 4;

pub(crate) const DETACHED: usize = 5;

pub(crate) const IMPLICATION: usize = 6;

pub(crate) const FUNCTIONAL: usize = 7;

pub(crate) const TURNED: usize = 13;

pub(crate) const CHAINED: usize = 14;

const A: Piece = Given(0);

const B: Piece = Given(1);

const C: Piece = Given(2);

const D: Piece = Given(3);

const E: Piece = Given(4);

const X: Piece = Piece::Variable(Variable::X);

const X1: Piece = Piece::Variable(Variable::X1);

const Y1: Piece = Piece::Variable(Variable::Y1);

const X2: Piece = Piece::Variable(Variable::X2);

const Y2: Piece = Piece::Variable(Variable::Y2);

const NIL: Piece = Piece::Word(Word::Nil);

const IS: Piece = Form(Word::Pequal, 2);

const NOT: Piece = Form(Word::Pnot, 1);

const OR: Piece = Form(Word::Por, 2);

const ONE: Piece = List(1);

const TWO: Piece = List(2);

const FOUR: Piece = List(4);

const BY_AXIOM: Piece = Form(Word::Axiom, 3);

const BY_SCHEMA: Piece = Form(Word::PropositionalSchema, 3);

const BY_EQUALITY: Piece = Form(Word::FunctionalEquality, 3);

const BY_EXPANSION: Piece = Form(Word::Expansion, 3);

const BY_CONTRACTION: Piece = Form(Word::Contraction, 3);

const BY_CUT: Piece = Form(Word::Cut, 3);

const BY_INSTANTIATION: Piece = Form(Word::Instantiation, 3);

const SCHEMA: Piece = Rule(0, 1);

const EXPAND: Piece = Rule(1, 3);

const CONTRACT: Piece = Rule(2, 2);

const CUT: Piece = Rule(3, 4);

const COMMUTE: Piece = Rule(4, 3);

const DETACH: Piece = Rule(5, 4);

const IMPLY: Piece = Rule(6, 2);

const INSTANCE: Piece = Rule(8, 3);

const REFLECT: Piece = Rule(9, 1);

const EQUATE: Piece = Rule(10, 4);

const PUT_EQUALS: Piece = Rule(11, 4);

const DISCHARGE: Piece = Rule(12, 3);

// What each rule makes, and of proofs of what, by the letters that stand for them.
static RULES: [&[Piece]; 15] = [
    // 0: not A or A
    &[A, NOT, A, OR, NIL, NIL, BY_SCHEMA],
    // 1: A or B, of B by C
    &[A, B, OR, C, ONE, NIL, BY_EXPANSION],
    // 2: A, of A or A by B
    &[A, B, ONE, NIL, BY_CONTRACTION],
    // 3: A or B, of X or A by C and not X or B by D
    &[A, B, OR, C, D, TWO, NIL, BY_CUT],
    // 4: B or A, of A or B by C
    &[B, A, C, A, SCHEMA, CUT],
    // 5: B, of A by C and not A or B by D
    &[B, B, B, B, A, B, A, C, EXPAND, COMMUTE, D, CUT, CONTRACT],
    // 6: the formula: not A or B
    &[A, NOT, B, OR],
    // 7: A, by functional equality
    &[A, NIL, NIL, BY_EQUALITY],
    // 8: A, as the instance by C of the axiom B
    &[A, B, NIL, NIL, BY_AXIOM, ONE, C, BY_INSTANTIATION],
    // 9: A = A
    &[A, A, IS, X, X, IS, X, A, Pair, ONE, INSTANCE],
    // 10: the formula: A != B or C != D or A != C or B = D
    &[A, B, IS, C, D, IS, A, C, IS, B, D, IS, IMPLY, IMPLY, IMPLY],
    // 11: a proof of that formula
    &[
        A, B, C, D, EQUATE, X1, Y1, X2, Y2, EQUATE, X1, A, Pair, Y1, B, Pair, X2, C, Pair, Y2, D,
        Pair, FOUR, INSTANCE,
    ],
    // 12: B, of A != A or B by C
    &[A, A, IS, B, A, REFLECT, C, DETACH],
    // 13: B = A, of A = B by C
    &[
        A, B, A, IS, A, A, A, IS, B, A, IS, IMPLY, A, B, IS, A, A, IS, A, A, IS, B, A, IS, IMPLY,
        IMPLY, C, A, B, A, A, PUT_EQUALS, DETACH, DISCHARGE, DISCHARGE,
    ],
    // 14: A = C, of A = B by D and B = C by E
    &[
        A, B, IS, A, C, IS, D, B, C, IS, A, B, IS, A, C, IS, IMPLY, E, A, B, C, IS, A, B, IS, A, C,
        IS, IMPLY, IMPLY, A, A, B, C, PUT_EQUALS, DISCHARGE, DETACH, DETACH,
    ],
];

/// What the rule of this number makes of the given objects.
pub(crate) fn apply(heap: &mut Heap, rule: usize, given: &[Ref]) -> Result<Ref, Memory>
    requires { AreIn heap.old.objects given.now }
    ensures grows { Grows heap.old.objects heap.new.objects }
    ensures made { IfOk result (λ r. IsIn heap.new.objects r × (object_at heap.new.objects r ≡ rule_made rule (map (object_at heap.old.objects) given.now))) }
{
    make(heap, &RULES, rule, given)
}
