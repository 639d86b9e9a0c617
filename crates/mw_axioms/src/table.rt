//! The axioms, written as pieces: the parts of each list stand before it, so that `X, Y, IS` is (pequal* x y).
use mw_build::Piece::{self, Call, Form, Number};
use mw_build::Variable;
use mw_heap::{Primitive, Word};

const X: Piece = Piece::Variable(Variable::X);

const Y: Piece = Piece::Variable(Variable::Y);

const Z: Piece = Piece::Variable(Variable::Z);

const A: Piece = Piece::Variable(Variable::A);

const B: Piece = Piece::Variable(Variable::B);

const C: Piece = Piece::Variable(Variable::C);

const X1: Piece = Piece::Variable(Variable::X1);

const X2: Piece = Piece::Variable(Variable::X2);

const Y1: Piece = Piece::Variable(Variable::Y1);

const Y2: Piece = Piece::Variable(Variable::Y2);

const T: Piece = Piece::Word(Word::T);

const NIL: Piece = Piece::Word(Word::Nil);

const ZERO: Piece = Number(0);

const ONE: Piece = Number(1);

const QUOTE: Piece = Form(Word::Quote, 1);

const IS: Piece = Form(Word::Pequal, 2);

const NOT: Piece = Form(Word::Pnot, 1);

const OR: Piece = Form(Word::Por, 2);

const IF: Piece = Call(Primitive::If, 3);

const EQUAL: Piece = Call(Primitive::Equal, 2);

const CONSP: Piece = Call(Primitive::Consp, 1);

const CONS: Piece = Call(Primitive::Cons, 2);

const CAR: Piece = Call(Primitive::Car, 1);

const CDR: Piece = Call(Primitive::Cdr, 1);

const SYMBOLP: Piece = Call(Primitive::Symbolp, 1);

const BEFORE: Piece = Call(Primitive::SymbolLess, 2);

const NATP: Piece = Call(Primitive::Natp, 1);

const LESS: Piece = Call(Primitive::Less, 2);

const PLUS: Piece = Call(Primitive::Plus, 2);

const MINUS: Piece = Call(Primitive::Minus, 2);

const TIMES: Piece = Call(Primitive::Times, 2);

// The axioms of both profiles.
pub(crate) static SHARED: [Piece; 640] = [
    // x = x
    X, X, IS,
    // x1 != y1 or x2 != y2 or x1 != x2 or y1 = y2
    X1, Y1, IS, NOT, X2, Y2, IS, NOT, X1, X2, IS, NOT, Y1, Y2, IS, OR, OR, OR,
    // 't != 'nil
    T, QUOTE, NIL, QUOTE, IS, NOT,
    // x != y or (equal x y) = 't
    X, Y, IS, NOT, X, Y, EQUAL, T, QUOTE, IS, OR,
    // x = y or (equal x y) = 'nil
    X, Y, IS, X, Y, EQUAL, NIL, QUOTE, IS, OR,
    // x != 'nil or (if x y z) = z
    X, NIL, QUOTE, IS, NOT, X, Y, Z, IF, Z, IS, OR,
    // x = 'nil or (if x y z) = y
    X, NIL, QUOTE, IS, X, Y, Z, IF, Y, IS, OR,
    // (consp (cons x y)) = 't
    X, Y, CONS, CONSP, T, QUOTE, IS,
    // (car (cons x y)) = x
    X, Y, CONS, CAR, X, IS,
    // (cdr (cons x y)) = y
    X, Y, CONS, CDR, Y, IS,
    // (consp x) = 't or (consp x) = 'nil
    X, CONSP, T, QUOTE, IS, X, CONSP, NIL, QUOTE, IS, OR,
    // (consp x) = 't or (car x) = 'nil
    X, CONSP, T, QUOTE, IS, X, CAR, NIL, QUOTE, IS, OR,
    // (consp x) = 't or (cdr x) = 'nil
    X, CONSP, T, QUOTE, IS, X, CDR, NIL, QUOTE, IS, OR,
    // (consp x) = 'nil or (cons (car x) (cdr x)) = x
    X, CONSP, NIL, QUOTE, IS, X, CAR, X, CDR, CONS, X, IS, OR,
    // (symbolp x) = 't or (symbolp x) = 'nil
    X, SYMBOLP, T, QUOTE, IS, X, SYMBOLP, NIL, QUOTE, IS, OR,
    // (symbol-< x y) = 't or (symbol-< x y) = 'nil
    X, Y, BEFORE, T, QUOTE, IS, X, Y, BEFORE, NIL, QUOTE, IS, OR,
    // (symbol-< x x) = 'nil
    X, X, BEFORE, NIL, QUOTE, IS,
    // (symbol-< x y) != 't or (symbol-< y x) = 'nil
    X, Y, BEFORE, T, QUOTE, IS, NOT, Y, X, BEFORE, NIL, QUOTE, IS, OR,
    // (symbol-< x y) != 't or (symbol-< y z) != 't or (symbol-< x z) = 't
    X, Y, BEFORE, T, QUOTE, IS, NOT, Y, Z, BEFORE, T, QUOTE, IS, NOT, X, Z, BEFORE, T, QUOTE, IS,
    OR, OR,
    // (symbolp x) = 'nil or (symbolp y) = 'nil or (symbol-< x y) = 't or (symbol-< y x) = 't or x = y
    X, SYMBOLP, NIL, QUOTE, IS, Y, SYMBOLP, NIL, QUOTE, IS, X, Y, BEFORE, T, QUOTE, IS, Y, X,
    BEFORE, T, QUOTE, IS, X, Y, IS, OR, OR, OR, OR,
    // (symbolp x) = 't or (symbol-< x y) = (symbol-< 'nil y)
    X, SYMBOLP, T, QUOTE, IS, X, Y, BEFORE, NIL, QUOTE, Y, BEFORE, IS, OR,
    // (symbolp y) = 't or (symbol-< x y) = (symbol-< x 'nil)
    Y, SYMBOLP, T, QUOTE, IS, X, Y, BEFORE, X, NIL, QUOTE, BEFORE, IS, OR,
    // (symbolp x) = 'nil or (consp x) = 'nil
    X, SYMBOLP, NIL, QUOTE, IS, X, CONSP, NIL, QUOTE, IS, OR,
    // (symbolp x) = 'nil or (natp x) = 'nil
    X, SYMBOLP, NIL, QUOTE, IS, X, NATP, NIL, QUOTE, IS, OR,
    // (natp x) = 'nil or (consp x) = 'nil
    X, NATP, NIL, QUOTE, IS, X, CONSP, NIL, QUOTE, IS, OR,
    // (natp x) = 't or (natp x) = 'nil
    X, NATP, T, QUOTE, IS, X, NATP, NIL, QUOTE, IS, OR,
    // (natp (+ a b)) = 't
    A, B, PLUS, NATP, T, QUOTE, IS,
    // (+ a b) = (+ b a)
    A, B, PLUS, B, A, PLUS, IS,
    // (+ (+ a b) c) = (+ a (+ b c))
    A, B, PLUS, C, PLUS, A, B, C, PLUS, PLUS, IS,
    // (natp a) = 'nil or (+ a '0) = a
    A, NATP, NIL, QUOTE, IS, A, ZERO, QUOTE, PLUS, A, IS, OR,
    // (natp a) = 't or (+ a b) = (+ '0 b)
    A, NATP, T, QUOTE, IS, A, B, PLUS, ZERO, QUOTE, B, PLUS, IS, OR,
    // (< a b) = 't or (< a b) = 'nil
    A, B, LESS, T, QUOTE, IS, A, B, LESS, NIL, QUOTE, IS, OR,
    // (< a a) = 'nil
    A, A, LESS, NIL, QUOTE, IS,
    // (< a b) != 't or (< b c) != 't or (< a c) = 't
    A, B, LESS, T, QUOTE, IS, NOT, B, C, LESS, T, QUOTE, IS, NOT, A, C, LESS, T, QUOTE, IS, OR, OR,
    // (natp a) = 'nil or (natp b) = 'nil or (< a b) = 't or (< b a) = 't or a = b
    A, NATP, NIL, QUOTE, IS, B, NATP, NIL, QUOTE, IS, A, B, LESS, T, QUOTE, IS, B, A, LESS, T,
    QUOTE, IS, A, B, IS, OR, OR, OR, OR,
    // (< a '0) = 'nil
    A, ZERO, QUOTE, LESS, NIL, QUOTE, IS,
    // (natp a) = 'nil or a = '0 or (< '0 a) = 't
    A, NATP, NIL, QUOTE, IS, A, ZERO, QUOTE, IS, ZERO, QUOTE, A, LESS, T, QUOTE, IS, OR, OR,
    // (natp a) = 't or (< a b) = (< '0 b)
    A, NATP, T, QUOTE, IS, A, B, LESS, ZERO, QUOTE, B, LESS, IS, OR,
    // (natp b) = 't or (< a b) = 'nil
    B, NATP, T, QUOTE, IS, A, B, LESS, NIL, QUOTE, IS, OR,
    // (< (+ a b) (+ a c)) = (< b c)
    A, B, PLUS, A, C, PLUS, LESS, B, C, LESS, IS,
    // (< a b) != 't or (< b (+ a '1)) = 'nil
    A, B, LESS, T, QUOTE, IS, NOT, B, A, ONE, QUOTE, PLUS, LESS, NIL, QUOTE, IS, OR,
    // (< a (+ a '1)) = 't
    A, A, ONE, QUOTE, PLUS, LESS, T, QUOTE, IS,
    // (natp (- a b)) = 't
    A, B, MINUS, NATP, T, QUOTE, IS,
    // (natp a) = 't or (- a b) = '0
    A, NATP, T, QUOTE, IS, A, B, MINUS, ZERO, QUOTE, IS, OR,
    // (natp b) = 't or (- a b) = (- a '0)
    B, NATP, T, QUOTE, IS, A, B, MINUS, A, ZERO, QUOTE, MINUS, IS, OR,
    // (natp a) = 'nil or (- a '0) = a
    A, NATP, NIL, QUOTE, IS, A, ZERO, QUOTE, MINUS, A, IS, OR,
    // (- a a) = '0
    A, A, MINUS, ZERO, QUOTE, IS,
    // (< b a) = 't or (- a b) = '0
    B, A, LESS, T, QUOTE, IS, A, B, MINUS, ZERO, QUOTE, IS, OR,
    // (< b a) != 't or (+ b (- a b)) = a
    B, A, LESS, T, QUOTE, IS, NOT, B, A, B, MINUS, PLUS, A, IS, OR,
    // (- (+ a b) a) = (+ '0 b)
    A, B, PLUS, A, MINUS, ZERO, QUOTE, B, PLUS, IS,
    // (- (- a b) c) = (- a (+ b c))
    A, B, MINUS, C, MINUS, A, B, C, PLUS, MINUS, IS,
    // (< a (- b c)) = (< (+ a c) b)
    A, B, C, MINUS, LESS, A, C, PLUS, B, LESS, IS,
    // (natp x) = 't or (symbolp x) = 't or (consp x) = 't
    X, NATP, T, QUOTE, IS, X, SYMBOLP, T, QUOTE, IS, X, CONSP, T, QUOTE, IS, OR, OR,
];

// The axioms of the product.
pub(crate) static OF_TIMES: [Piece; 69] = [
    // (natp (* a b)) = 't
    A, B, TIMES, NATP, T, QUOTE, IS,
    // (* a b) = (* b a)
    A, B, TIMES, B, A, TIMES, IS,
    // (* (* a b) c) = (* a (* b c))
    A, B, TIMES, C, TIMES, A, B, C, TIMES, TIMES, IS,
    // (* a (+ b c)) = (+ (* a b) (* a c))
    A, B, C, PLUS, TIMES, A, B, TIMES, A, C, TIMES, PLUS, IS,
    // (* a '0) = '0
    A, ZERO, QUOTE, TIMES, ZERO, QUOTE, IS,
    // (natp a) = 'nil or (* a '1) = a
    A, NATP, NIL, QUOTE, IS, A, ONE, QUOTE, TIMES, A, IS, OR,
    // (natp a) = 't or (* a b) = '0
    A, NATP, T, QUOTE, IS, A, B, TIMES, ZERO, QUOTE, IS, OR,
];
