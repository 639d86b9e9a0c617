//! The axioms and the built-in definitions that docs/AXIOMS.md lists, judged by the program.
use crate::switches::book_with_useless_checker;
use mw_rows::{expect_empty, other_report};
use std::alloc::{AllocError, Global};
use std::test::Fail;

// The 53 axioms of the primitives, each on a line.
const AXIOMS: &str = "\
x = x
not x1 = y1 or not x2 = y2 or not x1 = x2 or y1 = y2
not 't = 'nil
not x = y or (equal x y) = 't
x = y or (equal x y) = 'nil
not x = 'nil or (if x y z) = z
x = 'nil or (if x y z) = y
(consp (cons x y)) = 't
(car (cons x y)) = x
(cdr (cons x y)) = y
(consp x) = 't or (consp x) = 'nil
(consp x) = 't or (car x) = 'nil
(consp x) = 't or (cdr x) = 'nil
(consp x) = 'nil or (cons (car x) (cdr x)) = x
(symbolp x) = 't or (symbolp x) = 'nil
(symbol-< x y) = 't or (symbol-< x y) = 'nil
(symbol-< x x) = 'nil
not (symbol-< x y) = 't or (symbol-< y x) = 'nil
not (symbol-< x y) = 't or not (symbol-< y z) = 't or (symbol-< x z) = 't
(symbolp x) = 'nil or (symbolp y) = 'nil or (symbol-< x y) = 't or (symbol-< y x) = 't or x = y
(symbolp x) = 't or (symbol-< x y) = (symbol-< 'nil y)
(symbolp y) = 't or (symbol-< x y) = (symbol-< x 'nil)
(symbolp x) = 'nil or (consp x) = 'nil
(symbolp x) = 'nil or (natp x) = 'nil
(natp x) = 'nil or (consp x) = 'nil
(natp x) = 't or (natp x) = 'nil
(natp (+ a b)) = 't
(+ a b) = (+ b a)
(+ (+ a b) c) = (+ a (+ b c))
(natp a) = 'nil or (+ a '0) = a
(natp a) = 't or (+ a b) = (+ '0 b)
(< a b) = 't or (< a b) = 'nil
(< a a) = 'nil
not (< a b) = 't or not (< b c) = 't or (< a c) = 't
(natp a) = 'nil or (natp b) = 'nil or (< a b) = 't or (< b a) = 't or a = b
(< a '0) = 'nil
(natp a) = 'nil or a = '0 or (< '0 a) = 't
(natp a) = 't or (< a b) = (< '0 b)
(natp b) = 't or (< a b) = 'nil
(< (+ a b) (+ a c)) = (< b c)
not (< a b) = 't or (< b (+ a '1)) = 'nil
(< a (+ a '1)) = 't
(natp (- a b)) = 't
(natp a) = 't or (- a b) = '0
(natp b) = 't or (- a b) = (- a '0)
(natp a) = 'nil or (- a '0) = a
(- a a) = '0
(< b a) = 't or (- a b) = '0
not (< b a) = 't or (+ b (- a b)) = a
(- (+ a b) a) = (+ '0 b)
(- (- a b) c) = (- a (+ b c))
(< a (- b c)) = (< (+ a c) b)
(natp x) = 't or (symbolp x) = 't or (consp x) = 't
";

// Those of the second profile alone.
// The seven of multiplication.
const PRODUCTS: &str = "\
(natp (* a b)) = 't
(* a b) = (* b a)
(* (* a b) c) = (* a (* b c))
(* a (+ b c)) = (+ (* a b) (* a c))
(* a '0) = '0
(natp a) = 'nil or (* a '1) = a
(natp a) = 't or (* a b) = '0
";

// The axiom of the witness among the definitions.
const WITNESS: &str =
    "(if (logic.proofp proof axioms thms atbl) (equal (logic.conclusion proof) x) 'nil) = 'nil
 or not ((lambda (proof x axioms thms atbl)
           (if (logic.proofp proof axioms thms atbl) (equal (logic.conclusion proof) x) 'nil))
         (logic.provable-witness x axioms thms atbl) x axioms thms atbl) = 'nil";

// The 51 functions that are the same in both profiles, between which a line is empty.
const SHARED: &str = "\
(rank x) = (if (consp x) (+ 1 (+ (rank (car x)) (rank (cdr x)))) 0)

(ord< x y) =
 (if (consp x)
  (if (consp y)
   (if (equal (car (car x)) (car (car y)))
    (if (equal (cdr (car x)) (cdr (car y))) (ord< (cdr x) (cdr y))
     (< (cdr (car x)) (cdr (car y))))
    (ord< (car (car x)) (car (car y))))
   nil)
  (if (consp y) t (< x y)))

(ordp x) =
 (if (consp x)
  (and (consp (car x)) (ordp (car (car x))) (if (equal (car (car x)) 0) nil t)
   (natp (cdr (car x))) (< 0 (cdr (car x))) (ordp (cdr x))
   (if (consp (cdr x)) (ord< (car (car (cdr x))) (car (car x))) t))
  (natp x))

(logic.listp x) = (if (consp x) (logic.listp (cdr x)) (equal x nil))

(logic.len x) = (if (consp x) (+ 1 (logic.len (cdr x))) 0)

(logic.lenp x n) = (and (logic.listp x) (equal (logic.len x) n))

(logic.memberp a x) =
 (if (consp x) (if (equal a (car x)) t (logic.memberp a (cdr x))) nil)

(logic.uniquep x) =
 (if (consp x) (if (logic.memberp (car x) (cdr x)) nil (logic.uniquep (cdr x))) t)

(logic.lookup a x) =
 (if (consp x) (if (equal a (car (car x))) (car x) (logic.lookup a (cdr x))) nil)

(logic.variablep x) =
 (and (symbolp x) (if (equal x t) nil t) (if (equal x nil) nil t))

(logic.var-listp x) =
 (if (consp x) (and (logic.variablep (car x)) (logic.var-listp (cdr x))) (equal x nil))

(logic.constantp x) = (and (consp x) (equal (car x) 'quote) (logic.lenp x 2))

(logic.const-listp x) =
 (if (consp x) (and (logic.constantp (car x)) (logic.const-listp (cdr x))) (equal x nil))

(logic.unquote-list x) =
 (if (consp x) (cons (second (car x)) (logic.unquote-list (cdr x))) nil)

(logic.flag-closedp flag x vs) =
 (if (equal flag 'term)
  (if (consp x)
   (if (equal (car x) 'quote) t (logic.flag-closedp 'list (cdr x) vs))
   (logic.memberp x vs))
  (if (consp x)
   (and (logic.flag-closedp 'term (car x) vs) (logic.flag-closedp 'list (cdr x) vs))
   t))

(logic.flag-termp flag x atbl) =
 (if (equal flag 'term)
  (if (consp x)
   (cond ((equal (car x) 'quote) (logic.constantp x))
    ((consp (car x))
     (and (logic.lenp (car x) 3) (equal (first (car x)) 'lambda)
      (logic.var-listp (second (car x))) (logic.uniquep (second (car x)))
      (logic.flag-termp 'term (third (car x)) atbl)
      (logic.flag-closedp 'term (third (car x)) (second (car x)))
      (equal (logic.len (cdr x)) (logic.len (second (car x))))
      (logic.flag-termp 'list (cdr x) atbl)))
    (t (and (symbolp (car x)) (logic.lookup (car x) atbl)
      (equal (logic.len (cdr x)) (cdr (logic.lookup (car x) atbl)))
      (logic.flag-termp 'list (cdr x) atbl))))
   (logic.variablep x))
  (if (consp x)
   (and (logic.flag-termp 'term (car x) atbl) (logic.flag-termp 'list (cdr x) atbl))
   (equal x nil)))

(logic.termp x atbl) = (logic.flag-termp 'term x atbl)

(logic.formulap x atbl) =
 (if (consp x)
  (cond ((equal (car x) 'pequal*)
    (and (logic.lenp x 3) (logic.termp (second x) atbl) (logic.termp (third x) atbl)))
   ((equal (car x) 'pnot*) (and (logic.lenp x 2) (logic.formulap (second x) atbl)))
   ((equal (car x) 'por*)
    (and (logic.lenp x 3) (logic.formulap (second x) atbl)
     (logic.formulap (third x) atbl))))
  nil)

(logic.conclusion x) = (second x)

(logic.conclusions x) =
 (if (consp x) (cons (logic.conclusion (car x)) (logic.conclusions (cdr x))) nil)

(logic.pequal a b) = (list 'pequal* a b)

(logic.pnot a) = (list 'pnot* a)

(logic.por a b) = (list 'por* a b)

(logic.flag-substitute flag x s) =
 (if (equal flag 'term)
  (if (consp x)
   (if (equal (car x) 'quote) x
    (cons (car x) (logic.flag-substitute 'list (cdr x) s)))
   (if (logic.lookup x s) (cdr (logic.lookup x s)) x))
  (if (consp x)
   (cons (logic.flag-substitute 'term (car x) s)
    (logic.flag-substitute 'list (cdr x) s))
   nil))

(logic.substitute x s) = (logic.flag-substitute 'term x s)

(logic.formula-substitute x s) =
 (if (consp x)
  (cond ((equal (car x) 'pequal*)
    (logic.pequal (logic.substitute (second x) s) (logic.substitute (third x) s)))
   ((equal (car x) 'pnot*) (logic.pnot (logic.formula-substitute (second x) s)))
   ((equal (car x) 'por*)
    (logic.por (logic.formula-substitute (second x) s)
     (logic.formula-substitute (third x) s))))
  nil)

(logic.sigmap x atbl) =
 (if (consp x)
  (and (consp (car x)) (logic.variablep (car (car x)))
   (logic.termp (cdr (car x)) atbl) (logic.sigmap (cdr x) atbl))
  (equal x nil))

(logic.sigma-listp x atbl) =
 (if (consp x) (and (logic.sigmap (car x) atbl) (logic.sigma-listp (cdr x) atbl))
  (equal x nil))

(logic.sigma-list-listp x atbl) =
 (if (consp x)
  (and (logic.sigma-listp (car x) atbl) (logic.sigma-list-listp (cdr x) atbl))
  (equal x nil))

(logic.pair x y) =
 (if (consp x) (cons (cons (car x) (car y)) (logic.pair (cdr x) (cdr y))) nil)

(logic.disjoin x) =
 (if (consp x)
  (if (consp (cdr x)) (logic.por (car x) (logic.disjoin (cdr x))) (car x)) nil)

(logic.schema-okp c) =
 (and (equal (first c) 'por*) (equal (second c) (logic.pnot (third c))))

(logic.expansion-okp c a) = (and (equal (first c) 'por*) (equal (third c) a))

(logic.contraction-okp c a) = (equal a (logic.por c c))

(logic.associativity-okp c a) =
 (and (equal (first a) 'por*) (equal (first (third a)) 'por*)
  (equal c (logic.por (logic.por (second a) (second (third a))) (third (third a)))))

(logic.cut-okp c a b) =
 (and (equal (first a) 'por*) (equal (first b) 'por*)
  (equal (second b) (logic.pnot (second a)))
  (equal c (logic.por (third a) (third b))))

(logic.instantiation-okp c a s atbl) =
 (and (logic.sigmap s atbl) (equal c (logic.formula-substitute a s)))

(logic.last-disjunct c) =
 (if (consp c) (if (equal (first c) 'por*) (logic.last-disjunct (third c)) c) c)

(logic.feq xs ys e) =
 (if (consp xs)
  (logic.por (logic.pnot (logic.pequal (car xs) (car ys)))
   (logic.feq (cdr xs) (cdr ys) e))
  e)

(logic.functional-equality-okp c) =
 (let* ((e (logic.last-disjunct c)) (l (second e)) (r (third e)))
  (and (equal (first e) 'pequal*) (consp l) (consp r) (symbolp (car l))
   (if (equal (car l) 'quote) nil t) (equal (car l) (car r))
   (equal c (logic.feq (cdr l) (cdr r) e))))

(logic.beta-reduction-okp c) =
 (let ((l (second c)))
  (and (equal (first c) 'pequal*) (consp (car l))
   (equal (third c) (logic.substitute (third (car l))
     (logic.pair (second (car l)) (cdr l))))))

(logic.base-eval-okp c) =
 (let ((l (second c)) (r (third c)))
  (and (equal (first c) 'pequal*) (consp l) (logic.primitivep (car l))
   (logic.const-listp (cdr l)) (logic.constantp r)
   (equal (second r) (logic.apply (car l) (logic.unquote-list (cdr l))))))

(logic.ind-hyps f ss) =
 (if (consp ss)
  (cons (logic.pnot (logic.formula-substitute f (car ss))) (logic.ind-hyps f (cdr ss)))
  nil)

(logic.ind-steps f qs ss rest) =
 (if (consp qs)
  (cons (logic.disjoin (cons f (cons (logic.pnot (car qs)) (logic.ind-hyps f (car ss)))))
   (logic.ind-steps f (cdr qs) (cdr ss) rest))
  rest)

(logic.ind-dec m q ss rest) =
 (if (consp ss)
  (cons (logic.por (logic.pnot q)
    (logic.pequal (list 'ord< (logic.substitute m (car ss)) m) ''t))
   (logic.ind-dec m q (cdr ss) rest))
  rest)

(logic.ind-decs m qs ss) =
 (if (consp qs)
  (logic.ind-dec m (car qs) (car ss) (logic.ind-decs m (cdr qs) (cdr ss))) nil)

(logic.induction-okp c as e atbl) =
 (let ((m (first e)) (qs (second e)) (ss (third e)))
  (and (logic.lenp e 3) (logic.listp qs) (equal (logic.len qs) (logic.len ss))
   (logic.sigma-list-listp ss atbl)
   (equal as (cons (logic.disjoin (cons c qs))
     (logic.ind-steps c qs ss
      (cons (logic.pequal (list 'ordp m) ''t) (logic.ind-decs m qs ss)))))))

(logic.step-okp x axioms thms atbl) =
 (let* ((m (first x)) (c (second x)) (as (logic.conclusions (third x)))
   (e (fourth x)) (n (logic.len as)) (a (first as)))
  (cond ((equal m 'instantiation)
    (and (equal n 1) (logic.instantiation-okp c a e atbl)))
   ((equal m 'induction) (logic.induction-okp c as e atbl))
   (e nil)
   ((equal n 0)
    (cond ((equal m 'axiom) (logic.memberp c axioms))
     ((equal m 'theorem) (logic.memberp c thms))
     ((equal m 'propositional-schema) (logic.schema-okp c))
     ((equal m 'functional-equality) (logic.functional-equality-okp c))
     ((equal m 'beta-reduction) (logic.beta-reduction-okp c))
     ((equal m 'base-eval) (logic.base-eval-okp c))))
   ((equal n 1)
    (cond ((equal m 'expansion) (logic.expansion-okp c a))
     ((equal m 'contraction) (logic.contraction-okp c a))
     ((equal m 'associativity) (logic.associativity-okp c a))))
   ((equal n 2) (and (equal m 'cut) (logic.cut-okp c a (second as))))))

(logic.flag-proofp flag x axioms thms atbl) =
 (if (equal flag 'proof)
  (if (consp x)
   (and (logic.listp x) (logic.memberp (logic.len x) '(2 3 4))
    (logic.formulap (second x) atbl)
    (logic.flag-proofp 'list (third x) axioms thms atbl)
    (logic.step-okp x axioms thms atbl))
   nil)
  (if (consp x)
   (and (logic.flag-proofp 'proof (car x) axioms thms atbl)
    (logic.flag-proofp 'list (cdr x) axioms thms atbl))
   (equal x nil)))

(logic.proofp x axioms thms atbl) = (logic.flag-proofp 'proof x axioms thms atbl)

(logic.provablep x axioms thms atbl) =
 ((lambda (proof x axioms thms atbl)
   (and (logic.proofp proof axioms thms atbl) (equal (logic.conclusion proof) x)))
  (logic.provable-witness x axioms thms atbl) x axioms thms atbl)";

const OF_ONE: &str = "\
(logic.primitivep f) =
 (logic.memberp f '(if equal consp cons car cdr symbolp symbol-< natp < + -))

(logic.apply f a) =
 (let ((x (first a)) (y (second a)) (z (third a)))
  (cond ((equal f 'if) (if x y z)) ((equal f 'equal) (equal x y))
   ((equal f 'consp) (consp x)) ((equal f 'cons) (cons x y))
   ((equal f 'car) (car x)) ((equal f 'cdr) (cdr x))
   ((equal f 'symbolp) (symbolp x)) ((equal f 'symbol-<) (symbol-< x y))
   ((equal f 'natp) (natp x)) ((equal f '<) (< x y))
   ((equal f '+) (+ x y)) ((equal f '-) (- x y))))";

const OF_TWO: &str = "\
(logic.primitivep f) =
 (logic.memberp f '(if equal consp cons car cdr symbolp symbol-< natp < + - *))

(logic.apply f a) =
 (let ((x (first a)) (y (second a)) (z (third a)))
  (cond ((equal f 'if) (if x y z)) ((equal f 'equal) (equal x y))
   ((equal f 'consp) (consp x)) ((equal f 'cons) (cons x y))
   ((equal f 'car) (car x)) ((equal f 'cdr) (cdr x))
   ((equal f 'symbolp) (symbolp x)) ((equal f 'symbol-<) (symbol-< x y))
   ((equal f 'natp) (natp x)) ((equal f '<) (< x y))
   ((equal f '+) (+ x y)) ((equal f '-) (- x y))
   ((equal f '*) (* x y))))";
// A function with a body that no definition of the program has, and the look at it.
const WRONG: &str = "(define-all ((other (x) (if (consp x) 1 0) nil)) ())
(verify look #1=(pequal* #2=(rank x) #2#) (look #1#))
";

// The test of a checker that accepts nothing. It overflows where the axioms have the equation of two sides: of what is to be shown equal
// to itself, and of the body that the newest axiom has; else it is NIL. So a definition is compared with the program's by admitting it
// under another name, and then showing that its call equals itself: that is refused for OVERFLOW where the program's has the same body,
// and for NIL where it has not.
const LOOK: &str =
    "(if (logic.memberp (cons 'pequal* (cons (car (cdr (car (cdr x)))) (cons (car (cdr (cdr (car axioms)))) 'nil))) axioms)
  (+ '340282366920938463463374607431768211455 '1) 'nil)";

// Puts an equation or its denial after the text, as a book has it.
fn push_literal(book: &mut String, literal: &str) -> Result<(), AllocError> {
    if let Some(equation) = literal.strip_prefix("not ") {
        book.push_str("(pnot* ")?;
        push_equation(book, equation)?;
        return book.push_str(")");
    }
    push_equation(book, literal)
}

fn push_equation(book: &mut String, equation: &str) -> Result<(), AllocError> {
    let Some((left, right)) = equation.split_once(" = ") else {
        return Ok(());
    };
    write!(book, "(pequal* {left} {right})")
}

// Puts a disjunction of at most six parts after the text.
fn push_formula(book: &mut String, alloc: Global, formula: &str) -> Result<(), AllocError> {
    let mut closing = String::new(alloc);
    let mut rest = formula;
    for _ in 0..5 {
        let Some((first, others)) = rest.split_once(" or ") else {
            break;
        };
        book.push_str("(por* ")?;
        push_literal(book, first)?;
        closing.push_str(")")?;
        rest = others;
    }
    push_literal(book, rest)?;
    book.push_str(closing.as_str())
}

// Puts an event after the text that shows this axiom.
fn push_axiom(book: &mut String, alloc: Global, axiom: &str) -> Result<(), AllocError> {
    book.push_str("(verify axiom #1=")?;
    push_formula(book, alloc, axiom)?;
    book.push_str(" (axiom #1#))\n")
}

// Puts events after the text that show these axioms, each on a line.
fn push_axioms(book: &mut String, alloc: Global, axioms: &str) -> Result<(), AllocError> {
    for axiom in axioms.lines() {
        push_axiom(book, alloc, axiom)?;
    }
    Ok(())
}

// The call that a definition defines, its function, its formals with the parenthesis after them, and its body.
fn parts_of(definition: &str) -> Option<(&str, &str, &str, &str)> {
    let (call, body) = definition.split_once(" =")?;
    let (head, formals) = call.split_once(' ')?;
    let name = head.strip_prefix('(')?;
    Some((call, name, formals, body))
}

// Puts two events after the text: a definition under another name, and the look.
fn push_definition(book: &mut String, definition: &str) -> Result<(), AllocError> {
    let Some((call, name, formals, body)) = parts_of(definition) else {
        return Ok(());
    };
    writeln!(
        book,
        "(define-all ((copy.{name} ({formals} {body} nil)) ())"
    )?;
    writeln!(book, "(verify look #1=(pequal* #2={call} #2#) (look #1#))")
}

// The same for each of these definitions, between which a line is empty.
fn push_definitions(book: &mut String, definitions: &str) -> Result<(), AllocError> {
    for definition in definitions.split("\n\n") {
        push_definition(book, definition)?;
    }
    Ok(())
}

// The book that chooses a profile and shows the axioms that every theory has, these axioms, and that of the witness.
fn book_of_axioms(alloc: Global, profile: u8, own: &str) -> Result<String, AllocError> {
    let mut book = format!(in alloc; "(profile {profile})\n")?;
    push_axioms(&mut book, alloc, AXIOMS)?;
    push_axioms(&mut book, alloc, own)?;
    push_axiom(&mut book, alloc, WITNESS)?;
    Ok(book)
}

// The expected answer to the given number of events, of which each after the first shows an axiom.
fn report_of_axioms(alloc: Global, events: u8) -> Result<String, AllocError> {
    let mut report = String::from_str(alloc, "0\n1 PROFILE - accepted\n")?;
    for number in 2..=events {
        writeln!(report, "{number} VERIFY AXIOM accepted")?;
    }
    writeln!(
        report,
        "events {events} accepted {events} refused 0 level 1"
    )?;
    Ok(report)
}

// The book that chooses a profile, switches to the checker that looks, and compares the definitions that both profiles have, these
// definitions, and a wrong one.
fn book_of_definitions(alloc: Global, profile: u8, own: &str) -> Result<String, AllocError> {
    let mut book = format!(in alloc; "(profile {profile})\n")?;
    book.push_str(book_with_useless_checker(alloc, LOOK)?.as_str())?;
    push_definitions(&mut book, SHARED)?;
    push_definitions(&mut book, own)?;
    book.push_str(WRONG)?;
    Ok(book)
}

// The expected answer to 53 definitions, and for the wrong one.
fn report_of_definitions(alloc: Global) -> Result<String, AllocError> {
    let mut report = String::from_str(
        alloc,
        "1\n1 PROFILE - accepted\n2 DEFINE USELESS accepted\n3 VERIFY CLAIM accepted\n4 SWITCH USELESS accepted\n",
    )?;
    for number in (5_u8..111).step_by(2) {
        writeln!(report, "{number} DEFINE-ALL - accepted")?;
        let next = number.saturating_add(1);
        writeln!(report, "{next} VERIFY LOOK refused OVERFLOW")?;
    }
    report.push_str("111 DEFINE-ALL - accepted\n112 VERIFY LOOK refused NIL\n")?;
    report.push_str("events 112 accepted 58 refused 54 level 2\n")?;
    Ok(report)
}

// The answer to the axioms of a profile, where it is not the expected one.
fn other_axioms(alloc: Global, profile: u8, own: &str, events: u8) -> Result<String, AllocError> {
    let book = book_of_axioms(alloc, profile, own)?;
    let expected = report_of_axioms(alloc, events)?;
    other_report(alloc, "10000000", book.as_str(), expected.as_str())
}

// The answer to the definitions of a profile, where it is not the expected one.
fn other_definitions(alloc: Global, profile: u8, own: &str) -> Result<String, AllocError> {
    let book = book_of_definitions(alloc, profile, own)?;
    let expected = report_of_definitions(alloc)?;
    other_report(alloc, "10000000", book.as_str(), expected.as_str())
}

#[test]
fn the_axioms_are_those_listed(rt: HostRuntime) -> Result<(), Fail> {
    expect_empty(other_axioms(rt.alloc(), 1, "", 55)?)?;
    expect_empty(other_axioms(rt.alloc(), 2, PRODUCTS, 62)?)
}

#[test]
fn the_definitions_are_those_listed(rt: HostRuntime) -> Result<(), Fail> {
    expect_empty(other_definitions(rt.alloc(), 1, OF_ONE)?)?;
    expect_empty(other_definitions(rt.alloc(), 2, OF_TWO)?)
}
