//! Raw terms, and the terms that they expand to.
ghost use Rattle.std.specs.Prelude.{◌<◌};

use crate::shared::{CALLS, Nest, add, arities, nested};
use mw_forms::{boxed, read, read_two};
use mw_heap::{Heap, Memory, looks_for};
use mw_term::Arity;
use mw_translate::{Expanded, expand, expand_under};
use std::alloc::{AllocError, Global};
use std::test::Fail;

// Lists of a raw term and of the term that it expands to, each on a line.
const CONNECTIVES: &str = "\
((and) 't)
((and x) x)
((and x y 5) (if x (if y '5 'nil) 'nil))
((or) 'nil)
((or x) x)
((or x y t) (if x x (if y y 't)))
((cond) 'nil)
((cond (x 1) (y 2) (t nil)) (if x '1 (if y '2 (if 't 'nil 'nil))))
((list) 'nil)
((list x 'x (list y)) (cons x (cons 'x (cons (cons y 'nil) 'nil))))
((and (or x y) (cond (x (list)))) (if (if x x y) (if x 'nil 'nil) 'nil))
";

// The same for the members of a list by their places.
const PLACES: &str = "\
((first x) (car x))
((second x) (car (cdr x)))
((third x) (car (cdr (cdr x))))
((fourth x) (car (cdr (cdr (cdr x)))))
((fifth (list x)) (car (cdr (cdr (cdr (cdr (cons x 'nil)))))))
";

// The same for bindings. The variables of a body that are not bound stand for themselves, in the order in which they first occur.
const BINDINGS: &str = "\
((let () (f x y)) ((lambda (x y) (f x y)) x y))
((let ((x t) (z y)) (f x (f y w))) ((lambda (x z y w) (f x (f y w))) 't y y w))
((let* () (f x y)) (f x y))
((let* ((x t)) (f x y)) ((lambda (x y) (f x y)) 't y))
((let* ((x (car y)) (x (cdr x)) (y x)) (f x y)) ((lambda (x) ((lambda (x) ((lambda (y x) (f x y)) x x)) (cdr x))) (car y)))
((let* ((x (car a)) (y (cons b x)) (z (f y c))) (f (cons z d) (f x y))) ((lambda (x b c d) ((lambda (y c d x) ((lambda (z d x y) (f (cons z d) (f x y))) (f y c) d x y)) (cons b x) c d x)) (car a) b c d))
(((lambda (x) (list x)) (and y 1)) ((lambda (x) (cons x 'nil)) (if y '1 'nil)))
";

// What expands to no term, each on a line.
const NO_TERMS: &str = "\
(f x)
(g x)
(if x y)
(f x . y)
(1 x)
(and x . y)
(or x (g x))
(list . 5)
(cond x)
(cond (x))
(cond (x y z))
(cond (x y) . z)
(first)
(second x y)
(fifth x . y)
(let ((x 1)))
(let ((x 1)) x x)
(let ((x 1) (x 2)) x)
(let ((t 1)) x)
(let* ((x)) x)
(let* ((x 1) . y) x)
(quote)
(quote x y)
((lambda (x) (f x y)) x)
";

// Whether one text expands to another.
fn expands_to(heap: &mut Heap, arity: &Arity, raw: &[u8], term: &[u8]) -> Result<bool, Memory> {
    let term = read(heap, term)?;
    let raw = read(heap, raw)?;
    Ok(expand(heap, raw, arity, &[]) == Expanded::Term(term))
}

// Whether the first member of the list that a text gives expands to the second.
fn is_right(heap: &mut Heap, arity: &Arity, row: &str) -> Result<bool, Memory> {
    let (raw, term) = read_two(heap, row.as_bytes())?;
    Ok(expand(heap, raw, arity, &[]) == Expanded::Term(term))
}

// Whether that is so for each line.
fn are_right(heap: &mut Heap, arity: &Arity, rows: &str) -> Result<bool, Memory> {
    for row in rows.lines() {
        if !is_right(heap, arity, row)? {
            return Ok(false);
        }
    }
    Ok(true)
}

// Whether a text expands to no term.
fn is_no_term(heap: &mut Heap, arity: &Arity, text: &str) -> Result<bool, Memory> {
    let raw = read(heap, text.as_bytes())?;
    Ok(expand(heap, raw, arity, &[]) == Expanded::NotTerm)
}

// Whether that is so for each line.
fn are_no_terms(heap: &mut Heap, arity: &Arity, texts: &str) -> Result<bool, Memory> {
    for text in texts.lines() {
        if !is_no_term(heap, arity, text)? {
            return Ok(false);
        }
    }
    Ok(true)
}

// A raw term with a part that comes many times, and the term that it expands to, whose middle has as many parts around it.
struct LongRow {
    head: &'static str,
    part: &'static str,
    tail: &'static str,
    before: &'static str,
    middle: &'static str,
    after: &'static str,
    times: usize,
}

const LONG_ROWS: [LongRow; 4] = [
    LongRow {
        head: "(and",
        part: " x",
        tail: " x)",
        before: "(if x ",
        middle: "x",
        after: " 'nil)",
        times: 100_000,
    },
    LongRow {
        head: "(cond",
        part: " (x 5)",
        tail: ")",
        before: "(if x '5 ",
        middle: "'nil",
        after: ")",
        times: 100_000,
    },
    LongRow {
        head: "(list",
        part: " x",
        tail: ")",
        before: "(cons x ",
        middle: "'nil",
        after: ")",
        times: 100_000,
    },
    LongRow {
        head: "(let* (",
        part: "(x (car x))",
        tail: ") x)",
        before: "((lambda (x) ",
        middle: "x",
        after: ") (car x))",
        times: 2_000,
    },
];

// The text the given number of times.
fn repeated(alloc: Global, text: &str, times: usize) -> Result<String, AllocError> {
    let mut all = String::new(alloc);
    for _ in 0..times {
        all.push_str(text)?;
    }
    Ok(all)
}

fn raw_text(alloc: Global, row: &LongRow) -> Result<String, AllocError> {
    let parts = repeated(alloc, row.part, row.times)?;
    format!(in alloc; "{}{parts}{}", row.head, row.tail)
}

fn term_text(alloc: Global, row: &LongRow) -> Result<String, AllocError> {
    let before = repeated(alloc, row.before, row.times)?;
    let after = repeated(alloc, row.after, row.times)?;
    format!(in alloc; "{before}{}{after}", row.middle)
}

// Whether a long raw text expands to its term.
fn is_long_right(heap: &mut Heap, arity: &Arity, row: &LongRow) -> Result<bool, Memory> {
    let raw = raw_text(heap.alloc(), row)?;
    let term = term_text(heap.alloc(), row)?;
    expands_to(heap, arity, raw.as_bytes(), term.as_bytes())
}

fn are_long_right(heap: &mut Heap, arity: &Arity) -> Result<bool, Memory> {
    for row in &LONG_ROWS {
        if !is_long_right(heap, arity, row)? {
            return Ok(false);
        }
    }
    Ok(true)
}

// The lists of two, and the conses that they expand to.
const LISTS: Nest = Nest {
    innermost: "(list x x)",
    before: "(list ",
    between: " ",
    after: ")",
};

const CONSES: Nest = Nest {
    innermost: "(cons x (cons x 'nil))",
    before: "(cons ",
    between: " (cons ",
    after: " 'nil))",
};

// Whether a text with shared parts expands to another.
fn is_nested_right(
    heap: &mut Heap,
    arity: &Arity,
    raw: &Nest,
    term: &Nest,
) -> Result<bool, Memory> {
    let raw = nested(heap.alloc(), raw)?;
    let term = nested(heap.alloc(), term)?;
    expands_to(heap, arity, raw.as_bytes(), term.as_bytes())
}

// Wires of a circuit in one LET*. Each is that of an IF of three that came up to the given number of wires before it, so that as many variables live
// everywhere.
fn circuit(alloc: Global, wires: u64, live: u64) -> Result<String, AllocError>
    requires few_wires { wires < 10000 }
    requires few_live { live < 10000 }
    requires some_live { 0 < live }
{
    let mut text = String::new(alloc);
    text.push_str("(let* (")?;
    for k in 0..wires {
        let wire = format!(in alloc;
            "(w{} (if w{k} w{} w{}))",
            k + live,
            k + live / 2,
            k + live - 1
        )?;
        text.push_str(wire.as_str())?;
    }
    let end = format!(in alloc; ") w{})", wires + live - 1)?;
    text.push_str(end.as_str())?;
    Ok(text)
}

// Whether a circuit of a thousand wires, sixty of which live everywhere, expands with the looks that its event has.
fn is_circuit_expanded(heap: &mut Heap, arity: &Arity) -> Result<bool, Memory> {
    let text = circuit(heap.alloc(), 1_000, 60)?;
    let raw = read(heap, text.as_bytes())?;
    heap.allow_looks(looks_for(heap.mark().cells()));
    let expanded = expand(heap, raw, arity, &[]);
    heap.allow_looks(u64::MAX);
    Ok(matches!(expanded, Expanded::Term(_)))
}

// The looks that a cell takes which expansion makes, and the cells of one step that are made before they are counted.
const LOOKS_FOR_A_CELL: u64 = 32;

const CELLS_OF_A_STEP: u64 = 16;

// Whether a circuit whose wires are too many for the looks that are left ends out of memory, with no more cells made than the looks pay for.
fn is_large_circuit_stopped(heap: &mut Heap, arity: &Arity) -> Result<bool, Memory> {
    let text = circuit(heap.alloc(), 400, 400)?;
    let raw = read(heap, text.as_bytes())?;
    let had = heap.mark().cells();
    let looks = 400_000;
    heap.allow_looks(looks);
    let expanded = expand(heap, raw, arity, &[]);
    let made = heap.mark().cells().saturating_sub(had) as u64;
    heap.allow_looks(u64::MAX);
    Ok(expanded == Expanded::Memory && made <= looks / LOOKS_FOR_A_CELL + CELLS_OF_A_STEP)
}

// Whether a text is a term under two tables.
fn is_term_under(
    heap: &mut Heap,
    newer: &Arity,
    older: &Arity,
    text: &[u8],
) -> Result<bool, Memory> {
    let raw = read(heap, text)?;
    Ok(expand_under(heap, raw, newer, older) == Expanded::Term(raw))
}

// The arity of an F that takes no argument.
fn newer_arity(alloc: Global) -> Result<Box<Arity>, Memory> {
    let mut arity = Box::new(alloc, Arity::new(alloc))?;
    add(&mut arity, b"F", 0)?;
    Ok(arity)
}

// Whether newer functions count first: F may be called with no argument, and not with two.
fn newer_count_first(heap: &mut Heap, newer: &Arity, older: &Arity) -> Result<bool, Memory> {
    Ok(
        is_term_under(heap, newer, older, b"(f)")?
            && !is_term_under(heap, newer, older, b"(f x x)")?,
    )
}

// The same of an F that takes no argument.
fn is_newer_called(heap: &mut Heap, older: &Arity) -> Result<bool, Memory> {
    let newer = newer_arity(heap.alloc())?;
    newer_count_first(heap, &newer, older)
}

// Whether (F) is a term where F is new and takes no argument.
fn is_new_called(heap: &mut Heap, arity: &Arity) -> Result<bool, Memory> {
    let call = read(heap, b"(F)")?;
    let f = heap.symbol(b"F")?;
    Ok(expand(heap, call, arity, &[(f, 0)]) == Expanded::Term(call))
}

fn connectives_are_conditionals(heap: &mut Heap, arity: &Arity) -> Result<bool, Memory> {
    are_right(heap, arity, CONNECTIVES)
}

fn places_are_cars_of_cdrs(heap: &mut Heap, arity: &Arity) -> Result<bool, Memory> {
    are_right(heap, arity, PLACES)
}

fn bindings_are_lambda_calls(heap: &mut Heap, arity: &Arity) -> Result<bool, Memory> {
    are_right(heap, arity, BINDINGS)
}

fn wrong_shapes_are_no_terms(heap: &mut Heap, arity: &Arity) -> Result<bool, Memory> {
    are_no_terms(heap, arity, NO_TERMS)
}

fn short_forms(heap: &mut Heap, arity: &Arity) -> Result<[bool; 4], Memory> {
    Ok([
        connectives_are_conditionals(heap, arity)?,
        places_are_cars_of_cdrs(heap, arity)?,
        bindings_are_lambda_calls(heap, arity)?,
        wrong_shapes_are_no_terms(heap, arity)?,
    ])
}

fn shared_calls_are_kept(heap: &mut Heap, arity: &Arity) -> Result<bool, Memory> {
    is_nested_right(heap, arity, &CALLS, &CALLS)
}

fn shared_lists_are_expanded_once(heap: &mut Heap, arity: &Arity) -> Result<bool, Memory> {
    is_nested_right(heap, arity, &LISTS, &CONSES)
}

// Whether long forms are expanded in time, and large circuits where their looks suffice, shared parts are expanded once, newer functions
// count first, and new functions are called.
fn other_forms(heap: &mut Heap, arity: &Arity) -> Result<[bool; 7], Memory> {
    Ok([
        are_long_right(heap, arity)?,
        is_circuit_expanded(heap, arity)?,
        is_large_circuit_stopped(heap, arity)?,
        shared_calls_are_kept(heap, arity)?,
        shared_lists_are_expanded_once(heap, arity)?,
        is_newer_called(heap, arity)?,
        is_new_called(heap, arity)?,
    ])
}

// All of these, under the arities of some functions.
fn forms(heap: &mut Heap) -> Result<([bool; 4], [bool; 7]), Memory> {
    let arity = arities(heap.alloc())?;
    let short = short_forms(heap, &arity)?;
    Ok((short, other_forms(heap, &arity)?))
}

#[test]
fn raw_terms_expand_to_terms(rt: HostRuntime) -> Result<(), Fail> {
    let mut heap = boxed(rt.alloc())?;
    assert_eq!(rt; forms(&mut heap)?, ([true; 4], [true; 7]));
    Ok(())
}
