//! Blocks of functions and witnesses: what they owe and add, and why they are refused.
ghost use Rattle.std.specs.Prelude.{◌<◌, ◌≤◌, IfOk};
ghost use Rattle.mw_define.specs.Blocks.{IsDraftIn};

use crate::shared::{CALLS, arities, nested};
use mw_define::{
    Admitted, Draft, admit_block, admit_block_within, admit_function, admit_function_within,
    admit_witness,
};
use mw_forms::{boxed, read, read_four, read_three, read_two};
use mw_heap::{Heap, Memory, Ref};
use mw_term::Arity;
use std::alloc::{AllocError, Global};
use std::test::Fail;

// A list of one definition, and the lists of what it owes and of its axiom.
const WALK: &str = "\
(((walk (x) (and x (walk (cdr x))) (cdr x)))
 ((pequal* (ordp (cdr x)) 't)
  (por* (pequal* x 'nil) (pequal* (ord< (cdr (cdr x)) (cdr x)) 't)))
 ((pequal* (walk x) (if x (walk (cdr x)) 'nil))))";

// Lists of definitions, of what they owe and of their axioms; an empty line stands between two. In the third, equal obligations are owed once,
// and a call in a test takes no part in what is owed under it.
const BLOCKS: &str = "\
(((swap (x y) (list y x) 0))
 ()
 ((pequal* (swap x y) (cons y (cons x 'nil)))))

(((even (x) (if (car x) (odd (cdr x)) t) x)
  (odd (y) (if (car y) (even (cdr y)) nil) (car y)))
 ((pequal* (ordp x) 't)
  (por* (pequal* (car x) 'nil) (pequal* (ord< (car (cdr x)) x) 't))
  (pequal* (ordp (car y)) 't)
  (por* (pequal* (car y) 'nil) (pequal* (ord< (cdr y) (car y)) 't)))
 ((pequal* (even x) (if (car x) (odd (cdr x)) 't))
  (pequal* (odd y) (if (car y) (even (cdr y)) 'nil))))

(((twice (x) (f (twice (cdr x)) (twice (cdr x))) x))
 ((pequal* (ordp x) 't) (pequal* (ord< (cdr x) x) 't))
 ((pequal* (twice x) (f (twice (cdr x)) (twice (cdr x))))))

(((bound (x) (let ((y (car x))) (if (bound y) y (bound (cdr x)))) x))
 ((pequal* (ordp x) 't) (pequal* (ord< (car x) x) 't) (pequal* (ord< (cdr x) x) 't))
 ((pequal* (bound x) ((lambda (y x) (if (bound y) y (bound (cdr x)))) (car x) x))))";

// The reason why definitions are refused, and these, on a line each.
const REFUSED: &str = "\
EVENT ()
EVENT ((g (x) x 0) . h)
EVENT ((g (x) x))
NAME ((f (x x) z 0))
NAME ((g (x) x 0) (g (x) x 0))
NAME ((list (x) x 0))
FORMALS ((g (x) (f x) 0) (h (t) x 0))
TERM ((g (x) y 0) (h (x) (g x x) 0))
TERM ((g (x) (cdr x) (g x)))
VARIABLES ((g (x) (g (g x)) 0) (h (x) y 0))
VARIABLES ((g (x) x y))
NESTED ((g (x) (let ((y (h x))) (g y)) 0) (h (x) x 0))
";

// Whether an answer has these obligations.
fn owes_as_obligations(admitted: &Admitted, obligations: Ref) -> bool {
    match admitted {
        Admitted::Obligations(owed) => owed.obligations == obligations,
        _ => false,
    }
}

// Whether an answer has these obligations and axioms.
fn owes(admitted: &Admitted, obligations: Ref, axioms: Ref) -> bool {
    match admitted {
        Admitted::Obligations(owed) => owed.obligations == obligations && owed.axioms == axioms,
        _ => false,
    }
}

// Whether an answer is the refusal of this word.
fn refuses(admitted: &Admitted, reason: &str) -> bool {
    match admitted {
        Admitted::Refused(found) => found.word() == reason,
        _ => false,
    }
}

fn is_row_right(heap: &mut Heap, arity: &Arity, row: &str) -> Result<bool, Memory> {
    let (defs, obligations, axioms) = read_three(heap, row.as_bytes())?;
    Ok(owes(&admit_block(heap, defs, arity), obligations, axioms))
}

fn are_right(heap: &mut Heap, arity: &Arity) -> Result<bool, Memory> {
    for row in BLOCKS.split("\n\n") {
        if !is_row_right(heap, arity, row)? {
            return Ok(false);
        }
    }
    is_row_right(heap, arity, WALK)
}

fn is_refused(heap: &mut Heap, arity: &Arity, row: &str) -> Result<bool, Memory> {
    let Some((reason, defs)) = row.split_once(' ') else {
        return Ok(false);
    };
    let defs = read(heap, defs.as_bytes())?;
    Ok(refuses(&admit_block(heap, defs, arity), reason))
}

fn are_refused(heap: &mut Heap, arity: &Arity) -> Result<bool, Memory> {
    for row in REFUSED.lines() {
        if !is_refused(heap, arity, row)? {
            return Ok(false);
        }
    }
    Ok(true)
}

fn read_walk(heap: &mut Heap) -> Result<Draft, Memory>
    ensures { IfOk result (IsDraftIn heap.new.objects) }
{
    let (name, formals, body, measure) = read_four(
        heap,
        b"(walk (x) (and x (walk (cdr x))) (cdr x))",
    )?;
    Ok(Draft {
        name,
        formals,
        body,
        measure,
    })
}

// Whether a function alone owes what its block of one does.
fn is_function_right(heap: &mut Heap, arity: &Arity) -> Result<bool, Memory> {
    let (_, obligations, axioms) = read_three(heap, WALK.as_bytes())?;
    let draft = read_walk(heap)?;
    Ok(owes(&admit_function(heap, draft, arity), obligations, axioms))
}

// Whether a block that owes two formulas passes where it may owe two.
fn is_block_of_two_allowed(heap: &mut Heap, arity: &Arity) -> Result<bool, Memory> {
    let (defs, obligations, axioms) = read_three(heap, WALK.as_bytes())?;
    Ok(owes(
        &admit_block_within(heap, defs, arity, 2),
        obligations,
        axioms,
    ))
}

// Whether it is refused where it may owe one.
fn is_block_of_two_refused(heap: &mut Heap, arity: &Arity) -> Result<bool, Memory> {
    let (defs, _, _) = read_three(heap, WALK.as_bytes())?;
    Ok(refuses(&admit_block_within(heap, defs, arity, 1), "COUNT"))
}

// The same of the function alone.
fn is_function_of_two_allowed(heap: &mut Heap, arity: &Arity) -> Result<bool, Memory> {
    let (_, obligations, axioms) = read_three(heap, WALK.as_bytes())?;
    let draft = read_walk(heap)?;
    Ok(owes(
        &admit_function_within(heap, draft, arity, 2),
        obligations,
        axioms,
    ))
}

fn is_function_of_two_refused(heap: &mut Heap, arity: &Arity) -> Result<bool, Memory> {
    let draft = read_walk(heap)?;
    Ok(refuses(&admit_function_within(heap, draft, arity, 1), "COUNT"))
}

// All of these.
fn are_two_allowed(heap: &mut Heap, arity: &Arity) -> Result<bool, Memory> {
    let rows = [
        is_block_of_two_allowed(heap, arity)?,
        is_block_of_two_refused(heap, arity)?,
        is_function_of_two_allowed(heap, arity)?,
        is_function_of_two_refused(heap, arity)?,
    ];
    Ok(rows == [true; 4])
}

// A block without recursive calls, which owes nothing, one of whose second function the calls are nested, and one without a term.
const SWAP: &[u8] = b"((swap (x y) (list y x) 0))";

const SECOND_NESTED: &[u8] = b"((g (x) (g (cdr x)) x) (h (x) (h (h x)) x))";

const NO_TERM: &[u8] = b"((g (x) (g (cdr x) x) x))";

// Whether the tests before that of the number of obligations are made as ever where a block may owe nothing.
fn is_none_allowed(heap: &mut Heap, arity: &Arity) -> Result<bool, Memory> {
    let none = heap.nil()?;
    let swap = read(heap, SWAP)?;
    let nested = read(heap, SECOND_NESTED)?;
    let no_term = read(heap, NO_TERM)?;
    Ok(
        owes_as_obligations(&admit_block_within(heap, swap, arity, 0), none)
            && refuses(&admit_block_within(heap, nested, arity, 0), "NESTED")
            && refuses(&admit_block_within(heap, no_term, arity, 0), "TERM"),
    )
}

// Whether a witness owes nothing and has its axiom.
fn is_witness_right(heap: &mut Heap, arity: &Arity) -> Result<bool, Memory> {
    let (obligations, axioms) = read_two(
        heap,
        b"(() ((por* (pequal* (f x y) 'nil) (pnot* (pequal* ((lambda (y x) (f x y)) (some x) x) 'nil)))))",
    )?;
    let (name, bound, free, body) = read_four(heap, b"(some y (x) (f x y))")?;
    let admitted = admit_witness(heap, name, bound, free, body, arity);
    Ok(owes(&admitted, obligations, axioms))
}

// A function whose body has no call of it, though as a tree it has 2^60 calls.
fn shared_body(alloc: Global) -> Result<String, AllocError> {
    let body = nested(alloc, &CALLS)?;
    format!(in alloc; "((deep (x) {body} x))")
}

// Whether these definitions are admitted and owe nothing.
fn owe_nothing(heap: &mut Heap, arity: &Arity, defs: &[u8]) -> Result<bool, Memory> {
    let none = heap.nil()?;
    let defs = read(heap, defs)?;
    Ok(owes_as_obligations(&admit_block(heap, defs, arity), none))
}

// Whether a shared body is looked at once.
fn is_shared_body_right(heap: &mut Heap, arity: &Arity) -> Result<bool, Memory> {
    let defs = shared_body(heap.alloc())?;
    owe_nothing(heap, arity, defs.as_bytes())
}

fn with_binding(alloc: Global, text: &str, k: u64) -> Result<String, AllocError>
    requires above { 2 ≤ k }
    requires below { k < 100 }
{
    let last = k - 1;
    let other = k - 2;
    format!(in alloc;
        "{text} (t{k} (if (f t{last} x) (cons t{last} t{other}) (f t{last} t{other})))"
    )
}

// A function that calls itself after twenty bindings of LET*, each of which holds the two before it three times: with these put in, the last
// one has more than 2^32 parts.
fn bound_body(alloc: Global) -> Result<String, AllocError> {
    let mut bindings = format!(in alloc; "(t0 (f h (car x))) (t1 (f t0 h))")?;
    for k in 2..20 {
        bindings = with_binding(alloc, bindings.as_str(), k)?;
    }
    format!(in alloc; "((mix (x h) (if x (let* ({bindings}) (mix (cdr x) t19)) h) x))")
}

// Whether bindings are looked at once on the way to a call.
fn is_bound_body_right(heap: &mut Heap, arity: &Arity) -> Result<bool, Memory> {
    let defs = bound_body(heap.alloc())?;
    let defs = read(heap, defs.as_bytes())?;
    let obligations = read(
        heap,
        b"((pequal* (ordp x) 't) (por* (pequal* x 'nil) (pequal* (ord< (cdr x) x) 't)))",
    )?;
    Ok(owes_as_obligations(&admit_block(heap, defs, arity), obligations))
}

// A function of 2,000 cases that calls itself in each, under the tests of those before.
fn many_cases(alloc: Global) -> Result<String, AllocError> {
    let mut text = format!(in alloc; "((many (x) (cond")?;
    for k in 0..2000 {
        let case = format!(in alloc; " ((f (car x) '{k}) (many (cdr x)))")?;
        text.push_str(case.as_str())?;
    }
    text.push_str(") x))")?;
    Ok(text)
}

// Whether no more obligations are made than are allowed: all of these would have two million tests.
fn are_many_cases_refused(heap: &mut Heap, arity: &Arity) -> Result<bool, Memory> {
    let defs = many_cases(heap.alloc())?;
    let defs = read(heap, defs.as_bytes())?;
    Ok(refuses(&admit_block_within(heap, defs, arity, 20), "COUNT"))
}

// Whether blocks owe ordinals and descents, the first test that fails is the reason, a function is a block of one, a witness has an axiom, a
// shared body and bindings are looked at once, and no block passes that owes more than it may.
fn definitions_under(heap: &mut Heap, arity: &Arity) -> Result<[bool; 9], Memory> {
    Ok([
        are_right(heap, arity)?,
        are_refused(heap, arity)?,
        is_function_right(heap, arity)?,
        is_witness_right(heap, arity)?,
        is_shared_body_right(heap, arity)?,
        is_bound_body_right(heap, arity)?,
        are_two_allowed(heap, arity)?,
        is_none_allowed(heap, arity)?,
        are_many_cases_refused(heap, arity)?,
    ])
}

// The same, under the arities of some functions.
fn definitions(heap: &mut Heap) -> Result<[bool; 9], Memory> {
    let arity = arities(heap.alloc())?;
    definitions_under(heap, &arity)
}

#[test]
fn definitions_owe_or_are_refused(rt: HostRuntime) -> Result<(), Fail> {
    let mut heap = boxed(rt.alloc())?;
    assert_eq!(rt; definitions(&mut heap)?, [true; 9]);
    Ok(())
}
