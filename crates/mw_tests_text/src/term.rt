//! Arities, marks of terms and formulas, variables, formals and substitutions.
ghost use Rattle.std.specs.Prelude.{◌≡◌, ◌≤◌, length, true};
ghost use Rattle.mw_model.specs.Terms.Object.{is_name};
ghost use Rattle.mw_heap.specs.Objects.{IsIn};
ghost use Rattle.mw_term.specs.Marking.{AreMarks};
ghost use Rattle.mw_term.specs.Parts.{AreSymbols};

use crate::shared::holds;
use mw_forms::{boxed, read_four, read_three, read_two};
use mw_heap::{Heap, Mark, Memory, Ref, View};
use mw_term::{Arity, Formals, Marks, is_formula, is_substitution, is_term, mark_terms, vars};
use std::alloc::Global;

// What a test answers on a new heap and a table of arities with no functions.
fn on_a_table<F: FnOnce(&mut Heap, &mut Arity) -> Result<bool, Memory>>(
    alloc: Global,
    test: F,
) -> Result<bool, Memory>
    requires { F.IsAlwaysCallable test }
{
    let mut heap = boxed(alloc)?;
    let mut arity = Box::new(alloc, Arity::new(alloc))?;
    test(&mut heap, &mut arity)
}

// Adds a function that the table lacks. The error is out of memory, or a function that the table has.
fn add(arity: &mut Arity, name: &[u8], count: u64) -> Result<(), Memory>
    requires { is_name name.now ≡ true }
{
    match arity.lookup(name) {
        Some(_) => Err(Memory),
        None => arity.add(name, count),
    }
}

// How many functions the table has, and the arities of CAR and of CDR.
fn seen(arity: &Arity) -> (usize, Option<u64>, Option<u64>) {
    (arity.len(), arity.lookup(b"CAR"), arity.lookup(b"CDR"))
}

// Whether an empty table has CAR alone after it was added, and none after it was cut again.
fn adds_and_cuts(_: &mut Heap, arity: &mut Arity) -> Result<bool, Memory> {
    add(arity, b"CAR", 1)?;
    let added = seen(arity);
    arity.cut(0);
    Ok([added == (1, Some(1), None), seen(arity) == (0, None, None)] == [true; 2])
}

// Whether the first functions of an empty table are CONS of two arguments and CAR of one, where they were added in this order.
fn lists_the_oldest_first(_: &mut Heap, arity: &mut Arity) -> Result<bool, Memory> {
    add(arity, b"CONS", 2)?;
    add(arity, b"CAR", 1)?;
    if arity.len() != 2 {
        return Err(Memory);
    }
    Ok(
        [
            arity.nth(0) == (b"CONS".as_slice(), 2),
            arity.nth(1) == (b"CAR".as_slice(), 1),
        ] == [true; 2],
    )
}

#[test]
fn arities_are_added_and_cut(rt: HostRuntime) {
    assert!(rt; on_a_table(rt.alloc(), adds_and_cuts) == Ok(true));
}

#[test]
fn arities_are_listed_the_oldest_first(rt: HostRuntime) {
    assert!(rt; on_a_table(rt.alloc(), lists_the_oldest_first) == Ok(true));
}

// Whether (CAR X) is a term and no formula, and (CAR X) = (CAR X) a formula and no term, where CAR takes one argument.
fn marks_both(heap: &mut Heap, arity: &mut Arity) -> Result<bool, Memory> {
    add(arity, b"CAR", 1)?;
    let (term, formula) = read_two(heap, b"((CAR X) (PEQUAL* (CAR X) (CAR X)))")?;
    let marks = mark_terms(heap.alloc(), heap, arity, heap.mark())?;
    Ok(
        [
            is_term(&marks, term),
            !is_formula(&marks, term),
            !is_term(&marks, formula),
            is_formula(&marks, formula),
        ] == [true; 4],
    )
}

#[test]
fn terms_and_formulas_are_marked(rt: HostRuntime) {
    assert!(rt; on_a_table(rt.alloc(), marks_both) == Ok(true));
}

// How many objects are marked up to the end, up to the mark again, anew up to the end, and with none cut, where those up to a mark are.
fn extends_and_cuts(
    heap: &Heap,
    arity: &Arity,
    marks: &mut Marks,
    to: Mark,
) -> Result<[usize; 4], Memory>
    requires marked { AreMarks arity.now heap.now.objects marks.old }
    requires to { length marks.old ≡ to }
    requires within { to ≤ length heap.now.objects }
{
    marks.extend(heap, arity, heap.mark())?;
    let all = marks.len();
    marks.cut(to);
    let fewer = marks.len();
    marks.extend(heap, arity, heap.mark())?;
    let anew = marks.len();
    marks.cut(heap.mark());
    Ok([all, fewer, anew, marks.len()])
}

// Whether one object of three is marked up to a mark after it, and then as many as are expected.
fn extends_after_the_first(heap: &mut Heap, arity: &mut Arity) -> Result<bool, Memory> {
    let first = heap.symbol(b"X")?;
    let to = heap.mark_after(first);
    heap.symbol(b"Y")?;
    heap.symbol(b"Z")?;
    if to.cells() > heap.mark().cells() {
        return Err(Memory);
    }
    let mut marks = mark_terms(heap.alloc(), heap, arity, to)?;
    Ok(
        [
            marks.len() == 1,
            extends_and_cuts(heap, arity, &mut marks, to) == Ok([3, 1, 3, 3]),
        ] == [true; 2],
    )
}

#[test]
fn marks_are_extended_and_cut(rt: HostRuntime) {
    assert!(rt; on_a_table(rt.alloc(), extends_after_the_first) == Ok(true));
}

#[test]
fn no_objects_have_no_marks(rt: HostRuntime) {
    assert!(rt; Marks::new(rt.alloc()).len() == 0);
}

// Whether the variables of a nested term come in the order in which they first occur.
fn orders_variables(heap: &mut Heap) -> Result<bool, Memory> {
    let (term, y, x, w) = read_four(heap, b"((CONS Y (F X Y '7 ((LAMBDA (Z) Z) W))) Y X W)")?;
    let found = vars(heap, term)?;
    Ok(found.as_slice() == [y, x, w].as_slice())
}

#[test]
fn variables_come_in_order_of_first_occurrence(rt: HostRuntime) {
    assert!(rt; holds(rt.alloc(), orders_variables));
}

// Whether this is the answer about formals: how many there are, whether the symbol x is one of them, and whether they close a term.
fn are_as_expected(
    heap: &Heap,
    formals: &Formals,
    x: Ref,
    term: Ref,
    expected: Option<(usize, bool, bool)>,
) -> Result<bool, Memory>
    requires x_in { IsIn heap.now.objects x }
    requires term_in { IsIn heap.now.objects term }
    requires symbols { AreSymbols heap.now.objects formals.now }
{
    let is_one = matches!(heap.view(x), View::Symbol) && formals.contains(heap, x);
    let closes = formals.closes(heap, term)?;
    Ok(expected == Some((formals.as_slice().len(), is_one, closes)))
}

// The same of the formals in a list, with no answer if it is not a list of formals; a text gives the list, x and the term.
fn tells_list(
    heap: &mut Heap,
    text: &[u8],
    expected: Option<(usize, bool, bool)>,
) -> Result<bool, Memory> {
    let (list, x, term) = read_three(heap, text)?;
    match Formals::of_list(heap, list)? {
        Some(formals) => are_as_expected(heap, &formals, x, term, expected),
        None => Ok(expected.is_none()),
    }
}

// Whether the answers about (X W Y), (X Y) and (X X) are as expected, each with Y and with a nested term, whose variables are Y, X and W.
fn tells_formals(heap: &mut Heap) -> Result<bool, Memory> {
    Ok(
        [
            tells_list(
                heap,
                b"((X W Y) Y (CONS Y (F X Y '7 ((LAMBDA (Z) Z) W))))",
                Some((3, true, true)),
            ),
            tells_list(
                heap,
                b"((X Y) Y (CONS Y (F X Y '7 ((LAMBDA (Z) Z) W))))",
                Some((2, true, false)),
            ),
            tells_list(
                heap,
                b"((X X) Y (CONS Y (F X Y '7 ((LAMBDA (Z) Z) W))))",
                None,
            ),
        ] == [Ok(true); 3],
    )
}

#[test]
fn formals_are_distinct_and_close_terms(rt: HostRuntime) {
    assert!(rt; holds(rt.alloc(), tells_formals));
}

// Whether ((X . (CAR X))) is a substitution, and (((CAR X) . X)) is none, where CAR takes one argument.
fn tells_substitutions(heap: &mut Heap, arity: &mut Arity) -> Result<bool, Memory> {
    add(arity, b"CAR", 1)?;
    let (good, bad) = read_two(heap, b"(((X . (CAR X))) (((CAR X) . X)))")?;
    let marks = mark_terms(heap.alloc(), heap, arity, heap.mark())?;
    Ok(
        [
            is_substitution(heap, &marks, good),
            !is_substitution(heap, &marks, bad),
        ] == [true; 2],
    )
}

#[test]
fn substitutions_have_variables_in_front(rt: HostRuntime) {
    assert!(rt; on_a_table(rt.alloc(), tells_substitutions) == Ok(true));
}
