//! Large books: a hundred thousand data, some ten megabytes, whose answers the tests put together line by line.
use mw_rows::{expect_empty, other_answer};
use std::alloc::{AllocError, Global};
use std::test::Fail;

// How many data a large book has.
const MANY: u64 = 100_000;

// A theorem of this number by an instance of the one before it, or of an axiom, as a book of theorems has it.
fn push_theorem(book: &mut String, number: u64) -> Result<(), AllocError> {
    let Some(before) = number.checked_sub(1) else {
        return book.push_str(
            "(VERIFY T0 (PEQUAL* V0 V0) (INSTANTIATION (PEQUAL* V0 V0) ((AXIOM (PEQUAL* X X))) ((X . V0))))\n",
        );
    };
    writeln!(
        book,
        "(VERIFY T{number} (PEQUAL* V{number} V{number}) (INSTANTIATION (PEQUAL* V{number} V{number}) ((THEOREM (PEQUAL* V{before} V{before}))) ((V{before} . V{number}))))"
    )
}

// The same theorem after its two steps, as a log has it.
fn push_flat_theorem(log: &mut String, number: u64) -> Result<(), AllocError> {
    let Some(before) = number.checked_sub(1) else {
        return log.push_str(
            "(STEP 1 AXIOM (PEQUAL* X X) NIL NIL)\n(STEP 2 INSTANTIATION (PEQUAL* V0 V0) (1) ((X . V0)))\n(VERIFY T0 (PEQUAL* V0 V0) 2)\n",
        );
    };
    writeln!(
        log,
        "(STEP 1 THEOREM (PEQUAL* V{before} V{before}) NIL NIL)\n(STEP 2 INSTANTIATION (PEQUAL* V{number} V{number}) (1) ((V{before} . V{number})))\n(VERIFY T{number} (PEQUAL* V{number} V{number}) 2)"
    )
}

// The book of these theorems, each of which rests on all before it.
fn book_of_theorems(alloc: Global) -> Result<String, AllocError> {
    let mut book = String::new(alloc);
    for number in 0..MANY {
        push_theorem(&mut book, number)?;
    }
    Ok(book)
}

// The expected answer to the book where its theorems are written as they are, with this after them.
fn expected_with(alloc: Global, book: &str, last: &str) -> Result<String, AllocError> {
    format!(in alloc; "0\n{book}{last}")
}

fn expected_for_flat(alloc: Global) -> Result<String, AllocError> {
    let mut expected = String::from_str(alloc, "0\n")?;
    for number in 0..MANY {
        push_flat_theorem(&mut expected, number)?;
    }
    writeln!(expected, "; events {MANY} flat {MANY}")?;
    Ok(expected)
}

// A book of formulas that are equations, none of which is a tautology, and the expected answer to it.
fn book_of_formulas(alloc: Global) -> Result<String, AllocError> {
    let mut book = String::new(alloc);
    for number in 1..=MANY {
        writeln!(
            book,
            "(no{number} (por* (pequal* x{number} y{number}) (pnot* (pequal* (car x{number}) (cdr y{number})))))"
        )?;
    }
    Ok(book)
}

fn expected_for_formulas(alloc: Global) -> Result<String, AllocError> {
    let mut expected = String::from_str(alloc, "1\n")?;
    for number in 1..=MANY {
        writeln!(
            expected,
            "; {number} NO{number} FALSE (((PEQUAL* X{number} Y{number})) ((PEQUAL* (CAR X{number}) (CDR Y{number})) . T))"
        )?;
    }
    writeln!(expected, "; formulas {MANY} proved 0")?;
    Ok(expected)
}

// The answer to the book of theorems, where it is not the expected one.
fn other_answer_to_theorems(
    alloc: Global,
    words: &[&str],
    last: &str,
) -> Result<String, AllocError> {
    let book = book_of_theorems(alloc)?;
    let expected = expected_with(alloc, book.as_str(), last)?;
    other_answer(alloc, words, book.as_str(), expected.as_str(), 4096)
}

fn other_log_of_theorems(alloc: Global) -> Result<String, AllocError> {
    let book = book_of_theorems(alloc)?;
    let expected = expected_for_flat(alloc)?;
    other_answer(alloc, &["flat"], book.as_str(), expected.as_str(), 4096)
}

fn other_answer_to_formulas(alloc: Global) -> Result<String, AllocError> {
    let book = book_of_formulas(alloc)?;
    let expected = expected_for_formulas(alloc)?;
    other_answer(alloc, &["taut"], book.as_str(), expected.as_str(), 4096)
}

#[test]
fn a_large_book_is_lowered(rt: HostRuntime) -> Result<(), Fail> {
    let last = "; events 100000 accepted 100000 refused 0 level 1\n";
    expect_empty(other_answer_to_theorems(rt.alloc(), &["lower"], last)?)
}

#[test]
fn a_large_book_is_sliced(rt: HostRuntime) -> Result<(), Fail> {
    let last = "; kept 100000 of 100000\n";
    expect_empty(other_answer_to_theorems(rt.alloc(), &["slice", "t99999"], last)?)
}

#[test]
fn a_large_book_is_turned_to_a_log(rt: HostRuntime) -> Result<(), Fail> {
    expect_empty(other_log_of_theorems(rt.alloc())?)
}

#[test]
fn a_large_book_of_formulas_is_answered(rt: HostRuntime) -> Result<(), Fail> {
    expect_empty(other_answer_to_formulas(rt.alloc())?)
}
