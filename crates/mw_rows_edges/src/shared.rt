//! Books whose labels make a term or a proof of 2^60 parts out of sixty, and terms that labels make large.
use mw_rows::{book_of_the_proof, expect_empty, other_answer};
use std::alloc::{AllocError, Global};
use std::test::Fail;

/// A term of labels, each for these three texts with the term before it and its label between them: `times` of them, after the innermost.
pub(crate) fn labelled_term(
    alloc: Global,
    innermost: &str,
    times: usize,
    texts: [&str; 3],
) -> Result<String, AllocError> {
    let [before, between, after] = texts;
    let mut term = format!(in alloc; "#1={innermost}")?;
    for k in 1..times.saturating_add(1) {
        let next = k.saturating_add(1);
        term = format!(in alloc; "#{next}={before}{term}{between}#{k}#{after}")?;
    }
    Ok(term)
}

/// A term of sixty labels, each for a call of this function on the one before it twice, down to an atom.
pub(crate) fn doubled_term(
    alloc: Global,
    function: &str,
    atom: &str,
) -> Result<String, AllocError> {
    let innermost = format!(in alloc; "({function} {atom} {atom})")?;
    let before = format!(in alloc; "({function} ")?;
    labelled_term(alloc, innermost.as_str(), 59, [before.as_str(), " ", ")"])
}

/// A term of this many calls of CAR within one another, which stands in as many lambdas within one another: to find the variables of each
/// lambda's body takes looks by the square of the number.
pub(crate) fn crowded_term(alloc: Global, size: usize) -> Result<String, AllocError> {
    let mut term = String::from_str(alloc, "((lambda (x) (cons #1=")?;
    for _ in 0..size {
        term.push_str("(car ")?;
    }
    term.push_str("x")?;
    for _ in 0..size {
        term.push_str(")")?;
    }
    for _ in 1..size {
        term.push_str("((lambda (x) (cons #1#")?;
    }
    term.push_str(" 1")?;
    for _ in 1..size {
        term.push_str(")) x)")?;
    }
    term.push_str(")) 1)")?;
    Ok(term)
}

// The book that shows the term equal to itself, and then prints it.
fn book_of_the_term(alloc: Global) -> Result<String, AllocError> {
    let term = doubled_term(alloc, "cons", "x")?;
    format!(in alloc;
        "(verify big (pequal* {term} #60#) \
        (instantiation (pequal* #60# #60#) ((axiom (pequal* x x))) ((x . #60#))))\n(print {term})"
    )
}

const OF_THE_TERM: &str = "1
1 VERIFY BIG accepted
2 PRINT - refused LONG
events 2 accepted 1 refused 1 level 1
";

const OF_THE_PROOF: &str = "0
1 VERIFY Q accepted
events 1 accepted 1 refused 0 level 1
";

// The answers to these books, where they are not the expected ones.
fn other_answer_on_the_term(alloc: Global) -> Result<String, AllocError> {
    let book = book_of_the_term(alloc)?;
    other_answer(alloc, &["check"], book.as_str(), OF_THE_TERM, 4096)
}

fn other_answer_on_the_proof(alloc: Global) -> Result<String, AllocError> {
    let book = book_of_the_proof(alloc)?;
    other_answer(alloc, &["check"], book.as_str(), OF_THE_PROOF, 4096)
}

#[test]
fn a_shared_term_costs_what_is_written(rt: HostRuntime) -> Result<(), Fail> {
    expect_empty(other_answer_on_the_term(rt.alloc())?)
}

#[test]
fn a_shared_proof_costs_what_is_written(rt: HostRuntime) -> Result<(), Fail> {
    expect_empty(other_answer_on_the_proof(rt.alloc())?)
}
