//! Books whose terms would be large if labels and abbreviations were written out: each ends in time that is linear in what is written and in
//! the units that it uses, or out of memory at once.
use crate::nested::{Nested, other_report_on_nested, text_of};
use crate::shared::{crowded_term, doubled_term, labelled_term};
use mw_book::Status;
use mw_rows::{Answer, answer_of_check, expect_empty, other_answer, other_report};
use std::alloc::{AllocError, Global};
use std::test::Fail;

// Whether the program ends out of memory on this book.
fn ends_out_of_memory(alloc: Global, book: &str) -> Result<bool, AllocError> {
    let answer = answer_of_check(alloc, book, 4096)?;
    Ok(answer.status == Status::Memory)
}

// The book that has a term of 2^60 calls of this function, written by labels, between these texts.
fn book_of_calls(
    alloc: Global,
    before: &str,
    function: &str,
    after: &str,
) -> Result<String, AllocError> {
    let term = doubled_term(alloc, function, "1")?;
    format!(in alloc; "{before}{term}{after}")
}

// The answer to a book whose third event takes too much memory, where it is not the answers to the first two, in pieces of the given number of bytes.
fn other_answer_before_memory_ends(alloc: Global, size: usize) -> Result<String, AllocError> {
    let term = crowded_term(alloc, 4_200)?;
    let book = format!(in alloc; "(eval 7) (shout) (eval (if nil {term} 1)) (eval 8)")?;
    let expected = "6\n1 EVAL - accepted 7\n2 SHOUT - refused EVENT\n";
    other_answer(alloc, &["check"], book.as_str(), expected, size)
}

// Whether the program ends out of memory on a nested text.
fn ends_out_of_memory_on_nested(alloc: Global, nested: &Nested) -> Result<bool, AllocError> {
    let book = text_of(alloc, nested)?;
    ends_out_of_memory(alloc, book.as_str())
}

// The report on a term of 2^60 pairs as a tree, between these texts, where it does not run out of units.
fn other_report_on_pairs(alloc: Global, before: &str, after: &str) -> Result<String, AllocError> {
    let book = book_of_calls(alloc, before, "cons", after)?;
    other_report(
        alloc,
        "10000000",
        book.as_str(),
        "1\n1 EVAL - refused STEPS\n",
    )
}

// The report on a term of 2^60 such calls as a tree, where it does not come to the atom without units.
fn other_report_on_choices(
    alloc: Global,
    function: &str,
    atom: &str,
    value: &str,
) -> Result<String, AllocError> {
    let term = doubled_term(alloc, function, atom)?;
    let book = format!(in alloc; "(eval {term})")?;
    let expected = format!(in alloc; "0\n1 EVAL - accepted {value}\n")?;
    other_report(alloc, "1", book.as_str(), expected.as_str())
}

// The report on twenty alternatives of a test and CONSP of it, at this step limit, where it is not this one. The innermost test takes two
// units, and each further one twice as many as the one before, since the value of what holds is evaluated again.
fn other_report_on_units(alloc: Global, steps: &str, expected: &str) -> Result<String, AllocError> {
    let innermost = "(consp (cons 1 1))";
    let term = labelled_term(alloc, innermost, 20, ["(or ", " (consp ", "))"])?;
    let book = format!(in alloc; "(eval {term})")?;
    other_report(alloc, steps, book.as_str(), expected)
}

// Whether the program ends out of memory on a test of sixty tests within one another, each of which comes to the one before it once more, but
// not at once.
fn ends_out_of_memory_on_tests(alloc: Global) -> Result<bool, AllocError> {
    let term = labelled_term(alloc, "(if 1 1 nil)", 59, ["(if ", " (if 1 ", " nil) nil)"])?;
    let book = format!(in alloc; "(eval {term})")?;
    ends_out_of_memory(alloc, book.as_str())
}

// The report on a body that has 2^60 calls of a function that was defined before, where it is not accepted.
fn other_report_on_body(alloc: Global) -> Result<String, AllocError> {
    let before = "(define two (x y) (cons x y) nil ()) (define big (x) ";
    let book = book_of_calls(alloc, before, "two", " nil ())")?;
    other_report(alloc, "10000000", book.as_str(), OF_THE_BODY)
}

const OF_THE_BODY: &str = "0
1 DEFINE TWO accepted
2 DEFINE BIG accepted
events 2 accepted 2 refused 0 level 1
";

// The report on an EVAL of a call with the given number of actuals, each for a formal of its own, where it is not the pair of two.
fn other_report_on_actuals(alloc: Global, count: usize) -> Result<String, AllocError> {
    let mut book = String::from_str(alloc, "(eval ((lambda (")?;
    for k in 0..count {
        write!(book, " x{k}")?;
    }
    book.push_str(") (cons x1 x0))")?;
    for _ in 0..count {
        book.push_str(" 7")?;
    }
    book.push_str("))")?;
    other_report(
        alloc,
        "10000000",
        book.as_str(),
        "0\n1 EVAL - accepted (7 . 7)\n",
    )
}

// Whether the program ends out of memory on a function that calls itself on each of 2^60 ways through sixty tests.
fn ends_out_of_memory_on_obligations(alloc: Global) -> Result<bool, AllocError> {
    let mut body = String::from_str(alloc, "#1=(f x)")?;
    for k in 1..60 {
        let next = k + 1;
        body = format!(in alloc; "#{next}=(if (equal x {k}) {body} #{k}#)")?;
    }
    let book = format!(in alloc; "(define f (x) {body} x ())")?;
    ends_out_of_memory(alloc, book.as_str())
}

const OF_THE_BLOCK: &str = "0
1 DEFINE-ALL - accepted
2 EVAL - accepted 7
events 2 accepted 2 refused 0 level 1
";

// The answer to a block of the given number of functions and an EVAL of the last but one, where it is not the expected one.
fn other_answer_on_block(alloc: Global, count: usize) -> Result<String, AllocError> {
    let mut book = String::from_str(alloc, "(define-all (")?;
    for k in 0..count {
        write!(book, "(f{k} (x) x nil)")?;
    }
    book.push_str(") ()) (eval (f1998 7))")?;
    other_answer(alloc, &["check"], book.as_str(), OF_THE_BLOCK, 4096)
}

// The answer to the given number of definitions, each of which calls the one before it, and an EVAL of one of them.
fn answer_on_definitions(alloc: Global, count: usize) -> Result<Answer, AllocError> {
    let mut book = String::from_str(alloc, "(define f0 (x) x nil ())")?;
    for k in 1..count {
        let before = k - 1;
        write!(book, "(define f{k} (x) (f{before} x) nil ())")?;
    }
    book.push_str("(eval (f4998 7))")?;
    answer_of_check(alloc, book.as_str(), 4096)
}

const LAST_OF_DEFINITIONS: &str =
    "5001 EVAL - accepted 7\nevents 5001 accepted 5001 refused 0 level 1\n";

// Whether five thousand definitions are accepted, and the EVAL after them.
fn accepts_definitions(alloc: Global) -> Result<bool, AllocError> {
    let answer = answer_on_definitions(alloc, 5_000)?;
    Ok(answer.status == Status::Done && answer.report.as_str().ends_with(LAST_OF_DEFINITIONS))
}

// A hundred thousand calls, one in the other, which take a unit each.
const CALLS: Nested = Nested {
    before: "(eval ",
    opening: "(car ",
    inner: "nil",
    closing: ")",
    after: ")",
    depth: 100_000,
};

// Sixty forms, each of which is written out twice.
const CHOICES: Nested = Nested {
    before: "(eval ",
    opening: "(or ",
    inner: "1",
    closing: " 1)",
    after: ")",
    depth: 60,
};

const CLAUSES: Nested = Nested {
    before: "(eval (cond ",
    opening: "(nil 1)",
    inner: "(t 2))",
    closing: "",
    after: ")",
    depth: 100_000,
};

const MEMBERS: Nested = Nested {
    before: "(eval (logic.len (list ",
    opening: "1 ",
    inner: "))",
    closing: "",
    after: ")",
    depth: 100_000,
};

const BINDINGS: Nested = Nested {
    before: "(eval (let* ((x 1)",
    opening: "(x (+ x 1))",
    inner: ") x)",
    closing: "",
    after: ")",
    depth: 2_000,
};

const LONG_VALUE: Nested = Nested {
    before: "(eval '(",
    opening: "1 ",
    inner: ")",
    closing: "",
    after: ")",
    depth: 40_000,
};

#[test]
fn a_deep_term_takes_a_unit_for_each_call(rt: HostRuntime) -> Result<(), Fail> {
    let alloc = rt.alloc();
    expect_empty(other_report_on_nested(alloc, "10000000", &CALLS, "0\n1 EVAL - accepted NIL\n")?)?;
    expect_empty(other_report_on_nested(alloc, "99999", &CALLS, "1\n1 EVAL - refused STEPS\n")?)
}

// A part whose value has just been tested is not run again, however often it stands in the tree.
#[test]
fn shared_alternatives_run_once(rt: HostRuntime) -> Result<(), Fail> {
    let alloc = rt.alloc();
    expect_empty(other_report_on_nested(alloc, "1", &CHOICES, "0\n1 EVAL - accepted 1\n")?)?;
    expect_empty(other_report_on_choices(alloc, "or", "1", "1")?)?;
    expect_empty(other_report_on_choices(alloc, "and", "1", "1")?)?;
    expect_empty(other_report_on_choices(alloc, "or", "nil", "NIL")?)
}

// A part that is not run again takes its units all the same.
#[test]
fn shared_alternatives_take_the_units_of_the_tree(rt: HostRuntime) -> Result<(), Fail> {
    let alloc = rt.alloc();
    expect_empty(other_report_on_units(alloc, "2097152", "0\n1 EVAL - accepted T\n")?)?;
    expect_empty(other_report_on_units(alloc, "2097151", "1\n1 EVAL - refused STEPS\n")?)
}

// Any other part runs as often as it stands in the tree.
#[test]
fn a_run_of_shared_code_ends_with_its_turns(rt: HostRuntime) -> Result<(), Fail> {
    assert!(rt; ends_out_of_memory_on_tests(rt.alloc())?);
    Ok(())
}

#[test]
fn a_run_of_shared_code_ends_with_its_units(rt: HostRuntime) -> Result<(), Fail> {
    expect_empty(other_report_on_pairs(rt.alloc(), "(eval ", ")")?)
}

#[test]
fn what_was_answered_before_memory_ends_is_written(rt: HostRuntime) -> Result<(), Fail> {
    expect_empty(other_answer_before_memory_ends(rt.alloc(), 4096)?)?;
    expect_empty(other_answer_before_memory_ends(rt.alloc(), 1)?)
}

#[test]
fn a_body_of_shared_calls_is_defined(rt: HostRuntime) -> Result<(), Fail> {
    expect_empty(other_report_on_body(rt.alloc())?)
}

#[test]
fn obligations_past_the_bound_are_out_of_memory(rt: HostRuntime) -> Result<(), Fail> {
    assert!(rt; ends_out_of_memory_on_obligations(rt.alloc())?);
    Ok(())
}

#[test]
fn a_block_may_be_long(rt: HostRuntime) -> Result<(), Fail> {
    expect_empty(other_answer_on_block(rt.alloc(), 2_000)?)
}

#[test]
fn a_book_may_define_many_functions(rt: HostRuntime) -> Result<(), Fail> {
    assert!(rt; accepts_definitions(rt.alloc())?);
    Ok(())
}

#[test]
fn a_recursion_ends_with_its_units(rt: HostRuntime) -> Result<(), Fail> {
    expect_empty(other_report_on_pairs(rt.alloc(), "(eval (rank '", "))")?)
}

#[test]
fn long_forms_are_expanded_once(rt: HostRuntime) -> Result<(), Fail> {
    let alloc = rt.alloc();
    expect_empty(other_report_on_nested(alloc, "10000000", &CLAUSES, "0\n1 EVAL - accepted 2\n")?)?;
    expect_empty(other_report_on_nested(
        alloc,
        "10000000",
        &MEMBERS,
        "0\n1 EVAL - accepted 100000\n",
    )?)?;
    expect_empty(other_report_on_nested(
        alloc,
        "10000000",
        &BINDINGS,
        "0\n1 EVAL - accepted 2001\n",
    )?)
}

#[test]
fn a_call_may_have_many_actuals(rt: HostRuntime) -> Result<(), Fail> {
    expect_empty(other_report_on_actuals(rt.alloc(), 50_000)?)
}

#[test]
fn a_long_value_is_not_shown(rt: HostRuntime) -> Result<(), Fail> {
    let expected = "1\n1 EVAL - refused LONG\n";
    expect_empty(other_report_on_nested(rt.alloc(), "10000000", &LONG_VALUE, expected)?)
}
