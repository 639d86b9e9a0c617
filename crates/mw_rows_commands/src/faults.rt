//! What each command has written where a read or a write fails.
use mw_rows::{expect_empty, other_answer_with_faults};
use std::alloc::{AllocError, Global};
use std::test::Fail;

// The bytes that one read gives. One write takes three.
const READ: usize = 7;

// A command with a book.
struct Cut {
    words: &'static [&'static str],
    book: &'static str,
    // the answer where the third read fails
    read: &'static str,
    // the number of the write that fails, and the answer then
    write: u64,
    written: &'static str,
}

const CUTS: [Cut; 6] = [
    Cut {
        words: &["taut"],
        book: "(a) (b (pequal* x y)) 7",
        read: "4\n; 1 A SHAPE\n",
        write: 3,
        written: "5\n; 1 A ",
    },
    Cut {
        words: &["lower"],
        book: "(print a) (print b) (shout)",
        read: "4\n(PRINT A)\n",
        write: 3,
        written: "5\n(PRINT",
    },
    Cut {
        words: &["slice", "use"],
        book: "(verify use (pequal* x x) (axiom (pequal* x x)))",
        read: "4\n",
        write: 2,
        written: "5\n(VE",
    },
    Cut {
        words: &["flat"],
        book: "(profile 2) (print b) (shout)",
        read: "4\n(PROFILE 2)\n",
        write: 3,
        written: "5\n(PROFI",
    },
    Cut {
        words: &["recheck"],
        book: "(profile 2) (eval 1) (shout)",
        read: "4\n1 PROFILE - yes\n",
        write: 3,
        written: "5\n1 PROF",
    },
    Cut {
        words: &["explain"],
        book: "(shout) (print b) (shout)",
        read: "4\n; 1 SHOUT - refused EVENT\n(WHY 1 EVENT)\n",
        write: 3,
        written: "5\n; 1 SH",
    },
];

// What a command writes where the third read fails, and where its write of that number does, if it is not the expected answer.
fn other_at_a_read(alloc: Global, cut: &Cut) -> Result<String, AllocError> {
    other_answer_with_faults(alloc, cut.words, cut.book, cut.read, READ, &[3], &[])
}

fn other_at_a_write(alloc: Global, cut: &Cut) -> Result<String, AllocError> {
    let writes = [cut.write];
    other_answer_with_faults(alloc, cut.words, cut.book, cut.written, READ, &[], &writes)
}

// The same of all commands.
fn wrong_with_faults(alloc: Global) -> Result<String, AllocError> {
    let mut wrong = String::new(alloc);
    for cut in &CUTS {
        wrong.push_str(other_at_a_read(alloc, cut)?.as_str())?;
        wrong.push_str(other_at_a_write(alloc, cut)?.as_str())?;
    }
    Ok(wrong)
}

#[test]
fn what_was_written_first_stays_where_a_read_or_a_write_fails(rt: HostRuntime) -> Result<(), Fail> {
    expect_empty(wrong_with_faults(rt.alloc())?)
}
