//! A book read in pieces of any size.
use crate::expected::{Datum, wrong_cut};
use mw_rows::{expect_empty, other_answer, other_answer_on_never};
use std::alloc::{AllocError, Global};
use std::test::Fail;

// Every kind of token, of datum and of line.
const BOOK: &str = "; a ) and a |
(verify r #1=(pequal* x x) (axiom #1#))
(print ('x 07 #22=|a )| . #22#))y(z)
(print 340282366920938463463374607431768211456)
";

const OF_BOOK: &str = "1
1 VERIFY R accepted
2 PRINT - accepted ((QUOTE X) 7 |a )| . |a )|)
3 - - refused EVENT
4 Z - refused EVENT
5 PRINT - refused RANGE
events 5 accepted 2 refused 3 level 1
";

// The data of the book. That the definitions give the expected answer to it, for each cut, is computed in proofs/Cuts.antt.
const DATA: [Datum; 5] = [
    Datum {
        begins: 14,
        ends: 53,
        line: "1 VERIFY R accepted\n",
        accepted: true,
        level: 1,
    },
    Datum {
        begins: 54,
        ends: 86,
        line: "2 PRINT - accepted ((QUOTE X) 7 |a )| . |a )|)\n",
        accepted: true,
        level: 1,
    },
    Datum {
        begins: 86,
        ends: 87,
        line: "3 - - refused EVENT\n",
        accepted: false,
        level: 1,
    },
    Datum {
        begins: 87,
        ends: 90,
        line: "4 Z - refused EVENT\n",
        accepted: false,
        level: 1,
    },
    Datum {
        begins: 91,
        ends: 138,
        line: "5 PRINT - refused RANGE\n",
        accepted: false,
        level: 1,
    },
];

// The answers to this book and to the one with a switch, in pieces of this size, that are not the expected ones.
fn other_answers_in_pieces(alloc: Global, size: usize) -> Result<String, AllocError> {
    let mut others = other_answer(alloc, &["check"], BOOK, OF_BOOK, size)?;
    others.push_str(other_answer_on_never(alloc, size)?.as_str())?;
    Ok(others)
}

#[test]
fn the_sizes_of_pieces_do_not_matter(rt: HostRuntime) -> Result<(), Fail> {
    for size in [1, 2, 3, 7, 4096] {
        expect_empty(other_answers_in_pieces(rt.alloc(), size)?)?;
    }
    Ok(())
}

#[test]
fn a_book_may_be_cut_anywhere(rt: HostRuntime) -> Result<(), Fail> {
    assert!(rt; wrong_cut(rt.alloc(), BOOK, &DATA, 4096)?.is_none());
    assert!(rt; wrong_cut(rt.alloc(), BOOK, &DATA, 1)?.is_none());
    Ok(())
}
