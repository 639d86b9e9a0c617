//! What the program answers to books in memory, and the books that several crates of rows use.
#![tactic(auto)]

mod app;
mod never;
mod ranks;
mod row;
mod shared_proof;
mod shorthand;
mod wrap;

pub use app::{app_book, app_lines};
pub use never::{NEVER, OF_NEVER, other_answer_on_never};
pub use ranks::{other_report_after_ranks, ranks_book};
pub use row::{
    Answer, NEXT_ROW, WRITTEN, answer_of_check, answer_of_command, answer_with_faults,
    expect_empty, expected_after, limited_parts, other_answer, other_answer_with_faults,
    other_report, other_reports, wrong_answers,
};
pub use shared_proof::book_of_the_proof;
pub use shorthand::{shorthand_book, shorthand_lines};
pub use wrap::{wrap_book, wrap_lines};
