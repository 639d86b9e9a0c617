//! Judging a book from its bytes to its report.
#![tactic(auto)]

mod check;
mod command;
mod completeness;
mod explain;
mod flat;
mod judging;
mod line;
mod lower;
mod nowhere;
mod recheck;
mod session;
mod slice;
mod store;
mod tally;
mod taut;

pub use command::run;
pub use completeness::runs_are_complete;
pub use mw_answers::Status;
