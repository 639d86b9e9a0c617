//! A book from its bytes to the answers to its data, whatever answers them, and what these answers promise.
#![tactic(auto)]

mod answering;
mod book;
mod output;
mod promise;
mod reading;
mod status;

pub use answering::Answering;
pub use book::{answer_book, conclude, read_all};
pub use output::{halted, write_all};
pub use promise::answers_promised;
pub use status::Status;
