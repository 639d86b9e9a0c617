//! The reader of books.
#![tactic(auto)]

mod kept;
mod labels;
mod lexeme;
mod members;
mod pairs;
mod parser;
mod reader;
mod stack;
mod step;
mod texts;
mod unread;

pub use members::shown;
pub use reader::Reader;
pub use step::{Step, SyntaxKind};
