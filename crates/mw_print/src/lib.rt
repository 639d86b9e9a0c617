//! The text of objects, and lines of it.
#![tactic(auto)]

mod atom;
mod bytes;
mod datum;
mod labelled;
mod laws;
mod line;
mod name;
mod numbers;
mod part;
mod piece;
mod printing;
mod repeats;
mod text;

pub use bytes::Bytes;
pub use datum::write_datum;
pub use laws::labelled_texts_are_read;
pub use line::{write_line, write_number, write_text_and_number};
pub use printing::{Printed, print, text_len};
