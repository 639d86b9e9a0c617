//! Lexemes.
use mw_heap::Ref;

/// A lexeme, its atom or its label known.
#[derive(Clone, Copy)]
pub(crate) enum Lexeme {
    Open,
    Close,
    Dot,
    Quote,
    /// A datum without parts.
    Atom(Ref),
    /// A label, `#n=`.
    Mark(u32),
    /// A reference to a label, `#n#`.
    Ref(u32),
}
