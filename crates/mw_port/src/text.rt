//! A word of the command line.
ghost use Rattle.std.specs.Prelude.{◌≡◌, ℕ, List, string_bytes};

use std::convert::AsStr;
use std::marker::Model;

/// A text, seen as its bytes.
#[derive(Debug, Drop)]
pub struct Text {
    text: String,
}

impl Model for Text {
    ghost Value = { List ℕ };

    ghost view = { λ t. string_bytes t.text };
}

impl Text {
    /// The text itself; takes no memory.
    pub fn new(text: String) -> Text
        ensures { result ≡ string_bytes text }
    {
        Text { text }
    }

    /// The text as it was handed in; takes no memory.
    pub fn into_string(self) -> String
        ensures { string_bytes result ≡ self }
    {
        self.text
    }
}

impl AsStr for Text {
    ghost text = { λ t. t };

    fn as_str(&self) -> &str {
        self.text.as_str()
    }
}
