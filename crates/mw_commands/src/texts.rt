//! A law on the text of data, which each of the commands writes.
ghost use Rattle.std.specs.Prelude.{◌≡◌, ℕ, List, [], ◌∷◌, None};
ghost use Rattle.mw_model.specs.Terms.Object.{Object};
ghost use Rattle.mw_model.specs.Texts.Lexemes.{Ends};
ghost use Rattle.mw_model.specs.Texts.Grammar.{book, reading};
ghost use Rattle.mw_model.specs.Texts.Written.{IsBookText, IsDatumLine, IsWritten};
ghost use Rattle.mw_model.specs.Texts.Pieces.{InOrder};

/// What is written for a datum is read as just this, and a text of data and comments, each on a line, as just these data.
pub fn written_data()
    ensures datum { (x : Object) (first next : ℕ) (text : List ℕ) → IsWritten x first text next → reading Ends text ≡ book (x ∷ []) None }
    ensures lines { (xs : List Object) (text : List ℕ) → InOrder IsDatumLine xs text → IsBookText xs text }
    ensures text { (xs : List Object) (text : List ℕ) → IsBookText xs text → reading Ends text ≡ book xs None }
{}
