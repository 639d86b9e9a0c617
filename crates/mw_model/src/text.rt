//! Laws on text.
ghost use Rattle.std.specs.Prelude.{◌≡◌, ℕ, ◌≤◌, ◌<◌, ◌^◌, List, [], ◌∷◌, ◌++◌, length, map, reverse, Some, None};
ghost use Rattle.std.specs.Fmt.{decimal};
ghost use Rattle.mw_model.specs.Terms.Object.{Object};
ghost use Rattle.mw_model.specs.Terms.Term.{formula_object};
ghost use Rattle.mw_model.specs.Values.Primitive.{Profile};
ghost use Rattle.mw_model.specs.Proofs.Axioms.{primitive_axioms};
ghost use Rattle.mw_model.specs.Laws.AxiomsText.{axioms_text};
ghost use Rattle.mw_model.specs.BuiltIns.BuiltIn.{built_in};
ghost use Rattle.mw_model.specs.Laws.BuiltInReading.{blocks_of};
ghost use Rattle.mw_model.specs.Laws.BuiltInText.{built_in_text};
ghost use Rattle.mw_model.specs.Texts.Lexemes.{Ending, Ends, Goes, Fault, decimal_value};
ghost use Rattle.mw_model.specs.Texts.Grammar.{book, limit, reading, trees};
ghost use Rattle.mw_model.specs.Texts.Printing.{numeral, text_of};
ghost use Rattle.mw_model.specs.Laws.Lines.{text_lines, lines_so_far};
ghost use Rattle.mw_model.specs.Reports.Report.{report};

/// What is printed is read back: an object alone, an object on a line, and any objects, each on a line.
pub fn text_read_back()
    ensures alone { (x : Object) → length (text_of x) ≤ limit → trees (text_of x) ≡ book (x ∷ []) None }
    ensures line { (x : Object) → length (text_of x ++ 10 ∷ []) ≤ limit → trees (text_of x ++ 10 ∷ []) ≡ book (x ∷ []) None }
    ensures lines { (xs : List Object) → length (text_lines xs) ≤ limit → trees (text_lines xs) ≡ book xs None }
{}

/// A numeral is read as its number, and below 10^64 it is what std writes.
pub fn numerals()
    ensures read { (n : ℕ) → decimal_value (numeral n) ≡ n }
    ensures as_std { (n : ℕ) → n < 10 ^ 64 → numeral n ≡ decimal n }
{}

/// The built-in definitions are what their text gives when it is read and expanded. The axioms of the primitives are what
/// their text gives.
pub fn built_in_text_read()
    ensures definitions { (P : Profile) → blocks_of (reading Ends (built_in_text P)).events ≡ Some (reverse (built_in P)) }
    ensures axioms { (P : Profile) → map formula_object (primitive_axioms P) ≡ (reading Ends (axioms_text P)).events }
{}

/// What is read of bytes stands whatever bytes follow, and whether these end the book or not: the events are the first of all,
/// and a fault is the fault of all, with no event after it. So the lines due are a prefix of the lines due for more bytes, and
/// of the report on the book; of that only where the bytes so far are not too many for a book, since no event past the limit has
/// a line in the report.
pub fn read_so_far()
    ensures events { (e : Ending) (g h : List ℕ) → (more : List Object) × ((reading e (g ++ h)).events ≡ (reading Goes g).events ++ more) }
    ensures fault { (e : Ending) (g h : List ℕ) (f : Fault) → (reading Goes g).fault ≡ Some f → reading e (g ++ h) ≡ reading Goes g }
    ensures whole { (g h : List ℕ) (f : Fault) → length g ≤ limit → (reading Goes g).fault ≡ Some f → trees (g ++ h) ≡ reading Goes g }
    ensures lines { (g h : List ℕ) (N : ℕ) → (more : List ℕ) × (lines_so_far (g ++ h) N ≡ lines_so_far g N ++ more) }
    ensures prefix { (g h : List ℕ) (N : ℕ) → length g ≤ limit → (more : List ℕ) × ((report (g ++ h) N).text ≡ lines_so_far g N ++ more) }
{}
