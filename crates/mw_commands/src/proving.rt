//! Laws on formulas that are tautologies, and on what `taut` writes for them.
ghost use Rattle.std.specs.Prelude.{◌≡◌, ◌↔◌, ℕ, ◌≤◌, false, true, List, ◌∷◌, ◌++◌, length, Some, None};
ghost use Rattle.mw_model.specs.Terms.Term.{Formula};
ghost use Rattle.mw_model.specs.Values.Truth.{Each};
ghost use Rattle.mw_model.specs.Texts.Grammar.{Book, limit};
ghost use Rattle.mw_model.specs.Texts.Pieces.{how_many};
ghost use Rattle.mw_commands.specs.Commands.Tautology.{Choice, IsTautology, choices, equations, falsifying, value_under};
ghost use Rattle.mw_commands.specs.Commands.TautologyBook.{TautologiesWritten, is_proved};
ghost use Rattle.mw_commands.specs.Headlines.{AcceptsAll};

/// A formula is a tautology exactly where no choice of values for its equations makes it false; else the first such choice is
/// found.
pub fn tautologies()
    ensures decided { (F : Formula) → (falsifying F ≡ None) ↔ IsTautology F }
    ensures first { (F : Formula) (c : Choice) → falsifying F ≡ Some c → (earlier later : List Choice) × (choices (equations F) ≡ earlier ++ c ∷ later) × (value_under c F ≡ false) × Each (λ d. value_under d F ≡ true) earlier }
{}

/// What `taut` writes on a book is a book whose events are all accepted, whatever the step limit; there are as many as formulas
/// that were proved.
pub fn tautologies_again()
    ensures { (b : Book) (text : List ℕ) → TautologiesWritten b text → length text ≤ limit → (N : ℕ) → AcceptsAll text N (how_many is_proved b.events) }
{}
