//! A law on the trial book.
ghost use Rattle.std.specs.Prelude.{◌≡◌, ℕ, ◌≤◌, ◌^◌, length};
ghost use Rattle.mw_model.specs.Values.Primitive.{One};
ghost use Rattle.mw_model.specs.Events.Theory.{initial};
ghost use Rattle.mw_model.specs.Reports.Report.{refused_among};
ghost use Rattle.mw_model.specs.Reports.Trial.{trial_book};
ghost use Rattle.mw_model.specs.Texts.Grammar.{limit, trees};
ghost use Rattle.mw_commands.specs.Headlines.{AcceptsAll};

/// Each of the m events of the trial book is accepted, whatever the step limit, where the book is no longer than a book may be. The
/// trial book of a million events, which is the most that the program is asked for, is no longer. Of a longer one none is refused that
/// is read.
pub fn trials_accepted()
    ensures accepted { (m N : ℕ) → length (trial_book m) ≤ limit → AcceptsAll (trial_book m) N m }
    ensures none_refused { (m N : ℕ) → refused_among (initial One) (trees (trial_book m)).events N ≡ 0 }
    ensures fits { (m : ℕ) → m ≤ 10 ^ 6 → length (trial_book m) ≤ limit }
{}
