//! Laws on the slice of a book, the events that a theorem rests on.
ghost use Rattle.std.specs.Prelude.{◌≡◌, ℕ, ◌≤◌, ◌<◌, Bool, true, List, length, Some};
ghost use Rattle.mw_model.specs.Terms.Object.{Object, Name};
ghost use Rattle.mw_model.specs.Texts.Grammar.{Book, limit};
ghost use Rattle.mw_model.specs.Reports.Report.{Done};
ghost use Rattle.mw_commands.specs.Commands.Slice.{IsSlice, Needed, event_at, rests_on, sets_profile, target};
ghost use Rattle.mw_commands.specs.Commands.Slicing.{SliceWritten, accepted_events, slicing_status};
ghost use Rattle.mw_commands.specs.Headlines.{SliceAccepted};

/// Each list of events has exactly one slice for a goal. The needed places are among those of any set that has the goal, a
/// second profile before it, and all that a member rests on.
pub fn slices()
    ensures some { (es : List Object) (goal : ℕ) → (places : List ℕ) × IsSlice es goal places }
    ensures one { (es : List Object) (goal : ℕ) (places others : List ℕ) → IsSlice es goal places → IsSlice es goal others → places ≡ others }
    ensures least { (es : List Object) (goal : ℕ) (S : ℕ → Bool) → S goal ≡ true → ((j : ℕ) → j < goal → sets_profile 2 (event_at es j) ≡ true → S j ≡ true) → ((i j : ℕ) → S i ≡ true → rests_on es i j ≡ true → S j ≡ true) → (j : ℕ) → Needed es goal j → S j ≡ true }
{}

/// What `slice` writes on a book that has a theorem of this name is a book whose events are all accepted, at the same step limit,
/// and the last is the theorem.
pub fn slices_again()
    ensures { (b : Book) (N : ℕ) (name : Name) (text : List ℕ) → SliceWritten b N name text → slicing_status b N name ≡ Done → length text ≤ limit → (goal : ℕ) → target (accepted_events b.events N) name ≡ Some goal → SliceAccepted (accepted_events b.events N) goal N text }
{}
