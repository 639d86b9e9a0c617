//! Laws on a book that is turned to a log.
ghost use Rattle.std.specs.Prelude.{◌≡◌, ℕ, ◌≤◌, ◌<◌, true, List, length, map, Some, None};
ghost use Rattle.mw_model.specs.Terms.Object.{Object};
ghost use Rattle.mw_model.specs.Values.Primitive.{One};
ghost use Rattle.mw_model.specs.Events.Evaluation.{range};
ghost use Rattle.mw_model.specs.Events.Theory.{Theory, initial};
ghost use Rattle.mw_model.specs.Events.Refusal.{accept};
ghost use Rattle.mw_model.specs.Events.Fate.{EventWord, event_word, happens};
ghost use Rattle.mw_model.specs.Events.Demand.{proofs_of};
ghost use Rattle.mw_model.specs.Texts.Grammar.{Book, limit};
ghost use Rattle.mw_model.specs.Texts.Pieces.{numbered};
ghost use Rattle.mw_commands.specs.Commands.Subproofs.{distinct_proofs};
ghost use Rattle.mw_commands.specs.Commands.Log.{Yes, logged};
ghost use Rattle.mw_commands.specs.Commands.Flattening.{flat_event, is_logged_word, step_datum, FlatWritten, OwesFlat, before_switch, flat_events, plain_course};
ghost use Rattle.mw_commands.specs.Commands.Transition.{last_theory_from};
ghost use Rattle.mw_commands.specs.Headlines.{LogAccepted};

/// An event that the built-in checker accepts gets a yes in a log after the steps of its distinct proofs, where these are fewer
/// than the naturals in the range, and leads to the same theory.
pub fn flattening()
    ensures { (t next : Theory) (N : ℕ) (e : Object) (w : EventWord) → t.checker ≡ None → event_word e ≡ Some w → is_logged_word (Some w) ≡ true → happens t N e ≡ accept next → length (distinct_proofs (proofs_of w e)) < range → logged t (map (step_datum (distinct_proofs (proofs_of w e))) (numbered 1 (distinct_proofs (proofs_of w e)))) (flat_event e) ≡ (Yes, next) }
{}

/// What `flat` writes on a book is a log of just the events that the book accepts before its first switch, with numbers in place of
/// their proofs: each gets a yes, no step is left, and they lead to the theory that the book had there.
pub fn flattenings_again()
    ensures { (b : Book) (N : ℕ) (text : List ℕ) → FlatWritten b N text → length text ≤ limit → LogAccepted (map flat_event (flat_events (plain_course b.events N))) (last_theory_from (initial One) (before_switch (plain_course b.events N))) text }
{}

/// Each event can be written as `flat` owes it.
pub fn flattenings_possible()
    ensures { (e : Object) → (piece : List ℕ) × OwesFlat e piece }
{}
