//! Laws on logs, which `recheck` judges.
ghost use Rattle.std.specs.Prelude.{◌≡◌, ℕ, List, Some, None};
ghost use Rattle.mw_model.specs.Terms.Object.{Object};
ghost use Rattle.mw_model.specs.Terms.Term.{ArityTable, Formula};
ghost use Rattle.mw_model.specs.Values.Primitive.{Profile};
ghost use Rattle.mw_model.specs.Values.Truth.{Each};
ghost use Rattle.mw_model.specs.Proofs.Proof.{Proves};
ghost use Rattle.mw_model.specs.Events.Theory.{Theory, IsSound};
ghost use Rattle.mw_model.specs.Events.Refusal.{accept};
ghost use Rattle.mw_model.specs.Events.Fate.{EventWord, event_word, happens};
ghost use Rattle.mw_model.specs.Events.Demand.{with_proofs};
ghost use Rattle.mw_model.specs.Reports.Keeping.{formulas_of_word};
ghost use Rattle.mw_commands.specs.Commands.Log.{Objection, No, Yes, conclusions, logged};
ghost use Rattle.mw_commands.specs.Commands.LogReport.{last_logged, log_of};
ghost use Rattle.mw_commands.specs.Headlines.{EntryKeeps};
ghost use Rattle.mw_commands.specs.Logged.{LoggedKeeps};

/// Each conclusion of good steps has a proof. An event of a log with a yes, at a theory with the built-in checker, is accepted
/// with some proofs in place of its numbers, leads to the same theory and brings the same formulas; without a yes the theory stays.
pub fn logs()
    ensures steps { (axioms theorems : Object) (A : ArityTable) (P : Profile) (members : List Object) (Fs : List Formula) → conclusions axioms theorems A P members ≡ Some Fs → Each (λ F. (p : Object) × Proves axioms theorems A P p F) Fs }
    ensures yes { (t next : Theory) (N : ℕ) (members : List Object) (e : Object) → t.checker ≡ None → logged t members e ≡ (Yes, next) → (w : EventWord) × (ps : Object) × (event_word e ≡ Some w) × (happens t N (with_proofs w e ps) ≡ accept next) × (formulas_of_word (event_word (with_proofs w e ps)) next (with_proofs w e ps) ≡ formulas_of_word (event_word e) next e) }
    ensures no { (t : Theory) (members : List Object) (e : Object) (o : Objection) → (logged t members e).0 ≡ No o → (logged t members e).1 ≡ t }
{}

/// At a sound theory under the built-in checker each event of a log brings only what is true where it gets a yes, changes
/// nothing where it gets a no, and leaves a sound theory under that checker. So each event of any log keeps truth, and the
/// theory that it leads to is sound.
pub fn logs_keep()
    ensures event { (t : Theory) (steps : List Object) (e : Object) → IsSound t → t.checker ≡ None → LoggedKeeps t steps e }
    ensures entered { (xs : List Object) → Each EntryKeeps (log_of xs).entered }
    ensures sound { (xs : List Object) → IsSound (last_logged (log_of xs)) }
{}
