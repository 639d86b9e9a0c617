//! Laws on what is shown where a book is explained.
ghost use Rattle.std.specs.Prelude.{◌≡◌, ◌↔◌, ◌⊎◌, ℕ, ◌≤◌, true, false, List, ◌∷◌, length, Some, None, is_some};
ghost use Rattle.mw_model.specs.Terms.Object.{Object, Natural, Member, car, second_of, third_of, fourth_of};
ghost use Rattle.mw_model.specs.Terms.Term.{ArityTable, Formula, formula_object, is_formula, is_term};
ghost use Rattle.mw_model.specs.Terms.Reading.{term_of, formula_under, that};
ghost use Rattle.mw_model.specs.Values.Primitive.{Profile};
ghost use Rattle.mw_model.specs.Values.Definition.{arity_table};
ghost use Rattle.mw_model.specs.Proofs.Proof.{Method};
ghost use Rattle.mw_model.specs.Proofs.Judgment.{methods, method_among, follows, judge_each};
ghost use Rattle.mw_model.specs.Events.Expansion.{expand};
ghost use Rattle.mw_model.specs.Events.Theory.{Theory};
ghost use Rattle.mw_model.specs.Events.Refusal.{Refusal};
ghost use Rattle.mw_model.specs.Events.Checking.{judged_as};
ghost use Rattle.mw_model.specs.Events.Demand.{each_judged};
ghost use Rattle.mw_commands.specs.Commands.Explanation.{proof_shown, wrong_proof};
ghost use Rattle.mw_commands.specs.Commands.ExplanationTerms.{bad_raw, bad_formula};
ghost use Rattle.mw_commands.specs.Commands.ExplanationSteps.{Placed, first_bad, is_proof_at, has_proof_shape, mended};
ghost use Rattle.mw_commands.specs.Commands.ExplanationBook.{OwesExplained, ExplanationWritten, explanation_status, reasons};
ghost use Rattle.mw_commands.specs.Commands.Flattening.{plain_course};
ghost use Rattle.mw_commands.specs.Commands.Transition.{Transition};
ghost use Rattle.mw_commands.specs.Explained.{step_at};
ghost use Rattle.mw_model.specs.Reports.Report.{report_of};
ghost use Rattle.mw_model.specs.Texts.Grammar.{Book, book, limit, trees};

/// An object has a first bad step exactly where it is no proof. That step stands at its place, it is no proof, and its subproofs are proofs.
/// Where shape, method, conclusion and subproofs are as they should be and it is still not a proof, the row of its method does not hold.
pub fn bad_steps()
    ensures some { (t : Theory) (p : Object) → is_proof_at t p ≡ false → (b : Placed) × (first_bad (is_proof_at t) p ≡ Some b) }
    ensures none { (t : Theory) (p : Object) → is_proof_at t p ≡ true → first_bad (is_proof_at t) p ≡ None }
    ensures there { (t : Theory) (p : Object) (b : Placed) → first_bad (is_proof_at t) p ≡ Some b → step_at b.place p ≡ b.step }
    ensures fails { (t : Theory) (p : Object) (b : Placed) → first_bad (is_proof_at t) p ≡ Some b → is_proof_at t b.step ≡ false }
    ensures row { (t : Theory) (p : Object) (m : Method) (F : Formula) (Fs : List Formula) → is_proof_at t p ≡ false → has_proof_shape p ≡ true → method_among methods (car p) ≡ Some m → formula_under (arity_table t.definitions) (second_of p) ≡ Some F → judge_each t.axioms t.theorems (arity_table t.definitions) t.definitions.profile (third_of p) ≡ Some Fs → follows t.axioms t.theorems (arity_table t.definitions) t.definitions.profile m F Fs (fourth_of p) ≡ false }
    ensures subproofs { (t : Theory) (p : Object) (b : Placed) → first_bad (is_proof_at t) p ≡ Some b → (q : Object) → Member q (third_of b.step) → is_proof_at t q ≡ true }
{}

/// The conclusion that is shown in place of one that does not follow is a formula, and follows.
pub fn mended_steps()
    ensures { (axioms theorems : Object) (A : ArityTable) (P : Profile) (m : Method) (F G : Formula) (Fs : List Formula) (x : Object) → mended axioms theorems A P m F Fs x ≡ Some G → (is_formula A G ≡ true) × (follows axioms theorems A P m G Fs x ≡ true) }
{}

/// Where an event is refused for its proofs, the first proof that is refused is shown, with what is wrong with it; its reason is that of the event.
pub fn refused_proofs()
    ensures { (t : Theory) (N k : ℕ) (Fs : List Formula) (ps : Object) (r : Refusal) → each_judged judged_as t N Fs ps ≡ Some r → (n : ℕ) × (F : Formula) × (p : Object) × (judged_as t N F p ≡ Some r) × (proof_shown t N k Fs ps ≡ Natural n ∷ formula_object F ∷ wrong_proof t r p) }
{}

/// The bad part of what should be a raw term does not expand, and that of what should be a formula is no term or no formula. There is one
/// exactly where the whole is none.
pub fn bad_parts()
    ensures raw { (A : ArityTable) (x y : Object) → bad_raw A x ≡ Some y → is_some (expand A y) ≡ false }
    ensures raw_none { (A : ArityTable) (x : Object) → (bad_raw A x ≡ None) ↔ (is_some (expand A x) ≡ true) }
    ensures formula { (A : ArityTable) (x y : Object) → bad_formula A x ≡ Some y → (is_some (that (is_term A) (term_of y)) ≡ false) ⊎ (is_some (formula_under A y) ≡ false) }
    ensures formula_none { (A : ArityTable) (x : Object) → (bad_formula A x ≡ None) ↔ (is_some (formula_under A x) ≡ true) }
{}

/// What `explain` writes on a book is read again as just the reasons of the events that are refused, and it ends as `check` does.
pub fn explanations_again()
    ensures again { (b : Book) (N : ℕ) (text : List ℕ) → ExplanationWritten b N text → length text ≤ limit → trees text ≡ book (reasons N (plain_course b.events N)) None }
    ensures status { (b : Book) (N : ℕ) → explanation_status b N ≡ (report_of b N).status }
{}

/// What is owed for an event can be written.
pub fn explanations_possible()
    ensures { (N : ℕ) (s : Transition) → (piece : List ℕ) × OwesExplained N s piece }
{}
