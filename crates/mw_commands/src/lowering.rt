//! Laws on a book of derivations that is turned to a book of proofs.
ghost use Rattle.std.specs.Prelude.{◌≡◌, ◌↔◌, ℕ, ◌≤◌, false, true, List, length, Some};
ghost use Rattle.mw_model.specs.Terms.Object.{Object, Member};
ghost use Rattle.mw_model.specs.Terms.Term.{ArityTable, Formula, formula_object};
ghost use Rattle.mw_model.specs.Values.Primitive.{Profile, One};
ghost use Rattle.mw_model.specs.Values.Truth.{Each};
ghost use Rattle.mw_model.specs.Proofs.Proof.{Proves};
ghost use Rattle.mw_model.specs.Proofs.Axioms.{axiom_1, axiom_2};
ghost use Rattle.mw_model.specs.Events.Theory.{Theory, initial};
ghost use Rattle.mw_model.specs.Events.Fate.{event_word, happens, is_out_of_range, after};
ghost use Rattle.mw_model.specs.Events.Demand.{happens_under};
ghost use Rattle.mw_model.specs.Texts.Grammar.{Book, limit, trees};
ghost use Rattle.mw_model.specs.Texts.Pieces.{how_many};
ghost use Rattle.mw_model.specs.Reports.Report.{is_accepted};
ghost use Rattle.mw_model.specs.Laws.Rewriting.{IsRewritten};
ghost use Rattle.mw_commands.specs.Commands.Derivation.{IsDerivation, Turns};
ghost use Rattle.mw_commands.specs.Commands.DerivationTest.{derive, derived_as};
ghost use Rattle.mw_commands.specs.Commands.Transition.{is_acceptance, last_theory};
ghost use Rattle.mw_commands.specs.Commands.Lowering.{IsLowered, IsLoweredBy, LoweredWritten, derived_course};
ghost use Rattle.mw_commands.specs.Headlines.{AcceptsAll};

/// The test on an object answers a formula exactly where the object is a derivation of that formula. A proof is a derivation, and
/// where the first two axioms are there each derivation turns to a proof.
pub fn derivations()
    ensures exact { (axioms theorems : Object) (A : ArityTable) (P : Profile) (p : Object) (F : Formula) → (derive axioms theorems A P p ≡ Some F) ↔ IsDerivation axioms theorems A P p F }
    ensures proofs { (axioms theorems : Object) (A : ArityTable) (P : Profile) (p : Object) (F : Formula) → Proves axioms theorems A P p F → IsDerivation axioms theorems A P p F }
    ensures turns { (axioms theorems : Object) (A : ArityTable) (P : Profile) → Member (formula_object axiom_1) axioms → Member (formula_object axiom_2) axioms → (p : Object) (F : Formula) → IsDerivation axioms theorems A P p F → (q : Object) × Turns axioms theorems A P p q }
{}

/// An event whose derivations are turned to proofs, where they turn, comes to the same by the theory's own checker as the event
/// does where derivations are as good as proofs; where it is accepted, it is as it is to be written. The first two axioms are
/// among the theory's.
pub fn lowered_events()
    ensures same { (t : Theory) (N : ℕ) (e lowered : Object) → Member (formula_object axiom_1) t.axioms → Member (formula_object axiom_2) t.axioms → is_out_of_range e ≡ false → IsRewritten Turns t e lowered → happens t N lowered ≡ happens_under derived_as t N e }
    ensures written { (t : Theory) (N : ℕ) (e lowered : Object) → Member (formula_object axiom_1) t.axioms → Member (formula_object axiom_2) t.axioms → IsRewritten Turns t e lowered → is_accepted (happens_under derived_as t N e).0 ≡ true → IsLoweredBy t.checker (event_word e) t e lowered }
{}

/// Each theory of a course of derivations has the first two axioms, the last one too, and each event that is accepted can be
/// written with proofs.
pub fn lowerings_possible()
    ensures axioms { (es : List Object) (N : ℕ) → Each (λ s. Member (formula_object axiom_1) s.before.axioms × Member (formula_object axiom_2) s.before.axioms) (derived_course es N) }
    ensures last { (es : List Object) (N : ℕ) → Member (formula_object axiom_1) (last_theory (derived_course es N)).axioms × Member (formula_object axiom_2) (last_theory (derived_course es N)).axioms }
    ensures lowered { (es : List Object) (N : ℕ) → Each (λ s. is_acceptance s ≡ true → (lowered : Object) × IsLowered s lowered) (derived_course es N) }
{}

/// What `lower` writes on a book is a book whose events are all accepted, at the same step limit; there are as many as were
/// accepted of the derivations, and they lead to the same theory.
pub fn lowerings_again()
    ensures again { (b : Book) (N : ℕ) (text : List ℕ) → LoweredWritten b N text → length text ≤ limit → AcceptsAll text N (how_many is_acceptance (derived_course b.events N)) }
    ensures theory { (b : Book) (N : ℕ) (text : List ℕ) → LoweredWritten b N text → length text ≤ limit → after (initial One) (trees text).events N ≡ last_theory (derived_course b.events N) }
{}
