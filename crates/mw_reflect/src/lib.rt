// The reference checker: laws that it says yes exactly where the written rules hold.
#![tactic(auto)]

ghost use Rattle.std.specs.Prelude.{◌≡◌, ◌↔◌, true, List, [], ◌∷◌, Some};
ghost use Rattle.mw_model.specs.Terms.Object.{Object, named, truth_of};
ghost use Rattle.mw_model.specs.Terms.Term.{ArityTable, arity_of, table_object};
ghost use Rattle.mw_model.specs.Values.Primitive.{Profile};
ghost use Rattle.mw_model.specs.Values.Definition.{Block, are_blocks};
ghost use Rattle.mw_model.specs.Values.Value.{block_calls};
ghost use Rattle.mw_model.specs.BuiltIns.BuiltIn.{built_in};
ghost use Rattle.mw_model.specs.Laws.Rules.{is_term_object, is_formula_object, is_substitution_object};
ghost use Rattle.mw_model.specs.Events.Theory.{BeginsWith};
ghost use Rattle.mw_reflect.specs.Laws.{ReferenceChecker, ReferenceValue, Provability, ProvableIsProved, ProvableIsTrue, Claims, TrueClaimsSayTruly, RunsSayTruly, EventsKeepAny, CheckersJudgeTruly, EventsKeep, ReachedIsSound, ReachedIsConsistent};

/// In all definitions that begin with the built-in ones, LOGIC.TERMP, LOGIC.FORMULAP and LOGIC.SIGMAP say yes exactly on
/// the objects of terms, formulas and substitutions under an arity table in which IF has its three arguments.
pub fn checker_reads()
    ensures terms { (P : Profile) (D : List Block) → are_blocks P D ≡ true → BeginsWith (built_in P) D → (A : ArityTable) → arity_of A (named "IF") ≡ Some 3 → (x v : Object) → block_calls P D (named "LOGIC.TERMP") (x ∷ table_object A ∷ []) v ↔ (v ≡ truth_of (is_term_object A x)) }
    ensures formulas { (P : Profile) (D : List Block) → are_blocks P D ≡ true → BeginsWith (built_in P) D → (A : ArityTable) → arity_of A (named "IF") ≡ Some 3 → (x v : Object) → block_calls P D (named "LOGIC.FORMULAP") (x ∷ table_object A ∷ []) v ↔ (v ≡ truth_of (is_formula_object A x)) }
    ensures substitutions { (P : Profile) (D : List Block) → are_blocks P D ≡ true → BeginsWith (built_in P) D → (A : ArityTable) → arity_of A (named "IF") ≡ Some 3 → (x v : Object) → block_calls P D (named "LOGIC.SIGMAP") (x ∷ table_object A ∷ []) v ↔ (v ≡ truth_of (is_substitution_object A x)) }
{}

/// In definitions that begin with the built-in ones LOGIC.PROOFP, at the axioms, the theorems and the arity table as
/// data, has a value other than NIL exactly for the proofs; it is T or NIL.
pub fn reference_checker()
    ensures says_yes { ReferenceChecker }
    ensures value { ReferenceValue }
{}

/// LOGIC.PROVABLEP does not fail to say yes exactly where not no object is a proof with that second member.
pub fn provability()
    ensures { Provability }
{}

/// LOGIC.PROVABLEP says yes only where some object is a proof with that second member; in a sound theory the formula is then true.
pub fn provable_true()
    ensures proved { ProvableIsProved }
    ensures truly { ProvableIsTrue }
{}

/// Where the claim of a checker is true and the proofs of the table of methods have true conclusions, what the checker
/// says yes to has a true conclusion.
pub fn claims()
    ensures { Claims }
{}

/// In a sound theory, what the run of any function with a true claim says yes to has a true conclusion, and so that of any function with a
/// claim among the theorems. And each event keeps the theory sound and accepts only what is true, whichever checker the theory has.
pub fn claimed_runs()
    ensures true_claims { TrueClaimsSayTruly }
    ensures runs { RunsSayTruly }
    ensures events { EventsKeepAny }
{}

/// Whatever events happen from the initial theory on, with any switches of the checker, each of them keeps truth, the
/// theory that they lead to is sound, and t = nil is no theorem of it: what a sound theory's checker says yes to is true.
pub fn reached_sound()
    ensures judges { CheckersJudgeTruly }
    ensures events { EventsKeep }
    ensures sound { ReachedIsSound }
    ensures consistent { ReachedIsConsistent }
{}
