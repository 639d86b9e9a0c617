//! Laws of tautologies.
ghost use Rattle.std.specs.Prelude.{◌≡◌, true};
ghost use Rattle.mw_model.specs.Terms.Object.{Object};
ghost use Rattle.mw_model.specs.Terms.Term.{ArityTable, Formula, is_formula};
ghost use Rattle.mw_commands.specs.Commands.Tautology.{Holds, decision};
ghost use Rattle.mw_commands.specs.Commands.TautologyBook.{IsPureProof};

/// Each formula that is decided to be a tautology has a proof from no axioms and no theorems, with no natural past the range where it
/// holds none.
pub fn tautologies_have_proofs()
    ensures { (A : ArityTable) (F : Formula) → is_formula A F ≡ true → decision F ≡ Holds → (p : Object) × IsPureProof A p F }
{}
