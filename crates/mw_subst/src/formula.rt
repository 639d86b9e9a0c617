//! Substitution in a formula.
ghost use Rattle.std.specs.Prelude.{◌≡◌};
ghost use Rattle.mw_model.specs.Terms.Term.{ArityTable, Formula, IsFormula, formula_object};
ghost use Rattle.mw_model.specs.Terms.Substitution.{Substitution, substitute_formula, substitution_object};
ghost use Rattle.mw_model.specs.Laws.Rules.{substitute_object};

use mw_model::rules_on_objects;

/// On the object of a formula the substitution that `substitute` makes is that of the definition: what is made of it is the object of the
/// formula under the substitution.
pub fn formulas_substituted()
    ensures { (A : ArityTable) (s : Substitution) (F : Formula) → IsFormula A F → substitute_object (substitution_object s) (formula_object F) ≡ formula_object (substitute_formula s F) }
{
    rules_on_objects();
}
