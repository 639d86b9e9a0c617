//! Laws on terms, formulas and the objects that stand for them.
ghost use Rattle.std.specs.Prelude.{◌≡◌, ◌↔◌, true, List, [], Some, ◌++◌};
ghost use Rattle.mw_model.specs.Terms.Object.{Name, Object};
ghost use Rattle.mw_model.specs.Terms.Term.{Term, Terms, Formula, ArityTable, IsTerm, IsFormula, term_object, formula_object, is_among, variables, is_closed, Lambda, NoTerms, More};
ghost use Rattle.mw_model.specs.Terms.Reading.{term_of, formula_of};
ghost use Rattle.mw_model.specs.Terms.Substitution.{actuals_for, substitute};
ghost use Rattle.mw_model.specs.Values.Definition.{Function};
ghost use Rattle.mw_model.specs.Events.Obligation.{RecursiveCall, actuals_with, all_calls, collect};

/// A term or formula under any arity table is read back from its object, and what is read from an object has that object.
/// So an object stands for at most one term and at most one formula.
pub fn one_reading()
    ensures term { (A : ArityTable) (t : Term) → IsTerm A t → term_of (term_object t) ≡ Some t }
    ensures object_of_term { (x : Object) (t : Term) → term_of x ≡ Some t → term_object t ≡ x }
    ensures formula { (A : ArityTable) (F : Formula) → IsFormula A F → formula_of (formula_object F) ≡ Some F }
    ensures object_of_formula { (x : Object) (F : Formula) → formula_of x ≡ Some F → formula_object F ≡ x }
{}

/// A term is closed under some names exactly where each of its free variables is one of them.
pub fn closed_variables()
    ensures { (xs : List Name) (t : Term) → (is_closed xs t ≡ true) ↔ ((x : Name) → is_among x (variables t) ≡ true → is_among x xs ≡ true) }
{}

/// The recursive calls of a lambda call are those of its actuals, in order, and then those of its body with the actuals
/// substituted.
pub fn collecting()
    ensures lambda { (B : List Function) (xs : List Name) (b : Term) (ts : Terms) → collect B [] (Lambda xs b ts) ≡ all_calls (actuals_with B [] ts) ++ collect B [] (substitute (actuals_for xs ts) b) }
    ensures actuals { (B : List Function) (t : Term) (ts : Terms) → all_calls (actuals_with B [] (More t ts)) ≡ collect B [] t ++ all_calls (actuals_with B [] ts) }
    ensures no_actuals { (B : List Function) → all_calls (actuals_with B [] NoTerms) ≡ [] }
{}
