//! Admission of a block keeps totality and truth.

ghost use Rattle.std.specs.Prelude.{◌↔◌, List, map};
ghost use Rattle.mw_model.specs.Terms.Object.{Name, Object};
ghost use Rattle.mw_model.specs.Terms.Term.{Term, Formula, IsTerm, IsFormula};
ghost use Rattle.mw_model.specs.Values.Definition.{Function, Block, Functions, Choice, Definitions, arity_table, IsWellMade, choice_axiom, function_axiom};
ghost use Rattle.mw_model.specs.Values.Value.{Environment, IsValue, IsTotal};
ghost use Rattle.mw_model.specs.Values.Truth.{Each, IsTrueIn};
ghost use Rattle.mw_model.specs.Events.Obligation.{Measures};
ghost use Rattle.mw_model.specs.Laws.Descent.{OfBlock, goal};
ghost use Rattle.mw_descent.specs.Descending.{Passes};
ghost use Rattle.mw_truth.specs.Methods.{IsTrueFormula};
ghost use Rattle.mw_truth.specs.Admitted.{with_block, IsAdmissible};

/// Where the obligations of a block of functions are true, its goal passes from all ordinals below to an ordinal, the
/// definitions with the block are total, and its axioms are formulas that are true in them.
pub fn admission()
    ensures passes { (D : Definitions) (B : List Function) (M : Measures) → IsAdmissible D B M → Passes (goal (OfBlock (with_block D (Functions B)) M)) }
    ensures total { (D : Definitions) (B : List Function) (M : Measures) → IsAdmissible D B M → IsTotal (with_block D (Functions B)) }
    ensures axioms { (D : Definitions) (B : List Function) (M : Measures) → IsAdmissible D B M → Each (IsTrueFormula (with_block D (Functions B))) (map function_axiom B) }
{}

/// A witness owes nothing: total definitions stay total with it, and its axiom is a formula that is true in them.
pub fn witness()
    ensures total { (D : Definitions) (g y : Name) (xs : List Name) (b : Term) → IsTotal D → IsTotal (with_block D (Choice g y xs b)) }
    ensures axiom_holds { (D : Definitions) (g y : Name) (xs : List Name) (b : Term) → IsTotal D → IsWellMade (with_block D (Choice g y xs b)) → IsTrueFormula (with_block D (Choice g y xs b)) (choice_axiom g y xs b) }
{}

/// A newer block leaves older terms terms with the same values, and older formulas formulas, true where they were.
pub fn older_stays()
    ensures terms { (D : Definitions) (B : Block) → IsWellMade (with_block D B) → (t : Term) → IsTerm (arity_table D) t → IsTerm (arity_table (with_block D B)) t }
    ensures values { (D : Definitions) (B : Block) → IsWellMade (with_block D B) → (e : Environment) (t : Term) (v : Object) → IsTerm (arity_table D) t → IsValue D e t v ↔ IsValue (with_block D B) e t v }
    ensures formulas { (D : Definitions) (B : Block) → IsWellMade (with_block D B) → (F : Formula) → IsFormula (arity_table D) F → IsFormula (arity_table (with_block D B)) F }
    ensures truth { (D : Definitions) (B : Block) → IsWellMade (with_block D B) → (F : Formula) → IsFormula (arity_table D) F → IsTrueIn D F ↔ IsTrueIn (with_block D B) F }
{}
