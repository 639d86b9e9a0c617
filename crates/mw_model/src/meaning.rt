//! Laws on the values of terms.
ghost use Rattle.std.specs.Prelude.{◌≡◌, ◌↔◌, ℕ, ◌≤◌, [], None};
ghost use Rattle.mw_model.specs.Terms.Object.{Name, Object};
ghost use Rattle.mw_model.specs.Terms.Term.{Term, Terms, Call};
ghost use Rattle.mw_model.specs.Values.Primitive.{Profile, primitive_named};
ghost use Rattle.mw_model.specs.Values.Definition.{Definitions, IsWellMade, definitions};
ghost use Rattle.mw_model.specs.Values.Value.{Environment, IsValue};
ghost use Rattle.mw_model.specs.Events.Evaluation.{Value, evaluate};
ghost use Rattle.mw_model.specs.Laws.CallDepth.{CallOfEarlier, CallOfFunction, CallOfWitness, IsValueWithin};

/// A term has at most one value, whatever the definitions.
pub fn one_value()
    ensures { (D : Definitions) (e : Environment) (t : Term) (v w : Object) → IsValue D e t v → IsValue D e t w → v ≡ w }
{}

/// A value is a value at some depth, and more depth keeps it. A call has a value at a depth as its function, its witness or
/// the earlier blocks say, and where no block has its name it has none.
pub fn depth()
    ensures some { (D : Definitions) (e : Environment) (t : Term) (v : Object) → IsValue D e t v ↔ ((k : ℕ) × IsValueWithin D k e t v) }
    ensures more { (D : Definitions) (j k : ℕ) → j ≤ k → (e : Environment) (t : Term) (v : Object) → IsValueWithin D j e t v → IsValueWithin D k e t v }
    ensures of_function { CallOfFunction }
    ensures of_witness { CallOfWitness }
    ensures of_earlier { CallOfEarlier }
    ensures of_none { (P : Profile) (f : Name) → primitive_named P f ≡ None → (k : ℕ) (e : Environment) (ts : Terms) (v : Object) → IsValueWithin (definitions P []) k e (Call f ts) v → ⊥ }
{}

/// Where the definitions are well made, what evaluation answers as a value is a value.
pub fn evaluation()
    ensures { (D : Definitions) → IsWellMade D → (n : ℕ) (e : Environment) (t : Term) (v : Object) (left : ℕ) → evaluate D n e t ≡ Value v left → IsValue D e t v }
{}
