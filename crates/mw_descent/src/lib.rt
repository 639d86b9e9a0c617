//! Ordinals below epsilon-zero: laws of their order, of descent, and of the built-in functions that compute them.
#![tactic(auto)]

ghost use Rattle.std.specs.Prelude.{ℕ, suc, ◌≡◌, ◌≢◌, ◌⊎◌, ◌↔◌, true, false, ltb, List, [], ◌∷◌};
ghost use Rattle.mw_model.specs.Terms.Object.{Object, Name, Natural, Symbol, Pair, car, cdr, named, truth_of};
ghost use Rattle.mw_model.specs.Values.Primitive.{Profile, number, is_pair};
ghost use Rattle.mw_model.specs.Laws.Ordinal.{is_ordinal, is_below};
ghost use Rattle.mw_model.specs.Values.Definition.{Block, are_blocks};
ghost use Rattle.mw_model.specs.Values.Value.{block_calls};
ghost use Rattle.mw_model.specs.BuiltIns.BuiltIn.{built_in};
ghost use Rattle.mw_model.specs.Events.Theory.{BeginsWith};
ghost use Rattle.mw_model.specs.Laws.Descent.{Question, goal, up};
ghost use Rattle.mw_descent.specs.Shape.{IsNormal};
ghost use Rattle.mw_descent.specs.Descending.{Passes, Ends};

/// Which objects are ordinals: each natural, no symbol, and of the pairs just those ((e . c) . r) in normal form.
pub fn shape_of_ordinals()
    ensures naturals { (n : ℕ) → is_ordinal (Natural n) ≡ true }
    ensures symbols { (x : Name) → is_ordinal (Symbol x) ≡ false }
    ensures without_term { (p r : Object) → is_pair p ≡ false → is_ordinal (Pair p r) ≡ false }
    ensures with_term { (e c r : Object) → (is_ordinal (Pair (Pair e c) r) ≡ true) ↔ IsNormal e c r }
{}

/// The order: irreflexive, transitive, total on ordinals. Two pairs compare by their exponents where these differ,
/// else by their coefficients where these differ, else by their rests. What is no pair is below each pair, a pair below
/// no other object, and two that are no pairs compare as numbers.
pub fn order_of_ordinals()
    ensures irreflexive { (x : Object) → is_below x x ≡ true → ⊥ }
    ensures transitive { (x y z : Object) → is_below x y ≡ true → is_below y z ≡ true → is_below x z ≡ true }
    ensures total { (x y : Object) → is_ordinal x ≡ true → is_ordinal y ≡ true → (x ≡ y) ⊎ ((is_below x y ≡ true) ⊎ (is_below y x ≡ true)) }
    ensures exponents { (p r q s : Object) → car p ≢ car q → is_below (Pair p r) (Pair q s) ≡ is_below (car p) (car q) }
    ensures coefficients { (p r q s : Object) → car p ≡ car q → cdr p ≢ cdr q → is_below (Pair p r) (Pair q s) ≡ ltb (number (cdr p)) (number (cdr q)) }
    ensures rests { (p r q s : Object) → car p ≡ car q → cdr p ≡ cdr q → is_below (Pair p r) (Pair q s) ≡ is_below r s }
    ensures below_each_pair { (x q s : Object) → is_pair x ≡ false → is_below x (Pair q s) ≡ true }
    ensures below_no_other { (p r y : Object) → is_pair y ≡ false → is_below (Pair p r) y ≡ false }
    ensures no_pairs { (x y : Object) → is_pair x ≡ false → is_pair y ≡ false → is_below x y ≡ ltb (number x) (number y) }
{}

/// Each way down through ordinals ends, so no endless sequence of ordinals goes down at each step. Where a goal passes
/// from all ordinals below to each ordinal, so does each of its jumps, and the goal holds at each ordinal.
pub fn descent()
    ensures ends { (a : Object) → is_ordinal a ≡ true → Ends a }
    ensures stops { (f : ℕ → Object) → ((n : ℕ) → is_ordinal (f n) ≡ true) → (n : ℕ) × (is_below (f (suc n)) (f n) ≡ false) }
    ensures jumps { (q : Question) → Passes (goal q) → (n : ℕ) → Passes (up n q) }
    ensures goals { (q : Question) → Passes (goal q) → (a : Object) → is_ordinal a ≡ true → goal q a }
{}

/// The built-in ORD< and ORDP have the values of the order and of the test for ordinals, and no others, whatever
/// definitions stand on the built-in ones.
pub fn ordinal_functions()
    ensures ord_less { (P : Profile) (D : List Block) → are_blocks P D ≡ true → BeginsWith (built_in P) D → (x y v : Object) → block_calls P D (named "ORD<") (x ∷ y ∷ []) v ↔ (v ≡ truth_of (is_below x y)) }
    ensures ordp { (P : Profile) (D : List Block) → are_blocks P D ≡ true → BeginsWith (built_in P) D → (x v : Object) → block_calls P D (named "ORDP") (x ∷ []) v ↔ (v ≡ truth_of (is_ordinal x)) }
{}
