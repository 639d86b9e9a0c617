//! Laws on objects.
ghost use Rattle.std.specs.Prelude.{◌≡◌, ℕ, suc, true, List, ◌⊎◌};
ghost use Rattle.std.specs.List.{Contains};
ghost use Rattle.mw_model.specs.Terms.Object.{Object, is_before};

/// The order of objects is total and strict, no way down is endless, and each object has finitely many before it.
pub fn object_order()
    ensures irreflexive { (x : Object) → is_before x x ≡ true → ⊥ }
    ensures transitive { (x y z : Object) → is_before x y ≡ true → is_before y z ≡ true → is_before x z ≡ true }
    ensures total { (x y : Object) → (is_before x y ≡ true) ⊎ ((x ≡ y) ⊎ (is_before y x ≡ true)) }
    ensures descending { (s : ℕ → Object) → ((n : ℕ) → is_before (s (suc n)) (s n) ≡ true) → ⊥ }
    ensures finite { (x : Object) → (ys : List Object) × ((y : Object) → is_before y x ≡ true → Contains ys y) }
{}
