//! Events keep theories sound.

ghost use Rattle.std.specs.Prelude.{◌≡◌, ℕ, List, None};
ghost use Rattle.mw_model.specs.Terms.Object.{Object, NIL, T, Member};
ghost use Rattle.mw_model.specs.Terms.Term.{Constant, Equal, formula_object};
ghost use Rattle.mw_model.specs.Values.Primitive.{Profile, One};
ghost use Rattle.mw_model.specs.Events.Theory.{Theory, initial, IsSound};
ghost use Rattle.mw_model.specs.Events.Fate.{after};
ghost use Rattle.mw_model.specs.Reports.Keeping.{EventKeeps, EachKeeps};
ghost use Rattle.mw_truth.specs.Reached.{JudgesTruly, StaysBuiltIn};

/// The initial theory of each profile is sound.
pub fn initial_sound()
    ensures { (P : Profile) → IsSound (initial P) }
{}

/// At a sound theory under the built-in checker each event accepts only what is true, changes nothing where it is
/// refused, and leaves a sound theory: what that checker says yes to is true. So it is under any such checker.
pub fn events_keep()
    ensures built_in { (t : Theory) (N : ℕ) (e : Object) → IsSound t → t.checker ≡ None → EventKeeps t N e }
    ensures judges { (t : Theory) (N : ℕ) → IsSound t → t.checker ≡ None → JudgesTruly t N }
    ensures truly { (t : Theory) (N : ℕ) (e : Object) → IsSound t → JudgesTruly t N → EventKeeps t N e }
{}

/// Whatever events happen under the built-in checker from the initial theory on, each of them keeps truth, the theory
/// that they lead to is sound, and t = nil is no theorem of it.
pub fn reached_sound()
    ensures events { (es : List Object) (N : ℕ) → StaysBuiltIn (initial One) es N → EachKeeps (initial One) N es }
    ensures sound { (es : List Object) (N : ℕ) → StaysBuiltIn (initial One) es N → IsSound (after (initial One) es N) }
    ensures consistent { (es : List Object) (N : ℕ) → StaysBuiltIn (initial One) es N → Member (formula_object (Equal (Constant T) (Constant NIL))) (after (initial One) es N).theorems → ⊥ }
{}
