//! Derivations that are turned to proofs, by each derived rule once, and wrong uses of the rules, which turn to nothing.
ghost use Rattle.std.specs.Prelude.{◌≡◌, [], ◌∷◌, All, IfOk};
ghost use Rattle.mw_model.specs.Terms.Object.{Member};
ghost use Rattle.mw_model.specs.Terms.Term.{formula_object};
ghost use Rattle.mw_model.specs.Proofs.Axioms.{axiom_1, axiom_2};
ghost use Rattle.mw_heap.specs.Objects.{IsIn, Grows};
ghost use Rattle.mw_heap.specs.Lists.{list_object};

use mw_axioms::build;
use mw_forms::{boxed, is_in, read, read_two};
use mw_heap::{Heap, Memory, Profile, Ref};
use mw_lower::Lower;
use mw_proof::{Judged, Rewriter, Rewritten, judge};
use mw_rules::{Basis, Known};
use mw_term::{Arity, Marks};
use std::alloc::Global;
use std::test::Fail;

// These three formulas.
fn known_of(alloc: Global, first: Ref, second: Ref, third: Ref) -> Result<Known, Memory>
    ensures { IfOk result (λ k. k ≡ first ∷ second ∷ third ∷ []) }
{
    let mut known = Known::new(alloc);
    known.add(third)?;
    known.add(second)?;
    known.add(first)?;
    Ok(known)
}

// The axioms of equality, and one more.
fn axioms(heap: &mut Heap, more: Ref) -> Result<Known, Memory>
    ensures grows { Grows heap.old.objects heap.new.objects }
    ensures within { IfOk result (λ k. All (IsIn heap.new.objects) k) }
    ensures first { IfOk result (λ k. Member (formula_object axiom_1) (list_object heap.new.objects k)) }
    ensures second { IfOk result (λ k. Member (formula_object axiom_2) (list_object heap.new.objects k)) }
{
    let built = build(heap, Profile::One)?;
    let [first, second, ..] = built.as_slice() else {
        return Err(Memory);
    };
    if !is_in(heap, more) {
        return Err(Memory);
    }
    let known = known_of(heap.alloc(), *first, *second, more)?;
    Ok(known)
}

// The arity of IF.
fn arities(alloc: Global) -> Result<Arity, Memory> {
    let mut arity = Arity::new(alloc);
    arity.add(b"IF", 3)?;
    Ok(arity)
}

// X = Y and the axioms of equality.
fn given(heap: &mut Heap) -> Result<Known, Memory>
    ensures within { IfOk result (λ k. All (IsIn heap.new.objects) k) }
    ensures first { IfOk result (λ k. Member (formula_object axiom_1) (list_object heap.new.objects k)) }
    ensures second { IfOk result (λ k. Member (formula_object axiom_2) (list_object heap.new.objects k)) }
{
    let more = read(heap, b"(PEQUAL* X Y)")?;
    axioms(heap, more)
}

// What a derivation turns to, from these axioms.
fn lowered_from(heap: &mut Heap, p: Ref, known: &Known, arity: &Arity) -> Rewritten
    requires within { All (IsIn heap.old.objects) known.now }
    requires first { Member (formula_object axiom_1) (list_object heap.old.objects known.now) }
    requires second { Member (formula_object axiom_2) (list_object heap.old.objects known.now) }
{
    if !is_in(heap, p) {
        return Rewritten::Memory;
    }
    let alloc = heap.alloc();
    let theorems = Known::new(alloc);
    let basis = Basis {
        axioms: known,
        theorems: &theorems,
        profile: Profile::One,
    };
    let mut lower = Lower;
    lower.rewrite(heap, p, &basis, &mut Marks::new(alloc), arity)
}

// The same, where IF has its arity.
fn lowered_by(heap: &mut Heap, p: Ref, known: &Known) -> Result<Rewritten, Memory>
    requires within { All (IsIn heap.old.objects) known.now }
    requires first { Member (formula_object axiom_1) (list_object heap.old.objects known.now) }
    requires second { Member (formula_object axiom_2) (list_object heap.old.objects known.now) }
{
    let arity = arities(heap.alloc())?;
    Ok(lowered_from(heap, p, known, &arity))
}

// What a derivation turns to, from X = Y and the axioms of equality.
fn lowered(heap: &mut Heap, p: Ref) -> Result<Rewritten, Memory> {
    let known = given(heap)?;
    lowered_by(heap, p, &known)
}

// What a proof from these axioms is judged.
fn judged_from(heap: &mut Heap, p: Ref, known: &Known, arity: &Arity) -> Judged
    requires { All (IsIn heap.old.objects) known.now }
{
    if !is_in(heap, p) {
        return Judged::Memory;
    }
    let alloc = heap.alloc();
    judge(
        heap,
        p,
        known,
        &Known::new(alloc),
        arity,
        Profile::One,
        &mut Marks::new(alloc),
    )
}

// The same, where IF has its arity.
fn judged_by(heap: &mut Heap, p: Ref, known: &Known) -> Result<Judged, Memory>
    requires { All (IsIn heap.old.objects) known.now }
{
    let arity = arities(heap.alloc())?;
    Ok(judged_from(heap, p, known, &arity))
}

// What a proof from the same axioms is judged.
fn judged(heap: &mut Heap, p: Ref) -> Result<Judged, Memory> {
    let known = given(heap)?;
    judged_by(heap, p, &known)
}

// Whether two proofs have one conclusion.
fn conclude_alike(heap: &Heap, p: Ref, q: Ref) -> bool {
    is_in(heap, p) && is_in(heap, q) && heap.second_of(p) == heap.second_of(q)
}

// Whether a derivation turns to another object, which is judged a proof of the same.
fn is_turned(heap: &mut Heap, p: Ref) -> Result<bool, Memory> {
    let Rewritten::Proof(q) = lowered(heap, p)? else {
        return Ok(false);
    };
    Ok(q != p && judged(heap, q)? == Judged::Good && conclude_alike(heap, p, q))
}

// From Y = Y or X = Y: X = Y or Y = Y, or else the same again.
const COMMUTE_OR: &[u8] = b"(\
    (COMMUTE-OR (POR* (PEQUAL* X Y) (PEQUAL* Y Y)) \
        ((EXPANSION (POR* (PEQUAL* Y Y) (PEQUAL* X Y)) ((AXIOM (PEQUAL* X Y)))))) \
    (COMMUTE-OR (POR* (PEQUAL* Y Y) (PEQUAL* X Y)) \
        ((EXPANSION (POR* (PEQUAL* Y Y) (PEQUAL* X Y)) ((AXIOM (PEQUAL* X Y)))))))";

// X = Y, from itself and not itself or itself, or from these the other way round.
const MODUS_PONENS: &[u8] = b"(\
    (MODUS-PONENS (PEQUAL* X Y) \
        ((AXIOM (PEQUAL* X Y)) \
         (PROPOSITIONAL-SCHEMA (POR* (PNOT* (PEQUAL* X Y)) (PEQUAL* X Y)) ()))) \
    (MODUS-PONENS (PEQUAL* X Y) \
        ((PROPOSITIONAL-SCHEMA (POR* (PNOT* (PEQUAL* X Y)) (PEQUAL* X Y)) ()) \
         (AXIOM (PEQUAL* X Y)))))";

// From X = Y: Y = X, or else the same again.
const SYMMETRY: &[u8] = b"(\
    (SYMMETRY (PEQUAL* Y X) ((AXIOM (PEQUAL* X Y)))) \
    (SYMMETRY (PEQUAL* X Y) ((AXIOM (PEQUAL* X Y)))))";

// From X = Y and Y = X, which is by SYMMETRY: X = X, or else Y = Y.
const TRANSITIVITY: &[u8] = b"(\
    (TRANSITIVITY (PEQUAL* X X) \
        ((AXIOM (PEQUAL* X Y)) (SYMMETRY (PEQUAL* Y X) ((AXIOM (PEQUAL* X Y)))))) \
    (TRANSITIVITY (PEQUAL* Y Y) \
        ((AXIOM (PEQUAL* X Y)) (SYMMETRY (PEQUAL* Y X) ((AXIOM (PEQUAL* X Y)))))))";

// From three times X = Y, or else from twice: (if x x x) = (if y y y).
const REPLACE: &[u8] = b"(\
    (REPLACE (PEQUAL* (IF X X X) (IF Y Y Y)) \
        ((AXIOM (PEQUAL* X Y)) (AXIOM (PEQUAL* X Y)) (AXIOM (PEQUAL* X Y)))) \
    (REPLACE (PEQUAL* (IF X X X) (IF Y Y Y)) \
        ((AXIOM (PEQUAL* X Y)) (AXIOM (PEQUAL* X Y)))))";

// Whether the right one of two uses of a rule turns to a proof, and the wrong one stays.
fn is_right_turned(heap: &mut Heap, right_and_wrong: &[u8]) -> Result<bool, Memory> {
    let (right, wrong) = read_two(heap, right_and_wrong)?;
    Ok(is_turned(heap, right)? && lowered(heap, wrong)? == Rewritten::Keep)
}

fn derived_rules(heap: &mut Heap) -> Result<[bool; 5], Memory> {
    Ok([
        is_right_turned(heap, COMMUTE_OR)?,
        is_right_turned(heap, MODUS_PONENS)?,
        is_right_turned(heap, SYMMETRY)?,
        is_right_turned(heap, TRANSITIVITY)?,
        is_right_turned(heap, REPLACE)?,
    ])
}

// Whether a proof stays.
fn is_proof_kept(heap: &mut Heap) -> Result<bool, Memory> {
    let p = read(heap, b"(AXIOM (PEQUAL* X Y))")?;
    Ok(lowered(heap, p)? == Rewritten::Proof(p))
}

// Whether a step with one premise is out of memory where the given number of looks are allowed.
fn lacks_looks(heap: &mut Heap, looks: u64) -> Result<bool, Memory> {
    let p = read(heap, b"(SYMMETRY (PEQUAL* Y X) ((AXIOM (PEQUAL* X Y))))")?;
    heap.allow_looks(looks);
    Ok(lowered(heap, p)? == Rewritten::Memory)
}

// Whether a proof stays, and whether a premise takes 128 looks.
fn proofs_and_looks(heap: &mut Heap) -> Result<[bool; 3], Memory> {
    Ok([
        is_proof_kept(heap)?,
        lacks_looks(heap, 127)?,
        lacks_looks(heap, 128)?,
    ])
}

#[test]
fn derived_rules_are_turned_and_proofs_stay(rt: HostRuntime) -> Result<(), Fail> {
    let mut heap = boxed(rt.alloc())?;
    assert_eq!(rt; derived_rules(&mut heap)?, [true; 5]);
    assert_eq!(rt; proofs_and_looks(&mut heap)?, [true, true, false]);
    Ok(())
}
