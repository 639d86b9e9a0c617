//! What the denial of a formula and the disjunction of two formulas come to.
ghost use Rattle.std.specs.Prelude.{◌∷◌, []};
ghost use Rattle.mw_model.specs.Values.Truth.{Each};
ghost use Rattle.mw_heap.specs.Objects.{object_at, IsIn};
ghost use Rattle.mw_taut.specs.Making.{Makes};
ghost use Rattle.mw_taut.specs.Reducing.{settled_at, other_at, form_at, IsOtherIn, IsFormIn, deny, either_other, either};

use crate::apply::{change, changed, fixed};
use crate::reduced::{Change, Reduced, Settled};
use crate::rule::{
    BOTH, DENIAL, DOUBLED, FIRST, FIRST_KEPT, KEPT, LEFT, NEITHER, RIGHT, SECOND, SECOND_KEPT,
    UNDENIED,
};
use mw_heap::{Heap, Memory, Ref};

/// The denial of x, in the context d.
pub(crate) fn deny(heap: &mut Heap, d: Ref, x: Ref, r: Reduced) -> Result<Reduced, Memory>
    requires d_in { IsIn heap.old.objects d }
    requires x_in { IsIn heap.old.objects x }
    requires r_in { IsFormIn heap.old.objects r }
    ensures { Makes IsFormIn form_at heap.old.objects heap.new.objects result (deny (object_at heap.old.objects d) (object_at heap.old.objects x) (form_at heap.old.objects r)) }
{
    match r {
        Reduced::Fixed(s) if s.value => fixed(heap, false, DOUBLED, &[x, d, s.proof]),
        Reduced::Fixed(s) => Ok(Reduced::Fixed(Settled {
            value: true,
            proof: s.proof,
        })),
        Reduced::Kept => Ok(Reduced::Kept),
        Reduced::Changed(s) => match s.denied {
            Some(z) => changed(heap, UNDENIED, None, &[d, x, s.formula, s.from, s.to, z]),
            None => {
                let given = [d, x, s.formula, s.from, s.to];
                changed(heap, DENIAL, Some(s.formula), &given)
            }
        },
    }
}

// Where the value of one of them is fixed, and the other comes to another formula: by the first rule if the value is true, and else by the
// second.
fn either_other(
    heap: &mut Heap,
    d: Ref,
    x: Ref,
    y: Ref,
    s: Settled,
    t: Change,
    rules: (usize, u8),
) -> Result<Reduced, Memory>
    requires all_in { Each (IsIn heap.old.objects) (d ∷ x ∷ y ∷ s.proof ∷ []) }
    requires t_in { IsOtherIn heap.old.objects t }
    ensures { Makes IsFormIn form_at heap.old.objects heap.new.objects result (either_other rules.0 rules.1 (object_at heap.old.objects d) (object_at heap.old.objects x) (object_at heap.old.objects y) (settled_at heap.old.objects s) (other_at heap.old.objects t)) }
{
    if s.value {
        return fixed(heap, true, rules.0, &[x, y, d, s.proof]);
    }
    let given = [d, x, y, t.formula, t.from, t.to, s.proof];
    changed(heap, rules.1, t.denied, &given)
}

/// The disjunction of x and y, in the context d.
pub(crate) fn either(
    heap: &mut Heap,
    d: Ref,
    x: Ref,
    y: Ref,
    r: Reduced,
    s: Reduced,
) -> Result<Reduced, Memory>
    requires all_in { Each (IsIn heap.old.objects) (d ∷ x ∷ y ∷ []) }
    requires r_in { IsFormIn heap.old.objects r }
    requires s_in { IsFormIn heap.old.objects s }
    ensures { Makes IsFormIn form_at heap.old.objects heap.new.objects result (either (object_at heap.old.objects d) (object_at heap.old.objects x) (object_at heap.old.objects y) (form_at heap.old.objects r) (form_at heap.old.objects s)) }
{
    match (r, s) {
        (Reduced::Fixed(s), Reduced::Fixed(_)) if s.value => {
            fixed(heap, true, LEFT, &[x, y, d, s.proof])
        }
        (Reduced::Fixed(_), Reduced::Fixed(t)) if t.value => {
            fixed(heap, true, RIGHT, &[x, y, d, t.proof])
        }
        (Reduced::Fixed(s), Reduced::Fixed(t)) => {
            fixed(heap, false, NEITHER, &[x, y, d, s.proof, t.proof])
        }
        (Reduced::Fixed(s), Reduced::Kept) => {
            let t = change(heap, KEPT, None, &[d, y])?;
            either_other(heap, d, x, y, s, t, (LEFT, SECOND))
        }
        (Reduced::Fixed(s), Reduced::Changed(t)) => {
            either_other(heap, d, x, y, s, t, (LEFT, SECOND))
        }
        (Reduced::Kept, Reduced::Fixed(t)) => {
            let s = change(heap, KEPT, None, &[d, x])?;
            either_other(heap, d, x, y, t, s, (RIGHT, FIRST))
        }
        (Reduced::Kept, Reduced::Kept) => Ok(Reduced::Kept),
        (Reduced::Kept, Reduced::Changed(t)) => {
            changed(heap, FIRST_KEPT, None, &[d, x, y, t.formula, t.from, t.to])
        }
        (Reduced::Changed(s), Reduced::Fixed(t)) => {
            either_other(heap, d, x, y, t, s, (RIGHT, FIRST))
        }
        (Reduced::Changed(s), Reduced::Kept) => {
            changed(heap, SECOND_KEPT, None, &[d, x, y, s.formula, s.from, s.to])
        }
        (Reduced::Changed(s), Reduced::Changed(t)) => {
            let given = [d, x, y, s.formula, s.from, s.to, t.formula, t.from, t.to];
            changed(heap, BOTH, None, &given)
        }
    }
}
