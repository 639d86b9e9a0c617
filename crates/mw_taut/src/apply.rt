//! What rules of the table make in a heap.
ghost use Rattle.std.specs.Prelude.{map, option_map, IfSome};
ghost use Rattle.mw_model.specs.Values.Truth.{Each};
ghost use Rattle.mw_heap.specs.Objects.{object_at, IsIn};
ghost use Rattle.mw_taut.specs.Making.{Makes};
ghost use Rattle.mw_taut.specs.Reducing.{Fixed, Changed, change_of, other_at, form_at, IsOtherIn, IsFormIn};
ghost use Rattle.mw_taut.specs.Rules.{rule_made};

use crate::reduced::{Change, Reduced, Settled};
use crate::rules::RULES;
use mw_build::make;
use mw_heap::{Heap, Memory, Ref};

/// What the rule of this number makes of the given objects.
pub(crate) fn apply(heap: &mut Heap, rule: usize, given: &[Ref]) -> Result<Ref, Memory>
    requires { Each (IsIn heap.old.objects) given.now }
    ensures { Makes IsIn object_at heap.old.objects heap.new.objects result (rule_made rule (map (object_at heap.old.objects) given.now)) }
{
    make(heap, &RULES, rule, given)
}

/// A value, with the proof that the rule of this number makes.
pub(crate) fn fixed(
    heap: &mut Heap,
    value: bool,
    rule: usize,
    given: &[Ref],
) -> Result<Reduced, Memory>
    requires { Each (IsIn heap.old.objects) given.now }
    ensures { Makes IsFormIn form_at heap.old.objects heap.new.objects result (Fixed (value, rule_made rule (map (object_at heap.old.objects) given.now))) }
{
    let proof = apply(heap, rule, given)?;
    Ok(Reduced::Fixed(Settled { value, proof }))
}

/// Another formula and its proofs, by the rule of this number and the two after it.
pub(crate) fn change(
    heap: &mut Heap,
    rule: u8,
    denied: Option<Ref>,
    given: &[Ref],
) -> Result<Change, Memory>
    requires denied_in { IfSome denied (IsIn heap.old.objects) }
    requires given_in { Each (IsIn heap.old.objects) given.now }
    ensures { Makes IsOtherIn other_at heap.old.objects heap.new.objects result (change_of rule (option_map (object_at heap.old.objects) denied) (map (object_at heap.old.objects) given.now)) }
{
    let first = rule as usize;
    let formula = apply(heap, first, given)?;
    let from = apply(heap, first + 1, given)?;
    let to = apply(heap, first + 2, given)?;
    Ok(Change {
        formula,
        denied,
        from,
        to,
    })
}

/// The same, as what a part comes to.
pub(crate) fn changed(
    heap: &mut Heap,
    rule: u8,
    denied: Option<Ref>,
    given: &[Ref],
) -> Result<Reduced, Memory>
    requires denied_in { IfSome denied (IsIn heap.old.objects) }
    requires given_in { Each (IsIn heap.old.objects) given.now }
    ensures { Makes IsFormIn form_at heap.old.objects heap.new.objects result (Changed (change_of rule (option_map (object_at heap.old.objects) denied) (map (object_at heap.old.objects) given.now))) }
{
    let changed = change(heap, rule, denied, given)?;
    Ok(Reduced::Changed(changed))
}
