//! The names that events add.
ghost use Rattle.std.specs.Prelude.{◌≡◌, IfOk};
ghost use Rattle.mw_commands.specs.Commands.Slice.{some_passes, first_members, names_added};
ghost use Rattle.mw_heap.specs.Objects.{object_at, IsIn, Grows};
ghost use Rattle.mw_heap.specs.Parts.{part_at, IsPart};
ghost use Rattle.mw_slice.specs.Supports.{Named, IsInside, notes};

use crate::Copies;
use crate::basis::Basis;
use crate::copying::copy;
use mw_heap::{Heap, Memory, Ref, View, Word};

// Whether a part is an atom that was met in the heap `to`, where an atom is copied. The part is NIL where it is missing.
fn is_met(
    from: &Heap,
    part: Option<Ref>,
    to: &mut Heap,
    copies: &mut Copies,
    basis: &Basis,
) -> Result<bool, Memory>
    requires within { IsPart from.now.objects part }
    requires inside { IsInside to.old.objects basis.now }
    ensures grows { Grows to.old.objects to.new.objects }
    ensures met { IfOk result (λ b. b ≡ notes to.new.objects basis.now (Named (part_at from.now.objects part))) }
{
    let Some(x) = part else {
        let nil = to.nil()?;
        return Ok(basis.has_name(to, nil));
    };
    if from.is_pair(Some(x)) {
        return Ok(false);
    }
    let name = copy(from, x, to, copies)?;
    Ok(basis.has_name(to, name))
}

// Whether a member of the list begins with a name that was met.
fn begins_with_met(
    from: &Heap,
    list: Ref,
    to: &mut Heap,
    copies: &mut Copies,
    basis: &Basis,
) -> Result<bool, Memory>
    requires within { IsIn from.now.objects list }
    requires inside { IsInside to.old.objects basis.now }
    ensures grows { Grows to.old.objects to.new.objects }
    ensures met { IfOk result (λ b. b ≡ some_passes (λ f. notes to.new.objects basis.now (Named f)) (first_members (object_at from.now.objects list))) }
{
    let mut list = list;
    while let View::Pair(member, rest) = from.view(list) {
        if is_met(from, from.car(member), to, copies, basis)? {
            return Ok(true);
        }
        list = rest;
    }
    Ok(false)
}

/// Whether a name that the event adds was met in the heap `to`, where these names are copied.
pub(crate) fn adds_met(
    from: &Heap,
    event: Ref,
    to: &mut Heap,
    copies: &mut Copies,
    basis: &Basis,
) -> Result<bool, Memory>
    requires within { IsIn from.now.objects event }
    requires inside { IsInside to.old.objects basis.now }
    ensures grows { Grows to.old.objects to.new.objects }
    ensures met { IfOk result (λ b. b ≡ some_passes (λ f. notes to.new.objects basis.now (Named f)) (names_added (object_at from.now.objects event))) }
{
    if from.is_headed(event, Word::Define) || from.is_headed(event, Word::Skolem) {
        return is_met(from, from.second_of(event), to, copies, basis);
    }
    if !from.is_headed(event, Word::DefineAll) {
        return Ok(false);
    }
    match from.second_of(event) {
        Some(list) => begins_with_met(from, list, to, copies, basis),
        None => Ok(false),
    }
}
