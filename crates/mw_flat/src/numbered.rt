//! Conclusions by their numbers.
ghost use Rattle.std.specs.Prelude.{◌≡◌, List, All, IfOk, IfSome, option_map};
ghost use Rattle.mw_heap.specs.Objects.{object_at, IsIn};
ghost use Rattle.mw_flat.specs.Collecting.{conclusion_numbered, conclusions_listed};

use mw_heap::{Heap, Memory, Ref, View};

/// The conclusion with this number, counted from 1.
pub(crate) fn numbered(conclusions: &[Ref], number: u128) -> Option<Ref>
    ensures { result ≡ conclusion_numbered conclusions.now number }
{
    if number == 0 {
        return None;
    }
    if number > conclusions.len() as u128 {
        return None;
    }
    Some(conclusions[(number - 1) as usize])
}

/// The conclusions with the numbers of a list; nothing where that is no proper list of numbers of conclusions.
pub(crate) fn listed(
    heap: &Heap,
    conclusions: &[Ref],
    numbers: Ref,
) -> Result<Option<Vec<Ref>>, Memory>
    requires { IsIn heap.now.objects numbers }
    ensures { IfOk result (λ o. option_map (λ v. v.items) o ≡ conclusions_listed conclusions.now (object_at heap.now.objects numbers)) }
{
    let mut found = Vec::new(heap.alloc());
    let mut rest = numbers;
    while let View::Pair(first, more) = heap.view(rest) {
        let View::Nat(number) = heap.view(first) else {
            return Ok(None);
        };
        let Some(conclusion) = numbered(conclusions, number) else {
            return Ok(None);
        };
        found.push(conclusion)?;
        rest = more;
    }
    if heap.is_nil(Some(rest)) {
        Ok(Some(found))
    } else {
        Ok(None)
    }
}
