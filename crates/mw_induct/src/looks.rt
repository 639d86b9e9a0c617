//! Looks at the data of an induction, which many steps and many cases may share.
ghost use Rattle.std.specs.Prelude.{◌≡◌};
ghost use Rattle.mw_heap.specs.Objects.{IsIn};

use mw_heap::{Heap, Memory, Ref, View};
use mw_term::{take_searches, take_searches_of_members};

/// Takes a look, from those that the heap allows, for each case of an induction, for each of its substitutions, and for each member of one.
/// The error is that fewer are left.
pub(crate) fn take_looks_at_cases(heap: &mut Heap, cases: Ref) -> Result<(), Memory>
    requires { IsIn heap.old.objects cases }
    ensures { heap.new.objects ≡ heap.old.objects }
{
    let mut rest = cases;
    while let View::Pair(substitutions, more) = heap.view(rest) {
        take_searches(heap, 1)?;
        take_looks_at_substitutions(heap, substitutions)?;
        rest = more;
    }
    Ok(())
}

// Takes a look for each substitution, and for each member of one.
fn take_looks_at_substitutions(heap: &mut Heap, substitutions: Ref) -> Result<(), Memory>
    requires { IsIn heap.old.objects substitutions }
    ensures { heap.new.objects ≡ heap.old.objects }
{
    let mut rest = substitutions;
    while let View::Pair(s, more) = heap.view(rest) {
        take_searches(heap, 1)?;
        take_searches_of_members(heap, s)?;
        rest = more;
    }
    Ok(())
}
