//! The tests of a SWITCH.
ghost use Rattle.std.specs.Prelude.{◌≡◌, IfOk, option_map, is_some};
ghost use Rattle.mw_model.specs.Values.Definition.{Definitions};
ghost use Rattle.mw_model.specs.Events.Theory.{Theory as Meant};
ghost use Rattle.mw_model.specs.Events.Fate.{checker_named};
ghost use Rattle.mw_heap.specs.Objects.{object_at, IsIn, Grows};
ghost use Rattle.mw_heap.specs.Variants.{refusal_of};
ghost use Rattle.mw_code.specs.Tables.{StandsFor};
ghost use Rattle.mw_theory.specs.Knowledge.{parts_of, meant, IsHeld};
ghost use Rattle.mw_kernel.specs.Switching.{switch_refusal};

use crate::claims::claim;
use mw_code::Table;
use mw_heap::{Heap, Memory, Ref, Refusal};
use mw_rules::is_known;
use mw_theory::{Theory, is_symbol};

/// Why a switch to the checker of this name is refused, where it is: Checker where no function with code and four formals has the name,
/// and then Claim where the claim of the name is none of the theorems.
pub(crate) fn refusal_of_switch(
    heap: &mut Heap,
    name: Ref,
    theory: &Theory,
) -> Result<Option<Refusal>, Memory>
    requires within { IsIn heap.old.objects name }
    requires held { IsHeld heap.old.objects theory.now }
    ensures grows { Grows heap.old.objects heap.new.objects }
    ensures refusal { IfOk result (λ r. option_map refusal_of r ≡ switch_refusal (meant heap.old.objects (parts_of theory.now)) (object_at heap.old.objects name)) }
{
    if !may_check(heap, name, &theory.table) {
        return Ok(Some(Refusal::Checker));
    }
    let claim = claim(heap, name)?;
    if is_known(heap, &theory.known_theorems, claim) {
        Ok(None)
    } else {
        Ok(Some(Refusal::Claim))
    }
}

// Whether a function with code and four formals has the name.
fn may_check(heap: &Heap, name: Ref, table: &Table) -> bool
    requires within { IsIn heap.now.objects name }
    requires table { (D : Definitions) × StandsFor heap.now.objects table.now D }
    ensures { (t : Meant) → StandsFor heap.now.objects table.now t.definitions → result ≡ is_some (checker_named t (object_at heap.now.objects name)) }
{
    if !is_symbol(heap, name) {
        return false;
    }
    match table.find(heap.name_of(name)) {
        Some(entry) => entry.arity == 4,
        None => false,
    }
}
