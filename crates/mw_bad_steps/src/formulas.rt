//! Formulas and constants in a heap.
ghost use Rattle.std.specs.Prelude.{◌≡◌, IfOk};
ghost use Rattle.mw_model.specs.Terms.Object.{symbol, list2};
ghost use Rattle.mw_model.specs.Laws.Rules.{equal_object, not_object, or_object};
ghost use Rattle.mw_heap.specs.Objects.{object_at, IsIn, Grows};

use mw_heap::{Heap, Memory, Ref, Word, form_of};

/// The formula (pequal* a b).
pub(crate) fn equal(heap: &mut Heap, a: Ref, b: Ref) -> Result<Ref, Memory>
    requires a_in { IsIn heap.old.objects a }
    requires b_in { IsIn heap.old.objects b }
    ensures grows { Grows heap.old.objects heap.new.objects }
    ensures within { IfOk result (λ r. IsIn heap.new.objects r) }
    ensures made { IfOk result (λ r. object_at heap.new.objects r ≡ equal_object (object_at heap.old.objects a) (object_at heap.old.objects b)) }
{
    form_of(heap, Word::Pequal, &[a, b])
}

/// The formula (pnot* a).
pub(crate) fn not(heap: &mut Heap, a: Ref) -> Result<Ref, Memory>
    requires { IsIn heap.old.objects a }
    ensures grows { Grows heap.old.objects heap.new.objects }
    ensures within { IfOk result (λ r. IsIn heap.new.objects r) }
    ensures made { IfOk result (λ r. object_at heap.new.objects r ≡ not_object (object_at heap.old.objects a)) }
{
    form_of(heap, Word::Pnot, &[a])
}

/// The formula (por* a b).
pub(crate) fn or(heap: &mut Heap, a: Ref, b: Ref) -> Result<Ref, Memory>
    requires a_in { IsIn heap.old.objects a }
    requires b_in { IsIn heap.old.objects b }
    ensures grows { Grows heap.old.objects heap.new.objects }
    ensures within { IfOk result (λ r. IsIn heap.new.objects r) }
    ensures made { IfOk result (λ r. object_at heap.new.objects r ≡ or_object (object_at heap.old.objects a) (object_at heap.old.objects b)) }
{
    form_of(heap, Word::Por, &[a, b])
}

/// The constant (quote c).
pub(crate) fn quoted(heap: &mut Heap, c: Ref) -> Result<Ref, Memory>
    requires { IsIn heap.old.objects c }
    ensures grows { Grows heap.old.objects heap.new.objects }
    ensures within { IfOk result (λ r. IsIn heap.new.objects r) }
    ensures made { IfOk result (λ r. object_at heap.new.objects r ≡ list2 (symbol "QUOTE") (object_at heap.old.objects c)) }
{
    form_of(heap, Word::Quote, &[c])
}
