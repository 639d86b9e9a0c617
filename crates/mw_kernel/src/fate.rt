//! The fate of an event.
ghost use Rattle.std.specs.Prelude.{◌≡◌, ℕ, List, [], IfOk, IfSome, option_map};
ghost use Rattle.mw_model.specs.Terms.Object.{Object};
ghost use Rattle.mw_model.specs.Events.Refusal.{Accepted};
ghost use Rattle.mw_model.specs.Events.Theory.{Theory};
ghost use Rattle.mw_model.specs.Events.Fate.{show};
ghost use Rattle.mw_model.specs.Texts.Printing.{text_of};
ghost use Rattle.mw_heap.specs.Objects.{object_at, IsIn, Grows};
ghost use Rattle.mw_heap.specs.Variants.{refusal_of};
ghost use Rattle.mw_kernel.specs.Fates.{fate_of, KeepsRoom, KeepsObjects};
ghost use Rattle.mw_theory.specs.Settling.{fate_by};

use mw_heap::{Heap, Memory, Ref, Refusal};
use mw_print::{Bytes, Printed, print};

/// What an event comes to.
#[derive(Drop)]
pub enum Fate {
    /// It is accepted: the text that it shows, which is empty for an event that shows none.
    Accepted(Bytes),
    /// It is refused, for this reason.
    Refused(Refusal),
}

// The fate of an event that shows nothing.
pub(crate) fn accepted(heap: &Heap) -> Fate
    ensures { fate_of result ≡ Accepted [] }
{
    Fate::Accepted(Bytes::from_vec(Vec::new(heap.alloc())))
}

// The fate of an event that shows nothing, and that is refused for this reason, if it is.
pub(crate) fn fate_after(heap: &Heap, refused: Option<Refusal>) -> Fate
    ensures fate { fate_of result ≡ fate_by (option_map refusal_of refused) }
    ensures kept { (old new : ℕ) → IfSome refused (λ r. new ≡ old) → KeepsRoom result old new }
    ensures objects { (old new : List Object) → IfSome refused (λ r. Grows old new) → KeepsObjects result old new }
{
    match refused {
        None => accepted(heap),
        Some(reason) => Fate::Refused(reason),
    }
}

// The fate of an event that shows an object.
pub(crate) fn shown(heap: &Heap, x: Ref) -> Result<Fate, Memory>
    requires { IsIn heap.now.objects x }
    ensures { IfOk result (λ f. (t : Theory) → fate_of f ≡ (show t (text_of (object_at heap.now.objects x))).0) }
{
    let mut text = Vec::new(heap.alloc());
    match print(heap, x, &mut text) {
        Printed::Ok => Ok(Fate::Accepted(Bytes::from_vec(text))),
        Printed::Long => Ok(Fate::Refused(Refusal::Long)),
        Printed::Memory => Err(Memory),
    }
}
