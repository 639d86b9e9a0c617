//! The datum that says why an event is refused, and its line.
ghost use Rattle.std.specs.Prelude.{◌≡◌, All, IfOk, OnOk, map};
ghost use Rattle.mw_model.specs.Terms.Object.{NIL, Natural, Symbol, Pair, name_of_bytes, symbol};
ghost use Rattle.mw_model.specs.Events.Refusal.{reason_of};
ghost use Rattle.mw_heap.specs.Objects.{object_at, IsIn, Grows};
ghost use Rattle.mw_heap.specs.Variants.{refusal_of};
ghost use Rattle.mw_commands.specs.Commands.ExplanationSteps.{listed};
ghost use Rattle.mw_kernel.specs.Explained.{PutsLine};

use mw_heap::{Heap, Memory, Ref, Refusal, list_of};
use mw_print::{write_datum, write_text_and_number};

// The list (WHY number REASON part ..).
fn reasoned(heap: &mut Heap, number: u64, reason: Refusal, parts: &[Ref]) -> Result<Ref, Memory>
    requires { All (IsIn heap.old.objects) parts.now }
    ensures grows { Grows heap.old.objects heap.new.objects }
    ensures made { IfOk result (λ r. IsIn heap.new.objects r × (object_at heap.new.objects r ≡ Pair (symbol "WHY") (Pair (Natural number) (Pair (Symbol (name_of_bytes (reason_of (refusal_of reason)))) (listed (map (object_at heap.old.objects) parts.now)))))) }
{
    let list = list_of(heap, parts)?;
    let word = heap.symbol(reason.word().as_bytes())?;
    let tail = heap.cons(word, list)?;
    let count = heap.nat(number as u128)?;
    let rest = heap.cons(count, tail)?;
    let why = heap.symbol(b"WHY")?;
    heap.cons(why, rest)
}

// Puts the line of the datum (WHY number REASON) behind `out`. No object is made for it: a book may have a million such events.
fn put_bare_reason(number: u64, reason: Refusal, out: &mut Vec<u8>) -> Result<(), Memory>
    ensures { OnOk result (PutsLine (Pair (symbol "WHY") (Pair (Natural number) (Pair (Symbol (name_of_bytes (reason_of (refusal_of reason)))) NIL))) out.old.items out.new.items) }
{
    write_text_and_number(out, b"(WHY ", number)?;
    out.push(b' ')?;
    out.extend_from_slice(reason.word().as_bytes())?;
    out.extend_from_slice(b")\n")?;
    Ok(())
}

/// Puts the line of the datum (WHY number REASON part ..) behind `out`. The error is out of memory.
pub(crate) fn put_reason(
    heap: &mut Heap,
    number: u64,
    reason: Refusal,
    parts: &[Ref],
    out: &mut Vec<u8>,
) -> Result<(), Memory>
    requires { All (IsIn heap.old.objects) parts.now }
    ensures grows { Grows heap.old.objects heap.new.objects }
    ensures put { OnOk result (PutsLine (Pair (symbol "WHY") (Pair (Natural number) (Pair (Symbol (name_of_bytes (reason_of (refusal_of reason)))) (listed (map (object_at heap.old.objects) parts.now))))) out.old.items out.new.items) }
{
    if parts.is_empty() {
        return put_bare_reason(number, reason, out);
    }
    let datum = reasoned(heap, number, reason, parts)?;
    write_datum(heap, datum, 1, out)?;
    out.push(b'\n')?;
    Ok(())
}
