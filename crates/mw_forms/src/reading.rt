//! Objects that are read from a text.
ghost use Rattle.std.specs.Prelude.{IfOk};
ghost use Rattle.mw_heap.specs.Objects.{IsIn, Grows};

use mw_heap::{Heap, Memory, Ref};
use mw_read::{Reader, Step};

/// The first datum of a text. The error is out of memory, or a text that does not begin with a datum.
pub fn read(heap: &mut Heap, text: &[u8]) -> Result<Ref, Memory>
    ensures grows { Grows heap.old.objects heap.new.objects }
    ensures within { IfOk result (λ x. IsIn heap.new.objects x) }
{
    let mut reader = Reader::new(heap.alloc());
    let (step, _) = reader.step(heap, text);
    datum(heap, step)
}

// What a reader has read, where it is a datum of this heap.
fn datum(heap: &Heap, step: Step) -> Result<Ref, Memory>
    ensures { IfOk result (λ x. IsIn heap.now.objects x) }
{
    match step {
        Step::Datum(x) if crate::is_in(heap, x) => Ok(x),
        _ => Err(Memory),
    }
}

/// The members of the list of two that a text gives. The error is out of memory, or a text that gives no list of two.
pub fn read_two(heap: &mut Heap, text: &[u8]) -> Result<(Ref, Ref), Memory>
    ensures grows { Grows heap.old.objects heap.new.objects }
    ensures within { IfOk result (λ r. IsIn heap.new.objects r.0 × IsIn heap.new.objects r.1) }
{
    let list = read(heap, text)?;
    match heap.two_members(list) {
        Some(members) => Ok(members),
        None => Err(Memory),
    }
}

/// The members of the list of three that a text gives. The error is out of memory, or a text that gives no list of three.
pub fn read_three(heap: &mut Heap, text: &[u8]) -> Result<(Ref, Ref, Ref), Memory>
    ensures grows { Grows heap.old.objects heap.new.objects }
    ensures within { IfOk result (λ r. IsIn heap.new.objects r.0 × (IsIn heap.new.objects r.1 × IsIn heap.new.objects r.2)) }
{
    let list = read(heap, text)?;
    match heap.three_members(list) {
        Some(members) => Ok(members),
        None => Err(Memory),
    }
}

/// The members of the list of four that a text gives. The error is out of memory, or a text that gives no list of four.
pub fn read_four(heap: &mut Heap, text: &[u8]) -> Result<(Ref, Ref, Ref, Ref), Memory>
    ensures grows { Grows heap.old.objects heap.new.objects }
    ensures within { IfOk result (λ r. IsIn heap.new.objects r.0 × (IsIn heap.new.objects r.1 × (IsIn heap.new.objects r.2 × IsIn heap.new.objects r.3))) }
{
    let list = read(heap, text)?;
    match heap.four_members(list) {
        Some(members) => Ok(members),
        None => Err(Memory),
    }
}
