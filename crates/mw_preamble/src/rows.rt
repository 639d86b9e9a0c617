//! Admission of the rows of the list.
ghost use Rattle.std.specs.Prelude.{◌≡◌, ◌++◌, [], ◌∷◌, true, IfOk, OnOk, map, All};
ghost use Rattle.mw_model.specs.Texts.Printing.{text_of};
ghost use Rattle.mw_heap.specs.Variants.{profile_of};
ghost use Rattle.mw_heap.specs.Objects.{object_at, IsIn, Grows};
ghost use Rattle.mw_preamble.specs.Rows.{built_in_rows, is_row, are_rows, with_row, with_rows, axiom_of, axioms_of};

use crate::text::{AFTER, BEFORE, differing};
use mw_axioms::Axioms;
use mw_heap::{Heap, Memory, Profile, Ref, View};
use mw_read::{Reader, Step};
use mw_term::Arity;
use std::alloc::Global;

// The text of the profile's rows.
fn rows_text(alloc: Global, profile: Profile) -> Result<Vec<u8>, Memory>
    ensures { IfOk result (λ t. t.items ≡ text_of (built_in_rows (profile_of profile))) }
{
    let mut text = Vec::from_slice(alloc, BEFORE)?;
    text.extend_from_slice(differing(profile))?;
    text.extend_from_slice(AFTER)?;
    Ok(text)
}

// Reads the list of the profile's rows.
pub(crate) fn read_rows(heap: &mut Heap, profile: Profile) -> Result<Ref, Memory>
    ensures grows { Grows heap.old.objects heap.new.objects }
    ensures within { IfOk result (IsIn heap.new.objects) }
    ensures rows { IfOk result (λ r. object_at heap.new.objects r ≡ built_in_rows (profile_of profile)) }
{
    let text = rows_text(heap.alloc(), profile)?;
    let mut reader = Reader::new(heap.alloc());
    let (step, _) = reader.step(heap, text.as_slice());
    match step {
        Step::Datum(rows) => Ok(rows),
        _ => Err(Memory),
    }
}

// Adds what the rows of a list name to the table, in order, and gives their axioms.
pub(crate) fn admit_rows(heap: &Heap, rows: Ref, arity: &mut Arity) -> Result<Axioms, Memory>
    requires within { IsIn heap.now.objects rows }
    requires rows { are_rows arity.old (object_at heap.now.objects rows) ≡ true }
    ensures within { IfOk result (λ a. All (IsIn heap.now.objects) a) }
    ensures axioms { IfOk result (λ a. map (object_at heap.now.objects) a ≡ axioms_of (object_at heap.now.objects rows)) }
    ensures arity { OnOk result (arity.new ≡ with_rows arity.old (object_at heap.now.objects rows)) }
{
    let mut axioms = Vec::new(heap.alloc());
    let mut rest = rows;
    while let View::Pair(row, more) = heap.view(rest) {
        let axiom = admit_row(heap, row, arity)?;
        axioms.push(axiom)?;
        rest = more;
    }
    Ok(Axioms::from_vec(axioms))
}

// Adds what a row names to the table, and gives its axiom.
fn admit_row(heap: &Heap, row: Ref, arity: &mut Arity) -> Result<Ref, Memory>
    requires within { IsIn heap.now.objects row }
    requires row { is_row arity.old (object_at heap.now.objects row) ≡ true }
    ensures within { IfOk result (IsIn heap.now.objects) }
    ensures axiom { IfOk result (λ a. object_at heap.now.objects a ≡ axiom_of (object_at heap.now.objects row)) }
    ensures arity { OnOk result (arity.new ≡ with_row arity.old (object_at heap.now.objects row)) }
{
    let View::Pair(name, rest) = heap.view(row) else {
        unreachable!()
    };
    let View::Pair(count, axiom) = heap.view(rest) else {
        unreachable!()
    };
    let View::Nat(count) = heap.view(count) else {
        unreachable!()
    };
    arity.add(heap.name_of(name), count as u64)?;
    Ok(axiom)
}
