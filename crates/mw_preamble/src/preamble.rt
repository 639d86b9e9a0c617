//! Admission of the built-in definitions.
ghost use Rattle.std.specs.Prelude.{◌≡◌, IfOk, map, All};
ghost use Rattle.mw_model.specs.Terms.Term.{formula_object};
ghost use Rattle.mw_model.specs.Values.Definition.{arity_table};
ghost use Rattle.mw_heap.specs.Objects.{object_at, IsIn, Grows};
ghost use Rattle.mw_heap.specs.Variants.{profile_of};
ghost use Rattle.mw_code.specs.Tables.{StandsFor};
ghost use Rattle.mw_preamble.specs.Admitted.{definitions_of, axioms_in_order};
ghost use Rattle.mw_preamble.specs.Entries.{AreEntries};
ghost use Rattle.mw_preamble.specs.Rows.{built_in_rows};

use crate::Entries;
use crate::define::define_rows;
use crate::primitives::primitive_arities;
use crate::rows::{admit_rows, read_rows};
use mw_axioms::Axioms;
use mw_code::Table;
use mw_heap::{Heap, Memory, Profile, Ref};
use mw_term::Arity;

/// What the built-in definitions bring: they themselves, each a block of one, their axioms, in order, the table of the primitives'
/// arities and theirs, and the table of their code.
#[derive(Drop)]
pub struct Preamble {
    pub definitions: Entries,
    pub axioms: Axioms,
    pub arity: Arity,
    // It is boxed, so that the proofs of its owners are short.
    pub table: Box<Table>,
}

/// Makes the axioms, the entries and the code of the built-in definitions of the profile, and the arity table that begins a theory.
pub fn admit_all(heap: &mut Heap, profile: Profile) -> Result<Preamble, Memory>
    ensures grows { Grows heap.old.objects heap.new.objects }
    ensures definitions { IfOk result (λ p. AreEntries heap.new.objects p.definitions (definitions_of (profile_of profile)).blocks) }
    ensures within { IfOk result (λ p. All (IsIn heap.new.objects) p.axioms) }
    ensures axioms { IfOk result (λ p. map (object_at heap.new.objects) p.axioms ≡ map formula_object (axioms_in_order (definitions_of (profile_of profile)).blocks)) }
    ensures arity { IfOk result (λ p. p.arity ≡ arity_table (definitions_of (profile_of profile))) }
    ensures table { IfOk result (λ p. StandsFor heap.new.objects p.table.value (definitions_of (profile_of profile))) }
{
    let rows = read_rows(heap, profile)?;
    let mut arity = primitive_arities(heap.alloc(), profile)?;
    let axioms = admit_rows(heap, rows, &mut arity)?;
    let (definitions, table) = define_all(heap, rows, profile)?;
    Ok(Preamble {
        definitions,
        axioms,
        arity,
        table,
    })
}

// The entries and the code of the profile's rows.
fn define_all(heap: &Heap, rows: Ref, profile: Profile) -> Result<(Entries, Box<Table>), Memory>
    requires within { IsIn heap.now.objects rows }
    requires rows { object_at heap.now.objects rows ≡ built_in_rows (profile_of profile) }
    ensures definitions { IfOk result (λ d. AreEntries heap.now.objects d.0 (definitions_of (profile_of profile)).blocks) }
    ensures table { IfOk result (λ d. StandsFor heap.now.objects d.1.value (definitions_of (profile_of profile))) }
{
    let mut boxed = Box::new(heap.alloc(), Table::new(heap.alloc(), profile))?;
    let table: &mut Table = &mut boxed;
    let definitions = define_rows(heap, rows, table)?;
    Ok((definitions, boxed))
}
