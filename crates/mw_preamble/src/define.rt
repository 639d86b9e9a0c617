//! Entries and code of the definitions in the rows.
ghost use Rattle.std.specs.Prelude.{◌≡◌, List, [], ◌∷◌, IfOk, OnOk};
ghost use Rattle.mw_model.specs.Values.Primitive.{Profile};
ghost use Rattle.mw_model.specs.Values.Definition.{Block, definitions};
ghost use Rattle.mw_heap.specs.Objects.{object_at, IsIn};
ghost use Rattle.mw_heap.specs.Variants.{profile_of};
ghost use Rattle.mw_code.specs.Tables.{StandsFor};
ghost use Rattle.mw_preamble.specs.Admitted.{definitions_of};
ghost use Rattle.mw_preamble.specs.Entries.{AreEntries};
ghost use Rattle.mw_preamble.specs.Rows.{IsRowOf, built_in_rows};
ghost use Rattle.mw_preamble.specs.Defining.{IsNext, IsNextRow};

use crate::read::definition_of;
use crate::{Definition, Entries};
use mw_code::Table;
use mw_heap::{Heap, Memory, Ref, View};

// Adds the definitions of the rows to the table, in order, and answers them.
pub(crate) fn define_rows(heap: &Heap, rows: Ref, table: &mut Table) -> Result<Entries, Memory>
    requires within { IsIn heap.now.objects rows }
    requires rows { object_at heap.now.objects rows ≡ built_in_rows (profile_of table.old.profile) }
    requires empty { StandsFor heap.now.objects table.old (definitions (profile_of table.old.profile) []) }
    ensures entries { IfOk result (λ e. AreEntries heap.now.objects e (definitions_of (profile_of table.old.profile)).blocks) }
    ensures table { OnOk result (StandsFor heap.now.objects table.new (definitions_of (profile_of table.old.profile))) }
{
    let mut entries = Entries::new(heap.alloc());
    let mut rest = rows;
    while let View::Pair(row, more) = heap.view(rest) {
        define_row(heap, row, table, &mut entries)?;
        rest = more;
    }
    Ok(entries)
}

// Adds the definition of a row to the table and to the entries, as a block of one.
fn define_row(heap: &Heap, row: Ref, table: &mut Table, entries: &mut Entries) -> Result<(), Memory>
    requires within { IsIn heap.now.objects row }
    requires next { (P : Profile) × (D : List Block) × (B : Block) × IsNextRow heap.now.objects P D B row × StandsFor heap.now.objects table.old (definitions P D) }
    ensures entries { (D : List Block) (B : Block) → IsRowOf B (object_at heap.now.objects row) → AreEntries heap.now.objects entries.old D → OnOk result (AreEntries heap.now.objects entries.new (B ∷ D)) }
    ensures table { (P : Profile) (D : List Block) (B : Block) → IsNextRow heap.now.objects P D B row → StandsFor heap.now.objects table.old (definitions P D) → OnOk result (StandsFor heap.now.objects table.new (definitions P (B ∷ D))) }
{
    let definition = definition_of(heap, row);
    let block = Vec::from_slice(heap.alloc(), &[definition])?;
    entries.add(block)?;
    add_code(heap, table, &definition)
}

// Adds a block of one definition to the table.
fn add_code(heap: &Heap, table: &mut Table, definition: &Definition) -> Result<(), Memory>
    requires { (P : Profile) × (D : List Block) × (B : Block) × IsNext heap.now.objects P D B definition.now × StandsFor heap.now.objects table.old (definitions P D) }
    ensures { (P : Profile) (D : List Block) (B : Block) → IsNext heap.now.objects P D B definition.now → StandsFor heap.now.objects table.old (definitions P D) → OnOk result (StandsFor heap.now.objects table.new (definitions P (B ∷ D))) }
{
    table.add(heap, &[definition.spelling()])
}
