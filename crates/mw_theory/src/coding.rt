//! The code of a block.
ghost use Rattle.std.specs.Prelude.{◌≡◌, List, [], map, OnOk, OnErr};
ghost use Rattle.mw_model.specs.Terms.Object.{Object};
ghost use Rattle.mw_model.specs.Values.Definition.{Block, Definitions};
ghost use Rattle.mw_code.specs.Tables.{StandsFor};
ghost use Rattle.mw_preamble.specs.Defining.{spelling_of};
ghost use Rattle.mw_theory.specs.Adding.{with_block, MayBeAdded};

use mw_code::Table;
use mw_heap::{Heap, Memory, Ref};
use mw_preamble::Definition;

/// Adds a block to the code. If memory runs out, the table stands for what it stood for.
pub(crate) fn add_code(table: &mut Table, heap: &Heap, block: &[Definition]) -> Result<(), Memory>
    requires block { (D : Definitions) × (B : Block) × MayBeAdded heap.now.objects table.old D block.now B }
    ensures added { (D : Definitions) (B : Block) → MayBeAdded heap.now.objects table.old D block.now B → OnOk result (StandsFor heap.now.objects table.new (with_block B D)) }
    ensures err { (os : List Object) (E : Definitions) → StandsFor os table.old E → OnErr result (StandsFor os table.new E) }
{
    let mut spellings = Vec::new(heap.alloc());
    list_spellings(block, &mut spellings)?;
    table.add(heap, spellings.as_slice())
}

// Lists what the table takes of each definition.
fn list_spellings(
    block: &[Definition],
    spellings: &mut Vec<(Ref, Ref, Option<Ref>)>,
) -> Result<(), Memory>
    requires { spellings.old.items ≡ [] }
    ensures { OnOk result (spellings.new.items ≡ map spelling_of block.now) }
{
    for definition in block {
        spellings.push(definition.spelling())?;
    }
    Ok(())
}
