//! A block of definitions more.
ghost use Rattle.std.specs.Prelude.{◌≡◌, ◌-◌, ◌≤◌, List, [], ◌∷◌, ◌++◌, length, take, drop, map, reverse, All, IfOk, OnOk, OnErr};
ghost use Rattle.mw_model.specs.Terms.Object.{Object};
ghost use Rattle.mw_model.specs.Terms.Term.{ArityTable, table_object};
ghost use Rattle.mw_model.specs.Values.Definition.{Block, Definitions, arity_table};
ghost use Rattle.mw_heap.specs.Objects.{object_at, IsIn, Grows};
ghost use Rattle.mw_translate.specs.Expands.{ArePairsOfSymbols, with_pairs};
ghost use Rattle.mw_code.specs.Tables.{StandsFor};
ghost use Rattle.mw_theory.specs.Knowledge.{put_all};
ghost use Rattle.mw_theory.specs.Adding.{AreNew, with_block, MayBeAdded, EndsWith, BeginsWith};

use crate::coding::add_code;
use crate::front::with_all;
use crate::pairs::{add_pairs, list_pairs, pairs_of};
use mw_code::Table;
use mw_heap::{Heap, Memory, Ref};
use mw_preamble::{Definition, Entries};
use mw_rules::Known;
use mw_term::Arity;
use std::alloc::Global;

/// The lists of a theory in the heap: its axioms and its arity table.
#[derive(Clone, Copy)]
pub(crate) struct Lists {
    pub axioms: Ref,
    pub arity_list: Ref,
}

/// What is added to a theory: a block of definitions, and its axioms.
#[derive(Clone, Copy)]
pub(crate) struct Addition<'a> {
    pub block: &'a [Definition],
    pub axioms: &'a [Ref],
}

/// Adds a block of definitions and its axioms to the arity table, the entries, the code and the known axioms, and answers the lists with
/// them in front. The one error is out of memory: then only the heap has grown, and the table stands for what it stood for.
pub(crate) fn add_block(
    heap: &mut Heap,
    addition: &Addition,
    lists: Lists,
    arity: &mut Arity,
    entries: &mut Entries,
    table: &mut Table,
    known: &mut Known,
) -> Result<Lists, Memory>
    requires block { (D : Definitions) × (B : Block) × MayBeAdded heap.old.objects table.old D addition.now.block.now B × (arity.old ≡ arity_table D) }
    requires axioms { All (IsIn heap.old.objects) addition.now.axioms.now }
    requires axiom_list { IsIn heap.old.objects lists.axioms }
    requires arity_list { IsIn heap.old.objects lists.arity_list }
    requires arities_listed { object_at heap.old.objects lists.arity_list ≡ table_object arity.old }
    ensures grows { Grows heap.old.objects heap.new.objects }
    ensures table { (D : Definitions) (B : Block) → MayBeAdded heap.old.objects table.old D addition.now.block.now B → OnOk result (StandsFor heap.new.objects table.new (with_block B D)) }
    ensures arity { (D : Definitions) (B : Block) → MayBeAdded heap.old.objects table.old D addition.now.block.now B → arity.old ≡ arity_table D → OnOk result (arity.new ≡ arity_table (with_block B D)) }
    ensures entries { OnOk result (entries.new ≡ entries.old ++ addition.now.block.now ∷ []) }
    ensures known { OnOk result (known.new ≡ reverse addition.now.axioms.now ++ known.old) }
    ensures arity_list { (D : Definitions) (B : Block) → MayBeAdded heap.old.objects table.old D addition.now.block.now B → arity.old ≡ arity_table D → IfOk result (λ l. IsIn heap.new.objects l.arity_list × (object_at heap.new.objects l.arity_list ≡ table_object (arity_table (with_block B D)))) }
    ensures axiom_list { IfOk result (λ l. IsIn heap.new.objects l.axioms × (object_at heap.new.objects l.axioms ≡ put_all (map (object_at heap.old.objects) addition.now.axioms.now) (object_at heap.old.objects lists.axioms))) }
    ensures err_table { (os : List Object) (E : Definitions) → StandsFor os table.old E → OnErr result (StandsFor os table.new E) }
    ensures err_arity { OnErr result (arity.new ≡ arity.old) }
    ensures err_entries { OnErr result (entries.new ≡ entries.old) }
    ensures err_known { OnErr result (known.new ≡ known.old) }
{
    let pairs = pairs_of(heap, addition.block)?;
    let lists = with_lists(heap, pairs.as_slice(), addition.axioms, lists)?;
    add_or_keep(
        heap,
        addition,
        pairs.as_slice(),
        arity,
        entries,
        table,
        known,
    )?;
    Ok(lists)
}

// The lists with these pairs and axioms in front.
fn with_lists(
    heap: &mut Heap,
    pairs: &[(Ref, u64)],
    axioms: &[Ref],
    lists: Lists,
) -> Result<Lists, Memory>
    requires symbols { ArePairsOfSymbols heap.old.objects pairs.now }
    requires axioms { All (IsIn heap.old.objects) axioms.now }
    requires axiom_list { IsIn heap.old.objects lists.axioms }
    requires arity_list { IsIn heap.old.objects lists.arity_list }
    ensures grows { Grows heap.old.objects heap.new.objects }
    ensures arity_list_in { IfOk result (λ l. IsIn heap.new.objects l.arity_list) }
    ensures arity_list { (A : ArityTable) → object_at heap.old.objects lists.arity_list ≡ table_object A → IfOk result (λ l. object_at heap.new.objects l.arity_list ≡ table_object (with_pairs heap.old.objects pairs.now A)) }
    ensures axiom_list { IfOk result (λ l. IsIn heap.new.objects l.axioms × (object_at heap.new.objects l.axioms ≡ put_all (map (object_at heap.old.objects) axioms.now) (object_at heap.old.objects lists.axioms))) }
{
    let arity_list = list_pairs(heap, pairs, lists.arity_list)?;
    let axioms = with_all(heap, axioms, lists.axioms)?;
    Ok(Lists { axioms, arity_list })
}

// Adds a block to the arity table, the entries, the known axioms and the code. If memory runs out, the first three are what they were.
fn add_or_keep(
    heap: &Heap,
    addition: &Addition,
    pairs: &[(Ref, u64)],
    arity: &mut Arity,
    entries: &mut Entries,
    table: &mut Table,
    known: &mut Known,
) -> Result<(), Memory>
    requires symbols { ArePairsOfSymbols heap.now.objects pairs.now }
    requires new { AreNew heap.now.objects arity.old pairs.now }
    requires block { (D : Definitions) × (B : Block) × MayBeAdded heap.now.objects table.old D addition.now.block.now B }
    ensures table { (D : Definitions) (B : Block) → MayBeAdded heap.now.objects table.old D addition.now.block.now B → OnOk result (StandsFor heap.now.objects table.new (with_block B D)) }
    ensures arity { OnOk result (arity.new ≡ with_pairs heap.now.objects pairs.now arity.old) }
    ensures entries { OnOk result (entries.new ≡ entries.old ++ addition.now.block.now ∷ []) }
    ensures known { OnOk result (known.new ≡ reverse addition.now.axioms.now ++ known.old) }
    ensures err_table { (os : List Object) (E : Definitions) → StandsFor os table.old E → OnErr result (StandsFor os table.new E) }
    ensures err_arity { OnErr result (arity.new ≡ arity.old) }
    ensures err_entries { OnErr result (entries.new ≡ entries.old) }
    ensures err_known { OnErr result (known.new ≡ known.old) }
{
    let had = sizes_of(arity, entries, known);
    match add_parts(heap, addition, pairs, arity, entries, table, known) {
        Ok(()) => Ok(()),
        Err(refusal) => {
            cut_back(had, arity, entries, known);
            Err(refusal)
        }
    }
}

// The same, with the code last. If memory runs out, some of the block may stay with all but the code.
fn add_parts(
    heap: &Heap,
    addition: &Addition,
    pairs: &[(Ref, u64)],
    arity: &mut Arity,
    entries: &mut Entries,
    table: &mut Table,
    known: &mut Known,
) -> Result<(), Memory>
    requires symbols { ArePairsOfSymbols heap.now.objects pairs.now }
    requires new { AreNew heap.now.objects arity.old pairs.now }
    requires block { (D : Definitions) × (B : Block) × MayBeAdded heap.now.objects table.old D addition.now.block.now B }
    ensures table { (D : Definitions) (B : Block) → MayBeAdded heap.now.objects table.old D addition.now.block.now B → OnOk result (StandsFor heap.now.objects table.new (with_block B D)) }
    ensures arity { OnOk result (arity.new ≡ with_pairs heap.now.objects pairs.now arity.old) }
    ensures entries { OnOk result (entries.new ≡ entries.old ++ addition.now.block.now ∷ []) }
    ensures known { OnOk result (known.new ≡ reverse addition.now.axioms.now ++ known.old) }
    ensures err_table { (os : List Object) (E : Definitions) → StandsFor os table.old E → OnErr result (StandsFor os table.new E) }
    ensures arity_kept { EndsWith arity.new arity.old }
    ensures entries_kept { BeginsWith entries.new entries.old }
    ensures known_kept { EndsWith known.new known.old }
{
    add_pairs(arity, heap, pairs)?;
    add_entry(entries, heap.alloc(), addition.block)?;
    add_known(known, addition.axioms)?;
    add_code(table, heap, addition.block)
}

// Adds a copy of a block to the entries, where memory is given.
fn add_entry(entries: &mut Entries, alloc: Global, block: &[Definition]) -> Result<(), Memory>
    ensures added { OnOk result (entries.new ≡ entries.old ++ block.now ∷ []) }
    ensures err { OnErr result (entries.new ≡ entries.old) }
{
    let copy = Vec::from_slice(alloc, block)?;
    entries.add(copy)
}

/// Adds these to the known ones, the last one newest. If memory runs out, some may stay in front of those that were there.
pub(crate) fn add_known(known: &mut Known, formulas: &[Ref]) -> Result<(), Memory>
    ensures added { OnOk result (known.new ≡ reverse formulas.now ++ known.old) }
    ensures kept { EndsWith known.new known.old }
{
    for formula in formulas {
        known.add(*formula)?;
    }
    Ok(())
}

// How many functions, blocks and axioms there are.
#[derive(Clone, Copy)]
struct Sizes {
    functions: usize,
    blocks: usize,
    axioms: usize,
}

fn sizes_of(arity: &Arity, entries: &Entries, known: &Known) -> Sizes
    ensures functions { result.functions ≡ length arity.now }
    ensures blocks { result.blocks ≡ length entries.now }
    ensures axioms { result.axioms ≡ length known.now }
{
    Sizes {
        functions: arity.len(),
        blocks: entries.len(),
        axioms: known.len(),
    }
}

// Keeps the oldest of each, as many as are given.
fn cut_back(had: Sizes, arity: &mut Arity, entries: &mut Entries, known: &mut Known)
    requires functions { had.functions ≤ length arity.old }
    requires blocks { had.blocks ≤ length entries.old }
    requires axioms { had.axioms ≤ length known.old }
    ensures arity { arity.new ≡ drop (length arity.old - had.functions) arity.old }
    ensures entries { entries.new ≡ take had.blocks entries.old }
    ensures known { known.new ≡ drop (length known.old - had.axioms) known.old }
{
    arity.cut(had.functions);
    entries.cut(had.blocks);
    known.cut(had.axioms);
}
