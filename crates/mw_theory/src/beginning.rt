//! The initial theory.
ghost use Rattle.std.specs.Prelude.{◌≡◌, [], ◌++◌, true, map, reverse, All, IfOk, OnOk};
ghost use Rattle.mw_model.specs.Terms.Object.{Natural, Symbol, Pair, NIL, is_name, name_of_bytes};
ghost use Rattle.mw_model.specs.Terms.Term.{formula_object, table_object};
ghost use Rattle.mw_model.specs.Events.Theory.{axioms_of, initial};
ghost use Rattle.mw_model.specs.Events.Fate.{is_one};
ghost use Rattle.mw_heap.specs.Objects.{object_at, IsIn, Grows};
ghost use Rattle.mw_heap.specs.Lists.{list_object};
ghost use Rattle.mw_heap.specs.Variants.{profile_of};
ghost use Rattle.mw_term.specs.Settling.{IsWatch};
ghost use Rattle.mw_preamble.specs.Admitted.{definitions_of, axioms_in_order};
ghost use Rattle.mw_theory.specs.Knowledge.{parts_of, meant, put_all, IsHeld};

use crate::adding::add_known;
use crate::front::{with_all, with_pair};
use crate::theory::Theory;
use mw_axioms::build;
use mw_heap::{Heap, Memory, Profile, Ref};
use mw_preamble::{Preamble, admit_all};
use mw_rules::Known;
use mw_term::{Arity, Watch};
use mw_truth::soundness::initial_sound;

/// The initial theory of a profile.
pub fn begin(heap: &mut Heap, profile: Profile) -> Result<Theory, Memory>
    ensures grows { Grows heap.old.objects heap.new.objects }
    ensures held { IfOk result (IsHeld heap.new.objects) }
    ensures watched { IfOk result (λ t. IsWatch t.arity heap.new.objects t.watch) }
    ensures theory { IfOk result (λ t. meant heap.new.objects (parts_of t) ≡ initial (profile_of profile)) }
{
    initial_sound();
    let preamble = admit_all(heap, profile)?;
    let mut known = Known::new(heap.alloc());
    let lists = first_lists(heap, profile, &preamble, &mut known)?;
    let watch = Watch::new(heap.alloc());
    Ok(Theory {
        profile,
        known_axioms: known,
        known_theorems: Known::new(heap.alloc()),
        arity: preamble.arity,
        watch,
        axioms: lists.axioms,
        theorems: lists.theorems,
        arity_list: lists.arity_list,
        entries: preamble.definitions,
        table: preamble.table,
        checker: None,
        level: 1,
        is_initial: is_first(profile),
    })
}

// The lists of the initial theory in the heap.
#[derive(Clone, Copy)]
struct FirstLists {
    axioms: Ref,
    theorems: Ref,
    arity_list: Ref,
}

// The lists of the initial theory, with the axioms of the primitives and those of the built-in definitions, which are known then too.
fn first_lists(
    heap: &mut Heap,
    profile: Profile,
    preamble: &Preamble,
    known: &mut Known,
) -> Result<FirstLists, Memory>
    requires within { All (IsIn heap.old.objects) preamble.now.axioms }
    requires definitions { map (object_at heap.old.objects) preamble.now.axioms ≡ map formula_object (axioms_in_order (definitions_of (profile_of profile)).blocks) }
    requires none { known.old ≡ [] }
    ensures grows { Grows heap.old.objects heap.new.objects }
    ensures axioms { IfOk result (λ l. IsIn heap.new.objects l.axioms × (object_at heap.new.objects l.axioms ≡ axioms_of (profile_of profile) (definitions_of (profile_of profile)).blocks)) }
    ensures theorems { IfOk result (λ l. IsIn heap.new.objects l.theorems × (object_at heap.new.objects l.theorems ≡ NIL)) }
    ensures arity_list { IfOk result (λ l. IsIn heap.new.objects l.arity_list × (object_at heap.new.objects l.arity_list ≡ table_object preamble.now.arity)) }
    ensures each_axiom_in { OnOk result (All (IsIn heap.new.objects) known.new) }
    ensures axioms_known { IfOk result (λ l. list_object heap.new.objects known.new ≡ object_at heap.new.objects l.axioms) }
{
    let primitives = build(heap, profile)?;
    let arity_list = list_arities(heap, &preamble.arity)?;
    let theorems = heap.nil()?;
    let axioms = add_axioms(heap, known, theorems, primitives.as_slice())?;
    let axioms = add_axioms(heap, known, axioms, preamble.axioms.as_slice())?;
    Ok(FirstLists {
        axioms,
        theorems,
        arity_list,
    })
}

// Whether it is the profile that a world begins with.
fn is_first(profile: Profile) -> bool
    ensures { result ≡ is_one (profile_of profile) }
{
    match profile {
        Profile::One => true,
        Profile::Two => false,
    }
}

// Puts these axioms in front of those that are known, the last one foremost. The list of them is handed on.
fn add_axioms(heap: &mut Heap, known: &mut Known, list: Ref, axioms: &[Ref]) -> Result<Ref, Memory>
    requires list { IsIn heap.old.objects list }
    requires axioms { All (IsIn heap.old.objects) axioms.now }
    ensures grows { Grows heap.old.objects heap.new.objects }
    ensures list { IfOk result (λ r. IsIn heap.new.objects r × (object_at heap.new.objects r ≡ put_all (map (object_at heap.old.objects) axioms.now) (object_at heap.old.objects list))) }
    ensures known { OnOk result (known.new ≡ reverse axioms.now ++ known.old) }
{
    let list = with_all(heap, axioms, list)?;
    add_known(known, axioms)?;
    Ok(list)
}

// The arity table as an object, the newest pair first.
fn list_arities(heap: &mut Heap, arity: &Arity) -> Result<Ref, Memory>
    ensures grows { Grows heap.old.objects heap.new.objects }
    ensures list { IfOk result (λ r. IsIn heap.new.objects r × (object_at heap.new.objects r ≡ table_object arity.now)) }
{
    let mut list = heap.nil()?;
    for index in 0..arity.len() {
        let (name, count) = arity.nth(index);
        list = add_arity(heap, list, name, count)?;
    }
    Ok(list)
}

// Puts the pair (name . count) in front of a list.
fn add_arity(heap: &mut Heap, list: Ref, name: &[u8], count: u64) -> Result<Ref, Memory>
    requires list { IsIn heap.old.objects list }
    requires name { is_name name.now ≡ true }
    ensures grows { Grows heap.old.objects heap.new.objects }
    ensures list { IfOk result (λ r. IsIn heap.new.objects r × (object_at heap.new.objects r ≡ Pair (Pair (Symbol (name_of_bytes name.now)) (Natural count)) (object_at heap.old.objects list))) }
{
    let name = heap.symbol(name)?;
    with_pair(heap, name, count, list)
}
