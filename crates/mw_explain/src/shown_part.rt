//! A part that is shown, with the arity of the symbol that it is or begins with.
ghost use Rattle.std.specs.Prelude.{◌≡◌, ◌++◌, Some, option_map, option_to_list, IfOk, IfSome};
ghost use Rattle.mw_model.specs.Terms.Object.{Natural};
ghost use Rattle.mw_heap.specs.Objects.{object_at, IsIn, Grows};
ghost use Rattle.mw_commands.specs.Commands.ExplanationTerms.{arity_shown, head_of, part_shown};
ghost use Rattle.mw_bad_steps.specs.Shown.{Shows};

use mw_heap::{Heap, Memory, Ref, View};
use mw_term::Arity;
use mw_translate::look_up;

// The arity that two tables, the newer one in front, give a symbol, where one of them gives it one.
fn arity_at(heap: &Heap, newer: &Arity, older: &Arity, x: Ref) -> Option<u64>
    requires { IsIn heap.now.objects x }
    ensures { option_to_list (option_map Natural result) ≡ arity_shown (newer.now ++ older.now) (object_at heap.now.objects x) }
{
    match heap.view(x) {
        View::Symbol => look_up(newer, older, heap.name_of(x)),
        _ => None,
    }
}

// What a pair begins with, and anything else itself.
fn head_of(heap: &Heap, x: Ref) -> Ref
    requires { IsIn heap.now.objects x }
    ensures within { IsIn heap.now.objects result }
    ensures head { object_at heap.now.objects result ≡ head_of (object_at heap.now.objects x) }
{
    match heap.view(x) {
        View::Pair(head, _) => head,
        _ => x,
    }
}

// The arity that two tables give a symbol, the newer one in front, as a natural; nothing where they give none.
pub(crate) fn arity_shown_under(
    heap: &mut Heap,
    newer: &Arity,
    older: &Arity,
    x: Ref,
) -> Result<Vec<Ref>, Memory>
    requires { IsIn heap.old.objects x }
    ensures grows { Grows heap.old.objects heap.new.objects }
    ensures shown { IfOk result (λ v. Shows heap.new.objects v.items (arity_shown (newer.now ++ older.now) (object_at heap.old.objects x))) }
{
    let mut shown = Vec::new(heap.alloc());
    match arity_at(heap, newer, older, x) {
        Some(count) => {
            shown.push(heap.nat(u128::from(count))?)?;
            Ok(shown)
        }
        None => Ok(shown),
    }
}

// A part, and the arity that two tables give the symbol that it is or begins with.
pub(crate) fn part_shown_under(
    heap: &mut Heap,
    newer: &Arity,
    older: &Arity,
    part: Ref,
) -> Result<Vec<Ref>, Memory>
    requires { IsIn heap.old.objects part }
    ensures grows { Grows heap.old.objects heap.new.objects }
    ensures shown { IfOk result (λ v. Shows heap.new.objects v.items (part_shown (newer.now ++ older.now) (Some (object_at heap.old.objects part)))) }
{
    let head = head_of(heap, part);
    let mut shown = arity_shown_under(heap, newer, older, head)?;
    shown.insert(0, part)?;
    Ok(shown)
}

/// The arity that the table gives a symbol, as a natural; nothing where it gives none. The error is out of memory.
pub fn arity_shown(heap: &mut Heap, arity: &Arity, x: Ref) -> Result<Vec<Ref>, Memory>
    requires { IsIn heap.old.objects x }
    ensures grows { Grows heap.old.objects heap.new.objects }
    ensures shown { IfOk result (λ v. Shows heap.new.objects v.items (arity_shown arity.now (object_at heap.old.objects x))) }
{
    let none = Arity::new(heap.alloc());
    arity_shown_under(heap, &none, arity, x)
}

/// A part, and the arity that the table gives the symbol that it is or begins with, as a natural, where it gives one. Nothing where there
/// is no part. The error is out of memory.
pub fn part_shown(heap: &mut Heap, arity: &Arity, part: Option<Ref>) -> Result<Vec<Ref>, Memory>
    requires { IfSome part (IsIn heap.old.objects) }
    ensures grows { Grows heap.old.objects heap.new.objects }
    ensures shown { IfOk result (λ v. Shows heap.new.objects v.items (part_shown arity.now (option_map (object_at heap.old.objects) part))) }
{
    let Some(x) = part else {
        return Ok(Vec::new(heap.alloc()));
    };
    let none = Arity::new(heap.alloc());
    part_shown_under(heap, &none, arity, x)
}
