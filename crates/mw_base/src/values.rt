//! What an object counts as where a primitive function takes a name, and tests of its kind.
ghost use Rattle.std.specs.Prelude.{◌≡◌, map, All};
ghost use Rattle.mw_model.specs.Terms.Object.{is_before_bytes};
ghost use Rattle.mw_model.specs.Values.Primitive.{name_of, is_symbol, is_natural};
ghost use Rattle.mw_heap.specs.Objects.{object_at, IsIn};
ghost use Rattle.mw_heap.specs.Parts.{part_at, IsPart};
ghost use Rattle.mw_base.specs.Names.{blocks_of};

use mw_heap::{Heap, Primitive, Ref, View, Word};

// The bytes of the name, or those of NIL if it is not a symbol.
pub(crate) fn name(heap: &Heap, x: Option<Ref>) -> &[u8]
    requires { IsPart heap.now.objects x }
    ensures { (name_of (part_at heap.now.objects x)).bytes ≡ result.now }
{
    let Some(x) = x else {
        return Word::Nil.name();
    };
    match heap.view(x) {
        View::Symbol => heap.name_of(x),
        _ => Word::Nil.name(),
    }
}

// Whether it is a symbol.
pub(crate) fn is_symbol(heap: &Heap, x: Option<Ref>) -> bool
    requires { IsPart heap.now.objects x }
    ensures { result ≡ is_symbol (part_at heap.now.objects x) }
{
    match x {
        Some(x) => matches!(heap.view(x), View::Symbol),
        None => true,
    }
}

// Whether it is a natural.
pub(crate) fn is_natural(heap: &Heap, x: Option<Ref>) -> bool
    requires { IsPart heap.now.objects x }
    ensures { result ≡ is_natural (part_at heap.now.objects x) }
{
    match x {
        Some(x) => matches!(heap.view(x), View::Nat(_)),
        None => false,
    }
}

// Whether the name of the first is before that of the second.

pub(crate) fn is_before(heap: &Heap, x: Option<Ref>, y: Option<Ref>) -> bool
    requires x_within { IsPart heap.now.objects x }
    requires y_within { IsPart heap.now.objects y }
    ensures { result ≡ is_before_bytes (name_of (part_at heap.now.objects x)).bytes (name_of (part_at heap.now.objects y)).bytes }
{
    name(heap, x) < name(heap, y)
}

/// How many blocks of 16 bytes, all of them full, a primitive function may have to look at in the names of its arguments. Only SYMBOL-<
/// looks at names, and at no more of them than the shorter one has.
pub fn blocks_of_names(heap: &Heap, p: Primitive, args: &[Ref]) -> u64
    requires { All (IsIn heap.now.objects) args.now }
    ensures { result ≡ blocks_of p (map (object_at heap.now.objects) args.now) }
{
    match (p, args) {
        (Primitive::SymbolLess, [a, b]) => {
            let shorter = name(heap, Some(*a)).len().min(name(heap, Some(*b)).len());
            shorter as u64 / 16
        }
        _ => 0,
    }
}
