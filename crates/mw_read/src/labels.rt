//! The labels of a datum.
ghost use Rattle.std.specs.Prelude.{◌≡◌, ℕ, ◌<◌, List, IfOk, IfSome, None, MatchBool, true, false};
ghost use Rattle.mw_model.specs.Terms.Object.{Object};
ghost use Rattle.mw_model.specs.Texts.Grammar.{Labels, Label, is_begun, labelled, complete};
ghost use Rattle.mw_heap.specs.Objects.{object_at};
ghost use Rattle.mw_read.specs.Named.{Agree, seen_at, IsListed};

use indexmap::IndexMap;
use mw_heap::{Memory, Ref};

// Begins the label, or says that it was begun already. No more is read after that, so what it named may go.
pub(crate) fn begin(labels: &mut IndexMap<u32, Option<Ref>>, n: u32) -> Result<bool, Memory>
    ensures begun { IfOk result (λ new. (os : List Object) (ls : Labels) → Agree os labels.old.entries ls →
        MatchBool new ((is_begun n ls ≡ false) × Agree os labels.new.entries (Label n None ls)) (is_begun n ls ≡ true)) }
    ensures listed { IfOk result (λ new. (k : ℕ) → IsListed k labels.old.entries → IsListed k labels.new.entries) }
{
    let was = labels.insert(n, None)?;
    Ok(was.is_none())
}

// The datum of the label is complete.
pub(crate) fn end(labels: &mut IndexMap<u32, Option<Ref>>, n: u32, x: Ref)
    ensures agrees { (os : List Object) (ls : Labels) → Agree os labels.old.entries ls → Agree os labels.new.entries (complete n (object_at os x) ls) }
    ensures listed { (k : ℕ) → x < k → IsListed k labels.old.entries → IsListed k labels.new.entries }
{
    if let Some(place) = labels.get_mut(&n) {
        *place = Some(x);
    }
}

// What a reference to the label names.
pub(crate) fn look(labels: &IndexMap<u32, Option<Ref>>, n: u32) -> Option<Ref>
    ensures names { (os : List Object) (ls : Labels) → Agree os labels.now.entries ls → seen_at os result ≡ labelled n ls }
    ensures listed { (k : ℕ) → IsListed k labels.now.entries → IfSome result (λ r. r < k) }
{
    match labels.get(&n) {
        Some(place) => *place,
        None => None,
    }
}
