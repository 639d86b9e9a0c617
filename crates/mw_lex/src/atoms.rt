//! Atoms in a heap: naturals, and symbols by names without bars, whose letters are raised.
ghost use Rattle.std.specs.Prelude.{◌≡◌, true, map, IfOk, IfSome, OnOk};
ghost use Rattle.mw_model.specs.Terms.Object.{Natural, Symbol, is_name, name_of_bytes, same_bytes};
ghost use Rattle.mw_model.specs.Texts.Lexemes.{raised};
ghost use Rattle.mw_heap.specs.Objects.{object_at, IsIn, Grows};

use crate::Slots;
use crate::class::raise;
use mw_heap::{Heap, Memory, Ref, View};
use std::alloc::Global;

/// The atoms met lately, so that a token that comes again costs one comparison.
#[derive(Drop)]
pub struct Atoms {
    naturals: Slots,
    symbols: Slots,
    // a name with its letters raised
    raised: Vec<u8>,
}

impl Atoms {
    /// No atoms.
    pub fn new(alloc: Global) -> Atoms {
        Atoms {
            naturals: Slots::new(alloc),
            symbols: Slots::new(alloc),
            raised: Vec::new(alloc),
        }
    }

    /// The natural `n`.
    pub(crate) fn natural(&mut self, heap: &mut Heap, n: u128) -> Result<Ref, Memory>
        ensures grows { Grows heap.old.objects heap.new.objects }
        ensures made { IfOk result (λ r. IsIn heap.new.objects r × (object_at heap.new.objects r ≡ Natural n)) }
    {
        let slot = (n % (1 << 16)) as usize;
        if let Some(place) = self.naturals.get(heap, slot) {
            if let View::Nat(m) = heap.view(place) {
                if m == n {
                    return Ok(place);
                }
            }
        }
        let x = heap.nat(n)?;
        self.naturals.note(slot, x);
        Ok(x)
    }

    /// The symbol whose name is the token with its letters raised.
    pub(crate) fn symbol(&mut self, heap: &mut Heap, token: &[u8]) -> Result<Ref, Memory>
        requires { is_name (map raised token.now) ≡ true }
        ensures grows { Grows heap.old.objects heap.new.objects }
        ensures made { IfOk result (λ r. IsIn heap.new.objects r × (object_at heap.new.objects r ≡ Symbol (name_of_bytes (map raised token.now)))) }
    {
        let slot = slot_of(token);
        if let Some(known) = self.known_symbol(heap, token, slot) {
            return Ok(known);
        }
        let x = self.find_symbol(heap, token)?;
        self.symbols.note(slot, x);
        Ok(x)
    }

    // The symbol of the token, where it stands in this slot.
    fn known_symbol(&self, heap: &Heap, token: &[u8], slot: usize) -> Option<Ref>
        requires { is_name (map raised token.now) ≡ true }
        ensures { IfSome result (λ r. IsIn heap.now.objects r × (object_at heap.now.objects r ≡ Symbol (name_of_bytes (map raised token.now)))) }
    {
        let place = self.symbols.get(heap, slot)?;
        match heap.view(place) {
            View::Symbol if is_raised(token, heap.name_of(place)) => Some(place),
            _ => None,
        }
    }

    // The symbol of the token, by the heap's own set of names. The token is copied only where it has a letter to be raised.
    fn find_symbol(&mut self, heap: &mut Heap, token: &[u8]) -> Result<Ref, Memory>
        requires { is_name (map raised token.now) ≡ true }
        ensures grows { Grows heap.old.objects heap.new.objects }
        ensures made { IfOk result (λ r. IsIn heap.new.objects r × (object_at heap.new.objects r ≡ Symbol (name_of_bytes (map raised token.now)))) }
    {
        if is_raised(token, token) {
            return heap.symbol(token);
        }
        raise_all(&mut self.raised, token)?;
        heap.symbol(&self.raised)
    }
}

// The slot of a token, by its length and at most three of its bytes, so that a long one costs no more.
fn slot_of(token: &[u8]) -> usize {
    let mixed = match token {
        [] => 0,
        [a] => *a as usize,
        [a, z] => *a as usize * 31 + *z as usize,
        [a, .., y, z] => (*a as usize * 31 + *y as usize) * 31 + *z as usize,
    };
    mixed.wrapping_add(token.len())
}

// Is this the name of the token, with its letters raised?
fn is_raised(token: &[u8], name: &[u8]) -> bool
    ensures { result ≡ same_bytes (map raised token.now) name.now }
{
    if token.len() != name.len() {
        return false;
    }
    for (i, b) in token.iter().enumerate() {
        if raise(*b) != name[i] {
            return false;
        }
    }
    true
}

// The bytes, with letters raised, in place of what the vector had.
fn raise_all(name: &mut Vec<u8>, token: &[u8]) -> Result<(), Memory>
    ensures { OnOk result (name.new.items ≡ map raised token.now) }
{
    name.clear();
    for b in token {
        name.push(raise(*b))?;
    }
    Ok(())
}
