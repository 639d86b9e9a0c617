//! One cell of a heap.
ghost use Rattle.std.specs.Prelude.{◌≡◌};
ghost use Rattle.mw_heap.specs.Packed.{packed};

use std::hash::{Hash, Hasher};

/// A cell. A large natural and a name stand in sets of their own, and the cell has their index there.
#[derive(Clone, Copy, PartialEq, Eq)]
pub(crate) enum Cell {
    Small(u32),
    Large(u32),
    Symbol(u32),
    Pair(u32, u32),
}

impl Cell {
    // The cell as one number, by which it is hashed: another cell may have the same only where a pair's second part has an index of
    // 2^30 or more.
    fn packed(self) -> u64
        ensures { result ≡ packed self }
    {
        match self {
            Cell::Small(n) => n as u64 + (2 << 62),
            Cell::Large(i) => i as u64 + (1 << 62),
            Cell::Symbol(i) => i as u64 + (3 << 62),
            Cell::Pair(first, second) => first as u64 + (second as u64) * (1 << 32),
        }
    }
}

// One number is mixed in where the derived hash mixes in the kind and each part.
impl Hash for Cell {
    ghost use Rattle.std.specs.Hash as fed;
    ghost use Rattle.std.specs.Cmp.Rules.{comparing, hashing};
    ghost use Rattle.std.proofs.Common.{rules};

    ghost hash_input = { λ c. fed.u64 (packed c) };

    ghost respects_eq = { Prim.search (hashing, rules) };

    fn hash<H: Hasher>(&self, state: &mut H) {
        state.write_u64(self.packed());
    }
}
