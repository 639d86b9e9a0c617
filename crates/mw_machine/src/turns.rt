//! Turns, by which a run ends in time.
ghost use Rattle.std.specs.Prelude.{◌≡◌, ◌+◌, ◌*◌, ◌^◌, ◌-◌, min, OnOk, OnErr};
ghost use Rattle.mw_machine.specs.Turns.{AreTaken, AreFewer, taken_since};

use mw_heap::Memory;

// The turns of any run, for the lambda calls and tests that take no unit: a fifth of a second. One round more, since they are taken by rounds.
const MOST_TURNS: u64 = (1 << 26) + 256;

// The turns of each unit that a run may take: a call of a function takes one unit, and the code of most bodies is shorter.
const TURNS_FOR_A_UNIT: u64 = 64;

/// The turns of a run, which takes one for each entry of code, a round of them at a time: those that are left, or, where they are not
/// limited, those that were taken.
#[derive(Clone, Copy)]
pub(crate) enum Turns {
    Limited(u64),
    Unlimited(u64),
}

impl Turns {
    /// The turns of a run of at most this many units.
    pub(crate) fn for_units(units: u64) -> Turns
        ensures { result ≡ Turns.Limited (min (2 ^ 26 + 256 + min (units * 64) (2 ^ 64 - 1)) (2 ^ 64 - 1)) }
    {
        Turns::Limited(MOST_TURNS.saturating_add(units.saturating_mul(TURNS_FOR_A_UNIT)))
    }

    /// Takes turns. The error is that fewer are left: a run that ends so answers that it is out of memory.
    pub(crate) fn take(&mut self, count: u64) -> Result<(), Memory>
        ensures taken { OnOk result (AreTaken count self.old self.new) }
        ensures fewer { OnErr result (AreFewer count self.old) }
    {
        match *self {
            Turns::Limited(left) => {
                if left < count {
                    return Err(Memory);
                }
                *self = Turns::Limited(left - count);
            }
            Turns::Unlimited(taken) => *self = Turns::Unlimited(taken.saturating_add(count)),
        }
        Ok(())
    }

    /// How many were taken since there were these.
    pub(crate) fn taken_since(self, before: Turns) -> u64
        ensures { result ≡ taken_since before self }
    {
        match (before, self) {
            (Turns::Limited(had), Turns::Limited(left)) => had.saturating_sub(left),
            (Turns::Unlimited(had), Turns::Unlimited(taken)) => taken.saturating_sub(had),
            _ => 0,
        }
    }
}
