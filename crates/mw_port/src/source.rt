//! Where bytes come from.
ghost use Rattle.std.specs.Prelude.{◌≡◌, ℕ, ◌<◌, ◌≤◌, List, Option, length, take, IfOk, OnOk, OnErr};
ghost use Rattle.mw_port.specs.Ports.{Rises, Gives, HasEnded};

use thiserror::Error;

/// A read or a write failed, and moved no bytes.
#[derive(Clone, Copy, Debug, PartialEq, Eq, Error)]
#[error("a read or a write failed")]
pub struct Failed;

/// A source of bytes. It has two meanings: the bytes that are left, where it tells them, and a count of
/// faults that never falls and stands still at 2^64 - 1.
pub trait Source {
    // the bytes that are left, where they are told
    ghost left: { Self → Option (List ℕ) };

    ghost faults: { Self → ℕ };

    /// Puts the next bytes into the front of the buffer and answers how many; 0 for a buffer that is not
    /// empty is the end of the input. `Failed` only where the count of faults rose.
    fn read(&mut self, buffer: &mut [u8]) -> Result<usize, Failed>
        ensures within { IfOk result (λ n. n ≤ length buffer.new) }
        ensures given { IfOk result (λ n. Gives (left self.old) (left self.new) (take n buffer.new)) }
        ensures ended { IfOk result (λ n. n ≡ 0 → 0 < length buffer.old → HasEnded (left self.old)) }
        ensures steady { OnOk result (faults self.new ≡ faults self.old) }
        ensures failed { OnErr result (Rises (faults self.old) (faults self.new)) }
        ensures kept { OnErr result (left self.new ≡ left self.old) };
}
