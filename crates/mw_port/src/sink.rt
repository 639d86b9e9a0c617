//! Where bytes go.
ghost use Rattle.std.specs.Prelude.{◌≡◌, ℕ, ◌<◌, ◌≤◌, List, Option, length, take, IfOk, OnOk, OnErr, IsErrOf};
ghost use Rattle.mw_port.specs.Ports.{Rises, Takes};

use thiserror::Error;

/// Why a sink took nothing.
#[derive(Clone, Copy, Debug, PartialEq, Eq, Error)]
pub enum Halt {
    /// The write failed.
    #[error("a write failed")]
    Failed,
    /// A sink in memory ran out of memory.
    #[error("out of memory")]
    Memory,
}

/// A sink for bytes. It has three meanings: the bytes that it took, where it tells them, a count of faults, and a
/// count of shortages of memory. The counts never fall and stand still at 2^64 - 1.
pub trait Sink {
    // the bytes that were taken, where they are told
    ghost taken: { Self → Option (List ℕ) };

    ghost faults: { Self → ℕ };

    // how often the sink ran out of memory
    ghost shortages: { Self → ℕ };

    /// Takes a prefix of the piece, at least one of a piece that is not empty, and answers how many.
    /// `Failed` only where the count of faults rose, and `Memory` only where that of shortages did. No other
    /// answer changes these.
    fn write(&mut self, piece: &[u8]) -> Result<usize, Halt>
        ensures within { IfOk result (λ n. n ≤ length piece.now) }
        ensures some { IfOk result (λ n. 0 < length piece.now → 0 < n) }
        ensures took { IfOk result (λ n. Takes (taken self.old) (taken self.new) (take n piece.now)) }
        ensures steady { OnOk result (faults self.new ≡ faults self.old) }
        ensures failed { IsErrOf result Halt.Failed → Rises (faults self.old) (faults self.new) }
        ensures memory { IsErrOf result Halt.Memory → faults self.new ≡ faults self.old }
        ensures enough { OnOk result (shortages self.new ≡ shortages self.old) }
        ensures short { IsErrOf result Halt.Memory → Rises (shortages self.old) (shortages self.new) }
        ensures not_short { IsErrOf result Halt.Failed → shortages self.new ≡ shortages self.old }
        ensures kept { OnErr result (taken self.new ≡ taken self.old) };
}
