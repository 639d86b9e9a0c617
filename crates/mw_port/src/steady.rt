//! A source and a sink in memory that never fail: their count of faults is the constant 0.
ghost use Rattle.std.specs.Prelude.{◌≡◌, ℕ, ◌<◌, ◌≤◌, List, [], length, take, min, Some, IfOk, OnOk, OnErr, IsOk, IsErrOf};
ghost use Rattle.mw_port.specs.Ports.{Rises, Gives, HasEnded, Takes};
ghost use Rattle.mw_port.specs.Memories.{allowed, next_count, no_faults};

use crate::{Failed, Halt, MemSink, MemSource, Sink, Source};
use std::alloc::Global;
use std::marker::Model;

/// A source in memory whose calls all succeed.
#[derive(Drop)]
pub struct SteadySource {
    source: MemSource,
}

impl Model for SteadySource {
    ghost use Rattle.std.specs.Prelude.{◌≡◌, []};
    ghost use Rattle.mw_port.specs.Memories.{Giving};

    ghost Value = { Giving };

    ghost view = { λ s. s.source };

    ghost invariant = { λ s. s.source.fails ≡ [] };
}

impl SteadySource {
    /// A source of these bytes. The k-th call gives at most `cuts[k - 1]` bytes, at least 1, and past the
    /// list as many as fit.
    pub fn new(alloc: Global, bytes: Vec<u8>, cuts: Vec<usize>) -> SteadySource
        ensures { result ≡ record { left = bytes.items; cuts = cuts.items; fails = []; calls = 0; faults = 0 } }
    {
        SteadySource {
            source: MemSource::new(bytes, cuts, Vec::new(alloc)),
        }
    }
}

impl Source for SteadySource {
    ghost left = { λ s. Some s.left };

    ghost faults = { λ s. no_faults };

    fn read(&mut self, buffer: &mut [u8]) -> Result<usize, Failed>
        ensures within { IfOk result (λ n. n ≤ length buffer.new) }
        ensures given { IfOk result (λ n. Gives (Some self.old.left) (Some self.new.left) (take n buffer.new)) }
        ensures ended { IfOk result (λ n. n ≡ 0 → 0 < length buffer.old → HasEnded (Some self.old.left)) }
        ensures steady { OnOk result (no_faults ≡ no_faults) }
        ensures failed { OnErr result (Rises no_faults no_faults) }
        ensures kept { OnErr result (Some self.new.left ≡ Some self.old.left) }

        ensures succeeds { IsOk result }
        ensures gives { IfOk result (λ n. n ≡ allowed self.old.cuts self.old.calls (min (length self.old.left) (length buffer.old))) }
        ensures counts { (self.new.calls ≡ next_count self.old.calls) × (self.new.cuts ≡ self.old.cuts) × (self.new.fails ≡ self.old.fails) }
    {
        match self.source.read(buffer) {
            Ok(n) => Ok(n),
            Err(_) => unreachable!(),
        }
    }
}

/// A sink in memory whose calls all succeed, unless it runs out of memory.
#[derive(Drop)]
pub struct SteadySink {
    sink: MemSink,
}

impl Model for SteadySink {
    ghost use Rattle.std.specs.Prelude.{◌≡◌, []};
    ghost use Rattle.mw_port.specs.Memories.{Taking};

    ghost Value = { Taking };

    ghost view = { λ s. s.sink };

    ghost invariant = { λ s. s.sink.fails ≡ [] };
}

impl SteadySink {
    /// A sink that took nothing yet.
    pub fn new(alloc: Global) -> SteadySink
        ensures { result ≡ record { taken = []; cuts = []; fails = []; calls = 0; faults = 0; shortages = 0 } }
    {
        SteadySink {
            sink: MemSink::new(alloc, Vec::new(alloc)),
        }
    }

    /// The bytes that the sink took.
    pub fn taken(&self) -> &[u8]
        ensures { result.now ≡ self.now.taken }
    {
        self.sink.taken()
    }
}

impl Sink for SteadySink {
    ghost taken = { λ s. Some s.taken };

    ghost faults = { λ s. no_faults };

    ghost shortages = { λ s. s.shortages };

    fn write(&mut self, piece: &[u8]) -> Result<usize, Halt>
        ensures within { IfOk result (λ n. n ≤ length piece.now) }
        ensures some { IfOk result (λ n. 0 < length piece.now → 0 < n) }
        ensures took { IfOk result (λ n. Takes (Some self.old.taken) (Some self.new.taken) (take n piece.now)) }
        ensures steady { OnOk result (no_faults ≡ no_faults) }
        ensures failed { IsErrOf result Halt.Failed → Rises no_faults no_faults }
        ensures memory { IsErrOf result Halt.Memory → no_faults ≡ no_faults }
        ensures enough { OnOk result (self.new.shortages ≡ self.old.shortages) }
        ensures short { IsErrOf result Halt.Memory → Rises self.old.shortages self.new.shortages }
        ensures not_short { IsErrOf result Halt.Failed → self.new.shortages ≡ self.old.shortages }
        ensures kept { OnErr result (Some self.new.taken ≡ Some self.old.taken) }

        ensures only_memory { IsErrOf result Halt.Failed → ⊥ }
        ensures takes { IfOk result (λ n. n ≡ allowed self.old.cuts self.old.calls (length piece.now)) }
        ensures counts { (self.new.calls ≡ next_count self.old.calls) × (self.new.cuts ≡ self.old.cuts) × (self.new.fails ≡ self.old.fails) }
    {
        self.sink.write(piece)
    }
}
