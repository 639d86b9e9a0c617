//! A source and a sink in memory, whose calls move as many bytes, and fail, as they are told to.
ghost use Rattle.std.specs.Prelude.{◌≡◌, ℕ, ◌+◌, ◌<◌, ◌≤◌, List, [], ◌++◌, length, take, drop, min, Some, true, false, IfOk, OnOk, OnErr, IsErr, IsOk, IsErrOf};
ghost use Rattle.mw_port.specs.Ports.{Rises, Gives, HasEnded, Takes};
ghost use Rattle.mw_port.specs.Memories.{next_count, fails_at, allowed, Giving, Taking};

use crate::{Failed, Halt, Sink, Source};
use std::alloc::Global;
use std::marker::Model;

/// Whether the call of this number, counted from 1, is to fail.
fn fails(calls: &[u64], call: u64) -> bool
    ensures { result ≡ fails_at calls.now call }
{
    call < u64::MAX && calls.contains(&call)
}

/// How many of `room` bytes the call after `calls` calls moves.
fn moved(cuts: &[usize], calls: u64, room: usize) -> usize
    ensures value { result ≡ allowed cuts.now calls room }
    ensures within { result ≤ room }
    ensures some { 0 < room → 0 < result }
{
    if calls < cuts.len() as u64 {
        cuts[calls as usize].max(1).min(room)
    } else {
        room
    }
}

/// A source in memory.
#[derive(Drop)]
pub struct MemSource {
    bytes: Vec<u8>,
    given: usize,
    cuts: Vec<usize>,
    fails: Vec<u64>,
    calls: u64,
    faults: u64,
}

impl Model for MemSource {
    ghost use Rattle.std.specs.Prelude.{◌≤◌, drop, vec_len};
    ghost use Rattle.mw_port.specs.Memories.{Giving};

    ghost Value = { Giving };

    ghost view = { λ s. record { left = drop s.given s.bytes.items; cuts = s.cuts.items; fails = s.fails.items; calls = s.calls; faults = s.faults } };

    ghost invariant = { λ s. s.given ≤ vec_len s.bytes };
}

impl MemSource {
    /// A source of these bytes. The k-th call gives at most `cuts[k - 1]` bytes, at least 1, and past the
    /// list as many as fit. The calls whose numbers, counted from 1, are listed in `fails` fail, and no other.
    pub fn new(bytes: Vec<u8>, cuts: Vec<usize>, fails: Vec<u64>) -> MemSource
        ensures { result ≡ record { left = bytes.items; cuts = cuts.items; fails = fails.items; calls = 0; faults = 0 } }
    {
        MemSource {
            bytes,
            given: 0,
            cuts,
            fails,
            calls: 0,
            faults: 0,
        }
    }
}

impl Source for MemSource {
    ghost left = { λ s. Some s.left };

    ghost faults = { λ s. s.faults };

    fn read(&mut self, buffer: &mut [u8]) -> Result<usize, Failed>
        ensures within { IfOk result (λ n. n ≤ length buffer.new) }
        ensures given { IfOk result (λ n. Gives (Some self.old.left) (Some self.new.left) (take n buffer.new)) }
        ensures ended { IfOk result (λ n. n ≡ 0 → 0 < length buffer.old → HasEnded (Some self.old.left)) }
        ensures steady { OnOk result (self.new.faults ≡ self.old.faults) }
        ensures failed { OnErr result (Rises self.old.faults self.new.faults) }
        ensures kept { OnErr result (Some self.new.left ≡ Some self.old.left) }

        // Which calls fail, how many bytes the others give, and what else stays.
        ensures fails { IsErr result → fails_at self.old.fails (next_count self.old.calls) ≡ true }
        ensures rises { IsErr result → self.new.faults ≡ next_count self.old.faults }
        ensures gives { IfOk result (λ n. (n ≡ allowed self.old.cuts self.old.calls (min (length self.old.left) (length buffer.old)))
            × (fails_at self.old.fails (next_count self.old.calls) ≡ false)) }
        ensures counts { (self.new.calls ≡ next_count self.old.calls) × (self.new.cuts ≡ self.old.cuts) × (self.new.fails ≡ self.old.fails) }
    {
        let call = self.calls.saturating_add(1);
        let place = self.calls;
        self.calls = call;
        if fails(&self.fails, call) {
            self.faults = self.faults.saturating_add(1);
            return Err(Failed);
        }
        let room = (self.bytes.len() - self.given).min(buffer.len());
        let n = moved(&self.cuts, place, room);
        let end = self.given + n;
        buffer[..n].copy_from_slice(&self.bytes[self.given..end]);
        self.given = end;
        Ok(n)
    }
}

/// A sink in memory.
#[derive(Drop)]
pub struct MemSink {
    taken: Vec<u8>,
    cuts: Vec<usize>,
    fails: Vec<u64>,
    calls: u64,
    faults: u64,
    shortages: u64,
}

impl Model for MemSink {
    ghost use Rattle.mw_port.specs.Memories.{Taking};

    ghost Value = { Taking };

    ghost view = { λ s. record { taken = s.taken.items; cuts = s.cuts.items; fails = s.fails.items; calls = s.calls; faults = s.faults; shortages = s.shortages } };
}

impl MemSink {
    /// A sink that took nothing yet. The calls whose numbers, counted from 1, are listed in `fails` fail.
    pub fn new(alloc: Global, fails: Vec<u64>) -> MemSink
        ensures { result ≡ record { taken = []; cuts = []; fails = fails.items; calls = 0; faults = 0; shortages = 0 } }
    {
        MemSink {
            taken: Vec::new(alloc),
            cuts: Vec::new(alloc),
            fails,
            calls: 0,
            faults: 0,
            shortages: 0,
        }
    }

    /// The same, where the k-th call takes at most `cuts[k - 1]` bytes, at least 1.
    pub fn with_cuts(alloc: Global, cuts: Vec<usize>, fails: Vec<u64>) -> MemSink
        ensures { result ≡ record { taken = []; cuts = cuts.items; fails = fails.items; calls = 0; faults = 0; shortages = 0 } }
    {
        MemSink {
            taken: Vec::new(alloc),
            cuts,
            fails,
            calls: 0,
            faults: 0,
            shortages: 0,
        }
    }

    /// The bytes that the sink took.
    pub fn taken(&self) -> &[u8]
        ensures { result.now ≡ self.now.taken }
    {
        self.taken.as_slice()
    }
}

impl Sink for MemSink {
    ghost taken = { λ s. Some s.taken };

    ghost faults = { λ s. s.faults };

    ghost shortages = { λ s. s.shortages };

    fn write(&mut self, piece: &[u8]) -> Result<usize, Halt>
        ensures within { IfOk result (λ n. n ≤ length piece.now) }
        ensures some { IfOk result (λ n. 0 < length piece.now → 0 < n) }
        ensures took { IfOk result (λ n. Takes (Some self.old.taken) (Some self.new.taken) (take n piece.now)) }
        ensures steady { OnOk result (self.new.faults ≡ self.old.faults) }
        ensures failed { IsErrOf result Halt.Failed → Rises self.old.faults self.new.faults }
        ensures memory { IsErrOf result Halt.Memory → self.new.faults ≡ self.old.faults }
        ensures enough { OnOk result (self.new.shortages ≡ self.old.shortages) }
        ensures short { IsErrOf result Halt.Memory → Rises self.old.shortages self.new.shortages }
        ensures not_short { IsErrOf result Halt.Failed → self.new.shortages ≡ self.old.shortages }
        ensures kept { OnErr result (Some self.new.taken ≡ Some self.old.taken) }

        // Which calls fail, how many bytes the others take, and what else stays.
        ensures fails { IsErrOf result Halt.Failed → fails_at self.old.fails (next_count self.old.calls) ≡ true }
        ensures rises { IsErrOf result Halt.Failed → self.new.faults ≡ next_count self.old.faults }
        ensures takes { IfOk result (λ n. (n ≡ allowed self.old.cuts self.old.calls (length piece.now))
            × (fails_at self.old.fails (next_count self.old.calls) ≡ false)) }
        ensures counts { (self.new.calls ≡ next_count self.old.calls) × (self.new.cuts ≡ self.old.cuts) × (self.new.fails ≡ self.old.fails) }
    {
        let call = self.calls.saturating_add(1);
        let place = self.calls;
        self.calls = call;
        if fails(&self.fails, call) {
            self.faults = self.faults.saturating_add(1);
            return Err(Halt::Failed);
        }
        let n = moved(&self.cuts, place, piece.len());
        match self.taken.extend_from_slice(&piece[..n]) {
            Ok(()) => Ok(n),
            Err(_) => {
                self.shortages = self.shortages.saturating_add(1);
                Err(Halt::Memory)
            }
        }
    }
}
