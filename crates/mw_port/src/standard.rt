//! The standard streams: the edge that is trusted. They tell no bytes, but hand on what the stream below them moves.
ghost use Rattle.std.specs.Prelude.{◌≡◌, ◌<◌, ◌≤◌, length, take, IfOk, OnOk, OnErr, IsErrOf};
ghost use Rattle.std.specs.Io.KnownBytes.{Consumes, Appends, Keeps, IsAtEnd};
ghost use Rattle.mw_port.specs.Memories.{no_faults, untold};
ghost use Rattle.mw_port.specs.Ports.{Rises, Gives, HasEnded, Takes};

use crate::{Failed, Halt, Sink, Source};
use std::io::{ErrorKind, Read, Write};

/// How often a call that was interrupted is tried again: no system interrupts that many in a row, and the loop has an end.
const TRIES: u32 = 1_000_000;

/// Standard input, or any other reader.
#[derive(Drop)]
pub struct StdSource<R> {
    reader: R,
    faults: u64,
}

impl<R: Read> StdSource<R> {
    /// A source over a reader, with no faults so far.
    pub fn new(reader: R) -> StdSource<R>
        ensures { result ≡ record { reader = reader; faults = 0 } }
    {
        StdSource { reader, faults: 0 }
    }
}

impl<R: Read> Source for StdSource<R> {
    ghost left = { λ s. untold };

    ghost faults = { λ s. s.faults };

    fn read(&mut self, buffer: &mut [u8]) -> Result<usize, Failed>
        ensures within { IfOk result (λ n. n ≤ length buffer.new) }
        ensures given { IfOk result (λ n. Gives untold untold (take n buffer.new)) }
        ensures ended { IfOk result (λ n. n ≡ 0 → 0 < length buffer.old → HasEnded untold) }
        ensures steady { OnOk result (self.new.faults ≡ self.old.faults) }
        ensures failed { OnErr result (Rises self.old.faults self.new.faults) }
        ensures kept { OnErr result (untold ≡ untold) }

        // Where the reader tells its bytes, these are its next ones, none only at its end, and a fault loses none.
        ensures next { IfOk result (λ n. Consumes (R.remaining self.old.reader) (R.remaining self.new.reader) (take n buffer.new)) }
        ensures at_end { IfOk result (λ n. n ≡ 0 → 0 < length buffer.new → IsAtEnd (R.remaining self.new.reader)) }
        ensures none_lost { OnErr result (Keeps (R.remaining self.old.reader) (R.remaining self.new.reader)) }
    {
        for _ in 0..TRIES {
            match self.reader.read(buffer) {
                Ok(n) => return Ok(n),
                Err(e) => {
                    if e.kind() != ErrorKind::Interrupted {
                        break;
                    }
                }
            }
        }
        self.faults = self.faults.saturating_add(1);
        Err(Failed)
    }
}

/// Standard output, or any other writer.
#[derive(Drop)]
pub struct StdSink<W> {
    writer: W,
    faults: u64,
}

impl<W: Write> StdSink<W> {
    /// A sink over a writer, with no faults so far.
    pub fn new(writer: W) -> StdSink<W>
        ensures { result ≡ record { writer = writer; faults = 0 } }
    {
        StdSink { writer, faults: 0 }
    }
}

impl<W: Write> Sink for StdSink<W> {
    ghost taken = { λ s. untold };

    ghost faults = { λ s. s.faults };

    ghost shortages = { λ s. no_faults };

    fn write(&mut self, piece: &[u8]) -> Result<usize, Halt>
        ensures within { IfOk result (λ n. n ≤ length piece.now) }
        ensures some { IfOk result (λ n. 0 < length piece.now → 0 < n) }
        ensures took { IfOk result (λ n. Takes untold untold (take n piece.now)) }
        ensures steady { OnOk result (self.new.faults ≡ self.old.faults) }
        ensures failed { IsErrOf result Halt.Failed → Rises self.old.faults self.new.faults }
        ensures memory { IsErrOf result Halt.Memory → self.new.faults ≡ self.old.faults }
        ensures enough { OnOk result (no_faults ≡ no_faults) }
        ensures short { IsErrOf result Halt.Memory → Rises no_faults no_faults }
        ensures not_short { IsErrOf result Halt.Failed → no_faults ≡ no_faults }
        ensures kept { OnErr result (untold ≡ untold) }

        // Where the writer tells its bytes, those taken went after them, and none at a fault.
        ensures wrote { IfOk result (λ n. Appends (W.contents self.old.writer) (W.contents self.new.writer) (take n piece.now)) }
        ensures none_added { OnErr result (Keeps (W.contents self.old.writer) (W.contents self.new.writer)) }
        ensures only_failed { IsErrOf result Halt.Memory → ⊥ }
    {
        if piece.is_empty() {
            return Ok(0);
        }
        for _ in 0..TRIES {
            match self.writer.write(piece) {
                Ok(0) => break,
                Ok(n) => return Ok(n),
                Err(e) => {
                    if e.kind() != ErrorKind::Interrupted {
                        break;
                    }
                }
            }
        }
        self.faults = self.faults.saturating_add(1);
        Err(Halt::Failed)
    }
}
