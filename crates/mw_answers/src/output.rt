//! Writing.
ghost use Rattle.std.specs.Prelude.{◌≡◌, OnOk, OnErr, IsErrOf};
ghost use Rattle.mw_port.specs.Ports.{Rises, Takes};
ghost use Rattle.mw_answers.specs.Statuses.{TakesSome};
ghost use Rattle.mw_answers.specs.Writing.{halted};

use crate::Status;
use mw_port::{Halt, Sink};

/// Writes all of the text, in as many calls as that takes.
pub fn write_all<K: Sink>(sink: &mut K, text: &[u8]) -> Result<(), Halt>
    ensures written { OnOk result (Takes (K.taken sink.old) (K.taken sink.new) text.now) }
    ensures steady { OnOk result (K.faults sink.new ≡ K.faults sink.old) }
    ensures failed { IsErrOf result Halt.Failed → Rises (K.faults sink.old) (K.faults sink.new) }
    ensures memory { IsErrOf result Halt.Memory → K.faults sink.new ≡ K.faults sink.old }
    ensures enough { OnOk result (K.shortages sink.new ≡ K.shortages sink.old) }
    ensures short { IsErrOf result Halt.Memory → Rises (K.shortages sink.old) (K.shortages sink.new) }
    ensures some { OnErr result (TakesSome (K.taken sink.old) (K.taken sink.new) text.now) }
{
    let mut at = 0;
    while at < text.len() {
        at += sink.write(&text[at..])?;
    }
    Ok(())
}

/// How the program ends where a write moved nothing.
pub fn halted(halt: Halt) -> Status
    ensures { result ≡ halted halt }
{
    match halt {
        Halt::Failed => Status::WriteFault,
        Halt::Memory => Status::Memory,
    }
}
