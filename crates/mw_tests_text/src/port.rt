//! Sources and sinks, in memory and over a stream that fails.
use mw_heap::Memory;
use mw_port::{
    Failed, Halt, MemSink, MemSource, Sink, Source, StdSink, StdSource, SteadySink, SteadySource,
    Text,
};
use std::alloc::Global;
use std::convert::AsStr;
use std::io::{self, Read, Write};

// Whether five reads from a source of "abcdef" give the expected answers, with the bytes in the buffer.
fn gives(source: &mut MemSource) -> bool {
    let mut buffer = [0; 3];
    [
        source.read(&mut buffer) == Ok(2),
        buffer == *b"ab\0",
        source.read(&mut buffer) == Ok(1),
        buffer == *b"cb\0",
        source.read(&mut buffer) == Err(Failed),
        source.read(&mut buffer) == Ok(3),
        buffer == *b"def",
        source.read(&mut buffer) == Ok(0),
    ] == [true; 8]
}

fn gives_by_cuts(alloc: Global) -> Result<bool, Memory> {
    let bytes = Vec::from_slice(alloc, b"abcdef")?;
    let mut source = MemSource::new(bytes, vec![in alloc; 2, 0, 9]?, vec![in alloc; 3]?);
    Ok(gives(&mut source))
}

#[test]
fn a_source_gives_by_its_cuts_and_fails_as_listed(rt: HostRuntime) {
    assert!(rt; gives_by_cuts(rt.alloc()) == Ok(true));
}

// Whether four writes to a sink give the expected answers, and the sink then has the bytes that it took.
fn takes(sink: &mut MemSink) -> bool {
    [
        sink.write(b"abc") == Ok(2),
        sink.write(b"c") == Err(Halt::Failed),
        sink.write(b"cd") == Ok(1),
        sink.write(b"def") == Ok(3),
        sink.taken() == b"abcdef".as_slice(),
    ] == [true; 5]
}

fn takes_by_cuts(alloc: Global) -> Result<bool, Memory> {
    let mut sink = MemSink::with_cuts(alloc, vec![in alloc; 2, 2, 0]?, vec![in alloc; 2]?);
    Ok(takes(&mut sink))
}

// The same of one write to a sink without cuts.
fn takes_all(alloc: Global) -> bool {
    let mut plain = MemSink::new(alloc, Vec::new(alloc));
    [
        plain.write(b"xyz") == Ok(3),
        plain.taken() == b"xyz".as_slice(),
    ] == [true; 2]
}

#[test]
fn a_sink_takes_by_its_cuts_and_fails_as_listed(rt: HostRuntime) {
    assert!(rt; takes_by_cuts(rt.alloc()) == Ok(true));
    assert!(rt; takes_all(rt.alloc()));
}

fn gives_steadily(source: &mut SteadySource) -> bool {
    let mut buffer = [0; 4];
    [
        source.read(&mut buffer) == Ok(1),
        source.read(&mut buffer) == Ok(2),
        source.read(&mut buffer) == Ok(0),
    ] == [true; 3]
}

// Whether three reads from a steady source that has one cut give the expected answers.
fn gives_by_one_cut(alloc: Global) -> Result<bool, Memory> {
    let bytes = Vec::from_slice(alloc, b"abc")?;
    let mut source = SteadySource::new(alloc, bytes, vec![in alloc; 1]?);
    Ok(gives_steadily(&mut source))
}

fn takes_steadily(alloc: Global) -> bool {
    let mut sink = SteadySink::new(alloc);
    [sink.write(b"ab") == Ok(2), sink.taken() == b"ab".as_slice()] == [true; 2]
}

#[test]
fn the_steady_forms_never_fail(rt: HostRuntime) {
    assert!(rt; gives_by_one_cut(rt.alloc()) == Ok(true));
    assert!(rt; takes_steadily(rt.alloc()));
}

/// A stream that is interrupted once, and then broken.
#[derive(Drop)]
struct Broken {
    calls: u32,
}

impl Read for Broken {
    fn read(&mut self, buffer: &mut [u8]) -> io::Result<usize> {
        self.calls = self.calls.saturating_add(1);
        if self.calls == 1 {
            Err(io::ErrorKind::Interrupted.into())
        } else if self.calls == 2 && !buffer.is_empty() {
            buffer[0] = b'x';
            Ok(1)
        } else {
            Err(io::ErrorKind::Other.into())
        }
    }
}

impl Write for Broken {
    fn write(&mut self, piece: &[u8]) -> io::Result<usize> {
        self.calls = self.calls.saturating_add(1);
        match self.calls {
            1 => Err(io::ErrorKind::Interrupted.into()),
            2 => Ok(piece.len()),
            3 => Ok(0),
            _ => Err(io::ErrorKind::Other.into()),
        }
    }

    fn flush(&mut self) -> io::Result<()> {
        Ok(())
    }
}

// Whether two reads from a stream that is broken give the expected answers, with the bytes in the buffer.
fn hands_reads_on() -> bool {
    let mut source = StdSource::new(Broken { calls: 0 });
    let mut buffer = [0; 2];
    [
        source.read(&mut buffer) == Ok(1),
        buffer == *b"x\0",
        source.read(&mut buffer) == Err(Failed),
    ] == [true; 3]
}

// Whether four writes to such a stream give the expected answers.
fn hands_writes_on() -> bool {
    let mut sink = StdSink::new(Broken { calls: 0 });
    [
        sink.write(b"ab") == Ok(2),
        sink.write(b"ab") == Err(Halt::Failed),
        sink.write(b"ab") == Err(Halt::Failed),
        sink.write(b"") == Ok(0),
    ] == [true; 4]
}

#[test]
fn the_standard_forms_hand_faults_on(rt: HostRuntime) {
    assert!(rt; hands_reads_on());
    assert!(rt; hands_writes_on());
}

// Whether a text shows the string that it is made of, and becomes it.
fn is_its_bytes(alloc: Global) -> Result<bool, Memory> {
    let text = Text::new(String::from_str(alloc, "check")?);
    let is_kept = text.as_str() == "check";
    Ok([is_kept, text.into_string().as_str() == "check"] == [true; 2])
}

#[test]
fn a_text_is_its_bytes(rt: HostRuntime) {
    assert!(rt; is_its_bytes(rt.alloc()) == Ok(true));
}
