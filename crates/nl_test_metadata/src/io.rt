// Streams in memory, read and written as their lists of failing calls say.
use nl_field::{FailList, Memory, Text};
use nl_io::{
    MemSink, MemSource, Sink, SinkAnswer, Source, SourceAnswer, StdSink, StdSource, Words,
};
use std::alloc::Global;
use std::io;

// Whether a read of at most three bytes answers so and gives these.
fn reads<S: Source>(source: &mut S, want: SourceAnswer, bytes: &[u8]) -> bool {
    let mut out = [0u8; 3];
    source.read(&mut out) == want && out.starts_with(bytes)
}

fn writes<K: Sink>(sink: &mut K, bytes: &[u8], want: SinkAnswer) -> bool {
    sink.write(bytes) == want
}

/// The call of this number fails.
fn only(alloc: Global, number: u64) -> Result<FailList, Memory> {
    let mut failing = FailList::new(alloc);
    failing.push(number.max(1))?;
    Ok(failing)
}

fn is_hello(source: &mut MemSource) -> bool {
    reads(source, SourceAnswer::Got(3), b"hel")
        && reads(source, SourceAnswer::Failed, b"")
        && source.faults() == 1
        && reads(source, SourceAnswer::Got(2), b"lo")
        && reads(source, SourceAnswer::End, b"")
}

fn reads_hello(alloc: Global) -> Result<bool, Memory> {
    let failing = only(alloc, 2)?;
    let mut source = MemSource::new(Text::of(alloc, b"hello")?, failing);
    let is = is_hello(&mut source);
    drop(source);
    Ok(is)
}

#[test]
fn a_source_is_read_to_its_end(rt: HostRuntime) {
    assert!(rt; reads_hello(rt.alloc()) == Ok(true));
}

fn takes_five(sink: &mut MemSink) -> bool {
    writes(sink, b"no", SinkAnswer::Failed)
        && writes(sink, b"abc", SinkAnswer::Took)
        && writes(sink, b"def", SinkAnswer::Failed)
        && writes(sink, b"de", SinkAnswer::Took)
        && sink.bytes() == b"abcde".as_slice()
        && sink.faults() == 2
}

fn takes_what_fits(alloc: Global) -> Result<bool, Memory> {
    let mut sink = MemSink::new(alloc, 5, only(alloc, 1)?)?;
    let is = takes_five(&mut sink);
    drop(sink);
    Ok(is)
}

#[test]
fn a_sink_takes_what_fits(rt: HostRuntime) {
    assert!(rt; takes_what_fits(rt.alloc()) == Ok(true));
}

fn two(alloc: Global) -> Result<Words, Memory> {
    let mut words = Words::new(alloc);
    words.push(b"format")?;
    words.push(b"32")?;
    Ok(words)
}

fn keeps_two(alloc: Global) -> Result<bool, Memory> {
    let words = two(alloc)?;
    let is = words.len() == 2 && words.get(1).bytes() == b"32".as_slice();
    drop(words);
    Ok(is)
}

#[test]
fn words_keep_their_order(rt: HostRuntime) {
    assert!(rt; keeps_two(rt.alloc()) == Ok(true));
}

fn reads_two() -> bool {
    let mut source = StdSource::new(b"ab".as_slice());
    let mut out = [0u8; 8];
    source.read(&mut out) == SourceAnswer::Got(2) && source.read(&mut out) == SourceAnswer::End
}

fn takes_two(alloc: Global) -> bool {
    let mut sink = StdSink::new(Vec::<u8>::new(alloc));
    let is = sink.write(b"ab") == SinkAnswer::Took && sink.faults() == 0;
    drop(sink);
    is
}

#[test]
fn a_reader_and_a_writer_serve_as_streams(rt: HostRuntime) {
    assert!(rt; reads_two() && takes_two(rt.alloc()));
}

/// Reads and writes a byte at a call, and fails at the second.
#[derive(Drop)]
struct SecondFails {
    calls: u8,
}

impl SecondFails {
    fn turn(&mut self) -> io::Result<usize> {
        self.calls = self.calls.saturating_add(1);
        if self.calls == 2 {
            return Err(io::Error::from(io::ErrorKind::Other));
        }
        Ok(1)
    }
}

impl io::Read for SecondFails {
    fn read(&mut self, out: &mut [u8]) -> io::Result<usize> {
        let count = self.turn()?.min(out.len());
        out[..count].fill(b'x');
        Ok(count)
    }
}

impl io::Write for SecondFails {
    fn write(&mut self, bytes: &[u8]) -> io::Result<usize> {
        Ok(self.turn()?.min(bytes.len()))
    }

    fn flush(&mut self) -> io::Result<()> {
        Ok(())
    }
}

// The second byte is not read.
fn reads_on(source: &mut StdSource<SecondFails>) -> bool {
    reads(source, SourceAnswer::Got(1), b"x")
        && reads(source, SourceAnswer::Failed, b"")
        && reads(source, SourceAnswer::Got(1), b"x")
        && source.faults() == 1
}

// The second byte is not taken.
fn takes_on(sink: &mut StdSink<SecondFails>) -> bool {
    writes(sink, b"ab", SinkAnswer::Failed)
        && writes(sink, b"ab", SinkAnswer::Took)
        && sink.faults() == 1
}

#[test]
fn a_call_that_fails_is_no_end(rt: HostRuntime) {
    let mut source = StdSource::new(SecondFails { calls: 0 });
    let mut sink = StdSink::new(SecondFails { calls: 0 });
    assert!(rt; reads_on(&mut source) && takes_on(&mut sink));
}
