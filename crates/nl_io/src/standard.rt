// Thin adapters over a reader and a writer of the system. They tell no bytes.
ghost use Rattle.std.specs.Prelude.{◌≡◌, ◌≤◌, ◌+◌, ◌==◌, None, Some, if◌then◌else◌, IfOk, MatchResult};
ghost use Rattle.nl_field.specs.CrashStates.{saturated};

use crate::{Sink, SinkAnswer, Source, SourceAnswer};
use std::io::{self, Read, Write};
use std::marker::Model;

/// The most bytes of one read.
const PIECE: usize = 65536;

// What a read tells: `Failed` exactly where its result is an error, and `End` where no byte came.
fn answer_of_read(read: &io::Result<usize>) -> SourceAnswer
    requires { IfOk read.now (λ count. count ≤ 65536) }
    ensures { MatchResult read.now (λ count. result ≡ (if count == 0 then SourceAnswer.End else SourceAnswer.Got count))
        (λ _. result ≡ SourceAnswer.Failed) }
{
    match read {
        Ok(0) => SourceAnswer::End,
        Ok(count) => SourceAnswer::Got(*count as u32),
        Err(_) => SourceAnswer::Failed,
    }
}

// How many bytes a write took: none exactly where its result is an error or 0.
fn count_taken(written: &io::Result<usize>) -> Option<usize>
    ensures { MatchResult written.now (λ count. result ≡ (if count == 0 then None else Some count)) (λ _. result ≡ None) }
{
    match written {
        Ok(0) | Err(_) => None,
        Ok(count) => Some(*count),
    }
}

// What a flush tells: `Failed` exactly where its result is an error.
fn answer_of_flush(flushed: &io::Result<()>) -> SinkAnswer
    ensures { MatchResult flushed.now (λ _. result ≡ SinkAnswer.Took) (λ _. result ≡ SinkAnswer.Failed) }
{
    match flushed {
        Ok(()) => SinkAnswer::Took,
        Err(_) => SinkAnswer::Failed,
    }
}

/// A source over a reader, as standard input. Each failed read counts as a fault.
#[derive(Drop)]
pub struct StdSource<R: Read + Drop> {
    inner: R,
    faults: u64,
}

// A source over a reader is seen as its count of faults.
impl<R: Read + Drop> Model for StdSource<R> {
    ghost use Rattle.std.specs.Prelude.{ℕ};

    ghost Value = { ℕ };

    ghost view = { λ s. s.faults };
}

impl<R: Read + Drop> StdSource<R> {
    /// No fault yet.
    pub fn new(inner: R) -> Self
        ensures { result ≡ 0 }
    {
        StdSource { inner, faults: 0 }
    }
}

impl<R: Read + Drop> Source for StdSource<R> {
    ghost left = { λ s. None };

    ghost faults = { λ s. s };

    fn read(&mut self, out: &mut [u8]) -> SourceAnswer {
        let most = out.len().min(PIECE);
        let answer = answer_of_read(&self.inner.read(&mut out[..most]));
        if answer == SourceAnswer::Failed {
            self.faults = self.faults.saturating_add(1);
        }
        answer
    }

    fn faults(&self) -> u64 {
        self.faults
    }
}

/// A sink over a writer, as standard output. Each failed write counts as a fault, and so does one that takes no byte.
#[derive(Drop)]
pub struct StdSink<W: Write + Drop> {
    inner: W,
    faults: u64,
}

// A sink over a writer is seen as its count of faults.
impl<W: Write + Drop> Model for StdSink<W> {
    ghost use Rattle.std.specs.Prelude.{ℕ};

    ghost Value = { ℕ };

    ghost view = { λ s. s.faults };
}

impl<W: Write + Drop> StdSink<W> {
    /// No fault yet.
    pub fn new(inner: W) -> Self
        ensures { result ≡ 0 }
    {
        StdSink { inner, faults: 0 }
    }

    // Counts a fault.
    fn failed(&mut self) -> SinkAnswer
        ensures answer { result ≡ SinkAnswer.Failed }
        ensures faults { self.new ≡ saturated (self.old + 1) }
        ensures never_falls { self.old ≤ self.new }
    {
        self.faults = self.faults.saturating_add(1);
        SinkAnswer::Failed
    }
}

impl<W: Write + Drop> Sink for StdSink<W> {
    ghost taken = { λ s. None };

    ghost faults = { λ s. s };

    // All bytes, and then the writer is flushed.
    fn write(&mut self, bytes: &[u8]) -> SinkAnswer {
        let mut rest = bytes;
        while !rest.is_empty() {
            match count_taken(&self.inner.write(rest)) {
                Some(count) => rest = &rest[count..],
                None => return self.failed(),
            }
        }
        match answer_of_flush(&self.inner.flush()) {
            SinkAnswer::Took => SinkAnswer::Took,
            SinkAnswer::Failed => self.failed(),
        }
    }

    fn faults(&self) -> u64 {
        self.faults
    }
}
