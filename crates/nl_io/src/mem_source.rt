//! A source in memory, for tests.
ghost use Rattle.std.specs.Prelude.{◌≡◌, ◌<◌, ◌≤◌, ◌+◌, ◌⊎◌, ◌↔◌, Some, length, Contains};
ghost use Rattle.nl_field.specs.CrashStates.{Rose, saturated};
ghost use Rattle.nl_io.specs.Streams.{ReadsStream};

use crate::{Source, SourceAnswer};
use nl_field::{FailList, Text};
use std::marker::Model;

/// The most bytes of one read.
const PIECE: usize = 65536;

/// A source over bytes in memory, which fails at the reads of a list, numbered from 1.
#[derive(Debug, Drop)]
pub struct MemSource {
    bytes: Text,
    at: usize,
    calls: u64,
    failing: FailList,
    faults: u64,
}

impl Model for MemSource {
    ghost use Rattle.std.specs.Prelude.{◌≤◌, drop, length};
    ghost use Rattle.nl_io.specs.Memory.{SourceState};

    ghost Value = { SourceState };

    ghost view = { λ s. record { left = drop s.at s.bytes; calls = s.calls; failing = s.failing; faults = s.faults } };

    ghost invariant = { λ s. s.at ≤ length s.bytes };
}

impl MemSource {
    /// All of these bytes are left. It takes no memory.
    pub fn new(bytes: Text, failing: FailList) -> MemSource
        ensures { result ≡ record { left = bytes; calls = 0; failing = failing; faults = 0 } }
    {
        MemSource {
            bytes,
            at: 0,
            calls: 0,
            failing,
            faults: 0,
        }
    }
}

impl Source for MemSource {
    ghost left = { λ s. Some s.left };

    ghost faults = { λ s. s.faults };

    // A read fails exactly where its number is in the list. The number stands still at 2^64 - 1.
    fn read(&mut self, out: &mut [u8]) -> SourceAnswer
        requires { 0 < length out.old }
        ensures bytes { ReadsStream (Some self.old.left) (Some self.new.left) result out.new }
        ensures never_falls { self.old.faults ≤ self.new.faults }
        ensures cause { result ≡ SourceAnswer.Failed → Rose self.old.faults self.new.faults }
        ensures fails { (result ≡ SourceAnswer.Failed) ↔ Contains self.old.failing (saturated (self.old.calls + 1)) }
        ensures calls { self.new.calls ≡ saturated (self.old.calls + 1) }
        ensures failing { self.new.failing ≡ self.old.failing }
        ensures counted { (result ≡ SourceAnswer.Failed) ⊎ (self.new.faults ≡ self.old.faults) }
    {
        self.calls = self.calls.saturating_add(1);
        if self.failing.has(self.calls) {
            self.faults = self.faults.saturating_add(1);
            return SourceAnswer::Failed;
        }
        let left = &self.bytes.bytes()[self.at..];
        let count = left.len().min(out.len()).min(PIECE);
        if count == 0 {
            return SourceAnswer::End;
        }
        out[..count].copy_from_slice(&left[..count]);
        self.at += count;
        SourceAnswer::Got(count as u32)
    }

    fn faults(&self) -> u64 {
        self.faults
    }
}
