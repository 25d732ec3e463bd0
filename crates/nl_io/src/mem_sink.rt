//! A sink in memory, for tests.
ghost use Rattle.std.specs.Prelude.{◌≡◌, ◌≤◌, ◌<◌, ◌+◌, ◌⊎◌, ◌↔◌, [], Some, length, Contains, IfOk};
ghost use Rattle.nl_field.specs.CrashStates.{Rose, saturated};
ghost use Rattle.nl_io.specs.Streams.{WritesStream};

use crate::{Sink, SinkAnswer};
use nl_field::{FailList, Memory};
use std::alloc::Global;
use std::marker::Model;

/// A sink in memory with room for so many bytes. It fails at the writes of a list, numbered from 1, and at those past
/// its room, and then takes nothing.
#[derive(Debug, Drop)]
pub struct MemSink {
    bytes: Vec<u8>,
    room: u32,
    calls: u64,
    failing: FailList,
    faults: u64,
}

impl Model for MemSink {
    ghost use Rattle.std.specs.Prelude.{◌≤◌, vec_len, vec_capacity};
    ghost use Rattle.nl_io.specs.Memory.{SinkState};

    ghost Value = { SinkState };

    ghost view = { λ s. record { taken = s.bytes.items; room = s.room; calls = s.calls; failing = s.failing; faults = s.faults } };

    ghost invariant = { λ s. (vec_len s.bytes ≤ s.room) × (s.room ≤ vec_capacity s.bytes) };
}

impl MemSink {
    /// An empty sink with room for so many bytes, which fails at the listed writes. An error where memory is refused.
    pub fn new(alloc: Global, room: u32, failing: FailList) -> Result<MemSink, Memory>
        ensures { IfOk result (λ s. s ≡ record { taken = []; room = room; calls = 0; failing = failing; faults = 0 }) }
    {
        Ok(MemSink {
            bytes: Vec::with_capacity(alloc, room as usize)?,
            room,
            calls: 0,
            failing,
            faults: 0,
        })
    }

    /// The bytes that were taken.
    pub fn bytes(&self) -> &[u8]
        ensures { result.now ≡ self.now.taken }
    {
        &self.bytes
    }
}

impl Sink for MemSink {
    ghost taken = { λ s. Some s.taken };

    ghost faults = { λ s. s.faults };

    fn write(&mut self, bytes: &[u8]) -> SinkAnswer
        ensures bytes { WritesStream (Some self.old.taken) (Some self.new.taken) result bytes.now }
        ensures never_falls { self.old.faults ≤ self.new.faults }
        ensures cause { result ≡ SinkAnswer.Failed → Rose self.old.faults self.new.faults }
        ensures fails { (result ≡ SinkAnswer.Failed)
            ↔ (Contains self.old.failing (saturated (self.old.calls + 1)) ⊎ (self.old.room < length self.old.taken + length bytes.now)) }
        ensures keeps { result ≡ SinkAnswer.Failed → self.new.taken ≡ self.old.taken }
        ensures counted { result ≡ SinkAnswer.Took → self.new.faults ≡ self.old.faults }
        ensures calls { self.new.calls ≡ saturated (self.old.calls + 1) }
        ensures room { self.new.room ≡ self.old.room }
        ensures failing { self.new.failing ≡ self.old.failing }
    {
        self.calls = self.calls.saturating_add(1);
        let listed = self.failing.has(self.calls);
        let full = self.room as usize - self.bytes.len() < bytes.len();
        if listed || full {
            self.faults = self.faults.saturating_add(1);
            return SinkAnswer::Failed;
        }
        match self.bytes.extend_from_slice(bytes) {
            Ok(()) => SinkAnswer::Took,
            Err(_) => unreachable!(),
        }
    }

    fn faults(&self) -> u64 {
        self.faults
    }
}
