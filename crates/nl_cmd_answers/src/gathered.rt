//! Text that is gathered before it is written, so that many short lines are one write.
ghost use Rattle.std.specs.Prelude.{◌≡◌, ◌≤◌, ◌<◌, ◌+◌, ◌++◌, [], Some, length, take};
ghost use Rattle.nl_field.specs.CrashStates.{Rose};
ghost use Rattle.nl_io.specs.Streams.{WritesStream};

use arrayvec::ArrayVec;
use nl_io::{Sink, SinkAnswer};
use std::marker::Model;

/// How many bytes are gathered at most.
const ROOM: usize = 16384;

/// Text that is not written yet. It is a sink that fails where it has no room for what comes, and then takes nothing.
#[derive(Drop)]
pub(crate) struct Gathered {
    text: ArrayVec<u8, 16384>,
    faults: u64,
}

impl Model for Gathered {
    ghost use Rattle.nl_cmd_answers.specs.Gathering.{Waiting};

    ghost Value = { Waiting };

    ghost view = { λ s. record { text = s.text.items; faults = s.faults } };
}

impl Gathered {
    /// No text.
    pub(crate) fn new() -> Gathered
        ensures { result.text ≡ [] }
    {
        Gathered {
            text: ArrayVec::new(),
            faults: 0,
        }
    }

    /// How many bytes the text has.
    pub(crate) fn len(&self) -> usize
        ensures { result ≡ length self.now.text }
    {
        self.text.len()
    }

    /// Keeps so many of its first bytes.
    pub(crate) fn cut(&mut self, len: usize)
        ensures { self.new.text ≡ take len self.old.text }
    {
        self.text.truncate(len);
    }

    /// Writes the text to the sink, and is empty then.
    pub(crate) fn hand_on<K: Sink>(&mut self, sink: &mut K) -> SinkAnswer
        ensures text { WritesStream (K.taken sink.old) (K.taken sink.new) result self.old.text }
        ensures empty { self.new.text ≡ [] }
        ensures never_falls { K.faults sink.old ≤ K.faults sink.new }
        ensures cause { result ≡ SinkAnswer.Failed → Rose (K.faults sink.old) (K.faults sink.new) }
    {
        let answer = sink.write(self.text.as_slice());
        self.text.clear();
        answer
    }
}

impl Sink for Gathered {
    ghost taken = { λ s. Some s.text };

    ghost faults = { λ s. s.faults };

    fn write(&mut self, bytes: &[u8]) -> SinkAnswer {
        match self.text.try_extend_from_slice(bytes) {
            Ok(()) => SinkAnswer::Took,
            Err(_) => {
                self.faults = self.faults.saturating_add(1);
                SinkAnswer::Failed
            }
        }
    }

    fn faults(&self) -> u64 {
        self.faults
    }
}
