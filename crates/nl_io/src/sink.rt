//! Where bytes are written to, and the answer of a write.
ghost use Rattle.std.specs.Prelude.{◌≡◌, ◌≤◌, ℕ, List, Option};
ghost use Rattle.nl_field.specs.CrashStates.{Rose};
ghost use Rattle.nl_io.specs.Streams.{WritesStream};

/// What a write answers.
#[derive(Clone, Copy, Debug, PartialEq, Eq)]
pub enum SinkAnswer {
    /// All bytes were taken.
    Took,
    /// A prefix of them was taken, and the count of faults rose.
    Failed,
}

/// What bytes are written to.
pub trait Sink {
    /// The bytes that were taken, where told.
    ghost taken: { Self → Option (List ℕ) };

    /// How often a write has failed. It stands still at 2^64 - 1.
    ghost faults: { Self → ℕ };

    /// Takes all bytes, or fails.
    fn write(&mut self, bytes: &[u8]) -> SinkAnswer
        ensures bytes { WritesStream (taken self.old) (taken self.new) result bytes.now }
        ensures never_falls { faults self.old ≤ faults self.new }
        ensures cause { result ≡ SinkAnswer.Failed → Rose (faults self.old) (faults self.new) };

    /// The count of faults.
    fn faults(&self) -> u64
        ensures { result ≡ faults self.now };
}
