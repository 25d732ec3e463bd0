//! Where bytes are read from, and the answer of a read.
ghost use Rattle.std.specs.Prelude.{◌≡◌, ◌<◌, ◌≤◌, ℕ, List, Option, length};
ghost use Rattle.nl_field.specs.CrashStates.{Rose};
ghost use Rattle.nl_io.specs.Streams.{ReadsStream};

/// What a read answers.
#[derive(Clone, Copy, Debug, PartialEq, Eq)]
pub enum SourceAnswer {
    /// So many bytes stand at the front of the buffer, at least 1.
    Got(u32),
    /// Nothing is left.
    End,
    /// The count of faults rose.
    Failed,
}

/// What bytes are read from.
pub trait Source {
    /// The bytes that are left, where told.
    ghost left: { Self → Option (List ℕ) };

    /// How often a read has failed. It stands still at 2^64 - 1.
    ghost faults: { Self → ℕ };

    /// Reads at least a byte, unless none is left.
    fn read(&mut self, out: &mut [u8]) -> SourceAnswer
        requires { 0 < length out.old }
        ensures bytes { ReadsStream (left self.old) (left self.new) result out.new }
        ensures never_falls { faults self.old ≤ faults self.new }
        ensures cause { result ≡ SourceAnswer.Failed → Rose (faults self.old) (faults self.new) };

    /// The count of faults.
    fn faults(&self) -> u64
        ensures { result ≡ faults self.now };
}
