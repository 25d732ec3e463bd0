//! The trait of a store of bytes.
ghost use Rattle.std.specs.Prelude.{◌≡◌, ◌+◌, ◌<◌, ◌≤◌, ℕ, Bool, List, length, IsTrue, ⊤};
ghost use Rattle.nl_field.specs.CrashStates.{saturated};
ghost use Rattle.nl_store.specs.Store.{FrontPut, PutLeaves, Resized, ResizeLeaves, FetchGives, KillLeaves, StoreOnlyRead, MomentEnded};
ghost use Rattle.nl_store.specs.Store.{CallFaultCounted};

use crate::answers::{FetchAnswer, StoreAnswer};

/// Bytes at places, numbered from 0. Its calls come one after the other. A process that is killed leaves each earlier call
/// whole, and of the write that it is in a front of its bytes, in rising order; a change of the length is done or not done.
///
/// Moments part the calls: the caller ends one by `mark`, which does nothing else. They stand still at 2^64 - 1.
pub trait Store {
    /// The store tells what it holds. Where it does not, no clause says what `bytes` is of it; clauses on `left` then say only how a
    /// call adds to what a kill may have left, and that `bytes` is left now.
    ghost tells: { Bool };

    /// What tells one store from another, as which file it is.
    ghost Origin: { Type 0 };

    /// Which store it is. No call changes it.
    ghost origin: { Self → Origin };

    /// All its bytes, in order.
    ghost bytes: { Self → List ℕ };

    /// How many moments have ended.
    ghost moment: { Self → ℕ };

    /// The bytes that a kill at a moment may have left.
    ghost left: { Self → ℕ → List ℕ → Type 0 };

    /// Reads that failed, and reads behind the end that were counted with them (`miss`).
    ghost read_faults: { Self → ℕ };

    /// Writes and changes of the length that failed, and writes that were refused after one of these (`refuse`).
    ghost write_faults: { Self → ℕ };

    /// How many moments have ended.
    fn moment(&self) -> u64
        ensures { result ≡ moment self.now };

    /// The count of reads that failed. It stands still at 2^64 - 1.
    fn read_faults(&self) -> u64
        ensures { result ≡ read_faults self.now };

    /// The count of writes and changes of the length that failed. It stands still at 2^64 - 1.
    fn write_faults(&self) -> u64
        ensures { result ≡ write_faults self.now };

    /// Reads as many bytes as `out` has, from a place on. `Short` comes only where the store ends before the last of them. Where the
    /// answer is not `Done`, what `out` holds is not said.
    fn fetch(&mut self, out: &mut [u8], at: u64) -> FetchAnswer
        ensures len { length out.new ≡ length out.old }
        ensures told { IsTrue tells → FetchGives at (bytes self.old) result out.new }
        ensures only_fetches { StoreOnlyRead bytes moment left self.old self.new }
        ensures origin { origin self.new ≡ origin self.old }
        ensures counted { CallFaultCounted (read_faults self.old) (read_faults self.new) (result ≡ FetchAnswer.Failed) }
        ensures writes_stay { write_faults self.new ≡ write_faults self.old };

    /// Writes all the bytes from a place on. Where the store ends before the place, zeros come between. A failed write may have
    /// written a front of them.
    fn put(&mut self, from: &[u8], at: u64) -> StoreAnswer
        ensures told { IsTrue tells → PutLeaves at from.now (bytes self.old) result (bytes self.new) }
        ensures crash { KillLeaves moment left (FrontPut at from.now (bytes self.old)) self.old self.new }
        ensures reached { IsTrue tells → result ≡ StoreAnswer.Done
            → (b : List ℕ) → FrontPut at from.now (bytes self.old) b → left self.new (moment self.old) b }
        ensures origin { origin self.new ≡ origin self.old }
        ensures counted { CallFaultCounted (write_faults self.old) (write_faults self.new) (result ≡ StoreAnswer.Failed) }
        ensures reads_stay { read_faults self.new ≡ read_faults self.old };

    /// Gives the store this length in bytes. What is new is zeros. A failed call has changed nothing.
    fn resize(&mut self, size: u64) -> StoreAnswer
        ensures told { IsTrue tells → ResizeLeaves size (bytes self.old) result (bytes self.new) }
        ensures crash { KillLeaves moment left (Resized size (bytes self.old)) self.old self.new }
        ensures origin { origin self.new ≡ origin self.old }
        ensures counted { CallFaultCounted (write_faults self.old) (write_faults self.new) (result ≡ StoreAnswer.Failed) }
        ensures reads_stay { read_faults self.new ≡ read_faults self.old };

    /// Counts a read of so many bytes from a place on, which the store ends before, as one that failed.
    fn miss(&mut self, at: u64, size: u64)
        requires { IsTrue tells → length (bytes self.old) < at + size }
        ensures only_counts { StoreOnlyRead bytes moment left self.old self.new }
        ensures origin { origin self.new ≡ origin self.old }
        ensures counted { CallFaultCounted (read_faults self.old) (read_faults self.new) ⊤ }
        ensures writes_stay { write_faults self.new ≡ write_faults self.old };

    /// Refuses a write, where one failed before: it is counted as one more, and nothing is written.
    fn refuse(&mut self)
        requires { 0 < write_faults self.old }
        ensures only_counts { StoreOnlyRead bytes moment left self.old self.new }
        ensures origin { origin self.new ≡ origin self.old }
        ensures counted { CallFaultCounted (write_faults self.old) (write_faults self.new) ⊤ }
        ensures reads_stay { read_faults self.new ≡ read_faults self.old };

    /// Ends the moment. The bytes that there are may be left in the next one too.
    fn mark(&mut self)
        ensures moment { moment self.new ≡ saturated (moment self.old + 1) }
        ensures later { moment self.old ≤ moment self.new }
        ensures marked { MomentEnded bytes moment left self.old self.new }
        ensures origin { origin self.new ≡ origin self.old }
        ensures faults { (read_faults self.new ≡ read_faults self.old) × (write_faults self.new ≡ write_faults self.old) };

    /// Forgets what was left before: a kill from now on leaves what there is.
    fn begin(&mut self)
        ensures bytes { bytes self.new ≡ bytes self.old }
        ensures origin { origin self.new ≡ origin self.old }
        ensures moment { moment self.new ≡ moment self.old }
        ensures faults { (read_faults self.new ≡ read_faults self.old) × (write_faults self.new ≡ write_faults self.old) }
        ensures begins { IsTrue tells → (m : ℕ) (b : List ℕ) → left self.new m b
            → (m ≡ moment self.new) × (b ≡ bytes self.new) };

    /// What there is now may be left now.
    ghost now_left: { (s : Self) → left s (moment s) (bytes s) };

    /// No moment is later than now.
    ghost no_later: { (s : Self) (m : ℕ) (b : List ℕ) → left s m b → m ≤ moment s };
}
