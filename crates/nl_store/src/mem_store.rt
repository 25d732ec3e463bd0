//! The store in memory.
ghost use Rattle.std.specs.Prelude.{◌≡◌, ◌≤◌, ◌+◌, ◌++◌, ℕ, length, take, drop, max, slice_index, OnOk, OnErr, IsTrue};
ghost use Rattle.nl_store.specs.PastBytes.{none_later};
ghost use Rattle.nl_store.specs.Store.{BytesPut, Resized};

use crate::answers::{FetchAnswer, StoreAnswer};
use crate::past::{Change, Past};
use crate::store::Store;
use nl_field::{FailList, Memory};
use std::alloc::Global;

/// Where a kill comes: within the write or change of the length of this number, counted from 1, when so many of its bytes are
/// written; of a change of the length before it is done.
#[derive(Clone, Copy, Debug, Drop)]
pub struct Kill {
    pub call: u64,
    pub bytes: usize,
}

/// A store in memory, which tells its bytes. It keeps whatever it held before each write, so it is for small stores. The writes and
/// changes of the length whose numbers, counted from 1, are in its list fail and change nothing. From the kill on every call fails.
/// Where memory is wanting a call fails too.
#[derive(Drop)]
pub struct MemStore {
    alloc: Global,
    bytes: Vec<u8>,
    past: Vec<Past>,
    since: u64,
    moment: u64,
    calls: u64,
    read_faults: u64,
    write_faults: u64,
    failing: FailList,
    kill: Option<Kill>,
    killed: bool,
    ghost began: { since ≤ moment },
    ghost ends: { IsTrue (none_later moment past.items) },
}

/// Gives it at least this length, by zeros.
fn grow(bytes: &mut Vec<u8>, size: usize) -> Result<(), Memory>
    ensures same { (i : ℕ) → slice_index bytes.new.items i ≡ slice_index bytes.old.items i }
    ensures length { OnOk result (length bytes.new.items ≡ max (length bytes.old.items) size) }
    ensures err { OnErr result (bytes.new.items ≡ bytes.old.items) }
{
    if bytes.len() < size {
        bytes.resize(size, 0)?;
    }
    Ok(())
}

/// Puts bytes over those from a place on.
fn lay(bytes: &mut [u8], at: usize, from: &[u8])
    requires { at + length from.now ≤ length bytes.old }
    ensures { bytes.new ≡ take at bytes.old ++ from.now ++ drop (at + length from.now) bytes.old }
{
    bytes[at..at + from.len()].copy_from_slice(from);
}

/// Gives it this length. What is new is zeros.
fn size_to(bytes: &mut Vec<u8>, size: usize) -> Result<(), Memory>
    ensures ok { OnOk result (Resized size bytes.old.items bytes.new.items) }
    ensures err { OnErr result (bytes.new.items ≡ bytes.old.items) }
{
    bytes.resize(size, 0)?;
    Ok(())
}

/// Puts bytes over those from a place on. Where there are none, it puts zeros first.
fn put_over(bytes: &mut Vec<u8>, at: usize, from: &[u8]) -> Result<(), Memory>
    ensures ok { OnOk result (BytesPut at (length from.now) from.now bytes.old.items bytes.new.items) }
    ensures err { OnErr result (bytes.new.items ≡ bytes.old.items) }
{
    if from.is_empty() {
        return Ok(());
    }
    let Some(end) = at.checked_add(from.len()) else {
        return Err(Memory);
    };
    grow(bytes, end)?;
    lay(bytes, at, from);
    Ok(())
}

impl MemStore {
    ghost use Rattle.std.specs.Prelude.{◌≡◌, ◌⊎◌, ℕ, List, ◌≤◌, ◌∷◌, [], ◌++◌, true, IsTrue, OnOk, OnErr};
    ghost use Rattle.nl_store.specs.Memory.{bytes_of, moment_of, left_of, read_faults_of, write_faults_of, past_of};
    ghost use Rattle.nl_store.specs.declared.past.Past.{Past as Earlier};

    /// A store with these bytes, the numbers of the calls that fail, and the kill, if one is to come. A kill has left nothing yet but
    /// these bytes.
    pub fn new(alloc: Global, bytes: Vec<u8>, failing: FailList, kill: Option<Kill>) -> MemStore
        ensures bytes { bytes_of result ≡ bytes.items }
        ensures moment { moment_of result ≡ 0 }
        ensures faults { (read_faults_of result ≡ 0) × (write_faults_of result ≡ 0) }
        ensures left { (m : ℕ) (b : List ℕ) → left_of result m b → (m ≡ 0) × (b ≡ bytes.items) }
    {
        MemStore {
            alloc,
            bytes,
            past: Vec::new(alloc),
            since: 0,
            moment: 0,
            calls: 0,
            read_faults: 0,
            write_faults: 0,
            failing,
            kill,
            killed: false,
        }
    }

    /// The bytes that it holds.
    pub fn into_bytes(self) -> Vec<u8>
        ensures { result.items ≡ bytes_of self }
    {
        self.bytes
    }

    // How many of so many bytes a call takes, and whether it is done.
    fn taken(&mut self, count: usize) -> (usize, bool)
        ensures bytes { bytes_of self.new ≡ bytes_of self.old }
        ensures past { past_of self.new ≡ past_of self.old }
        ensures moment { moment_of self.new ≡ moment_of self.old }
        ensures since { self.new.since ≡ self.old.since }
        ensures faults { (self.new.read_faults ≡ self.old.read_faults) × (self.new.write_faults ≡ self.old.write_faults) }
        ensures within { result.0 ≤ count }
        ensures all { result.1 ≡ true → result.0 ≡ count }
    {
        if self.killed {
            return (0, false);
        }
        self.calls = self.calls.saturating_add(1);
        if let Some(kill) = self.kill
            && kill.call == self.calls
        {
            self.killed = true;
            return (kill.bytes.min(count), false);
        }
        if self.failing.has(self.calls) {
            return (0, false);
        }
        (count, true)
    }

    // Notes a call.
    fn note(&mut self, call: Change) -> Result<(), Memory>
        ensures bytes { bytes_of self.new ≡ bytes_of self.old }
        ensures moment { moment_of self.new ≡ moment_of self.old }
        ensures faults { (self.new.read_faults ≡ self.old.read_faults) × (self.new.write_faults ≡ self.old.write_faults) }
        ensures since { OnOk result (self.new.since ≡ self.old.moment) }
        ensures since_err { OnErr result (self.new.since ≡ self.old.since) }
        ensures past { OnOk result ((p : Earlier) × (p.call ≡ call) × (p.moment ≡ self.old.moment)
            × (p.bytes.items ≡ self.old.bytes.items) × (p.since ≡ self.old.since) × (past_of self.new ≡ past_of self.old ++ p ∷ [])) }
        ensures past_err { OnErr result (past_of self.new ≡ past_of self.old) }
    {
        let bytes = self.bytes.to_vec(self.alloc)?;
        self.past.push(Past {
            call,
            moment: self.moment,
            bytes,
            since: self.since,
        })?;
        self.since = self.moment;
        Ok(())
    }
}

impl Store for MemStore {
    ghost use Rattle.std.specs.Prelude.{true, ◌≡◌, ◌⊎◌, ⊤};
    ghost use Rattle.nl_store.specs.Memory.{bytes_of, moment_of, left_of, read_faults_of, write_faults_of};
    ghost use Rattle.nl_store.specs.MemoryLaws as laws;

    ghost tells = { true };

    ghost Origin = { ⊤ };

    ghost origin = { λ s. tt };

    ghost bytes = { bytes_of };

    ghost moment = { moment_of };

    ghost left = { left_of };

    ghost read_faults = { read_faults_of };

    ghost write_faults = { write_faults_of };

    ghost now_left = { λ s. laws.now_left s.moment s.since s.bytes.items s.past.items s.began };

    ghost no_later = { λ s m b l. laws.no_later s.moment s.since s.bytes.items s.past.items m b s.ends l };

    fn moment(&self) -> u64 {
        self.moment
    }

    fn read_faults(&self) -> u64 {
        self.read_faults
    }

    fn write_faults(&self) -> u64 {
        self.write_faults
    }

    fn fetch(&mut self, out: &mut [u8], at: u64) -> FetchAnswer {
        if self.killed {
            self.read_faults = self.read_faults.saturating_add(1);
            return FetchAnswer::Failed;
        }
        let size = self.bytes.len() as u64;
        if size < at || size - at < out.len() as u64 {
            return FetchAnswer::Short;
        }
        let at = at as usize;
        out.copy_from_slice(&self.bytes[at..at + out.len()]);
        FetchAnswer::Done
    }

    fn put(&mut self, from: &[u8], at: u64) -> StoreAnswer {
        let (count, done) = self.taken(from.len());
        // It counts as failed until it is done.
        let faults = self.write_faults;
        self.write_faults = faults.saturating_add(1);
        let Ok(copy) = from.to_vec(self.alloc) else {
            return StoreAnswer::Failed;
        };
        let Ok(()) = self.note(Change::Put { at, from: copy }) else {
            return StoreAnswer::Failed;
        };
        let Ok(()) = put_over(&mut self.bytes, at as usize, &from[..count]) else {
            return StoreAnswer::Failed;
        };
        if done {
            self.write_faults = faults;
            StoreAnswer::Done
        } else {
            StoreAnswer::Failed
        }
    }

    fn resize(&mut self, size: u64) -> StoreAnswer {
        let (_, done) = self.taken(0);
        let faults = self.write_faults;
        self.write_faults = faults.saturating_add(1);
        if !done {
            return StoreAnswer::Failed;
        }
        let Ok(()) = self.note(Change::Resize { size }) else {
            return StoreAnswer::Failed;
        };
        let Ok(()) = size_to(&mut self.bytes, size as usize) else {
            return StoreAnswer::Failed;
        };
        self.write_faults = faults;
        StoreAnswer::Done
    }

    fn miss(&mut self, _at: u64, _size: u64) {
        self.read_faults = self.read_faults.saturating_add(1);
    }

    fn refuse(&mut self) {
        self.write_faults = self.write_faults.saturating_add(1);
    }

    fn mark(&mut self) {
        self.moment = self.moment.saturating_add(1);
    }

    fn begin(&mut self) {
        self.past = Vec::new(self.alloc);
        self.since = self.moment;
    }
}
