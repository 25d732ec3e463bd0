// A store in memory that tells nothing, with a kill within a write or a call that fails. It keeps no more than its bytes.
ghost use Rattle.std.specs.Prelude.{◌≡◌};
ghost use Rattle.nl_test_app_file.specs.Killed.{moment_of, read_faults_of, write_faults_of};

use nl_store::{FetchAnswer, Store, StoreAnswer};

/// Where a write or a change of the length fails, counted from 1: the kill comes within the one of this number after so many bytes, from
/// which on each call fails; or that one alone fails, and takes nothing; or none fails.
#[derive(Clone, Copy)]
pub enum Trouble {
    Killed(u64, usize),
    Fails(u64),
    None,
}

/// The bytes, and the calls so far.
#[derive(Drop)]
pub struct Killed {
    bytes: Vec<u8>,
    trouble: Trouble,
    calls: u64,
    dead: bool,
    moment: u64,
    read_faults: u64,
    write_faults: u64,
}

impl Killed {
    /// A store of these bytes.
    pub fn new(bytes: Vec<u8>, trouble: Trouble) -> Killed {
        Killed {
            bytes,
            trouble,
            calls: 0,
            dead: false,
            moment: 0,
            read_faults: 0,
            write_faults: 0,
        }
    }

    /// Its bytes.
    pub fn into_bytes(self) -> Vec<u8> {
        self.bytes
    }

    // How many of so many bytes the next call takes, and whether it is done.
    fn taken(&mut self, count: usize) -> (usize, bool)
        ensures moment { moment_of self.new ≡ moment_of self.old }
        ensures reads { read_faults_of self.new ≡ read_faults_of self.old }
        ensures writes { write_faults_of self.new ≡ write_faults_of self.old }
    {
        if self.dead {
            return (0, false);
        }
        self.calls = self.calls.saturating_add(1);
        match self.trouble {
            Trouble::Killed(call, bytes) if call == self.calls => {
                self.dead = true;
                (bytes.min(count), false)
            }
            Trouble::Fails(call) if call == self.calls => (0, false),
            _ => (count, true),
        }
    }
}

/// Puts bytes at a place, where the store is long enough.
fn put_at(bytes: &mut [u8], at: u64, from: &[u8]) -> bool {
    let size = bytes.len() as u64;
    if size < at || size - at < from.len() as u64 {
        return false;
    }
    let at = at as usize;
    bytes[at..at + from.len()].copy_from_slice(from);
    true
}

impl Store for Killed {
    ghost use Rattle.std.specs.Prelude.{false, ◌≡◌, ⊤};
    ghost use Rattle.nl_test_app_file.specs.Killed.{moment_of, bytes_of, left_of, read_faults_of, write_faults_of, now_left as now_may_be_left};

    ghost tells = { false };

    ghost Origin = { ⊤ };

    ghost origin = { λ s. tt };

    ghost bytes = { bytes_of };

    ghost moment = { moment_of };

    ghost left = { left_of };

    ghost read_faults = { read_faults_of };

    ghost write_faults = { write_faults_of };

    ghost now_left = { now_may_be_left };

    ghost no_later = { λ s m b l. l.0 };

    fn moment(&self) -> u64 {
        self.moment
    }

    fn read_faults(&self) -> u64 {
        self.read_faults
    }

    fn write_faults(&self) -> u64 {
        self.write_faults
    }

    fn fetch(&mut self, out: &mut [u8], at: u64) -> FetchAnswer {
        if self.dead {
            self.read_faults = self.read_faults.saturating_add(1);
            return FetchAnswer::Failed;
        }
        let size = self.bytes.len() as u64;
        if size < at || size - at < out.len() as u64 {
            return FetchAnswer::Short;
        }
        let at = at as usize;
        out.copy_from_slice(&self.bytes[at..at + out.len()]);
        FetchAnswer::Done
    }

    fn put(&mut self, from: &[u8], at: u64) -> StoreAnswer {
        let (count, done) = self.taken(from.len());
        let front = if count <= from.len() { count } else { 0 };
        if put_at(&mut self.bytes, at, &from[..front]) && done {
            return StoreAnswer::Done;
        }
        self.write_faults = self.write_faults.saturating_add(1);
        StoreAnswer::Failed
    }

    fn resize(&mut self, size: u64) -> StoreAnswer {
        let (_, done) = self.taken(0);
        if done && self.bytes.resize(size as usize, 0).is_ok() {
            return StoreAnswer::Done;
        }
        self.write_faults = self.write_faults.saturating_add(1);
        StoreAnswer::Failed
    }

    fn miss(&mut self, _at: u64, _size: u64) {
        self.read_faults = self.read_faults.saturating_add(1);
    }

    fn refuse(&mut self) {
        self.write_faults = self.write_faults.saturating_add(1);
    }

    fn mark(&mut self) {
        self.moment = self.moment.saturating_add(1);
    }

    fn begin(&mut self) {}
}
