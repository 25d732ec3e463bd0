//! The store in a file.
use crate::answers::{FetchAnswer, StoreAnswer};
use crate::store::Store;
use std::fs::File;
use std::io;
use std::os::unix::fs::FileExt;

/// The bytes of a file that is open for reading and writing. It does not tell them: that a file is a store of bytes no contract
/// can say.
#[derive(Debug, Drop)]
pub struct FileStore {
    file: File,
    moment: u64,
    read_faults: u64,
    write_faults: u64,
}

impl FileStore {
    ghost use Rattle.std.specs.Prelude.{◌≡◌};
    ghost use Rattle.nl_store.specs.FileBytes.{file_of, moment_of, read_faults_of, write_faults_of};

    /// The store in this file. It does nothing to the file, and takes no memory.
    pub fn new(file: File) -> FileStore
        ensures file { file_of result ≡ file }
        ensures moment { moment_of result ≡ 0 }
        ensures faults { (read_faults_of result ≡ 0) × (write_faults_of result ≡ 0) }
    {
        FileStore {
            file,
            moment: 0,
            read_faults: 0,
            write_faults: 0,
        }
    }

    /// The file.
    pub fn into_file(self) -> File
        ensures { result ≡ file_of self }
    {
        self.file
    }
}

impl FileStore {
    ghost use Rattle.std.specs.Prelude.{◌≡◌};
    ghost use Rattle.nl_store.specs.FileBytes.{file_of, moment_of, read_faults_of, write_faults_of};
    ghost use Rattle.nl_store.specs.Store.{CallFaultCounted};

    // Counts a call that failed, and answers it.
    fn answered(&mut self, done: io::Result<()>) -> StoreAnswer
        ensures file { file_of self.new ≡ file_of self.old }
        ensures moment { moment_of self.new ≡ moment_of self.old }
        ensures counted { CallFaultCounted (write_faults_of self.old) (write_faults_of self.new) (result ≡ StoreAnswer.Failed) }
        ensures reads_stay { read_faults_of self.new ≡ read_faults_of self.old }
    {
        match done {
            Ok(()) => StoreAnswer::Done,
            Err(_) => {
                self.write_faults = self.write_faults.saturating_add(1);
                StoreAnswer::Failed
            }
        }
    }
}

impl Store for FileStore {
    ghost use Rattle.std.specs.Prelude.{false, ◌≡◌};
    ghost use Rattle.std.specs.declared.fs.File.{File};
    ghost use Rattle.nl_store.specs.FileBytes.{file_of, moment_of, bytes_of, left_of, read_faults_of, write_faults_of, now_left as now_may_be_left};

    ghost tells = { false };

    ghost Origin = { File };

    ghost origin = { file_of };

    ghost bytes = { bytes_of };

    ghost moment = { moment_of };

    ghost left = { left_of };

    ghost read_faults = { read_faults_of };

    ghost write_faults = { write_faults_of };

    ghost now_left = { now_may_be_left };

    ghost no_later = { λ s m b l. l.0 };

    fn moment(&self) -> u64 {
        self.moment
    }

    fn read_faults(&self) -> u64 {
        self.read_faults
    }

    fn write_faults(&self) -> u64 {
        self.write_faults
    }

    fn fetch(&mut self, out: &mut [u8], at: u64) -> FetchAnswer {
        match self.file.read_exact_at(out, at) {
            Ok(()) => FetchAnswer::Done,
            Err(error) if error.kind() == io::ErrorKind::UnexpectedEof => FetchAnswer::Short,
            Err(_) => {
                self.read_faults = self.read_faults.saturating_add(1);
                FetchAnswer::Failed
            }
        }
    }

    fn put(&mut self, from: &[u8], at: u64) -> StoreAnswer {
        let done = self.file.write_all_at(from, at);
        self.answered(done)
    }

    fn resize(&mut self, size: u64) -> StoreAnswer {
        let done = self.file.set_len(size);
        self.answered(done)
    }

    fn miss(&mut self, _at: u64, _size: u64) {
        self.read_faults = self.read_faults.saturating_add(1);
    }

    fn refuse(&mut self) {
        self.write_faults = self.write_faults.saturating_add(1);
    }

    fn mark(&mut self) {
        self.moment = self.moment.saturating_add(1);
    }

    fn begin(&mut self) {}
}
