// A medium in an image file: the store is a file.
ghost use Rattle.std.specs.Prelude.{◌≡◌, ◌⊎◌, IfOk, IfErr};
ghost use Rattle.nl_store.specs.FileBytes.{file_of, moment_of, read_faults_of as reads_failed, write_faults_of as writes_failed};
ghost use Rattle.nl_imgfile.specs.declared.file_nand.Attach.TheVariants as attach;

use crate::disk_nand::{DiskNand, StoreAttach};
use nl_store::FileStore;
use std::alloc::Global;
use std::fs::{File, TryLockError};

/// A flash medium in an image file that is open for reading and writing. It does not tell its contents, since a file is not said to be a
/// store of bytes. No call has the system bring the file to its disk.
pub type FileNand = DiskNand<FileStore>;

/// Why a file was not attached. It is given back.
#[derive(Debug, Drop)]
pub enum Attach {
    /// The file could not be locked, or its header could not be read.
    Fault(File),
    /// Another program, or another medium of this one, has the file.
    InUse(File),
    /// Memory was wanting.
    Memory(File),
}

/// The bytes of a file. It locks the file, so that no one else has its bytes until the store is dropped, and does nothing else to it.
pub fn file_store(file: File) -> Result<FileStore, Attach>
    ensures file { IfOk result (λ s. file_of s ≡ file) }
    ensures moment { IfOk result (λ s. moment_of s ≡ 0) }
    ensures faults { IfOk result (λ s. (reads_failed s ≡ 0) × (writes_failed s ≡ 0)) }
    ensures back { IfErr result (λ e. (e ≡ attach.Fault file) ⊎ (e ≡ attach.InUse file)) }
{
    match file.try_lock() {
        Ok(()) => Ok(FileStore::new(file)),
        Err(TryLockError::WouldBlock) => Err(Attach::InUse(file)),
        Err(TryLockError::Error(_)) => Err(Attach::Fault(file)),
    }
}

impl DiskNand<FileStore> {
    ghost use Rattle.std.specs.Prelude.{◌≡◌, ◌⊎◌, IfOk, IfErr};
    ghost use Rattle.nl_store.specs.FileBytes.{file_of, moment_of, read_faults_of as reads_failed, write_faults_of as writes_failed};
    ghost use Rattle.nl_imgfile.specs.DiskMedium.{clock_of, read_faults_of, write_faults_of};
    ghost use Rattle.nl_imgfile.specs.declared.file_nand.Attach.TheVariants as attach;

    /// The medium that the file holds. It locks the file, so that no other medium is attached to it until this one is dropped.
    pub fn attach(alloc: Global, file: File) -> Result<FileNand, Attach>
        ensures file { IfOk result (λ d. file_of d.store ≡ file) }
        ensures clock { IfOk result (λ d. clock_of moment_of d ≡ 0) }
        ensures read_faults { IfOk result (λ d. read_faults_of reads_failed d ≡ 0) }
        ensures write_faults { IfOk result (λ d. write_faults_of writes_failed d ≡ 0) }
        ensures back { IfErr result (λ e. (e ≡ attach.Fault file) ⊎ ((e ≡ attach.InUse file) ⊎ (e ≡ attach.Memory file))) }
    {
        let store = file_store(file)?;
        match DiskNand::attach_store(alloc, store) {
            Ok(media) => Ok(media),
            Err(StoreAttach::Fault(store)) => Err(Attach::Fault(store.into_file())),
            Err(StoreAttach::Memory(store)) => Err(Attach::Memory(store.into_file())),
        }
    }
}
