// The medium in a store while a command runs on it that does not form it.
ghost use Rattle.std.specs.Prelude.{IsTrue};
ghost use Rattle.nl_imgfile.specs.DiskMedium.{IsHeaded};

use crate::disk_nand::{DiskNand, StoreAttach};
use nl_field::PageBuf;
use nl_nand::{FormAnswer, Geometry, Nand, ReadAnswer, WriteAnswer};
use nl_store::Store;
use std::alloc::Global;

/// A medium in a store that is not formed while it is attached: `form` answers `Memory`, and does nothing. So the header stays: whoever
/// attaches to what a kill left of the store has this medium's geometry, and an image that may be left of it.
#[derive(Drop)]
pub struct OpenedNand<S: Store> {
    disk: DiskNand<S>,
    ghost headed: { IsTrue S.tells → IsHeaded S.left disk },
}

impl<S: Store> OpenedNand<S> {
    ghost use Rattle.std.specs.Prelude.{◌≡◌, ℕ, List, IfOk, IfErr, IsTrue};
    ghost use Rattle.nl_field.specs.Page.{Image};
    ghost use Rattle.nl_store.specs.Store.{StoreOnlyRead};
    ghost use Rattle.nl_imgfile.specs.DiskImage.{image_of_store};
    ghost use Rattle.nl_imgfile.specs.DiskMedium.{clock_of, read_faults_of, write_faults_of, contents_of, left_of, given_back, IsNotAttached};

    /// The medium that the store holds. What was left of the store before is forgotten. The store is given back where its header could not
    /// be read, and for want of memory.
    pub fn attach(alloc: Global, store: S) -> Result<OpenedNand<S>, StoreAttach<S>>
        ensures contents { IsTrue S.tells → IfOk result (λ o. contents_of S.tells S.bytes o.disk ≡ image_of_store (S.bytes store)) }
        ensures left { IsTrue S.tells → IfOk result (λ o. (m : ℕ) (c : Image) → left_of S.tells S.moment S.left o.disk m c
            → (m ≡ S.moment store) × (c ≡ image_of_store (S.bytes store))) }
        ensures clock { IfOk result (λ o. clock_of S.moment o.disk ≡ S.moment store) }
        ensures read_faults { IfOk result (λ o. read_faults_of S.read_faults o.disk ≡ S.read_faults store) }
        ensures write_faults { IfOk result (λ o. write_faults_of S.write_faults o.disk ≡ S.write_faults store) }
        ensures back { IfErr result (λ e. StoreOnlyRead S.bytes S.moment S.left store (given_back e)) }
        ensures cause { IfErr result (IsNotAttached S.origin S.read_faults store) }
    {
        let disk = DiskNand::attach_anew(alloc, store)?;
        Ok(OpenedNand { disk })
    }

    /// The store. Its bytes are the image that the medium held, and what a kill may have left of it is an image that may be left of the
    /// medium.
    pub fn into_store(self) -> S
        ensures contents { IsTrue S.tells → contents_of S.tells S.bytes self.disk ≡ image_of_store (S.bytes result) }
        ensures left { IsTrue S.tells → (m : ℕ) (b : List ℕ) → S.left result m b
            → left_of S.tells S.moment S.left self.disk m (image_of_store b) }
        ensures clock { S.moment result ≡ clock_of S.moment self.disk }
        ensures read_faults { S.read_faults result ≡ read_faults_of S.read_faults self.disk }
        ensures write_faults { S.write_faults result ≡ write_faults_of S.write_faults self.disk }
    {
        self.disk.into_store()
    }
}

impl<S: Store> Nand for OpenedNand<S> {
    ghost use Rattle.std.specs.Prelude.{IsTrue};
    ghost use Rattle.nl_nand.specs.RecordLaws as laws;
    ghost use Rattle.nl_imgfile.specs.DiskMedium.{geometry_of, clock_of, read_faults_of, write_faults_of, contents_of, left_of};
    ghost use Rattle.nl_imgfile.specs.DiskLaws as disk;

    ghost tells = { IsTrue S.tells };

    ghost geometry = { λ o. geometry_of o.disk };

    ghost contents = { λ o. contents_of S.tells S.bytes o.disk };

    ghost clock = { λ o. clock_of S.moment o.disk };

    ghost read_faults = { λ o. read_faults_of S.read_faults o.disk };

    ghost write_faults = { λ o. write_faults_of S.write_faults o.disk };

    ghost left = { λ o. left_of S.tells S.moment S.left o.disk };

    ghost legal = { λ o. laws.legal (geometry_of o.disk) o.disk.legal };

    ghost now_left = { λ o. disk.now_left S.tells S.bytes S.moment S.left o.disk (S.now_left o.disk.store) };

    ghost no_later = { λ o m c l. disk.no_later S.tells S.moment S.left o.disk m c (λ b. S.no_later o.disk.store m b) l };

    ghost contents_fit = { λ o t. disk.contents_fit S.tells S.bytes o.disk t };

    ghost left_fits = { λ o m c t l. disk.left_fits S.tells S.moment S.left o.disk m c t l };

    fn geometry(&self) -> Geometry {
        self.disk.geometry()
    }

    fn clock(&self) -> u64 {
        self.disk.clock()
    }

    fn read_faults(&self) -> u64 {
        self.disk.read_faults()
    }

    fn write_faults(&self) -> u64 {
        self.disk.write_faults()
    }

    fn form(&mut self, _blocks: u32, _pages: u32) -> FormAnswer {
        FormAnswer::Memory
    }

    fn read(&mut self, page: u32, buf: &mut PageBuf) -> ReadAnswer {
        self.disk.read(page, buf)
    }

    fn program(&mut self, page: u32, from: &PageBuf) -> WriteAnswer {
        self.disk.program(page, from)
    }

    fn erase(&mut self, block: u32) -> WriteAnswer {
        self.disk.erase(block)
    }
}
