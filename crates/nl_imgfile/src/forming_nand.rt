// The medium in a store while a command runs on it that forms it.
ghost use Rattle.std.specs.Prelude.{◌≡◌, ◌<◌, true, false, IsTrue};
ghost use Rattle.nl_imgfile.specs.DiskMedium.{IsHeaded, IsHeadedOrErased, write_faults_of};

use crate::disk_nand::{DiskNand, StoreAttach};
use nl_field::PageBuf;
use nl_nand::{FormAnswer, Geometry, Nand, ReadAnswer, WriteAnswer};
use nl_store::Store;
use std::alloc::Global;

/// A medium in a store that may be formed. After a forming that failed, each program and each erase is refused until one is done. So
/// whoever attaches to what a kill left of the store has an image that may be left of this medium, or one with no page but erased ones.
#[derive(Drop)]
pub struct FormingNand<S: Store> {
    disk: DiskNand<S>,
    // A forming failed, and none was done since.
    lost: bool,
    ghost headed: { IsTrue S.tells → lost ≡ false → IsHeaded S.left disk },
    ghost failed: { lost ≡ true → 0 < write_faults_of S.write_faults disk },
    ghost erased: { IsTrue S.tells → IsHeadedOrErased S.left disk },
}

impl<S: Store> FormingNand<S> {
    ghost use Rattle.std.specs.Prelude.{◌≡◌, ◌⊎◌, ℕ, List, IfOk, IfErr, IsTrue};
    ghost use Rattle.nl_field.specs.Page.{Image};
    ghost use Rattle.nl_nand.specs.Nand.{IsBlank};
    ghost use Rattle.nl_store.specs.Store.{StoreOnlyRead};
    ghost use Rattle.nl_imgfile.specs.DiskImage.{image_of_store, SameOrBlank};
    ghost use Rattle.nl_imgfile.specs.DiskMedium.{clock_of, read_faults_of, write_faults_of, contents_of, left_of, given_back, IsNotAttached};

    /// The medium that the store holds. What was left of the store before is forgotten. The store is given back where its header could not
    /// be read, and for want of memory.
    pub fn attach(alloc: Global, store: S) -> Result<FormingNand<S>, StoreAttach<S>>
        ensures contents { IsTrue S.tells → IfOk result (λ f. contents_of S.tells S.bytes f.disk ≡ image_of_store (S.bytes store)) }
        ensures left { IsTrue S.tells → IfOk result (λ f. (m : ℕ) (c : Image) → left_of S.tells S.moment S.left f.disk m c
            → (m ≡ S.moment store) × (c ≡ image_of_store (S.bytes store))) }
        ensures clock { IfOk result (λ f. clock_of S.moment f.disk ≡ S.moment store) }
        ensures read_faults { IfOk result (λ f. read_faults_of S.read_faults f.disk ≡ S.read_faults store) }
        ensures write_faults { IfOk result (λ f. write_faults_of S.write_faults f.disk ≡ S.write_faults store) }
        ensures back { IfErr result (λ e. StoreOnlyRead S.bytes S.moment S.left store (given_back e)) }
        ensures cause { IfErr result (IsNotAttached S.origin S.read_faults store) }
    {
        let disk = DiskNand::attach_anew(alloc, store)?;
        Ok(FormingNand { disk, lost: false })
    }

    /// The store. Its bytes are the image that the medium held, or no page of either is written; and what a kill may have left of it is an
    /// image that may be left of the medium, or one with no page but erased ones.
    pub fn into_store(self) -> S
        ensures contents { IsTrue S.tells → SameOrBlank (image_of_store (S.bytes result)) (contents_of S.tells S.bytes self.disk) }
        ensures left { IsTrue S.tells → (m : ℕ) (b : List ℕ) → S.left result m b
            → left_of S.tells S.moment S.left self.disk m (image_of_store b) ⊎ IsBlank (image_of_store b) }
        ensures clock { S.moment result ≡ clock_of S.moment self.disk }
        ensures read_faults { S.read_faults result ≡ read_faults_of S.read_faults self.disk }
        ensures write_faults { S.write_faults result ≡ write_faults_of S.write_faults self.disk }
    {
        self.disk.into_store()
    }
}

impl<S: Store> Nand for FormingNand<S> {
    ghost use Rattle.std.specs.Prelude.{IsTrue};
    ghost use Rattle.nl_nand.specs.RecordLaws as laws;
    ghost use Rattle.nl_imgfile.specs.DiskMedium.{geometry_of, clock_of, read_faults_of, write_faults_of, contents_of, left_of};
    ghost use Rattle.nl_imgfile.specs.DiskLaws as disk;

    ghost tells = { IsTrue S.tells };

    ghost geometry = { λ f. geometry_of f.disk };

    ghost contents = { λ f. contents_of S.tells S.bytes f.disk };

    ghost clock = { λ f. clock_of S.moment f.disk };

    ghost read_faults = { λ f. read_faults_of S.read_faults f.disk };

    ghost write_faults = { λ f. write_faults_of S.write_faults f.disk };

    ghost left = { λ f. left_of S.tells S.moment S.left f.disk };

    ghost legal = { λ f. laws.legal (geometry_of f.disk) f.disk.legal };

    ghost now_left = { λ f. disk.now_left S.tells S.bytes S.moment S.left f.disk (S.now_left f.disk.store) };

    ghost no_later = { λ f m c l. disk.no_later S.tells S.moment S.left f.disk m c (λ b. S.no_later f.disk.store m b) l };

    ghost contents_fit = { λ f t. disk.contents_fit S.tells S.bytes f.disk t };

    ghost left_fits = { λ f m c t l. disk.left_fits S.tells S.moment S.left f.disk m c t l };

    fn geometry(&self) -> Geometry {
        self.disk.geometry()
    }

    fn clock(&self) -> u64 {
        self.disk.clock()
    }

    fn read_faults(&self) -> u64 {
        self.disk.read_faults()
    }

    fn write_faults(&self) -> u64 {
        self.disk.write_faults()
    }

    fn form(&mut self, blocks: u32, pages: u32) -> FormAnswer {
        match self.disk.form(blocks, pages) {
            FormAnswer::Done => {
                self.lost = false;
                FormAnswer::Done
            }
            FormAnswer::Failed => {
                self.lost = true;
                FormAnswer::Failed
            }
            FormAnswer::Memory => FormAnswer::Memory,
        }
    }

    fn read(&mut self, page: u32, buf: &mut PageBuf) -> ReadAnswer {
        self.disk.read(page, buf)
    }

    fn program(&mut self, page: u32, from: &PageBuf) -> WriteAnswer {
        if self.lost {
            self.disk.refused()
        } else {
            self.disk.program(page, from)
        }
    }

    fn erase(&mut self, block: u32) -> WriteAnswer {
        if self.lost {
            self.disk.refused()
        } else {
            self.disk.erase(block)
        }
    }
}
