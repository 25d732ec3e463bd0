// A flash medium in a store of bytes, with the calls of a medium on it.
ghost use Rattle.std.specs.Prelude.{IsTrue};
ghost use Rattle.nl_nand.specs.Record.{is_geometry};

use crate::calls::{erase_pages, form_store, read_geometry, write_page};
use crate::layout::{RECORD, position_of};
use crate::page_record::PageRecord;
use nl_field::PageBuf;
use nl_nand::{FormAnswer, Geometry, Nand, ReadAnswer, WriteAnswer};
use nl_store::{FetchAnswer, Store, StoreAnswer};
use std::alloc::Global;

/// Why a store was not attached. It is given back.
#[derive(Debug, Drop)]
pub enum StoreAttach<S> {
    /// Its header could not be read.
    Fault(S),
    /// Memory was wanting.
    Memory(S),
}

/// A flash medium in a store of bytes. Only attaching takes memory. A program or an erase has written to the store before it answers.
/// A medium whose header stays (`headed`) is the same medium to whoever attaches to what a kill left of its store.
#[derive(Drop)]
pub struct DiskNand<S> {
    store: S,
    buffer: PageRecord,
    geometry: Geometry,
    ghost legal: { IsTrue (is_geometry geometry) },
}

impl<S: Store> DiskNand<S> {
    ghost use Rattle.std.specs.Prelude.{◌≡◌, ◌↔◌, ◌<◌, ◌≤◌, ℕ, List, IfOk, IfErr};
    ghost use Rattle.nl_store.specs.Store.{StoreOnlyRead};
    ghost use Rattle.nl_nand.specs.Nand.{OperationCounted, ticked};
    ghost use Rattle.nl_imgfile.specs.DiskImage.{geometry_in_store};
    ghost use Rattle.nl_imgfile.specs.DiskMedium.{geometry_of, clock_of, read_faults_of, write_faults_of, contents_of, left_of, given_back, CountedAs, IsHeaded, IsNotAttached};

    /// The medium that the store holds. A store that is shorter than a header, or has no header of legal numbers, is a medium
    /// that was never formed.
    pub fn attach_store(alloc: Global, store: S) -> Result<DiskNand<S>, StoreAttach<S>>
        ensures geometry { IsTrue S.tells → IfOk result (λ d. geometry_of d ≡ geometry_in_store (S.bytes store)) }
        ensures only_fetches { IfOk result (λ d. StoreOnlyRead S.bytes S.moment S.left store d.store) }
        ensures origin { IfOk result (λ d. S.origin d.store ≡ S.origin store) }
        ensures read_faults { IfOk result (λ d. read_faults_of S.read_faults d ≡ S.read_faults store) }
        ensures write_faults { IfOk result (λ d. write_faults_of S.write_faults d ≡ S.write_faults store) }
        ensures back { IfErr result (λ e. StoreOnlyRead S.bytes S.moment S.left store (given_back e)) }
        ensures cause { IfErr result (IsNotAttached S.origin S.read_faults store) }
    {
        let Ok(buffer) = PageRecord::new(alloc) else {
            return Err(StoreAttach::Memory(store));
        };
        let mut store = store;
        let Some(geometry) = read_geometry(&mut store) else {
            return Err(StoreAttach::Fault(store));
        };
        Ok(DiskNand {
            store,
            buffer,
            geometry,
        })
    }

    /// The medium in a store that holds what a kill may have left of another one's: it has that one's geometry, and holds one of
    /// the images that a kill may have left of it.
    pub fn attach_after_kill(
        alloc: Global,
        killed: &DiskNand<S>,
        store: S,
    ) -> Result<DiskNand<S>, StoreAttach<S>>
        ensures { IsTrue S.tells → IsHeaded S.left killed.now → (m : ℕ) → S.left killed.now.store m (S.bytes store)
            → IfOk result (λ d. (geometry_of d ≡ geometry_of killed.now)
            × left_of S.tells S.moment S.left killed.now m (contents_of S.tells S.bytes d)) }
    {
        DiskNand::attach_store(alloc, store)
    }

    /// The medium that the store holds, with a history that begins now: what was left of the store before is forgotten.
    pub fn attach_anew(alloc: Global, store: S) -> Result<DiskNand<S>, StoreAttach<S>>
        ensures geometry { IsTrue S.tells → IfOk result (λ d. geometry_of d ≡ geometry_in_store (S.bytes store)) }
        ensures bytes { IfOk result (λ d. S.bytes d.store ≡ S.bytes store) }
        ensures origin { IfOk result (λ d. S.origin d.store ≡ S.origin store) }
        ensures clock { IfOk result (λ d. clock_of S.moment d ≡ S.moment store) }
        ensures read_faults { IfOk result (λ d. read_faults_of S.read_faults d ≡ S.read_faults store) }
        ensures write_faults { IfOk result (λ d. write_faults_of S.write_faults d ≡ S.write_faults store) }
        ensures begins { IsTrue S.tells → IfOk result (λ d. (m : ℕ) (b : List ℕ) → S.left d.store m b
            → (m ≡ S.moment store) × (b ≡ S.bytes store)) }
        ensures back { IfErr result (λ e. StoreOnlyRead S.bytes S.moment S.left store (given_back e)) }
        ensures cause { IfErr result (IsNotAttached S.origin S.read_faults store) }
    {
        let mut disk = DiskNand::attach_store(alloc, store)?;
        disk.store.begin();
        Ok(disk)
    }

    /// The store.
    pub fn into_store(self) -> S
        ensures { result ≡ self.store }
    {
        self.store
    }

    /// Refuses a program or an erase, where a write failed before: it is counted as failed, and nothing is done to the store.
    pub fn refused(&mut self) -> WriteAnswer
        requires { 0 < write_faults_of S.write_faults self.old }
        ensures failed { result ≡ WriteAnswer.Failed }
        ensures only_counts { StoreOnlyRead S.bytes S.moment S.left self.old.store self.new.store }
        ensures counted { OperationCounted geometry_of (clock_of S.moment) (read_faults_of S.read_faults) (write_faults_of S.write_faults)
            self.old self.new result }
    {
        self.store.refuse();
        WriteAnswer::Failed
    }

    // Counts a program or an erase that is done, and answers it.
    fn counted(&mut self, written: StoreAnswer) -> WriteAnswer
        ensures counts { CountedAs S.bytes S.moment S.left written result self.old.store self.new.store }
        ensures geometry { self.new.geometry ≡ self.old.geometry }
        ensures ticks { clock_of S.moment self.new ≡ ticked (clock_of S.moment self.old) result }
        ensures later { S.moment self.old.store ≤ S.moment self.new.store }
        ensures answered { (result ≡ WriteAnswer.Failed) ↔ (written ≡ StoreAnswer.Failed) }
        ensures faults { (S.read_faults self.new.store ≡ S.read_faults self.old.store)
            × (S.write_faults self.new.store ≡ S.write_faults self.old.store) }
    {
        match written {
            StoreAnswer::Done => {
                self.store.mark();
                WriteAnswer::Done
            }
            StoreAnswer::Failed => WriteAnswer::Failed,
        }
    }
}

impl<S: Store> Nand for DiskNand<S> {
    ghost use Rattle.std.specs.Prelude.{◌≡◌, ◌⊎◌, ◌+◌, ◌*◌, ◌<◌, ◌≤◌, ℕ, length, IsTrue};
    ghost use Rattle.nl_field.specs.Page.{Image, page_at, erased, written};
    ghost use Rattle.nl_field.specs.Numbers.{is_legal};
    ghost use Rattle.nl_nand.specs.Nand.{IsBlank, FaultsCounted, ReadsMediumPage, MediumOnlyRead, CanProgram, OperationLeaves, CrashLeaves, OperationCounted, block_start, block_end};
    ghost use Rattle.nl_nand.specs.RecordLaws as laws;
    ghost use Rattle.nl_store.specs.Store.{KillLeaves, StoreOnlyRead};
    ghost use Rattle.nl_imgfile.specs.Layout.{position};
    ghost use Rattle.nl_imgfile.specs.PageRecord.{erased_record};
    ghost use Rattle.nl_imgfile.specs.DiskImage.{record_at, AllErased, StoreIsFormed};
    ghost use Rattle.nl_imgfile.specs.DiskMedium.{geometry_of, clock_of, read_faults_of, write_faults_of, contents_of, left_of, IsHeaded};
    ghost use Rattle.nl_imgfile.specs.DiskLaws as disk;

    ghost tells = { IsTrue S.tells };

    ghost geometry = { geometry_of };

    ghost contents = { contents_of S.tells S.bytes };

    ghost clock = { clock_of S.moment };

    ghost read_faults = { read_faults_of S.read_faults };

    ghost write_faults = { write_faults_of S.write_faults };

    ghost left = { left_of S.tells S.moment S.left };

    ghost legal = { λ s. laws.legal (geometry_of s) s.legal };

    ghost now_left = { λ s. disk.now_left S.tells S.bytes S.moment S.left s (S.now_left s.store) };

    ghost no_later = { λ s m c l. disk.no_later S.tells S.moment S.left s m c (λ b. S.no_later s.store m b) l };

    ghost contents_fit = { λ s t. disk.contents_fit S.tells S.bytes s t };

    ghost left_fits = { λ s m c t l. disk.left_fits S.tells S.moment S.left s m c t l };

    fn geometry(&self) -> Geometry {
        self.geometry
    }

    fn clock(&self) -> u64 {
        self.store.moment()
    }

    fn read_faults(&self) -> u64 {
        self.store.read_faults()
    }

    fn write_faults(&self) -> u64 {
        self.store.write_faults()
    }

    /// Forms the store anew. Whatever it held is gone once this has begun. It takes no memory, and after a failure the medium
    /// has its old geometry. A kill within it leaves the bytes that there were, or such as have no page but erased ones.
    fn form(&mut self, blocks: u32, pages: u32) -> FormAnswer
        requires { IsTrue (is_legal blocks pages) }
        ensures done { result ≡ FormAnswer.Done → geometry_of self.new ≡ record { blocks = blocks; pages = pages } }
        ensures erased { IsTrue S.tells → result ≡ FormAnswer.Done → IsBlank (contents_of S.tells S.bytes self.new) }
        ensures begins { IsTrue S.tells → result ≡ FormAnswer.Done → (m : ℕ) (c : Image) → left_of S.tells S.moment S.left self.new m c
            → (m ≡ clock_of S.moment self.new) × (c ≡ contents_of S.tells S.bytes self.new) }
        ensures failed { result ≡ FormAnswer.Failed → geometry_of self.new ≡ geometry_of self.old }
        ensures failed_left { IsTrue S.tells → result ≡ FormAnswer.Failed → (m : ℕ) (c : Image)
            → left_of S.tells S.moment S.left self.new m c → left_of S.tells S.moment S.left self.old m c ⊎ IsBlank c }
        ensures never_memory { result ≡ FormAnswer.Memory → ⊥ }
        ensures clock { clock_of S.moment self.new ≡ clock_of S.moment self.old }
        ensures read_faults { read_faults_of S.read_faults self.new ≡ read_faults_of S.read_faults self.old }
        ensures write_faults { FaultsCounted (write_faults_of S.write_faults self.old) (write_faults_of S.write_faults self.new)
            (result ≡ FormAnswer.Failed) }
        ensures headed { IsTrue S.tells → result ≡ FormAnswer.Done → IsHeaded S.left self.new }
        ensures formed { IsTrue S.tells → result ≡ FormAnswer.Done
            → StoreIsFormed (record { blocks = blocks; pages = pages }) (S.bytes self.new.store) }
        ensures cut { IsTrue S.tells → result ≡ FormAnswer.Failed → KillLeaves S.moment S.left AllErased self.old.store self.new.store }
    {
        let geometry = Geometry { blocks, pages };
        match form_store(&mut self.store, &geometry) {
            StoreAnswer::Done => {
                self.store.begin();
                self.geometry = geometry;
                FormAnswer::Done
            }
            StoreAnswer::Failed => FormAnswer::Failed,
        }
    }

    /// Reads the page's record. It fails where the store failed, or ends before the record does.
    fn read(&mut self, page: u32, buf: &mut PageBuf) -> ReadAnswer
        requires { page < (geometry_of self.old).blocks * (geometry_of self.old).pages }
        ensures answer { IsTrue S.tells → ReadsMediumPage (page_at (contents_of S.tells S.bytes self.old) page) buf.new result }
        ensures only_reads { MediumOnlyRead geometry_of (contents_of S.tells S.bytes) (clock_of S.moment)
            (write_faults_of S.write_faults) (left_of S.tells S.moment S.left) self.old self.new }
        ensures read_faults { FaultsCounted (read_faults_of S.read_faults self.old) (read_faults_of S.read_faults self.new)
            (result ≡ ReadAnswer.Failed) }
        ensures headed { IsHeaded S.left self.old → IsHeaded S.left self.new }
        ensures fetched { StoreOnlyRead S.bytes S.moment S.left self.old.store self.new.store }
    {
        match self.buffer.fetch_from(&mut self.store, position_of(page)) {
            FetchAnswer::Done => self.buffer.page_into(buf),
            FetchAnswer::Short => {
                self.store.miss(position_of(page), RECORD as u64);
                ReadAnswer::Failed
            }
            FetchAnswer::Failed => ReadAnswer::Failed,
        }
    }

    /// Writes the page's record. A kill within it may have left what there was before, and what there is after.
    fn program(&mut self, page: u32, from: &PageBuf) -> WriteAnswer
        requires within { page < (geometry_of self.old).blocks * (geometry_of self.old).pages }
        requires erased { IsTrue S.tells → CanProgram (contents_of S.tells S.bytes self.old) page }
        ensures effect { IsTrue S.tells → OperationLeaves page (page + 1) (written from.now)
            (contents_of S.tells S.bytes self.old) result (contents_of S.tells S.bytes self.new) }
        ensures crash { CrashLeaves (clock_of S.moment) (contents_of S.tells S.bytes) (left_of S.tells S.moment S.left)
            page (page + 1) (written from.now) self.old self.new }
        ensures counted { OperationCounted geometry_of (clock_of S.moment) (read_faults_of S.read_faults) (write_faults_of S.write_faults)
            self.old self.new result }
        ensures before { IsTrue S.tells
            → left_of S.tells S.moment S.left self.new (clock_of S.moment self.old) (contents_of S.tells S.bytes self.old) }
        ensures after { IsTrue S.tells
            → left_of S.tells S.moment S.left self.new (clock_of S.moment self.old) (contents_of S.tells S.bytes self.new) }
        ensures headed { IsTrue S.tells → IsHeaded S.left self.old → IsHeaded S.left self.new }
    {
        self.buffer.set_written(from);
        let written = write_page(&mut self.store, position_of(page), &self.buffer, page, from);
        self.counted(written)
    }

    /// Writes the record of each page of the block, which is zeros. A kill within it may have left what there was before, and what
    /// there is after.
    fn erase(&mut self, block: u32) -> WriteAnswer
        requires { block < (geometry_of self.old).blocks }
        ensures effect { IsTrue S.tells → OperationLeaves (block_start (geometry_of self.old) block)
            (block_end (geometry_of self.old) block) erased
            (contents_of S.tells S.bytes self.old) result (contents_of S.tells S.bytes self.new) }
        ensures crash { CrashLeaves (clock_of S.moment) (contents_of S.tells S.bytes) (left_of S.tells S.moment S.left)
            (block_start (geometry_of self.old) block) (block_end (geometry_of self.old) block) erased self.old self.new }
        ensures counted { OperationCounted geometry_of (clock_of S.moment) (read_faults_of S.read_faults) (write_faults_of S.write_faults)
            self.old self.new result }
        ensures before { IsTrue S.tells
            → left_of S.tells S.moment S.left self.new (clock_of S.moment self.old) (contents_of S.tells S.bytes self.old) }
        ensures after { IsTrue S.tells
            → left_of S.tells S.moment S.left self.new (clock_of S.moment self.old) (contents_of S.tells S.bytes self.new) }
        ensures headed { IsTrue S.tells → IsHeaded S.left self.old → IsHeaded S.left self.new }
        ensures zeros { IsTrue S.tells → result ≡ WriteAnswer.Done
            → (p : ℕ) → block_start (geometry_of self.old) block ≤ p → p < block_end (geometry_of self.old) block
            → record_at (S.bytes self.new.store) p ≡ erased_record }
    {
        let pages = self.geometry.pages;
        let written = erase_pages(&mut self.store, &mut self.buffer, block * pages, pages);
        self.counted(written)
    }
}
