//! A flash medium in memory, for tests: it fails and stops as it is told to.
ghost use Rattle.std.specs.Prelude.{◌≡◌, ◌≤◌, ◌*◌, IsTrue};
ghost use Rattle.nl_nand.specs.Record.{image_of, logged, is_geometry, is_history, end_of};

use crate::answers::{FormAnswer, ReadAnswer, WriteAnswer};
use crate::cell::{Cell, erased_cells, exchange};
use crate::fate::{Fate, fate_of};
use crate::geometry::Geometry;
use crate::interrupted::Interrupted;
use crate::nand::Nand;
use crate::record::{Attempt, Entry, Record};
use crate::restart::left_cells;
use crate::stop::Stop;
use nl_field::{FailList, Memory, PageBuf};
use std::alloc::Global;

/// A flash medium in memory. It keeps a record of its programs and erases, fails where its lists say so, and stops within one
/// operation. From the stop on every call fails. More than the trait asks, a stop within an operation that finished may have left all
/// that one cut short leaves (`reached`), and a forming that failed has changed nothing but the count (`failed`).
#[derive(Drop)]
pub struct MemNand {
    alloc: Global,
    geometry: Geometry,
    cells: Vec<Cell>,
    log: Record,
    reads: FailList,
    writes: FailList,
    stop: Option<Stop>,
    stopped: Option<Interrupted>,
    read_calls: u64,
    operations: u64,
    clock: u64,
    read_faults: u64,
    write_faults: u64,
    ghost legal: { IsTrue (is_geometry geometry) },
    ghost same_pages: { log.pages ≡ geometry.pages },
    ghost ends_within: { end_of stopped ≤ geometry.blocks * geometry.pages },
    ghost history: { IsTrue (is_history (logged stopped clock log.entries.items) (image_of geometry cells.items) clock) },
}

impl MemNand {
    ghost use Rattle.std.specs.Prelude.{◌≡◌, ℕ, ◌≤◌, [], OnOk, MatchOption};
    ghost use Rattle.nl_nand.specs.Stop.{IsCrashImage};
    ghost use Rattle.nl_field.specs.Page.{Image};
    ghost use Rattle.nl_nand.specs.Plan.{fresh};
    ghost use Rattle.nl_nand.specs.Memory.{geometry_of, contents_of, clock_of, read_faults_of, write_faults_of, memory_crash_states, plan_of, room_of, SameButRoom};

    /// A medium that was never formed.
    pub fn new(alloc: Global, reads: FailList, writes: FailList, stop: Option<Stop>) -> MemNand
        ensures geometry { geometry_of result ≡ record { blocks = 0; pages = 0 } }
        ensures left { (m : ℕ) (c : Image) → memory_crash_states result m c → (m ≡ 0) × (c ≡ contents_of result) }
        ensures clock { clock_of result ≡ 0 }
        ensures read_faults { read_faults_of result ≡ 0 }
        ensures write_faults { write_faults_of result ≡ 0 }
        ensures plan { plan_of result ≡ fresh reads writes stop }
        ensures room { room_of result ≡ 0 }
    {
        MemNand {
            alloc,
            geometry: Geometry {
                blocks: 0,
                pages: 0,
            },
            cells: Vec::new(alloc),
            log: Record::new(alloc, 0),
            reads,
            writes,
            stop,
            stopped: None,
            read_calls: 0,
            operations: 0,
            clock: 0,
            read_faults: 0,
            write_faults: 0,
        }
    }

    /// The same medium after a crash: with the image that the stop left, or with its contents where no stop came. No call of it
    /// fails but by the next stop, whose operation is counted from 1 anew. Clock and counts begin at 0, and the record is
    /// empty, with no room.
    pub fn restart(self, stop: Option<Stop>) -> MemNand
        ensures geometry { geometry_of result ≡ geometry_of self }
        ensures contents { MatchOption (plan_of self).stopped (contents_of result ≡ contents_of self)
            (λ s. IsCrashImage s (contents_of self) (contents_of result)) }
        ensures was_left { memory_crash_states self (clock_of self) (contents_of result) }
        ensures begins { (m : ℕ) (c : Image) → memory_crash_states result m c → (m ≡ 0) × (c ≡ contents_of result) }
        ensures clock { clock_of result ≡ 0 }
        ensures read_faults { read_faults_of result ≡ 0 }
        ensures write_faults { write_faults_of result ≡ 0 }
        ensures plan { plan_of result ≡ fresh [] [] stop }
        ensures room { room_of result ≡ 0 }
    {
        let alloc = self.alloc;
        let MemNand {
            alloc: _,
            geometry,
            cells,
            log: _,
            reads: _,
            writes: _,
            stop: _,
            stopped,
            read_calls: _,
            operations: _,
            clock: _,
            read_faults: _,
            write_faults: _,
        } = self;
        let cells = left_cells(cells, stopped);
        MemNand {
            alloc,
            geometry,
            cells,
            log: Record::new(alloc, geometry.pages as usize),
            reads: FailList::new(alloc),
            writes: FailList::new(alloc),
            stop,
            stopped: None,
            read_calls: 0,
            operations: 0,
            clock: 0,
            read_faults: 0,
            write_faults: 0,
        }
    }

    /// Takes the room of the record for that many programs and erases, with their pages.
    pub fn reserve(&mut self, operations: u32) -> Result<(), Memory>
        ensures same { SameButRoom self.old self.new }
        ensures more { room_of self.old ≤ room_of self.new }
        ensures room { OnOk result (operations ≤ room_of self.new) }
    {
        self.log.reserve(self.alloc, operations as usize)
    }
}

impl MemNand {
    ghost use Rattle.std.specs.Prelude.{◌≡◌, ◌+◌, ◌*◌, ◌<◌, ◌≤◌, ⊤};
    ghost use Rattle.nl_field.specs.Page.{erased, written};
    ghost use Rattle.nl_nand.specs.Nand.{CanProgram};
    ghost use Rattle.nl_nand.specs.Memory.{contents_of, Operated};

    fn run_program(&mut self, page: usize, from: &PageBuf) -> WriteAnswer
        requires within { page < self.old.geometry.blocks * self.old.geometry.pages }
        requires erased { CanProgram (contents_of self.old) page }
        ensures { Operated page (page + 1) (written from.now) self.old self.new result }
    {
        if self.stopped.is_some() {
            self.write_faults = self.write_faults.saturating_add(1);
            return WriteAnswer::Failed;
        }
        let value = match self.log.page_for(self.alloc, from) {
            Ok(value) => value,
            Err(_) => {
                self.write_faults = self.write_faults.saturating_add(1);
                return WriteAnswer::Failed;
            }
        };
        self.operations = self.operations.saturating_add(1);
        let moment = self.clock;
        match fate_of(self.stop, &self.writes, self.operations) {
            Fate::Stops(cut) => {
                let attempt = Attempt::Program { page, value };
                self.stopped = Some(Interrupted { attempt, cut });
                self.write_faults = self.write_faults.saturating_add(1);
                WriteAnswer::Failed
            }
            Fate::Fails => {
                let attempt = Attempt::Program { page, value };
                self.log.push(Entry::Failed { attempt, moment });
                self.write_faults = self.write_faults.saturating_add(1);
                WriteAnswer::Failed
            }
            Fate::Finishes => {
                self.cells[page] = Cell::Written(value);
                self.log.push(Entry::Programmed { page, moment });
                self.clock = self.clock.saturating_add(1);
                WriteAnswer::Done
            }
        }
    }

    fn run_erase(&mut self, low: usize) -> WriteAnswer
        requires { low + self.old.geometry.pages ≤ self.old.geometry.blocks * self.old.geometry.pages }
        ensures { Operated low (low + self.old.geometry.pages) erased self.old self.new result }
    {
        if self.stopped.is_some() {
            self.write_faults = self.write_faults.saturating_add(1);
            return WriteAnswer::Failed;
        }
        let mut cells = match self.log.row(self.alloc) {
            Ok(cells) => cells,
            Err(_) => {
                self.write_faults = self.write_faults.saturating_add(1);
                return WriteAnswer::Failed;
            }
        };
        self.operations = self.operations.saturating_add(1);
        let moment = self.clock;
        let count = self.geometry.pages as usize;
        match fate_of(self.stop, &self.writes, self.operations) {
            Fate::Stops(cut) => {
                let attempt = Attempt::Erase { low, count };
                self.stopped = Some(Interrupted { attempt, cut });
                self.write_faults = self.write_faults.saturating_add(1);
                WriteAnswer::Failed
            }
            Fate::Fails => {
                let attempt = Attempt::Erase { low, count };
                self.log.push(Entry::Failed { attempt, moment });
                self.write_faults = self.write_faults.saturating_add(1);
                WriteAnswer::Failed
            }
            Fate::Finishes => {
                exchange(&mut self.cells, low, &mut cells);
                self.log.push(Entry::Erased { low, cells, moment });
                self.clock = self.clock.saturating_add(1);
                WriteAnswer::Done
            }
        }
    }
}

impl Nand for MemNand {
    ghost use Rattle.std.specs.Prelude.{◌≡◌, ◌⊎◌, ◌↔◌, ◌+◌, ◌*◌, ◌<◌, ◌≤◌, ℕ, IsTrue, IsSome, refl};
    ghost use Rattle.nl_field.specs.Page.{Image, page_at, erased, written};
    ghost use Rattle.nl_field.specs.Numbers.{is_legal};
    ghost use Rattle.nl_nand.specs.Nand.{IsBlank, ReadsMediumPage, CanProgram, OperationLeaves, FaultsCounted, Unchanged, MediumOnlyRead, OperationCounted, CrashLeaves, block_start, block_end};
    ghost use Rattle.nl_nand.specs.Plan.{ReadFails, after_read};
    ghost use Rattle.nl_nand.specs.Memory.{geometry_of, contents_of, clock_of, read_faults_of, write_faults_of, memory_crash_states, log_of, plan_of, room_of, room_formed, CrashReaches, NotBegun, OperationBegun};
    ghost use Rattle.nl_nand.specs.RecordLaws as laws;

    ghost tells = { Unit {0} };

    ghost geometry = { geometry_of };

    ghost contents = { contents_of };

    ghost clock = { clock_of };

    ghost read_faults = { read_faults_of };

    ghost write_faults = { write_faults_of };

    ghost left = { memory_crash_states };

    ghost legal = { λ s. laws.legal (geometry_of s) s.legal };

    ghost now_left = { λ s. laws.now_left (log_of s) (contents_of s) (clock_of s) };

    ghost no_later = { λ s m c l. laws.not_later (log_of s) (contents_of s) (clock_of s) m c s.history l };

    ghost contents_fit = { λ s t. laws.now_fits (geometry_of s) (log_of s) (contents_of s) (clock_of s) refl refl s.history };

    ghost left_fits = { λ s m c t l. laws.all_fit (geometry_of s) (log_of s) (contents_of s) (clock_of s) m c refl refl s.history l };

    fn geometry(&self) -> Geometry {
        self.geometry
    }

    fn clock(&self) -> u64 {
        self.clock
    }

    fn read_faults(&self) -> u64 {
        self.read_faults
    }

    fn write_faults(&self) -> u64 {
        self.write_faults
    }

    /// Forms the medium anew. The record becomes empty, and the reserved room is given back. It fails exactly where the stop has
    /// come, and then nothing changes but the count.
    fn form(&mut self, blocks: u32, pages: u32) -> FormAnswer
        requires { IsTrue (is_legal blocks pages) }
        ensures done { result ≡ FormAnswer.Done → geometry_of self.new ≡ record { blocks = blocks; pages = pages } }
        ensures erased { result ≡ FormAnswer.Done → IsBlank (contents_of self.new) }
        ensures begins { result ≡ FormAnswer.Done → (m : ℕ) (c : Image) → memory_crash_states self.new m c
            → (m ≡ clock_of self.new) × (c ≡ contents_of self.new) }
        ensures failed { result ≡ FormAnswer.Failed → Unchanged geometry_of contents_of memory_crash_states self.old self.new }
        ensures memory { result ≡ FormAnswer.Memory → Unchanged geometry_of contents_of memory_crash_states self.old self.new }
        ensures clock { clock_of self.new ≡ clock_of self.old }
        ensures read_faults { read_faults_of self.new ≡ read_faults_of self.old }
        ensures write_faults { FaultsCounted (write_faults_of self.old) (write_faults_of self.new) (result ≡ FormAnswer.Failed) }
        ensures plan { plan_of self.new ≡ plan_of self.old }
        ensures room { room_of self.new ≡ room_formed result (room_of self.old) }
        ensures fails { (result ≡ FormAnswer.Failed) ↔ IsSome (plan_of self.old).stopped }
    {
        if self.stopped.is_some() {
            self.write_faults = self.write_faults.saturating_add(1);
            return FormAnswer::Failed;
        }
        match erased_cells(self.alloc, blocks as usize * pages as usize) {
            Err(_) => FormAnswer::Memory,
            Ok(cells) => {
                self.geometry = Geometry { blocks, pages };
                self.cells = cells;
                self.log = Record::new(self.alloc, pages as usize);
                FormAnswer::Done
            }
        }
    }

    /// Reads a page. It fails exactly where its number is in the list or the stop has come.
    fn read(&mut self, page: u32, buf: &mut PageBuf) -> ReadAnswer
        requires { page < (geometry_of self.old).blocks * (geometry_of self.old).pages }
        ensures answer { ReadsMediumPage (page_at (contents_of self.old) page) buf.new result }
        ensures only_reads { MediumOnlyRead geometry_of contents_of clock_of write_faults_of memory_crash_states self.old self.new }
        ensures read_faults { FaultsCounted (read_faults_of self.old) (read_faults_of self.new) (result ≡ ReadAnswer.Failed) }
        ensures plan { plan_of self.new ≡ after_read (plan_of self.old) }
        ensures fails { (result ≡ ReadAnswer.Failed) ↔ ReadFails (plan_of self.old) }
        ensures room { room_of self.new ≡ room_of self.old }
    {
        self.read_calls = self.read_calls.saturating_add(1);
        if self.stopped.is_some() || self.reads.has(self.read_calls) {
            self.read_faults = self.read_faults.saturating_add(1);
            return ReadAnswer::Failed;
        }
        match &self.cells[page as usize] {
            Cell::Erased => ReadAnswer::Erased,
            Cell::Uncorrectable => ReadAnswer::Uncorrectable,
            Cell::Written(from) => {
                buf.copy_from(from);
                ReadAnswer::Written
            }
        }
    }

    /// Programs a page. Once it is begun it fails exactly where its number is in the list or the stop comes within it.
    fn program(&mut self, page: u32, from: &PageBuf) -> WriteAnswer
        requires within { page < (geometry_of self.old).blocks * (geometry_of self.old).pages }
        requires erased { CanProgram (contents_of self.old) page }
        ensures effect { OperationLeaves page (page + 1) (written from.now) (contents_of self.old) result (contents_of self.new) }
        ensures crash { CrashLeaves clock_of contents_of memory_crash_states page (page + 1) (written from.now) self.old self.new }
        ensures reached { CrashReaches clock_of contents_of memory_crash_states page (page + 1) (written from.now) self.old self.new result }
        ensures counted { OperationCounted geometry_of clock_of read_faults_of write_faults_of self.old self.new result }
        ensures exact { NotBegun self.old self.new result ⊎ OperationBegun page (page + 1) (written from.now) self.old self.new result }
    {
        self.run_program(page as usize, from)
    }

    /// Erases a block. Once it is begun it fails exactly where its number is in the list or the stop comes within it.
    fn erase(&mut self, block: u32) -> WriteAnswer
        requires { block < (geometry_of self.old).blocks }
        ensures effect { OperationLeaves (block_start (geometry_of self.old) block) (block_end (geometry_of self.old) block) erased
            (contents_of self.old) result (contents_of self.new) }
        ensures crash { CrashLeaves clock_of contents_of memory_crash_states (block_start (geometry_of self.old) block)
            (block_end (geometry_of self.old) block) erased self.old self.new }
        ensures reached { CrashReaches clock_of contents_of memory_crash_states (block_start (geometry_of self.old) block)
            (block_end (geometry_of self.old) block) erased self.old self.new result }
        ensures counted { OperationCounted geometry_of clock_of read_faults_of write_faults_of self.old self.new result }
        ensures exact { NotBegun self.old self.new result
            ⊎ OperationBegun (block_start (geometry_of self.old) block) (block_end (geometry_of self.old) block) erased self.old self.new result }
    {
        self.run_erase(block as usize * self.geometry.pages as usize)
    }
}
