//! A medium in memory that tells nothing of what its pages hold. Some of its reads give the record of another page.
ghost use Rattle.std.specs.Prelude.{◌≡◌, ◌≢◌, ◌≤◌, IsTrue};
ghost use Rattle.nl_nand.specs.Record.{is_geometry};

use nl_field::{Memory, PageBuf};
use nl_nand::{FormAnswer, Geometry, Nand, ReadAnswer, WriteAnswer};
use std::alloc::Global;

/// A page: what was written to it, where something was since its last erase.
#[derive(Drop)]
struct Cell {
    record: PageBuf,
    written: bool,
}

/// Which reads give the record of another page.
#[derive(Clone, Copy, Debug, PartialEq, Eq)]
pub struct Lie {
    /// How many reads come before them.
    pub reads: u64,
    /// How many programs and erases come before them.
    pub writes: u64,
    /// How many of them there are at most.
    pub left: u32,
    /// They are of pages from this one on.
    pub from: u32,
    /// They are of pages below this one.
    pub below: u32,
}

/// A medium of which no clause says what its pages hold. Its calls never fail.
#[derive(Drop)]
pub struct Untold {
    alloc: Global,
    cells: Vec<Cell>,
    geometry: Geometry,
    clock: u64,
    reads: u64,
    lie: Lie,
    ghost legal: { IsTrue (is_geometry geometry) },
}

fn blank_cells(alloc: Global, blocks: u32, pages: u32) -> Result<Vec<Cell>, Memory> {
    let mut cells = Vec::new(alloc);
    for _ in 0..blocks {
        for _ in 0..pages {
            cells.push(Cell {
                record: PageBuf::new(alloc)?,
                written: false,
            })?;
        }
    }
    Ok(cells)
}

fn write_cell(cells: &mut Vec<Cell>, page: u32, from: &PageBuf) {
    if let Some(cell) = cells.get_mut(page as usize) {
        cell.record.copy_from(from);
        cell.written = true;
    }
}

fn erase_cells(cells: &mut Vec<Cell>, first: u32, below: u32) {
    for page in first..below {
        if let Some(cell) = cells.get_mut(page as usize) {
            cell.written = false;
        }
    }
}

fn is_written(cells: &Vec<Cell>, page: u32) -> bool {
    match cells.get(page as usize) {
        Some(cell) => cell.written,
        None => false,
    }
}

// The next page behind this one that is written, and this one where there is none.
fn next_written(cells: &Vec<Cell>, page: u32, below: u32) -> u32 {
    for other in page..below {
        if other != page && is_written(cells, other) {
            return other;
        }
    }
    page
}

impl Untold {
    /// A medium that was never formed, all of whose reads give the record of their page.
    pub fn new(alloc: Global) -> Untold {
        Untold {
            alloc,
            cells: Vec::new(alloc),
            geometry: Geometry {
                blocks: 0,
                pages: 0,
            },
            clock: 0,
            reads: 0,
            lie: Lie {
                reads: 0,
                writes: 0,
                left: 0,
                from: 0,
                below: 0,
            },
        }
    }

    /// From now on these reads give the record of another page.
    pub fn lie(&mut self, lie: Lie) {
        self.lie = Lie {
            reads: self.reads.saturating_add(lie.reads),
            writes: self.clock.saturating_add(lie.writes),
            left: lie.left,
            from: lie.from,
            below: lie.below,
        };
    }

    /// How many more reads may give the record of another page.
    pub fn left(&self) -> u32 {
        self.lie.left
    }

    // Whether the next read of this page gives the record of another one.
    fn is_due(&self, page: u32) -> bool {
        let lie = self.lie;
        0 < lie.left
            && lie.reads <= self.reads
            && lie.writes <= self.clock
            && lie.from <= page
            && page < lie.below
    }

    // What a read shows of a page.
    fn show(&self, page: u32, buf: &mut PageBuf) -> ReadAnswer
        ensures { result ≢ ReadAnswer.Failed }
    {
        match self.cells.get(page as usize) {
            Some(cell) => {
                if cell.written {
                    buf.copy_from(&cell.record);
                    ReadAnswer::Written
                } else {
                    ReadAnswer::Erased
                }
            }
            None => ReadAnswer::Erased,
        }
    }
}

impl Untold {
    ghost use Rattle.std.specs.Prelude.{◌≡◌, ◌≤◌};
    ghost use Rattle.nl_nand.specs.Nand.{OperationCounted};
    ghost use Rattle.nl_test_top_faults.specs.Untold.{geometry_of, clock_of, faults_of};

    // Counts a program or an erase.
    fn counted(&mut self) -> WriteAnswer
        ensures counted { OperationCounted geometry_of clock_of faults_of faults_of self.old self.new result }
        ensures never_falls { clock_of self.old ≤ clock_of self.new }
    {
        self.clock = self.clock.saturating_add(1);
        WriteAnswer::Done
    }
}

impl Nand for Untold {
    ghost use Rattle.std.specs.Prelude.{◌≡◌, ◌⊎◌, ◌+◌, ◌*◌, ◌<◌, ◌≤◌, IsTrue, refl};
    ghost use Rattle.nl_field.specs.Page.{erased, written};
    ghost use Rattle.nl_field.specs.Numbers.{is_legal};
    ghost use Rattle.nl_nand.specs.Nand.{FaultsCounted, MediumOnlyRead, OperationCounted, CrashLeaves, Unchanged, block_start, block_end};
    ghost use Rattle.nl_nand.specs.RecordLaws as laws;
    ghost use Rattle.nl_test_top_faults.specs.Untold.{geometry_of, clock_of, faults_of, contents_of, crash_states, now_left as now_may_be_left};

    ghost tells = { ⊥ };

    ghost geometry = { geometry_of };

    ghost contents = { contents_of };

    ghost clock = { clock_of };

    ghost read_faults = { faults_of };

    ghost write_faults = { faults_of };

    ghost left = { crash_states };

    ghost legal = { λ s. laws.legal (geometry_of s) s.legal };

    ghost now_left = { now_may_be_left };

    ghost no_later = { λ s m c l. l.0 };

    ghost contents_fit = { λ s t. absurd t };

    ghost left_fits = { λ s m c t l. absurd t };

    fn geometry(&self) -> Geometry {
        self.geometry
    }

    fn clock(&self) -> u64 {
        self.clock
    }

    fn read_faults(&self) -> u64 {
        0
    }

    fn write_faults(&self) -> u64 {
        0
    }

    fn form(&mut self, blocks: u32, pages: u32) -> FormAnswer
        requires { IsTrue (is_legal blocks pages) }
        ensures done { result ≡ FormAnswer.Done → geometry_of self.new ≡ record { blocks = blocks; pages = pages } }
        ensures never_failed { result ≡ FormAnswer.Failed → ⊥ }
        ensures memory { result ≡ FormAnswer.Memory → Unchanged geometry_of contents_of crash_states self.old self.new }
        ensures clock { clock_of self.new ≡ clock_of self.old }
        ensures read_faults { faults_of self.new ≡ faults_of self.old }
        ensures write_faults { FaultsCounted (faults_of self.old) (faults_of self.new) (result ≡ FormAnswer.Failed) }
    {
        let Ok(cells) = blank_cells(self.alloc, blocks, pages) else {
            return FormAnswer::Memory;
        };
        self.cells = cells;
        self.geometry = Geometry { blocks, pages };
        FormAnswer::Done
    }

    fn read(&mut self, page: u32, buf: &mut PageBuf) -> ReadAnswer
        requires { page < (geometry_of self.old).blocks * (geometry_of self.old).pages }
        ensures only_reads { MediumOnlyRead geometry_of contents_of clock_of faults_of crash_states self.old self.new }
        ensures read_faults { FaultsCounted (faults_of self.old) (faults_of self.new) (result ≡ ReadAnswer.Failed) }
    {
        let mut shown = page;
        if self.is_due(page) {
            self.lie.left = self.lie.left.saturating_sub(1);
            shown = next_written(&self.cells, page, self.lie.below);
        }
        self.reads = self.reads.saturating_add(1);
        self.show(shown, buf)
    }

    fn program(&mut self, page: u32, from: &PageBuf) -> WriteAnswer
        requires { page < (geometry_of self.old).blocks * (geometry_of self.old).pages }
        ensures crash { CrashLeaves clock_of contents_of crash_states page (page + 1) (written from.now) self.old self.new }
        ensures counted { OperationCounted geometry_of clock_of faults_of faults_of self.old self.new result }
    {
        write_cell(&mut self.cells, page, from);
        self.counted()
    }

    fn erase(&mut self, block: u32) -> WriteAnswer
        requires { block < (geometry_of self.old).blocks }
        ensures crash { CrashLeaves clock_of contents_of crash_states (block_start (geometry_of self.old) block)
            (block_end (geometry_of self.old) block) erased self.old self.new }
        ensures counted { OperationCounted geometry_of clock_of faults_of faults_of self.old self.new result }
    {
        let pages = self.geometry.pages;
        let first = block.saturating_mul(pages);
        erase_cells(&mut self.cells, first, first.saturating_add(pages));
        self.counted()
    }
}
