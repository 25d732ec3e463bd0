//! The record of the operations of a medium in memory.
ghost use Rattle.std.specs.Prelude.{◌≡◌, ◌+◌, ◌≤◌, ◌<◌, ◌∷◌, [], ◌++◌, replicate, All, vec_len, vec_capacity, IsTrue, IfOk, OnOk, OnErr};
ghost use Rattle.nl_field.specs.Page.{is_page, written};
ghost use Rattle.nl_nand.specs.declared.cell.Cell.TheVariants as cell;

use crate::cell::{Cell, erased_cells};
use nl_field::{Memory, PageBuf};
use std::alloc::Global;

/// A program or an erase that was begun, and changed no page.
#[derive(Drop)]
pub enum Attempt {
    Program { page: usize, value: Box<PageBuf> },
    Erase { low: usize, count: usize },
}

/// A program or an erase that was begun, and the moment when it was.
#[derive(Drop)]
pub enum Entry {
    /// A finished program. The page was erased before.
    Programmed {
        page: usize,
        moment: u64,
    },
    /// A finished erase, with the cells that stood there before.
    Erased {
        low: usize,
        cells: Vec<Cell>,
        moment: u64,
    },
    Failed {
        attempt: Attempt,
        moment: u64,
    },
}

/// The record of a medium, oldest entry first, from which each earlier image can be told. With it stands the room for
/// further operations: blank pages for programs, and rows of erased cells for erases.
#[derive(Drop)]
pub struct Record {
    pages: usize,
    entries: Vec<Entry>,
    blanks: Vec<Box<PageBuf>>,
    rows: Vec<Vec<Cell>>,
    ghost rows_are_erased: { All (λ r. r.items ≡ replicate pages cell.Erased) rows.items },
}

impl Record {
    ghost use Rattle.nl_nand.specs.Room.{room_in};

    /// An empty record of a medium with so many pages in a block. It takes no memory.
    pub fn new(alloc: Global, pages: usize) -> Record
        ensures pages { result.pages ≡ pages }
        ensures entries { result.entries.items ≡ [] }
        ensures room { room_in result ≡ 0 }
    {
        Record {
            pages,
            entries: Vec::new(alloc),
            blanks: Vec::new(alloc),
            rows: Vec::new(alloc),
        }
    }

    /// Takes room for so many operations.
    pub fn reserve(&mut self, alloc: Global, operations: usize) -> Result<(), Memory>
        ensures pages { self.new.pages ≡ self.old.pages }
        ensures entries { self.new.entries.items ≡ self.old.entries.items }
        ensures more { room_in self.old ≤ room_in self.new }
        ensures room { OnOk result (operations ≤ room_in self.new) }
    {
        self.entries.reserve(operations)?;
        add_blanks(alloc, &mut self.blanks, operations)?;
        add_rows(alloc, &mut self.rows, self.pages, operations)
    }

    /// Room for an entry, and a copy of a page out of the room.
    pub fn page_for(&mut self, alloc: Global, from: &PageBuf) -> Result<Box<PageBuf>, Memory>
        ensures page { IfOk result (λ b. b.value ≡ from.now) }
        ensures whole { IsTrue (is_page (written from.now)) }
        ensures pages { self.new.pages ≡ self.old.pages }
        ensures entries { self.new.entries.items ≡ self.old.entries.items }
        ensures len { vec_len self.new.entries ≡ vec_len self.old.entries }
        ensures capacity { vec_capacity self.old.entries ≤ vec_capacity self.new.entries }
        ensures ready { OnOk result (vec_len self.new.entries < vec_capacity self.new.entries) }
        ensures blanks { vec_len self.old.blanks ≤ vec_len self.new.blanks + 1 }
        ensures rows { vec_len self.new.rows ≡ vec_len self.old.rows }
        ensures full { OnErr result (room_in self.old ≡ 0) }
    {
        page_is_whole(from);
        self.entries.reserve(1)?;
        let mut page = match self.blanks.pop() {
            Some(page) => page,
            None => Box::new(alloc, PageBuf::new(alloc)?)?,
        };
        page.copy_from(from);
        Ok(page)
    }

    /// Room for an entry, and a row of erased cells out of the room.
    pub fn row(&mut self, alloc: Global) -> Result<Vec<Cell>, Memory>
        ensures row { IfOk result (λ r. r.items ≡ replicate self.old.pages cell.Erased) }
        ensures pages { self.new.pages ≡ self.old.pages }
        ensures entries { self.new.entries.items ≡ self.old.entries.items }
        ensures len { vec_len self.new.entries ≡ vec_len self.old.entries }
        ensures capacity { vec_capacity self.old.entries ≤ vec_capacity self.new.entries }
        ensures ready { OnOk result (vec_len self.new.entries < vec_capacity self.new.entries) }
        ensures blanks { vec_len self.new.blanks ≡ vec_len self.old.blanks }
        ensures rows { vec_len self.old.rows ≤ vec_len self.new.rows + 1 }
        ensures full { OnErr result (room_in self.old ≡ 0) }
    {
        self.entries.reserve(1)?;
        match self.rows.pop() {
            Some(row) => Ok(row),
            None => erased_cells(alloc, self.pages),
        }
    }

    /// Notes an operation.
    pub fn push(&mut self, entry: Entry)
        requires { vec_len self.old.entries < vec_capacity self.old.entries }
        ensures pages { self.new.pages ≡ self.old.pages }
        ensures entries { self.new.entries.items ≡ self.old.entries.items ++ entry ∷ [] }
        ensures len { vec_len self.new.entries ≡ vec_len self.old.entries + 1 }
        ensures capacity { vec_capacity self.old.entries ≤ vec_capacity self.new.entries }
        ensures blanks { vec_len self.new.blanks ≡ vec_len self.old.blanks }
        ensures rows { vec_len self.new.rows ≡ vec_len self.old.rows }
    {
        let _ = self.entries.push(entry);
    }
}

/// A page has the bytes of one. It does nothing.
fn page_is_whole(page: &PageBuf)
    ensures { IsTrue (is_page (written page.now)) }
{
    let _ = page.main();
    let spare: &[u8] = page.spare();
    let _ = spare.len();
}

fn add_blanks(alloc: Global, blanks: &mut Vec<Box<PageBuf>>, count: usize) -> Result<(), Memory>
    ensures more { vec_len blanks.old ≤ vec_len blanks.new }
    ensures count { OnOk result (count ≤ vec_len blanks.new) }
{
    for _ in blanks.len()..count {
        blanks.push(Box::new(alloc, PageBuf::new(alloc)?)?)?;
    }
    Ok(())
}

fn add_rows(
    alloc: Global,
    rows: &mut Vec<Vec<Cell>>,
    pages: usize,
    count: usize,
) -> Result<(), Memory>
    requires { All (λ r. r.items ≡ replicate pages cell.Erased) rows.old.items }
    ensures erased { All (λ r. r.items ≡ replicate pages cell.Erased) rows.new.items }
    ensures more { vec_len rows.old ≤ vec_len rows.new }
    ensures count { OnOk result (count ≤ vec_len rows.new) }
{
    for _ in rows.len()..count {
        rows.push(erased_cells(alloc, pages)?)?;
    }
    Ok(())
}
