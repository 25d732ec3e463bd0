//! The pages of a medium in memory.
ghost use Rattle.std.specs.Prelude.{◌≡◌, ◌+◌, ◌≤◌, ◌++◌, length, take, drop, replicate, IfOk};

use nl_field::PageBuf;
use std::alloc::{AllocError, Global};

/// One page in memory.
#[derive(Drop)]
pub enum Cell {
    Erased,
    Uncorrectable,
    Written(Box<PageBuf>),
}

/// So many erased cells.
pub fn erased_cells(alloc: Global, count: usize) -> Result<Vec<Cell>, AllocError>
    ensures { IfOk result (λ v. v.items ≡ replicate count Cell.Erased) }
{
    let mut cells = Vec::with_capacity(alloc, count)?;
    for _ in 0..count {
        cells.push(Cell::Erased)?;
    }
    Ok(cells)
}

/// Puts a row of cells in place of those from `low` on, and keeps those.
pub fn exchange(cells: &mut Vec<Cell>, low: usize, row: &mut Vec<Cell>)
    requires { low + length row.old.items ≤ length cells.old.items }
    ensures cells { cells.new.items ≡ take low cells.old.items ++ row.old.items ++ drop (low + length row.old.items) cells.old.items }
    ensures row { row.new.items ≡ take (length row.old.items) (drop low cells.old.items) }
{
    let high = low + row.len();
    cells[low..high].swap_with_slice(row);
}
