//! The cells of a medium in memory after a stop.
ghost use Rattle.std.specs.Prelude.{◌≡◌, ◌+◌, ◌<◌, ◌≤◌, length, slice_set, slice_index_or};
ghost use Rattle.nl_field.specs.Page.{erased};
ghost use Rattle.nl_nand.specs.Stop.{page_after};
ghost use Rattle.nl_nand.specs.Record.{page_of, pages_of, low_of_attempt, high_of_attempt, value_of_attempt, end_of};
ghost use Rattle.nl_nand.specs.CutCells.{CellsAreCut, AreCrashCells};

use crate::cell::Cell;
use crate::interrupted::Interrupted;
use crate::record::Attempt;
use crate::stop::{Cut, Outcome};

/// The cells that a stop leaves, or all of them where no stop came.
pub fn left_cells(mut cells: Vec<Cell>, stopped: Option<Interrupted>) -> Vec<Cell>
    requires { end_of stopped ≤ length cells.items }
    ensures { AreCrashCells stopped cells.items result.items }
{
    if let Some(stopped) = stopped {
        cut_cells(&mut cells, stopped);
    }
    cells
}

/// Leaves of the cells what the stop does.
fn cut_cells(cells: &mut Vec<Cell>, stopped: Interrupted)
    requires { high_of_attempt stopped.attempt ≤ length cells.old.items }
    ensures { CellsAreCut (low_of_attempt stopped.attempt) (high_of_attempt stopped.attempt)
        (value_of_attempt stopped.attempt) stopped.cut cells.old.items cells.new.items }
{
    let Interrupted { attempt, cut } = stopped;
    match attempt {
        Attempt::Program { page, value } => {
            give(cells, page, cut.outcome(0), Cell::Written(value));
        }
        Attempt::Erase { low, count } => give_each(cells, low, count, cut),
    }
}

/// Gives a page its outcome, where the operation would make it of this value.
fn give(cells: &mut Vec<Cell>, page: usize, outcome: Outcome, value: Cell)
    requires { page < length cells.old.items }
    ensures { pages_of cells.new.items
        ≡ slice_set (pages_of cells.old.items) page
        (page_after outcome (page_of value) (slice_index_or (pages_of cells.old.items) page erased)) }
{
    match outcome {
        Outcome::Stays => {}
        Outcome::Finished => cells[page] = value,
        Outcome::Lost => cells[page] = Cell::Uncorrectable,
    }
}

/// Gives each page of an erased range its outcome.
fn give_each(cells: &mut Vec<Cell>, low: usize, count: usize, cut: Cut)
    requires { low + count ≤ length cells.old.items }
    ensures { CellsAreCut low (low + count) erased cut cells.old.items cells.new.items }
{
    for at in 0..count {
        give(cells, low + at, cut.outcome(at), Cell::Erased);
    }
}
