// In which order the lines of a script may be answered, and which numbers may be told.
ghost use Rattle.std.specs.Prelude.{◌≡◌, ◌==◌, ◌<◌, ◌≤◌, ◌&&◌, ◌↔◌, IsTrue, IfSome, length, nat_lt};
ghost use Rattle.std.specs.List.{list_any};
ghost use Rattle.nl_tree.specs.Causes as causes;
ghost use Rattle.nl_sim.specs.Rows.{comes_before};

use nl_field::Memory;
use nl_tree::{Call, Lines};
use std::alloc::Global;

/// A line of a script: its number, its round, its worker, and the place of its answer, 0 where it has none yet.
#[derive(Clone, Copy)]
pub(crate) struct Row {
    pub(crate) line: u32,
    pub(crate) round: u32,
    pub(crate) worker: u8,
    pub(crate) place: u64,
}

/// The lines of a script, of which none is answered.
pub(crate) fn rows_of(alloc: Global, lines: &Lines) -> Result<Vec<Row>, Memory> {
    let mut rows = Vec::new(alloc);
    for line in lines.as_slice() {
        rows.push(Row {
            line: line.line,
            round: line.round,
            worker: line.worker,
            place: 0,
        })?;
    }
    Ok(rows)
}

/// Whether a line has to be answered before another: it is of an earlier round, or an earlier line of the same worker in the same round.
pub(crate) fn precedes(earlier: &Row, row: &Row) -> bool
    ensures { result ≡ comes_before earlier.now row.now }
{
    earlier.round < row.round
        || earlier.round == row.round && earlier.worker == row.worker && earlier.line < row.line
}

/// Whether some line that has to be answered before this one is not answered yet.
pub(crate) fn waits(rows: &[Row], row: &Row) -> bool
    ensures { result ≡ list_any (λ r. comes_before r row.now && (r.place == 0)) rows.now }
{
    rows.iter()
        .any(|other| precedes(other, row) && other.place == 0)
}

/// Whether so many calls leave out some line that was answered, and had to be before this one.
pub(crate) fn leaves_out(rows: &[Row], row: &Row, upto: u64) -> bool
    ensures { result ≡ list_any (λ r. comes_before r row.now && nat_lt upto r.place) rows.now }
{
    rows.iter()
        .any(|other| precedes(other, row) && upto < other.place)
}

/// The position of the line of a number.
pub(crate) fn position_of(lines: &Lines, number: u32) -> Option<u32>
    ensures { IfSome result (λ at. at < length lines.now) }
{
    for at in 0..lines.len() {
        if lines.get(at).line == number {
            return Some(at);
        }
    }
    None
}

/// Whether a sync at this place may tell so many calls: no fewer than those at the opening, and none at or behind its place.
pub(crate) fn is_within(opened: u64, upto: u64, place: u64) -> bool
    ensures { IsTrue result ↔ ((opened ≤ upto) × (upto < place)) }
{
    opened <= upto && upto < place
}

/// Whether a fault reply may tell this number, where so many calls of the medium had failed before the run and behind it.
pub(crate) fn is_since(before: u64, number: u64, after: u64) -> bool
    ensures { IsTrue result ↔ ((before < number) × (number ≤ after)) }
{
    before < number && number <= after
}

/// Whether a medium may be left with so many calls, where so many are durable and so many were made.
pub(crate) fn may_be_left(durable: u64, count: u64, made: u64) -> bool
    ensures { IsTrue result ↔ ((durable ≤ count) × (count ≤ made)) }
{
    durable <= count && count <= made
}

/// Whether a call is one of those that a read-only volume refuses: all but those that only look.
pub(crate) fn is_changing(call: &Call) -> bool
    ensures { result ≡ causes.is_changing call.now }
{
    match call {
        Call::Read(_, _, _) | Call::Stat(_) | Call::List(_) => false,
        _ => true,
    }
}
