// Pages are programmed where few blocks are Free, with rounds of reclaiming that make room.
use crate::failing::OPENED;
use crate::image::Layout;
use crate::rig::{Seen, Step};
use crate::stops::{CUTS, finished};
use crate::visit::{Differs, Holds, Visit, assert_none_differs, differing, failing, sound};
use nl_field::Memory;
use nl_nand::{Cut, Stop};
use std::alloc::Global;

/// Twenty blocks of 24 live pages and 8 dead ones.
const CROWDED: Layout = [
    24, 24, 24, 24, 24, 24, 24, 24, 24, 24, 24, 24, 24, 24, 24, 24, 24, 24, 24, 24, 0, 0, 0, 0,
];

/// How many pages are programmed as it is built.
const BUILT: u64 = 647;

// One of the four Free blocks is kept for the cleaner, so 96 pages find room. The next one does after eight rounds, each of which gains
// eight pages: each has 24 copies and an erase, and all but the first begin with a transaction, the second one of addresses 0, 67 and 72,
// and the others of 0 and 72. Of the four blocks of pages that are gained then, the copies of the last round wait for the end of their old
// names, two blocks were filled, and one takes the last 32 pages.
const PROGRAMS: [(Step, Seen); 28] = [
    (Step::FreeBlocks, Seen::Number(4)),
    (Step::Program(0, 16), Seen::Did),
    (Step::Program(1, 16), Seen::Did),
    (Step::Program(2, 16), Seen::Did),
    (Step::Program(3, 16), Seen::Did),
    (Step::Program(4, 16), Seen::Did),
    (Step::Program(5, 16), Seen::Did),
    (Step::Clock, Seen::Number(BUILT + 96)),
    (Step::FreeBlocks, Seen::Number(1)),
    (Step::Program(6, 1), Seen::Did),
    (Step::Clock, Seen::Number(BUILT + 341)),
    (Step::Pairs, Seen::Number(24)),
    // The lines are filled, half of them dropped, and filled again.
    (Step::Program(6, 15), Seen::Did),
    (Step::Program(7, 16), Seen::Did),
    (Step::Program(7, 1), Seen::Nothing),
    (Step::Clock, Seen::Number(BUILT + 372)),
    (Step::FreeBlocks, Seen::Number(1)),
    (Step::Drop(0), Seen::Did),
    (Step::Drop(2), Seen::Did),
    (Step::Drop(4), Seen::Did),
    (Step::Drop(6), Seen::Did),
    (Step::Drop(6), Seen::Did),
    (Step::Program(0, 16), Seen::Did),
    (Step::Program(2, 16), Seen::Did),
    (Step::Program(4, 16), Seen::Did),
    (Step::Program(6, 16), Seen::Did),
    (Step::Round, Seen::Did),
    (Step::Stopped, Seen::Number(0)),
];

/// The volume after so many calls, with so many pages in flight.
fn with_flight(rows: &[(Step, Seen)], calls: u64, in_flight: u32) -> Visit<'_> {
    let holds = Holds { calls, in_flight };
    Visit {
        rows,
        holds: Some(holds),
    }
}

#[test]
fn room_is_made(rt: HostRuntime) {
    let alloc = rt.alloc();
    let with = with_flight(&PROGRAMS, 7, 128);
    let found = differing(alloc, &CROWDED, sound(alloc, None), with, Some(7));
    assert_none_differs(&rt, found);
}

// The page that needs rounds, after a call, where an operation of theirs fails. The volume is read-only from then on.
const WRITE_FAILS: [(Step, Seen); 10] = [
    (Step::Program(0, 16), Seen::Did),
    (Step::Program(1, 16), Seen::Did),
    (Step::Program(2, 16), Seen::Did),
    (Step::Program(3, 16), Seen::Did),
    (Step::Program(4, 16), Seen::Did),
    (Step::Program(5, 16), Seen::Did),
    (Step::Call, Seen::Did),
    (Step::Program(6, 1), Seen::Fault),
    (Step::Stopped, Seen::Number(1)),
    (Step::Program(7, 1), Seen::ReadOnly),
];

// The page that needs rounds, after a call, where a read of theirs fails. The rounds go on with the next program.
const READ_FAILS: [(Step, Seen); 10] = [
    (Step::Program(0, 16), Seen::Did),
    (Step::Program(1, 16), Seen::Did),
    (Step::Program(2, 16), Seen::Did),
    (Step::Program(3, 16), Seen::Did),
    (Step::Program(4, 16), Seen::Did),
    (Step::Program(5, 16), Seen::Did),
    (Step::Call, Seen::Did),
    (Step::Program(6, 1), Seen::Fault),
    (Step::Stopped, Seen::Number(0)),
    (Step::Program(6, 1), Seen::Did),
];

/// After how many calls the metadata is committed once so many operations have finished: the commit page of the first transaction is
/// operation 126.
fn committed_after(operations: u64) -> u64 {
    if operations < 126 { 7 } else { 8 }
}

/// The calls of the super page in memory, where that operation fails: the first transaction begins with operation 122.
fn running_at(operation: u64) -> u64 {
    if operation < 122 { 7 } else { 8 }
}

fn stop_differs(alloc: Global, operation: u64, cut: Cut) -> Result<Option<Differs>, Memory> {
    let stop = Stop {
        operation: BUILT.saturating_add(operation),
        cut,
    };
    let with = Visit {
        rows: &WRITE_FAILS,
        holds: None,
    };
    let calls = committed_after(finished(operation, cut));
    differing(alloc, &CROWDED, sound(alloc, Some(stop)), with, Some(calls))
}

// The operations 97 to 340 are those of the rounds, and the next one is the page.
fn stops_differ(alloc: Global) -> Result<Option<(u64, usize, Differs)>, Memory> {
    for operation in 97..342u64 {
        for (at, cut) in CUTS.iter().enumerate() {
            if let Some(differs) = stop_differs(alloc, operation, *cut)? {
                return Ok(Some((operation, at, differs)));
            }
        }
    }
    Ok(None)
}

#[test]
fn rounds_that_make_room_are_stopped(rt: HostRuntime) {
    assert_none_differs(&rt, stops_differ(rt.alloc()));
}

fn write_differs(alloc: Global, operation: u64) -> Result<Option<Differs>, Memory> {
    let plan = failing(alloc, 0, BUILT.saturating_add(operation))?;
    let with = with_flight(&WRITE_FAILS, running_at(operation), 96);
    let calls = committed_after(operation.saturating_sub(1));
    differing(alloc, &CROWDED, plan, with, Some(calls))
}

fn writes_differ(alloc: Global) -> Result<Option<(u64, Differs)>, Memory> {
    for operation in 97..342u64 {
        if let Some(differs) = write_differs(alloc, operation)? {
            return Ok(Some((operation, differs)));
        }
    }
    Ok(None)
}

#[test]
fn writes_of_rounds_that_make_room_fail(rt: HostRuntime) {
    assert_none_differs(&rt, writes_differ(rt.alloc()));
}

fn read_differs(alloc: Global, copy: u64) -> Result<Option<Differs>, Memory> {
    let plan = failing(alloc, OPENED.saturating_add(copy), 0)?;
    differing(alloc, &CROWDED, plan, with_flight(&READ_FAILS, 8, 97), None)
}

// Each of the copies of eight rounds reads its page.
fn reads_differ(alloc: Global) -> Result<Option<(u64, Differs)>, Memory> {
    for copy in 1..193u64 {
        if let Some(differs) = read_differs(alloc, copy)? {
            return Ok(Some((copy, differs)));
        }
    }
    Ok(None)
}

#[test]
fn reads_of_rounds_that_make_room_fail(rt: HostRuntime) {
    assert_none_differs(&rt, reads_differ(rt.alloc()));
}
