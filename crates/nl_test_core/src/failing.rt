// Each operation of the rounds fails, and each read.
use crate::image::image;
use crate::rig::{Seen, Step};
use crate::rounds::{BUILT, DEAD};
use crate::stops::committed_after;
use crate::visit::{Differs, assert_none_differs, differing, failing, is_fault, tree};
use nl_field::Memory;
use nl_tree::Duty;
use std::alloc::Global;

// The volume is read-only from then on.
const WRITE_FAILS: [(Step, Seen); 6] = [
    (Step::Rounds(4), Seen::Fault),
    (Step::Stopped, Seen::Number(1)),
    (Step::Round, Seen::ReadOnly),
    (Step::Commit, Seen::ReadOnly),
    (Step::Duty(Duty::Copy), Seen::Nothing),
    (Step::Program(0, 1), Seen::ReadOnly),
];

/// The calls of the super page in memory, where that operation fails: the transactions begin with the operations 20, 53 and 84.
fn running_at(operation: u64) -> u64 {
    if operation < 20 {
        7
    } else if operation < 53 {
        9
    } else if operation < 84 {
        10
    } else {
        11
    }
}

fn write_differs(alloc: Global, operation: u64) -> Result<Option<Differs>, Memory> {
    let plan = failing(alloc, 0, BUILT.saturating_add(operation))?;
    let calls = committed_after(operation.saturating_sub(1));
    let with = tree(&WRITE_FAILS, running_at(operation));
    differing(alloc, &DEAD, plan, with, Some(calls))
}

// The first of the operations with whose failure something differs.
fn writes_differ(alloc: Global) -> Result<Option<(u64, Differs)>, Memory> {
    for operation in 1..90u64 {
        if let Some(differs) = write_differs(alloc, operation)? {
            return Ok(Some((operation, differs)));
        }
    }
    Ok(None)
}

#[test]
fn each_write_fails(rt: HostRuntime) {
    assert_none_differs(&rt, writes_differ(rt.alloc()));
}

/// An opening reads each page once, and then each of the seven addresses that it has.
pub const OPENED: u64 = 1024 + 7;

// The victim stays in hand, and the next rounds go on with it.
const READ_FAILS: [(Step, Seen); 6] = [
    (Step::Rounds(4), Seen::Fault),
    (Step::Stopped, Seen::Number(0)),
    (Step::Rounds(4), Seen::Did),
    (Step::FreeBlocks, Seen::Number(9)),
    (Step::Pairs, Seen::Number(0)),
    (Step::Clean, Seen::Nothing),
];

fn read_differs(alloc: Global, copy: u64) -> Result<Option<Differs>, Memory> {
    let plan = failing(alloc, OPENED.saturating_add(copy), 0)?;
    differing(alloc, &DEAD, plan, tree(&READ_FAILS, 12), None)
}

// Each of the 64 copies reads its page.
fn reads_differ(alloc: Global) -> Result<Option<(u64, Differs)>, Memory> {
    for copy in 1..65u64 {
        if let Some(differs) = read_differs(alloc, copy)? {
            return Ok(Some((copy, differs)));
        }
    }
    Ok(None)
}

#[test]
fn each_read_fails(rt: HostRuntime) {
    assert_none_differs(&rt, reads_differ(rt.alloc()));
}

fn opening_fails(alloc: Global, read: u64) -> Result<bool, Memory> {
    let media = image(alloc, &DEAD, failing(alloc, read, 0)?)?;
    Ok(is_fault(alloc, media))
}

// How many reads come before the first with which no opening fails: each read of an opening, and then those of the rounds.
fn opening_reads(alloc: Global) -> Result<u64, Memory> {
    for read in 1..1033u64 {
        if !opening_fails(alloc, read)? {
            return Ok(read - 1);
        }
    }
    Ok(1033)
}

#[test]
fn openings_fail(rt: HostRuntime) {
    assert!(rt; opening_reads(rt.alloc()) == Ok(OPENED));
}
