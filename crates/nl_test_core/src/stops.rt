// Each operation of the rounds is stopped, with each cut, and the volume is opened again.
use crate::rig::{Seen, Step};
use crate::rounds::{BUILT, DEAD};
use crate::visit::{Differs, Visit, assert_none_differs, differing, sound};
use nl_field::Memory;
use nl_nand::{Cut, Stop};
use nl_tree::Duty;
use std::alloc::Global;

/// After how many calls the metadata is committed once so many operations have finished: commit pages are the operations 25, 56 and 87.
pub fn committed_after(operations: u64) -> u64 {
    if operations < 25 {
        7
    } else if operations < 56 {
        9
    } else if operations < 87 {
        10
    } else {
        11
    }
}

const STOPPED: Visit<'static> = Visit {
    rows: &[
        (Step::Rounds(4), Seen::Fault),
        (Step::Stopped, Seen::Number(1)),
        (Step::Round, Seen::ReadOnly),
        (Step::Duty(Duty::Commit), Seen::Nothing),
    ],
    holds: None,
};

fn stop_differs(
    alloc: Global,
    operation: u64,
    cut: Cut,
    calls: u64,
) -> Result<Option<Differs>, Memory> {
    let stop = Stop {
        operation: BUILT.saturating_add(operation),
        cut,
    };
    differing(alloc, &DEAD, sound(alloc, Some(stop)), STOPPED, Some(calls))
}

/// How many operations have finished after a stop within that one.
pub fn finished(operation: u64, cut: Cut) -> u64 {
    match cut {
        Cut::After => operation,
        _ => operation.saturating_sub(1),
    }
}

/// Of an erased block five pages stay, five are erased, five are uncorrectable, and so on; and two other mixtures.
const MIXED: [Cut; 3] = [Cut::Mixed(205465758716988), Cut::Mixed(1), Cut::Mixed(6)];

/// The cuts of one page.
pub const CUTS: [Cut; 3] = [Cut::Before, Cut::After, Cut::Spoilt];

// The first operation, and which cut of it, with which something differs.
fn stops_differ(alloc: Global) -> Result<Option<(u64, usize, Differs)>, Memory> {
    for operation in 1..90u64 {
        for (at, cut) in CUTS.iter().enumerate() {
            let calls = committed_after(finished(operation, *cut));
            if let Some(differs) = stop_differs(alloc, operation, *cut, calls)? {
                return Ok(Some((operation, at, differs)));
            }
        }
    }
    Ok(None)
}

#[test]
fn each_operation_is_stopped(rt: HostRuntime) {
    assert_none_differs(&rt, stops_differ(rt.alloc()));
}

// The erases of the three blocks, over their pages.
fn erases_differ(alloc: Global) -> Result<Option<(u64, usize, Differs)>, Memory> {
    for operation in [19u64, 52, 83] {
        for (at, cut) in MIXED.iter().enumerate() {
            let calls = committed_after(operation);
            if let Some(differs) = stop_differs(alloc, operation, *cut, calls)? {
                return Ok(Some((operation, at, differs)));
            }
        }
    }
    Ok(None)
}

#[test]
fn erases_are_cut_over_their_pages(rt: HostRuntime) {
    assert_none_differs(&rt, erases_differ(rt.alloc()));
}
