// Two syncs that go on unit by unit beside each other. Each of their operations is stopped, with each cut, and the volume is opened again.
use crate::rig::{Seen, Step};
use crate::rounds::{BUILT, DEAD};
use crate::stops::{CUTS, finished};
use crate::visit::{Differs, Visit, assert_none_differs, differing, sound, tree};
use nl_field::Memory;
use nl_nand::Stop;
use nl_tree::Duty;
use std::alloc::Global;

// The block with 14 dead pages has 18 live ones: operations 1 to 18 copy them, and 19 erases it. Their callbacks make the addresses 67, 73
// and 75 dirty, so that the first sync freezes these and address 0, under eight calls: its header is operation 20. Then a call comes, and
// the cleaner moves three pages of the next block, operations 21 to 23. Their callbacks belong to the next transaction. Both syncs write
// the images, 24 to 27, and the second the commit page, 28: it acknowledges the 18, and not the three. The first sync answers without an
// operation. The second has to reach nine calls: it copies the four pages home, 29 to 32, and freezes the addresses 0 and 73 under ten
// calls, 33 to 36 with the commit page.
const BESIDE: [(Step, Seen); 36] = [
    (Step::Duties(Duty::Copy, 20), Seen::Number(18)),
    (Step::Duty(Duty::Erase), Seen::Did),
    (Step::Handles(18), Seen::Number(18)),
    (Step::Call, Seen::Did),
    (Step::Stage(0), Seen::Did),
    (Step::Clock, Seen::Number(BUILT + 20)),
    (Step::Call, Seen::Did),
    (Step::Duties(Duty::Copy, 3), Seen::Number(3)),
    (Step::Duty(Duty::Handle(19)), Seen::Did),
    (Step::Duty(Duty::Handle(20)), Seen::Did),
    (Step::Duty(Duty::Handle(21)), Seen::Did),
    (Step::Pairs, Seen::Number(21)),
    (Step::Stage(1), Seen::Did),
    (Step::Stage(0), Seen::Did),
    (Step::Stage(1), Seen::Did),
    (Step::Stage(0), Seen::Did),
    (Step::Committed, Seen::Number(7)),
    (Step::Stage(1), Seen::Did),
    (Step::Committed, Seen::Number(8)),
    (Step::Moment, Seen::Number(BUILT + 28)),
    (Step::Pairs, Seen::Number(3)),
    (Step::Stage(0), Seen::Nothing),
    (Step::Sync(0), Seen::Number(8)),
    (Step::Clock, Seen::Number(BUILT + 28)),
    (Step::Stage(1), Seen::Did),
    (Step::Stage(1), Seen::Did),
    (Step::Stage(1), Seen::Did),
    (Step::Stage(1), Seen::Did),
    (Step::Stage(1), Seen::Did),
    (Step::Stage(1), Seen::Did),
    (Step::Stage(1), Seen::Did),
    (Step::Pairs, Seen::Number(3)),
    (Step::Stage(1), Seen::Did),
    (Step::Pairs, Seen::Number(0)),
    (Step::Sync(1), Seen::Number(10)),
    (Step::Clock, Seen::Number(BUILT + 36)),
];

// A whole commit copies the two pages home first, and then commits the eleventh call by address 0 alone.
const BEHIND: [(Step, Seen); 5] = [
    (Step::Rows(&BESIDE), Seen::Did),
    (Step::Moment, Seen::Number(BUILT + 36)),
    (Step::Commit, Seen::Number(3)),
    (Step::Committed, Seen::Number(11)),
    (Step::Clock, Seen::Number(BUILT + 42)),
];

#[test]
fn two_syncs_beside_each_other(rt: HostRuntime) {
    let alloc = rt.alloc();
    let found = differing(
        alloc,
        &DEAD,
        sound(alloc, None),
        tree(&BEHIND, 11),
        Some(11),
    );
    assert_none_differs(&rt, found);
}

// After how many calls the metadata is committed once so many operations have finished.
fn committed_after(operations: u64) -> u64 {
    if operations < 28 {
        7
    } else if operations < 36 {
        8
    } else {
        10
    }
}

const STOPPED: Visit<'static> = Visit {
    rows: &[
        (Step::Rows(&BESIDE), Seen::Fault),
        (Step::Stopped, Seen::Number(1)),
        (Step::Stage(1), Seen::ReadOnly),
    ],
    holds: None,
};

// The first operation, and which cut of it, with which something differs.
fn stops_differ(alloc: Global) -> Result<Option<(u64, usize, Differs)>, Memory> {
    for operation in 1..37u64 {
        for (at, cut) in CUTS.iter().enumerate() {
            let stop = Stop {
                operation: BUILT.saturating_add(operation),
                cut: *cut,
            };
            let calls = committed_after(finished(operation, *cut));
            let plan = sound(alloc, Some(stop));
            if let Some(differs) = differing(alloc, &DEAD, plan, STOPPED, Some(calls))? {
                return Ok(Some((operation, at, differs)));
            }
        }
    }
    Ok(None)
}

#[test]
fn each_unit_is_stopped(rt: HostRuntime) {
    assert_none_differs(&rt, stops_differ(rt.alloc()));
}

// A sync is begun, and a background commit does the rest of it, and then the call that came since. The sync finds its goal reached.
const FINISHED: [(Step, Seen); 9] = [
    (Step::Call, Seen::Did),
    (Step::Stage(0), Seen::Did),
    (Step::Call, Seen::Did),
    (Step::Duty(Duty::Commit), Seen::Did),
    (Step::Committed, Seen::Number(9)),
    (Step::Moment, Seen::Number(BUILT + 7)),
    (Step::Clock, Seen::Number(BUILT + 8)),
    (Step::Sync(0), Seen::Number(9)),
    (Step::Clock, Seen::Number(BUILT + 8)),
];

#[test]
fn a_commit_finishes_a_sync(rt: HostRuntime) {
    let alloc = rt.alloc();
    let found = differing(
        alloc,
        &DEAD,
        sound(alloc, None),
        tree(&FINISHED, 9),
        Some(9),
    );
    assert_none_differs(&rt, found);
}

// The transaction of the addresses 0, 67, 73 and 75, all in one turn: a header, four images, the commit page and four pages that are copied
// home are ten programs, behind the 19 operations of the cleaning.
const IN_ONE_TURN: [(Step, Seen); 8] = [
    (Step::Duties(Duty::Copy, 20), Seen::Number(18)),
    (Step::Duty(Duty::Erase), Seen::Did),
    (Step::Handles(18), Seen::Number(18)),
    (Step::Call, Seen::Did),
    (Step::Clock, Seen::Number(BUILT + 19)),
    (Step::Commit, Seen::Number(1)),
    (Step::Committed, Seen::Number(8)),
    (Step::Clock, Seen::Number(BUILT + 29)),
];

#[test]
fn a_commit_is_one_turn(rt: HostRuntime) {
    let alloc = rt.alloc();
    let with = tree(&IN_ONE_TURN, 8);
    let found = differing(alloc, &DEAD, sound(alloc, None), with, Some(8));
    assert_none_differs(&rt, found);
}

// Each of seven workers programs a page of its line.
const OTHERS: [(Step, Seen); 7] = [
    (Step::Program(1, 1), Seen::Did),
    (Step::Program(2, 1), Seen::Did),
    (Step::Program(3, 1), Seen::Did),
    (Step::Program(4, 1), Seen::Did),
    (Step::Program(5, 1), Seen::Did),
    (Step::Program(6, 1), Seen::Did),
    (Step::Program(7, 1), Seen::Did),
];

// Their lines are over.
const OVER: [(Step, Seen); 7] = [
    (Step::Drop(1), Seen::Did),
    (Step::Drop(2), Seen::Did),
    (Step::Drop(3), Seen::Did),
    (Step::Drop(4), Seen::Did),
    (Step::Drop(5), Seen::Did),
    (Step::Drop(6), Seen::Did),
    (Step::Drop(7), Seen::Did),
];

// A sync of the same transaction, between whose turns seven workers write: seven programs of theirs and one of the sync are the eight from
// each row with a clock to the next. Its six turns end with the commit page, and its effect has no operation.
const IN_TURNS: [(Step, Seen); 29] = [
    (Step::Duties(Duty::Copy, 20), Seen::Number(18)),
    (Step::Duty(Duty::Erase), Seen::Did),
    (Step::Handles(18), Seen::Number(18)),
    (Step::Call, Seen::Did),
    (Step::Clock, Seen::Number(BUILT + 19)),
    (Step::Rows(&OTHERS), Seen::Did),
    (Step::Stage(0), Seen::Did),
    (Step::Clock, Seen::Number(BUILT + 27)),
    (Step::Rows(&OTHERS), Seen::Did),
    (Step::Stage(0), Seen::Did),
    (Step::Clock, Seen::Number(BUILT + 35)),
    (Step::Rows(&OTHERS), Seen::Did),
    (Step::Stage(0), Seen::Did),
    (Step::Clock, Seen::Number(BUILT + 43)),
    (Step::Rows(&OTHERS), Seen::Did),
    (Step::Stage(0), Seen::Did),
    (Step::Clock, Seen::Number(BUILT + 51)),
    (Step::Rows(&OTHERS), Seen::Did),
    (Step::Stage(0), Seen::Did),
    (Step::Clock, Seen::Number(BUILT + 59)),
    (Step::Rows(&OTHERS), Seen::Did),
    (Step::Stage(0), Seen::Did),
    (Step::Clock, Seen::Number(BUILT + 67)),
    (Step::Moment, Seen::Number(BUILT + 67)),
    (Step::Stage(0), Seen::Nothing),
    (Step::Rows(&OTHERS), Seen::Did),
    (Step::Sync(0), Seen::Number(8)),
    (Step::Clock, Seen::Number(BUILT + 74)),
    (Step::Rows(&OVER), Seen::Did),
];

#[test]
fn a_sync_beside_seven_workers(rt: HostRuntime) {
    let alloc = rt.alloc();
    let with = tree(&IN_TURNS, 8);
    let found = differing(alloc, &DEAD, sound(alloc, None), with, Some(8));
    assert_none_differs(&rt, found);
}
