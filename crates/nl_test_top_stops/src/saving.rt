// Each stop of the saving of a note, and stops of the run behind it.
use crate::asserting::assert_none_wrong;
use crate::stops::{again_right, run_until, stop_right};
use nl_field::Memory;
use nl_nand::{Cut, Stop};
use nl_testkit_program::note::{NOTE, PROGRAMS, SAVED};
use nl_testkit_program::play::FORMAT;
use nl_testkit_program::program::Rig;
use std::alloc::Global;
use std::sync::Wait;
use std::thread::Threads;

// Whether the savings are right that are stopped with this cut, within each of the programs.
fn saving_right<Rt: Threads + Wait + Sync>(
    rig: &mut Rig<'_, Rt>,
    cut: Cut,
) -> Result<bool, Memory> {
    for operation in 1..=PROGRAMS {
        if !stop_right(rig, Stop { operation, cut })? {
            return rig.note_run(operation);
        }
    }
    Ok(true)
}

fn saving<Rt: Threads + Wait + Sync>(rt: &Rt, alloc: Global, cut: Cut) -> Result<String, Memory> {
    let mut rig = Rig::new(rt, alloc);
    let right = saving_right(&mut rig, cut);
    rig.ended(right)
}

#[test]
fn each_program_is_stopped_before(rt: HostRuntime) {
    assert_none_wrong(&rt, saving(&rt, rt.alloc(), Cut::Before));
}

#[test]
fn each_program_is_stopped_after(rt: HostRuntime) {
    assert_none_wrong(&rt, saving(&rt, rt.alloc(), Cut::After));
}

#[test]
fn each_program_is_stopped_and_spoilt(rt: HostRuntime) {
    assert_none_wrong(&rt, saving(&rt, rt.alloc(), Cut::Spoilt));
}

// Whether the savings are right that are stopped with one cut, and whose next run is stopped with another. Of the next run another program
// is stopped for each of the saving.
fn next_right<Rt: Threads + Wait + Sync>(
    rig: &mut Rig<'_, Rt>,
    cut: Cut,
    next: Cut,
) -> Result<bool, Memory> {
    for operation in 1..=PROGRAMS {
        let second = Stop {
            operation: 1 + (5 * operation) % 13,
            cut: next,
        };
        let (right, _) = again_right(rig, Stop { operation, cut }, second)?;
        if !right {
            return rig.note_run(operation);
        }
    }
    Ok(true)
}

fn next<Rt: Threads + Wait + Sync>(
    rt: &Rt,
    alloc: Global,
    cut: Cut,
    next: Cut,
) -> Result<String, Memory> {
    let mut rig = Rig::new(rt, alloc);
    let right = next_right(&mut rig, cut, next);
    rig.ended(right)
}

#[test]
fn the_run_behind_a_stop_before_is_stopped(rt: HostRuntime) {
    assert_none_wrong(&rt, next(&rt, rt.alloc(), Cut::Before, Cut::Spoilt));
}

#[test]
fn the_run_behind_a_stop_after_is_stopped(rt: HostRuntime) {
    assert_none_wrong(&rt, next(&rt, rt.alloc(), Cut::After, Cut::Before));
}

#[test]
fn the_run_behind_a_spoilt_page_is_stopped(rt: HostRuntime) {
    assert_none_wrong(&rt, next(&rt, rt.alloc(), Cut::Spoilt, Cut::After));
}

/// More programs than a run of the other file makes.
const LONGEST: u64 = 40;

// Whether the runs behind a stop are right that are stopped with this cut: the programs go on until one that the run does not make.
fn all_right<Rt: Threads + Wait + Sync>(
    rig: &mut Rig<'_, Rt>,
    first: Stop,
    cut: Cut,
) -> Result<bool, Memory> {
    for operation in 1..LONGEST {
        let (right, met) = again_right(rig, first, Stop { operation, cut })?;
        if !right {
            return rig.note_run(operation);
        }
        if !met {
            return Ok(true);
        }
    }
    rig.note("more programs")
}

/// The commit page of the first sync is written, and no page is home.
const NOT_HOME: Stop = Stop {
    operation: 8,
    cut: Cut::After,
};

/// The commit page of the second sync is not readable.
const NOT_COMMITTED: Stop = Stop {
    operation: 19,
    cut: Cut::Spoilt,
};

// Whether the runs behind a stop are right that are stopped before a program, and those that are stopped with a spoilt page.
fn commit_right<Rt: Threads + Wait + Sync>(
    rig: &mut Rig<'_, Rt>,
    first: Stop,
) -> Result<bool, Memory> {
    Ok(all_right(rig, first, Cut::Before)? && all_right(rig, first, Cut::Spoilt)?)
}

fn commit<Rt: Threads + Wait + Sync>(
    rt: &Rt,
    alloc: Global,
    first: Stop,
) -> Result<String, Memory> {
    let mut rig = Rig::new(rt, alloc);
    let right = commit_right(&mut rig, first);
    rig.ended(right)
}

#[test]
fn each_program_behind_a_commit_is_stopped(rt: HostRuntime) {
    assert_none_wrong(&rt, commit(&rt, rt.alloc(), NOT_HOME));
}

#[test]
fn each_program_behind_a_spoilt_commit_is_stopped(rt: HostRuntime) {
    assert_none_wrong(&rt, commit(&rt, rt.alloc(), NOT_COMMITTED));
}

fn whole_right<Rt: Threads + Wait + Sync>(rig: &mut Rig<'_, Rt>) -> Result<bool, Memory> {
    if !rig.play(&[FORMAT])? {
        return Ok(false);
    }
    let behind = Stop {
        operation: PROGRAMS + 1,
        cut: Cut::Before,
    };
    rig.restart(Some(behind));
    rig.play(&[("run", NOTE, 0, SAVED)])
}

fn whole<Rt: Threads + Wait + Sync>(rt: &Rt, alloc: Global) -> Result<String, Memory> {
    let mut rig = Rig::new(rt, alloc);
    let right = whole_right(&mut rig);
    rig.ended(right)
}

#[test]
fn no_program_is_left(rt: HostRuntime) {
    assert_none_wrong(&rt, whole(&rt, rt.alloc()));
}

// The sixth program is the commit page: it comes behind a page of the file, the header, and the images of the super page, the nodes and the
// root.
const COMMIT_PAGE: [(Cut, &str); 3] = [
    (Cut::Before, "opened 0\nd / 0\n"),
    (Cut::Spoilt, "opened 0\nd / 0\n"),
    (Cut::After, "opened 3\nd / 1\nf /a 5 1\n"),
];

fn commit_page_right<Rt: Threads + Wait + Sync>(
    rig: &mut Rig<'_, Rt>,
    cut: Cut,
    text: &str,
) -> Result<bool, Memory> {
    if !rig.play(&[FORMAT])? {
        return Ok(false);
    }
    let script = "0 create /a\n0 write /a 0 68656c6c6f\n0 read /a 0 5\n0 sync\n";
    let stopped = run_until(rig, script, 0, Stop { operation: 6, cut })?;
    if stopped.status != 5 || stopped.synced != 0 {
        return rig.note("a stopped run");
    }
    rig.play(&[("tree", "", 0, text)])
}

fn commit_pages_right<Rt: Threads + Wait + Sync>(rig: &mut Rig<'_, Rt>) -> Result<bool, Memory> {
    for (cut, text) in COMMIT_PAGE {
        if !commit_page_right(rig, cut, text)? {
            return Ok(false);
        }
    }
    Ok(true)
}

fn commit_page<Rt: Threads + Wait + Sync>(rt: &Rt, alloc: Global) -> Result<String, Memory> {
    let mut rig = Rig::new(rt, alloc);
    let right = commit_pages_right(&mut rig);
    rig.ended(right)
}

#[test]
fn a_commit_page_is_stopped(rt: HostRuntime) {
    assert_none_wrong(&rt, commit_page(&rt, rt.alloc()));
}
