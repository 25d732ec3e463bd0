// Media that no volume opens on.
use crate::asserting::assert_none_wrong;
use nl_field::Memory;
use nl_nand::{Cut, Nand, Stop};
use nl_testkit_program::play::{FORMAT, Step};
use nl_testkit_program::program::Rig;
use std::alloc::Global;
use std::sync::Wait;
use std::thread::Threads;

const HELLO: Step<'static> = (
    "run",
    "0 create /a\n0 write /a 0 68656c6c6f\n0 read /a 0 5\n0 sync\n",
    0,
    "opened 0\n1 @1 ok\n2 @2 ok 5\n3 @3 ok 68656c6c6f\n4 @4 ok 3\n",
);

// An erase that is stopped leaves the block uncorrectable.
fn spoil<Rt: Threads + Wait + Sync>(rig: &mut Rig<'_, Rt>, block: u32) {
    let stop = Stop {
        operation: 1,
        cut: Cut::Spoilt,
    };
    rig.restart(Some(stop));
    if block < rig.media.geometry().blocks {
        let _ = rig.media.erase(block);
    }
    rig.restart(None);
}

// Whether the steps are told as wanted on a new volume with a file of one page, of which a block is left uncorrectable.
fn spoilt_right<Rt: Threads + Wait + Sync>(
    rig: &mut Rig<'_, Rt>,
    block: u32,
    steps: &[Step<'_>],
) -> Result<bool, Memory> {
    if !rig.play(&[FORMAT, HELLO])? {
        return Ok(false);
    }
    spoil(rig, block);
    rig.play(steps)
}

// The pages of files begin with block 8.
const DAMAGED: [Step<'static>; 8] = [
    ("run", "0 create /b\n", 7, "damaged 1 pointer\n"),
    ("tree", "", 7, "damaged 1 pointer\n"),
    ("report", "", 7, "damaged 1 pointer\n"),
    ("check", "", 8, "pointer\n"),
    ("run", "0 create\n", 2, "script 1 9 missing\n"),
    FORMAT,
    HELLO,
    ("check", "", 0, "sound 4\n"),
];

// Nothing needs a page of the block.
const SPARE: [Step<'static>; 2] = [
    ("check", "", 0, "sound 4\n"),
    (
        "run",
        "0 read /a 0 9\n0 fill /a 0 65536 62\n0 sync\n",
        0,
        "opened 4\n1 @5 ok 68656c6c6f\n2 @6 ok 65536\n3 @7 ok 6\n",
    ),
];

// The first block has the addresses as they were made, which the run has written anew in the second.
fn blocks_right<Rt: Threads + Wait + Sync>(rig: &mut Rig<'_, Rt>) -> Result<bool, Memory> {
    for block in [0u32, 7, 9, 31] {
        if !spoilt_right(rig, block, &SPARE)? {
            return rig.note_run(u64::from(block));
        }
    }
    spoilt_right(rig, 8, &DAMAGED)
}

fn blocks<Rt: Threads + Wait + Sync>(rt: &Rt, alloc: Global) -> Result<String, Memory> {
    let mut rig = Rig::new(rt, alloc);
    let right = blocks_right(&mut rig);
    rig.ended(right)
}

#[test]
fn blocks_are_spoilt(rt: HostRuntime) {
    assert_none_wrong(&rt, blocks(&rt, rt.alloc()));
}

// What a making leaves that is stopped.
#[derive(Clone, Copy)]
enum Left {
    Blank,
    Damaged,
    New,
}

// A stop within the first or the second program of a making, and what it leaves.
const STOPS: [(u64, Cut, Left); 6] = [
    (1, Cut::Before, Left::Blank),
    (1, Cut::Spoilt, Left::Blank),
    (1, Cut::After, Left::Damaged),
    (2, Cut::Before, Left::Damaged),
    (2, Cut::Spoilt, Left::Damaged),
    (2, Cut::After, Left::New),
];

const BLANK: [Step<'static>; 2] = [("check", "", 7, "blank\n"), ("run", "", 7, "blank\n")];

const NO_SUPER_PAGE: [Step<'static>; 2] = [
    ("check", "", 8, "super\n"),
    ("run", "", 7, "damaged 0 super\n"),
];

const NEW: [Step<'static>; 2] = [("check", "", 0, "sound 0\n"), ("run", "", 0, "opened 0\n")];

const FAULT: Step<'static> = ("format 32 32", "", 5, "medium fault\n");

// Whether `check` and `run` tell that this is left.
fn left_right<Rt: Threads + Wait + Sync>(
    rig: &mut Rig<'_, Rt>,
    left: Left,
) -> Result<bool, Memory> {
    match left {
        Left::Blank => rig.play(&BLANK),
        Left::Damaged => rig.play(&NO_SUPER_PAGE),
        Left::New => rig.play(&NEW),
    }
}

fn making_right<Rt: Threads + Wait + Sync>(
    rig: &mut Rig<'_, Rt>,
    stop: Stop,
    left: Left,
) -> Result<bool, Memory> {
    rig.restart(Some(stop));
    if !rig.play(&[FAULT])? {
        return Ok(false);
    }
    rig.restart(None);
    Ok(left_right(rig, left)? && rig.play(&[FORMAT])?)
}

fn makings_right<Rt: Threads + Wait + Sync>(rig: &mut Rig<'_, Rt>) -> Result<bool, Memory> {
    for (at, row) in STOPS.iter().enumerate() {
        let (operation, cut, left) = *row;
        if !making_right(rig, Stop { operation, cut }, left)? {
            return rig.note_run(at as u64);
        }
    }
    Ok(true)
}

fn makings<Rt: Threads + Wait + Sync>(rt: &Rt, alloc: Global) -> Result<String, Memory> {
    let mut rig = Rig::new(rt, alloc);
    let right = makings_right(&mut rig);
    rig.ended(right)
}

#[test]
fn a_making_is_stopped(rt: HostRuntime) {
    assert_none_wrong(&rt, makings(&rt, rt.alloc()));
}

// From a stop on each call of the medium fails.
const STOPPED: [Step<'static>; 7] = [
    FORMAT,
    (
        "run",
        "0 stat /\n0 sync\n0 create /a\n0 list /\n",
        5,
        "opened 0\n1 @1 ok dir 0\n2 @2 EIO 1\n3 @3 EROFS 1\n4 @4 ok 0\n",
    ),
    ("run", "", 5, "medium fault\n"),
    ("check", "", 5, "medium fault\n"),
    ("tree", "", 5, "medium fault\n"),
    ("report", "", 5, "medium fault\n"),
    ("format 32 32", "", 5, "medium fault\n"),
];

fn stopped_right<Rt: Threads + Wait + Sync>(rig: &mut Rig<'_, Rt>) -> Result<bool, Memory> {
    let stop = Stop {
        operation: 3,
        cut: Cut::Before,
    };
    rig.restart(Some(stop));
    if !rig.play(&STOPPED)? {
        return Ok(false);
    }
    rig.restart(None);
    rig.play(&[("check", "", 0, "sound 0\n")])
}

fn stopped<Rt: Threads + Wait + Sync>(rt: &Rt, alloc: Global) -> Result<String, Memory> {
    let mut rig = Rig::new(rt, alloc);
    let right = stopped_right(&mut rig);
    rig.ended(right)
}

#[test]
fn a_medium_has_stopped(rt: HostRuntime) {
    assert_none_wrong(&rt, stopped(&rt, rt.alloc()));
}
