// A program of the medium fails.
use crate::asserting::assert_none_wrong;
use crate::saved::failed_text;
use nl_field::{FailList, Memory};
use nl_nand::MemNand;
use nl_testkit_program::note::{NOTE, PROGRAMS, holds};
use nl_testkit_program::play::{FORMAT, Step};
use nl_testkit_program::program::{Rig, only};
use std::alloc::Global;
use std::sync::Wait;
use std::thread::Threads;

// Programs of the saving from the first to the last: where one of them fails, the place of the answer that tells it, what the last three
// lines answer, and after how many calls the volume opens then. Where that place is behind the last line, all is answered.
type Failure = (u64, u64, usize, [&'static str; 3], u64);

const FAILURES: [Failure; 7] = [
    (1, 1, 4, ["ok -", "ok 1 note", "ok dir 1"], 0),
    (2, 8, 5, ["ok 6f6c640a", "ok 1 note", "ok dir 1"], 0),
    (
        9,
        9,
        7,
        ["ok 6f6c640a", "ok 2 .note.tmp note", "ok dir 1"],
        4,
    ),
    (
        10,
        19,
        8,
        ["ok 6f6c640a", "ok 2 .note.tmp note", "ok dir 1"],
        4,
    ),
    (20, 27, 10, ["ok 6e65770a", "ok 1 note", "ok dir 1"], 7),
    (28, 33, 11, ["ok 6e65770a", "ok 1 note", "ok dir 1"], 9),
    (
        34,
        PROGRAMS,
        11,
        ["ok 6e65770a", "ok 1 note", "ok dir 1"],
        13,
    ),
];

// A medium of which the program of this number fails behind the two of a making.
fn failing(alloc: Global, program: u64) -> Result<MemNand, Memory> {
    let writes = only(alloc, program.saturating_add(2))?;
    Ok(MemNand::new(alloc, FailList::new(alloc), writes, None))
}

fn text_right<Rt: Threads + Wait + Sync>(
    rig: &mut Rig<'_, Rt>,
    place: usize,
    last: [&'static str; 3],
) -> Result<bool, Memory> {
    let text = failed_text(rig.alloc, place, last)?;
    let right = rig.play(&[FORMAT, ("run", NOTE, 5, text.as_str())]);
    drop(text);
    right
}

fn saving_right<Rt: Threads + Wait + Sync>(
    rig: &mut Rig<'_, Rt>,
    failure: &Failure,
) -> Result<bool, Memory> {
    let (_, _, place, last, count) = *failure;
    Ok(text_right(rig, place, last)? && holds(rig, count, count, false)?)
}

// Whether a saving is right of which the program of this number fails.
fn is_saved<Rt: Threads + Wait + Sync>(
    rt: &Rt,
    alloc: Global,
    program: u64,
    failure: &Failure,
) -> Result<bool, Memory> {
    let mut rig = Rig::on(rt, alloc, failing(alloc, program)?);
    let right = saving_right(&mut rig, failure);
    drop(rig);
    right
}

// The first program of a row with which the saving is not right, and 0 where there is none.
fn row_wrong<Rt: Threads + Wait + Sync>(
    rt: &Rt,
    alloc: Global,
    failure: &Failure,
) -> Result<u64, Memory> {
    let (first, last, _, _, _) = *failure;
    for program in first..=last {
        if !is_saved(rt, alloc, program, failure)? {
            return Ok(program);
        }
    }
    Ok(0)
}

fn rows_wrong<Rt: Threads + Wait + Sync>(rt: &Rt, alloc: Global) -> Result<u64, Memory> {
    for failure in FAILURES.iter() {
        let wrong = row_wrong(rt, alloc, failure)?;
        if wrong != 0 {
            return Ok(wrong);
        }
    }
    Ok(0)
}

#[test]
fn each_program_fails(rt: HostRuntime) {
    assert!(rt; rows_wrong(&rt, rt.alloc()) == Ok(0));
}

const SECOND: [Step<'static>; 4] = [
    FORMAT,
    (
        "run",
        "0 create /a\n0 write /a 0 61\n0 write /a 0 62\n0 read /a 0 1\n0 create /b\n",
        5,
        "opened 0\n1 @1 ok\n2 @2 ok 1\n3 @3 EIO 1\n4 @4 ok 61\n5 @5 EROFS 1\n",
    ),
    ("check", "", 0, "sound 0\n"),
    ("run", "0 list /\n", 0, "opened 0\n1 @1 ok 0\n"),
];

fn second<Rt: Threads + Wait + Sync>(rt: &Rt, alloc: Global) -> Result<String, Memory> {
    let mut rig = Rig::on(rt, alloc, failing(alloc, 2)?);
    let right = rig.play(&SECOND);
    rig.ended(right)
}

#[test]
fn the_second_program_fails(rt: HostRuntime) {
    assert_none_wrong(&rt, second(&rt, rt.alloc()));
}
