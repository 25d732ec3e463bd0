// Workers that run beside each other as they come.
use crate::asserting::assert_none_wrong;
use crate::workload::{Workload, is_course};
use nl_field::Memory;
use nl_testkit_program::play::{FORMAT, Step};
use nl_testkit_program::program::Rig;
use std::alloc::Global;
use std::fmt::Write;
use std::sync::Wait;
use std::thread::Threads;

// Whether these lines are told as wanted on a new volume.
fn course_right<Rt: Threads + Wait + Sync>(
    rig: &mut Rig<'_, Rt>,
    work: &Workload,
) -> Result<bool, Memory> {
    let told = rig.tell("run", work.script())?;
    let right = match is_course(rig.alloc, work, &told, 0) {
        Ok(false) => rig.note_told("run", &told),
        right => right,
    };
    drop(told);
    right
}

// Whether these lines are told as wanted on a new volume, and then the steps behind them.
fn work_right<Rt: Threads + Wait + Sync>(
    rig: &mut Rig<'_, Rt>,
    work: &Workload,
    steps: &[Step<'_>],
) -> Result<bool, Memory> {
    Ok(rig.play(&[FORMAT])? && course_right(rig, work)? && rig.play(steps)?)
}

fn worked<Rt: Threads + Wait + Sync>(
    rt: &Rt,
    alloc: Global,
    work: &Workload,
    steps: &[Step<'_>],
) -> Result<String, Memory> {
    let mut rig = Rig::new(rt, alloc);
    let right = work_right(&mut rig, work, steps);
    rig.ended(right)
}

fn add_two(alloc: Global, work: &mut Workload) -> Result<(), Memory> {
    work.add(alloc, 0, "create /a", "ok")?;
    work.add(alloc, 0, "write /a 0 61", "ok 1")?;
    work.add(alloc, 1, "create /b", "ok")?;
    work.barrier(alloc)?;
    work.add(alloc, 1, "read /a 0 1", "ok 61")?;
    work.add(alloc, 0, "list /", "ok 2 a b")
}

fn of_two(alloc: Global) -> Result<Workload, Memory> {
    let mut work = Workload::new(alloc);
    add_two(alloc, &mut work)?;
    Ok(work)
}

fn two<Rt: Threads + Wait + Sync>(rt: &Rt, alloc: Global) -> Result<String, Memory> {
    let work = of_two(alloc)?;
    worked(rt, alloc, &work, &[("check", "", 0, "sound 5\n")])
}

#[test]
fn two_rounds(rt: HostRuntime) {
    assert_none_wrong(&rt, two(&rt, rt.alloc()));
}

/// A call and its answer: `%` stands for a worker, and `#` for a byte that it fills its file with.
type Pattern = (&'static str, &'static str);

// A worker has a directory of its own.
const FIRST: [Pattern; 2] = [("mkdir /w%", "ok"), ("create /w%/f", "ok")];

// A worker fills its file, and reads and writes across the end of the first page.
const TURN: [Pattern; 5] = [
    ("fill /w%/f 0 65536 #", "ok 65536"),
    ("read /w%/f 65535 2", "ok #"),
    ("write /w%/f 4095 0%0%", "ok 2"),
    ("read /w%/f 4094 4", "ok #0%0%#"),
    ("sync", ""),
];

// Behind the fills the file gets another name, and is cut.
const LAST: [Pattern; 5] = [
    ("stat /w%/g", "ENOENT"),
    ("rename /w%/f /w%/g", "ok"),
    ("stat /w%/g", "ok file 65536 16"),
    ("truncate /w%/g 4097", "ok"),
    ("list /w%", "ok 1 g"),
];

fn push_all(text: &mut String, pattern: &str, worker: u8, byte: u64) -> Result<(), Memory> {
    for c in pattern.chars() {
        match c {
            '%' => write!(text, "{worker}")?,
            '#' => write!(text, "{byte}")?,
            c => text.push(c)?,
        }
    }
    Ok(())
}

fn text_of(alloc: Global, pattern: &str, worker: u8, byte: u64) -> Result<String, Memory> {
    let mut text = String::new(alloc);
    push_all(&mut text, pattern, worker, byte)?;
    Ok(text)
}

fn add_line(
    alloc: Global,
    work: &mut Workload,
    worker: u8,
    byte: u64,
    pattern: &Pattern,
) -> Result<(), Memory> {
    let (call, answer) = *pattern;
    let call = text_of(alloc, call, worker, byte)?;
    let answer = text_of(alloc, answer, worker, byte)?;
    work.add(alloc, worker, call.as_str(), answer.as_str())
}

fn add_lines(
    alloc: Global,
    work: &mut Workload,
    worker: u8,
    byte: u64,
    patterns: &[Pattern],
) -> Result<(), Memory> {
    for pattern in patterns {
        add_line(alloc, work, worker, byte, pattern)?;
    }
    Ok(())
}

// A worker in a directory of its own, which fills a file over and over.
fn add_worker(alloc: Global, work: &mut Workload, worker: u8) -> Result<(), Memory> {
    add_lines(alloc, work, worker, 0, &FIRST)?;
    for byte in 10..18u64 {
        add_lines(alloc, work, worker, byte, &TURN)?;
    }
    add_lines(alloc, work, worker, 0, &LAST)
}

fn add_eight(alloc: Global, work: &mut Workload) -> Result<(), Memory> {
    for worker in 0..8u8 {
        add_worker(alloc, work, worker)?;
    }
    work.barrier(alloc)?;
    work.add(alloc, 3, "list /", "ok 8 w0/ w1/ w2/ w3/ w4/ w5/ w6/ w7/")?;
    work.add(alloc, 5, "read /w2/g 4094 9", "ok 170202")
}

fn of_eight(alloc: Global) -> Result<Workload, Memory> {
    let mut work = Workload::new(alloc);
    add_eight(alloc, &mut work)?;
    Ok(work)
}

// Eight workers program 1024 pages of files and more, where there are 768, so that blocks are cleaned meanwhile. They make 8 * 47 + 2
// calls.
const BEHIND_EIGHT: [Step<'static>; 2] = [
    ("check", "", 0, "sound 378\n"),
    (
        "run",
        "0 read /w7/g 4094 9\n0 stat /w0/g\n0 stat /w0/f\n",
        0,
        "opened 378\n1 @379 ok 170707\n2 @380 ok file 4097 2\n3 @381 ENOENT\n",
    ),
];

fn eight<Rt: Threads + Wait + Sync>(rt: &Rt, alloc: Global) -> Result<String, Memory> {
    let work = of_eight(alloc)?;
    worked(rt, alloc, &work, &BEHIND_EIGHT)
}

#[test]
fn eight_workers(rt: HostRuntime) {
    assert_none_wrong(&rt, eight(&rt, rt.alloc()));
}
