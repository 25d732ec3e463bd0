// A read of the medium fails.
use crate::asserting::assert_none_wrong;
use crate::saved::failed_text;
use nl_field::{FailList, Memory};
use nl_nand::{MemNand, Nand};
use nl_testkit_program::note::NOTE;
use nl_testkit_program::play::{FORMAT, Step};
use nl_testkit_program::program::{Rig, Told, only};
use std::alloc::Global;
use std::sync::Wait;
use std::test::Fail;
use std::thread::Threads;

/// An opening of a new volume reads each of the 1024 pages, and then the two that were written. A making reads none.
pub(crate) const OPENING: u64 = 1024 + 2;

// A medium whose read of that number fails.
pub(crate) fn failing(alloc: Global, read: u64) -> Result<MemNand, Memory> {
    Ok(MemNand::new(alloc, only(alloc, read)?, FailList::new(alloc), None))
}

// Whether a saving on a new volume does not open it, and leaves it.
fn is_unopened<Rt: Threads + Wait + Sync>(rig: &mut Rig<'_, Rt>) -> Result<bool, Memory> {
    if !rig.play(&[FORMAT])? {
        return Ok(false);
    }
    let clock = rig.media.clock();
    let told = rig.tell("run", NOTE)?;
    let is = told.is(5, "medium fault\n");
    drop(told);
    Ok(is && rig.media.clock() == clock && rig.media.write_faults() == 0)
}

fn is_unopened_at<Rt: Threads + Wait + Sync>(
    rt: &Rt,
    alloc: Global,
    read: u64,
) -> Result<bool, Memory> {
    let mut rig = Rig::on(rt, alloc, failing(alloc, read)?);
    let is = is_unopened(&mut rig);
    drop(rig);
    is
}

// How many reads come before the first that is not one of the opening's.
fn opening_reads<Rt: Threads + Wait + Sync>(rt: &Rt, alloc: Global) -> Result<u64, Memory> {
    for read in 0..2 * OPENING {
        if !is_unopened_at(rt, alloc, read + 1)? {
            return Ok(read);
        }
    }
    Ok(2 * OPENING)
}

#[test]
fn each_read_of_an_opening_fails(rt: HostRuntime) {
    assert!(rt; opening_reads(&rt, rt.alloc()) == Ok(OPENING));
}

// The one read behind the opening is that of the note.
fn file_right<Rt: Threads + Wait + Sync>(rig: &mut Rig<'_, Rt>) -> Result<bool, Memory> {
    let text = failed_text(rig.alloc, 11, ["EIO 1", "ok 1 note", "ok dir 1"])?;
    let steps: [Step<'_>; 3] = [
        FORMAT,
        ("run", NOTE, 5, text.as_str()),
        ("check", "", 0, "sound 13\n"),
    ];
    let right = rig.play(&steps);
    drop(text);
    right
}

fn file_wrong<Rt: Threads + Wait + Sync>(rt: &Rt, alloc: Global) -> Result<String, Memory> {
    let mut rig = Rig::on(rt, alloc, failing(alloc, OPENING + 1)?);
    let right = file_right(&mut rig);
    rig.ended(right)
}

#[test]
fn the_read_of_a_file_fails(rt: HostRuntime) {
    assert_none_wrong(&rt, file_wrong(&rt, rt.alloc()));
}

pub(crate) const HELLO: [Step<'static>; 2] = [
    FORMAT,
    (
        "run",
        "0 create /a\n0 write /a 0 68656c6c6f\n0 read /a 0 5\n0 sync\n",
        0,
        "opened 0\n1 @1 ok\n2 @2 ok 5\n3 @3 ok 68656c6c6f\n4 @4 ok 3\n",
    ),
];

/// What two reads of a byte tell of a volume after four calls, from the failure of the opening on to that of no read.
const ANSWERS: [(u8, &str); 4] = [
    (5, "medium fault\n"),
    (5, "opened 4\n1 @5 EIO 1\n2 @6 ok 68\n"),
    (5, "opened 4\n1 @5 ok 68\n2 @6 EIO 1\n"),
    (0, "opened 4\n1 @5 ok 68\n2 @6 ok 68\n"),
];

// Which of these was told.
fn answer_of(told: &Told) -> Option<usize> {
    for (at, answer) in ANSWERS.iter().enumerate() {
        let (status, text) = *answer;
        if told.is(status, text) {
            return Some(at);
        }
    }
    None
}

// Which of these the run tells.
fn told_at<Rt: Threads + Wait + Sync>(rig: &mut Rig<'_, Rt>) -> Result<Option<usize>, Memory> {
    if !rig.play(&HELLO)? {
        return Ok(None);
    }
    let told = rig.tell("run", "0 read /a 0 1\n0 read /a 0 1\n")?;
    let answer = answer_of(&told);
    drop(told);
    Ok(answer)
}

fn second_run<Rt: Threads + Wait + Sync>(
    rt: &Rt,
    alloc: Global,
    read: u64,
) -> Result<Option<usize>, Memory> {
    let mut rig = Rig::on(rt, alloc, failing(alloc, read)?);
    let answer = told_at(&mut rig);
    drop(rig);
    answer
}

/// The first run makes an opening and one read, and the second begins with a read of each page. More reads than the second makes then.
const LONGEST: u64 = 40;

// How many of the runs tell each of the answers, where a read fails each time that is one later, until none fails.
fn tally<Rt: Threads + Wait + Sync>(rt: &Rt, alloc: Global) -> Result<[u32; 4], Memory> {
    let mut counts = [0u32; 4];
    for further in 0..LONGEST {
        let read = OPENING + 1 + 1024 + further;
        let Some(at) = second_run(rt, alloc, read)? else {
            return Ok([0; 4]);
        };
        if let Some(count) = counts.get_mut(at) {
            *count = count.saturating_add(1);
        }
        if at == 3 {
            return Ok(counts);
        }
    }
    Ok(counts)
}

// The two lines read once each, and the opening more than once behind its first look.
#[test]
fn each_read_of_a_page_fails(rt: HostRuntime) -> Result<(), Fail> {
    let [openings, first, second, none] = tally(&rt, rt.alloc())?;
    assert!(rt; 1 < openings);
    assert_eq!(rt; [first, second, none], [1, 1, 1]);
    Ok(())
}
