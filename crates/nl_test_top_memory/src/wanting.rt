// Commands of which one may be for want of memory: it is not carried out then, or the medium failed for want of it. With ample memory all
// is as ever.
use nl_field::Memory;
use nl_nand::Nand;
use nl_testkit_program::play::{FORMAT, Step, answered};
use nl_testkit_program::program::Rig;
use std::alloc::Global;
use std::sync::Wait;
use std::test::Fail;
use std::thread::Threads;

// The soak's summary is that of a generator and a tree of files that were written apart from the program.
const STEPS: [Step<'static>; 8] = [
    FORMAT,
    (
        "soak 7 5 2",
        "",
        0,
        "soak calls 12 ok 8 refused 4\nbytes written 0 read 0\ndata 0 nodes 6 meta 3\n",
    ),
    FORMAT,
    (
        "run",
        "0 create /a\n0 write /a 0 68656c6c6f\n0 sync\n",
        0,
        "opened 0\n1 @1 ok\n2 @2 ok 5\n3 @3 ok 2\n",
    ),
    ("check", "", 0, "sound 3\n"),
    (
        "run",
        "0 read /a 0 9\n",
        0,
        "opened 3\n1 @4 ok 68656c6c6f\n",
    ),
    ("tree", "", 0, "opened 4\nd / 1\nf /a 5 1\n"),
    // The making programs 2 pages, the file has 1, the sync writes 3 pages by 8 programs, and each closing 1 page by 4; before the second
    // one the page of the last transaction is copied home once more. The block of the making has no needed page then: it is erased, and
    // takes the pages of the second run.
    (
        "report",
        "",
        0,
        "opened 4\nblocks virtual 8 physical 24\npages data 1 of 480 nodes 2 of 64 meta 1 of 32\nremap 0\nwear least 0 greatest 1\nstamp 21\n",
    ),
];

// Which of them is the soak, and how many calls it has.
const SOAK: usize = 1;

const SOAKED: u64 = 12;

// How a command ended.
#[derive(Clone, Copy)]
enum Ending {
    Whole,
    // For want of memory, and the medium was not written to.
    Wanting,
    // A program failed, and so many calls were durable before.
    Failed(u64),
    Wrong,
}

fn ended<Rt: Threads + Wait + Sync>(
    rig: &mut Rig<'_, Rt>,
    step: &Step<'_>,
) -> Result<Ending, Memory> {
    let (words, script, status, text) = *step;
    let clock = rig.media.clock();
    let faults = rig.media.write_faults();
    let told = rig.tell(words, script)?;
    let failed = rig.media.write_faults() != faults;
    let ending = if told.is(status, text) && !failed {
        Ending::Whole
    } else if told.is(6, "memory\n") && !failed && rig.media.clock() == clock {
        Ending::Wanting
    } else if told.status == 5 && failed {
        Ending::Failed(told.synced())
    } else {
        Ending::Wrong
    };
    drop(told);
    Ok(ending)
}

// Whether a volume is right on which a soak broke off after at least so many calls.
fn soaked_right<Rt: Threads + Wait + Sync>(
    rig: &mut Rig<'_, Rt>,
    least: u64,
) -> Result<bool, Memory> {
    match rig.counted()? {
        Some(count) if least <= count && count <= SOAKED => Ok(true),
        Some(_) => rig.note("another count"),
        None => rig.note("not sound"),
    }
}

// Whether a volume is right that opens after at least so many calls.
fn left_right<Rt: Threads + Wait + Sync>(
    rig: &mut Rig<'_, Rt>,
    least: u64,
) -> Result<bool, Memory> {
    let Some(count) = rig.counted()? else {
        return rig.note("not sound");
    };
    if count < least || 4 < count {
        return rig.note("another count");
    }
    let answer = match count {
        0 => "ENOENT",
        1 => "ok -",
        _ => "ok 68656c6c6f",
    };
    let text = answered(rig.alloc, count, 0, &[answer])?;
    let right = rig.play(&[("run", "0 read /a 0 9\n", 0, text.as_str())]);
    drop(text);
    right
}

// Whether these steps are told as wanted on this medium.
fn steps_right<Rt: Threads + Wait + Sync>(rig: &mut Rig<'_, Rt>) -> Result<bool, Memory> {
    for (at, step) in STEPS.iter().enumerate() {
        let right = match ended(rig, step)? {
            Ending::Whole => true,
            Ending::Wanting => rig.play(&[*step])?,
            Ending::Failed(_) if at == 0 || at == SOAK + 1 => rig.play(&[*step])?,
            Ending::Failed(synced) if at == SOAK => return soaked_right(rig, synced),
            Ending::Failed(synced) => return left_right(rig, synced),
            Ending::Wrong => rig.note("another ending")?,
        };
        if !right {
            return Ok(false);
        }
    }
    Ok(true)
}

fn steps<Rt: Threads + Wait + Sync>(rt: &Rt, alloc: Global) -> Result<String, Memory> {
    let mut rig = Rig::new(rt, alloc);
    let right = steps_right(&mut rig);
    rig.ended(right)
}

// Where the allocation is one of the test's own, nothing is told.
#[test]
fn a_volume(rt: HostRuntime) -> Result<(), Fail> {
    let wrong = match steps(&rt, rt.alloc()) {
        Ok(wrong) => wrong,
        Err(_) => String::new(rt.alloc()),
    };
    assert_eq!(rt; wrong.as_str(), "");
    Ok(())
}
