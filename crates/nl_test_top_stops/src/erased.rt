// The erase of a block that is cleaned is stopped, or fails.
use crate::asserting::assert_none_wrong;
use nl_field::{FailList, Memory};
use nl_nand::{Cut, MemNand, Stop};
use nl_testkit_program::play::{FORMAT, Step, answered};
use nl_testkit_program::program::{Rig, only};
use std::alloc::Global;
use std::sync::Wait;
use std::thread::Threads;

const CLEANED: &str = "0 create /a
0 create /b
0 fill /a 0 65536 61
0 fill /b 0 65536 62
0 fill /b 0 65536 63
0 sync
0 clean
";

/// The erase of the cleaning: before it come the 48 pages of the fills, the 7 programs of the sync (a header, the images of the super page,
/// the nodes, the root and the pointers of both files, and the commit page), and the copies of the 16 pages of the first block that are
/// live. The five pages are copied home as the volume is closed.
const ERASE: u64 = 48 + 7 + 16 + 1;

/// The run in which that erase does not come to its end.
const STOPPED: Step<'static> = (
    "run",
    CLEANED,
    5,
    "opened 0\n1 @1 ok\n2 @2 ok\n3 @3 ok 65536\n4 @4 ok 65536\n5 @5 ok 65536\n6 @6 ok 5\n7 @7 EIO 1\n",
);

// Whether the two files are told as wanted on a volume after so many calls.
fn files_right<Rt: Threads + Wait + Sync>(
    rig: &mut Rig<'_, Rt>,
    count: u64,
) -> Result<bool, Memory> {
    let answers = [
        "ok 2 a b",
        "ok file 65536 16",
        "ok file 65536 16",
        "ok 6161",
        "ok 6363",
    ];
    if !rig.is_sound(count)? {
        return Ok(false);
    }
    let text = answered(rig.alloc, count, 0, &answers)?;
    let script = "0 list /\n0 stat /a\n0 stat /b\n0 read /a 65534 9\n0 read /b 0 2\n";
    let right = rig.play(&[("run", script, 0, text.as_str())]);
    drop(text);
    right
}

// Whether the paths of the two files are told as wanted on a volume after so many calls.
fn paths_right<Rt: Threads + Wait + Sync>(
    rig: &mut Rig<'_, Rt>,
    count: u64,
) -> Result<bool, Memory> {
    let text = format!(in rig.alloc; "opened {count}\nd / 2\nf /a 65536 16\nf /b 65536 16\n")?;
    let right = rig.play(&[("tree", "", 0, text.as_str())]);
    drop(text);
    right
}

// Whether all is right where the erase is stopped, and a reading of the volume is stopped again.
fn stop_right<Rt: Threads + Wait + Sync>(
    rig: &mut Rig<'_, Rt>,
    cut: Cut,
    second: Stop,
) -> Result<bool, Memory> {
    let stop = Stop {
        operation: ERASE,
        cut,
    };
    if !rig.play(&[FORMAT])? {
        return Ok(false);
    }
    rig.restart(Some(stop));
    if !rig.play(&[STOPPED])? {
        return Ok(false);
    }
    rig.restart(Some(second));
    let told = rig.tell("run", "0 read /a 0 2\n")?;
    rig.restart(None);
    let is_read = told.text() == b"opened 5\n1 @6 ok 6161\n".as_slice();
    drop(told);
    if !is_read {
        return rig.note("another text");
    }
    let count = if rig.counted()? == Some(6) { 6 } else { 5 };
    Ok(paths_right(rig, count)? && files_right(rig, count)?)
}

// Mixed cuts of an erase leave some pages, erase some, and spoil the others.
const CUTS: [Cut; 7] = [
    Cut::Before,
    Cut::After,
    Cut::Spoilt,
    Cut::Mixed(0),
    Cut::Mixed(1),
    Cut::Mixed(6),
    Cut::Mixed(205465758716988),
];

const NEXT: [Cut; 4] = [Cut::Before, Cut::After, Cut::Spoilt, Cut::Before];

// A run that reads a file is stopped then within every other of its programs, with another cut each.
fn cut_right<Rt: Threads + Wait + Sync>(
    rig: &mut Rig<'_, Rt>,
    cut: Cut,
    first: u64,
) -> Result<bool, Memory> {
    for at in 0..4usize {
        let second = Stop {
            operation: first.saturating_add(2 * at as u64),
            cut: NEXT[at],
        };
        if !stop_right(rig, cut, second)? {
            return Ok(false);
        }
    }
    Ok(true)
}

fn cuts_right<Rt: Threads + Wait + Sync>(rig: &mut Rig<'_, Rt>) -> Result<bool, Memory> {
    for (at, cut) in CUTS.iter().enumerate() {
        if !cut_right(rig, *cut, 1 + at as u64 % 2)? {
            return rig.note_run(at as u64);
        }
    }
    Ok(true)
}

fn cuts<Rt: Threads + Wait + Sync>(rt: &Rt, alloc: Global) -> Result<String, Memory> {
    let mut rig = Rig::new(rt, alloc);
    let right = cuts_right(&mut rig);
    rig.ended(right)
}

#[test]
fn the_erase_is_stopped(rt: HostRuntime) {
    assert_none_wrong(&rt, cuts(&rt, rt.alloc()));
}

// The making has two programs.
fn failure<Rt: Threads + Wait + Sync>(rt: &Rt, alloc: Global) -> Result<String, Memory> {
    let writes = only(alloc, ERASE + 2)?;
    let media = MemNand::new(alloc, FailList::new(alloc), writes, None);
    let mut rig = Rig::on(rt, alloc, media);
    let right = failure_right(&mut rig);
    rig.ended(right)
}

fn failure_right<Rt: Threads + Wait + Sync>(rig: &mut Rig<'_, Rt>) -> Result<bool, Memory> {
    Ok(rig.play(&[FORMAT, STOPPED])? && paths_right(rig, 5)? && files_right(rig, 5)?)
}

#[test]
fn the_erase_fails(rt: HostRuntime) {
    assert_none_wrong(&rt, failure(&rt, rt.alloc()));
}
