// The putting of a file is stopped.
use nl_field::Memory;
use nl_nand::{Cut, Stop};
use nl_testkit_program::play::FORMAT;
use nl_testkit_program::program::Rig;
use std::alloc::Global;
use std::sync::Wait;
use std::test::Fail;
use std::thread::Threads;

// A stop within a program or an erase of a put in place of an old file, and after how many calls the volume opens then: the first put made
// 4, the second makes 4 more, and after three of them the path has the new file. The commit page of its sync is the operation 8, and that
// of the closing the operation 14, of 15.
const STOPS: [(u64, Cut, u64); 10] = [
    (1, Cut::Before, 4),
    (2, Cut::After, 4),
    (5, Cut::Spoilt, 4),
    (8, Cut::Before, 4),
    (8, Cut::Spoilt, 4),
    (8, Cut::After, 7),
    (9, Cut::Spoilt, 7),
    (13, Cut::After, 7),
    (14, Cut::After, 8),
    (15, Cut::After, 8),
];

const OLD: &str = "old";

const NEW: &str = "the new one";

// Whether the volume opens after so many calls, has one path, and there the old file, or behind the rename the new one.
fn left_right<Rt: Threads + Wait + Sync>(
    rig: &mut Rig<'_, Rt>,
    count: u64,
) -> Result<bool, Memory> {
    let text = if count < 7 { OLD } else { NEW };
    let size = text.len();
    let tree = format!(in rig.alloc; "opened {count}\nd / 1\nf /a {size} 1\n")?;
    let right = rig.play(&[("get /a", "", 0, text), ("tree", "", 0, tree.as_str())]);
    drop(tree);
    Ok(right? && rig.is_sound(count)?)
}

// Whether a put over an old file is stopped there, and this is left.
fn stop_right<Rt: Threads + Wait + Sync>(
    rig: &mut Rig<'_, Rt>,
    stop: Stop,
    count: u64,
) -> Result<bool, Memory> {
    if !rig.play(&[FORMAT, ("put /a", OLD, 0, "put 3\n")])? {
        return Ok(false);
    }
    rig.restart(Some(stop));
    if !rig.play(&[("put /a", NEW, 5, "")])? {
        return Ok(false);
    }
    rig.restart(None);
    left_right(rig, count)
}

fn stops_right<Rt: Threads + Wait + Sync>(rig: &mut Rig<'_, Rt>) -> Result<bool, Memory> {
    for (at, row) in STOPS.iter().enumerate() {
        let (operation, cut, count) = *row;
        if !stop_right(rig, Stop { operation, cut }, count)? {
            return rig.note_run(at as u64);
        }
    }
    Ok(true)
}

fn stops_wrong<Rt: Threads + Wait + Sync>(rt: &Rt, alloc: Global) -> Result<String, Memory> {
    let mut rig = Rig::new(rt, alloc);
    let right = stops_right(&mut rig);
    rig.ended(right)
}

#[test]
fn a_put_is_stopped(rt: HostRuntime) -> Result<(), Fail> {
    let wrong = stops_wrong(&rt, rt.alloc())?;
    assert_eq!(rt; wrong.as_str(), "");
    Ok(())
}
