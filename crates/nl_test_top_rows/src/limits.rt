// What a volume has room for: pages, nodes, metadata, and entries of a directory.
use crate::asserting::assert_none_wrong;
use nl_field::Memory;
use nl_testkit_program::built::{Built, full};
use nl_testkit_program::play::{FORMAT, Step};
use nl_testkit_program::program::Rig;
use std::alloc::Global;
use std::sync::Wait;
use std::thread::Threads;

fn overwritten(alloc: Global) -> Result<Built, Memory> {
    let mut built = Built::new(alloc, 33)?;
    for _ in 0..100 {
        built.add("fill /a 0 65536 62", "ok 65536")?;
    }
    built.add("read /a 65534 4", "ok 62626161")?;
    Ok(built)
}

// Whether a run of these lines and the steps behind it are told as wanted.
fn built_right<Rt: Threads + Wait + Sync>(
    rig: &mut Rig<'_, Rt>,
    built: &Built,
    steps: &[Step<'_>],
) -> Result<bool, Memory> {
    Ok(rig.play(&[built.step()])? && rig.play(steps)?)
}

fn full_right<Rt: Threads + Wait + Sync>(rig: &mut Rig<'_, Rt>) -> Result<bool, Memory> {
    if !rig.play(&[FORMAT])? {
        return Ok(false);
    }
    let full = full(rig.alloc)?;
    let right = built_right(rig, &full, &[]);
    drop(full);
    right
}

const OVERWRITTEN: [Step<'static>; 2] = [
    ("check", "", 0, "sound 134\n"),
    (
        "run",
        "0 read /a 0 2\n0 read /a 1966078 4\n0 write /a 1966080 62\n0 write /a 1966079 62\n0 read /a 1966078 4\n",
        0,
        "opened 134\n1 @135 ok 6262\n2 @136 ok 6161\n3 @137 ENOSPC data\n4 @138 ok 1\n5 @139 ok 6162\n",
    ),
];

// Whether a report tells a wear above 0.
fn wears(text: &[u8]) -> bool {
    text.split(|byte| *byte == b'\n').any(|line| line.starts_with(b"wear ")
        && !line.ends_with(b" greatest 0"))
}

// Whether the report tells that a block was erased.
fn wear_right<Rt: Threads + Wait + Sync>(rig: &mut Rig<'_, Rt>) -> Result<bool, Memory> {
    let told = rig.tell("report", "")?;
    let right = if told.status == 0 && wears(told.text()) {
        Ok(true)
    } else {
        rig.note_told("report", &told)
    };
    drop(told);
    right
}

fn overwritten_right<Rt: Threads + Wait + Sync>(rig: &mut Rig<'_, Rt>) -> Result<bool, Memory> {
    let overwritten = overwritten(rig.alloc)?;
    let right = built_right(rig, &overwritten, &OVERWRITTEN);
    drop(overwritten);
    Ok(right? && wear_right(rig)?)
}

fn written_anew(alloc: Global) -> Result<Built, Memory> {
    let mut built = Built::new(alloc, 33)?;
    built.add_all(&[("unlink /a", "ok"), ("create /a", "ok")])?;
    built.fill(alloc, "/a", 30, "63")?;
    built.add("stat /a", "ok file 1966080 480")?;
    Ok(built)
}

const ANEW: [Step<'static>; 2] = [
    ("check", "", 0, "sound 66\n"),
    (
        "run",
        "0 read /a 0 2\n0 read /a 1966079 1\n",
        0,
        "opened 66\n1 @67 ok 6363\n2 @68 ok 63\n",
    ),
];

fn anew_right<Rt: Threads + Wait + Sync>(rig: &mut Rig<'_, Rt>) -> Result<bool, Memory> {
    let written_anew = written_anew(rig.alloc)?;
    let right = built_right(rig, &written_anew, &ANEW);
    drop(written_anew);
    right
}

// Whether all is told as wanted of a full volume that is written over, or written anew.
fn full_then_right<Rt: Threads + Wait + Sync>(
    rig: &mut Rig<'_, Rt>,
    anew: bool,
) -> Result<bool, Memory> {
    if !full_right(rig)? {
        return Ok(false);
    }
    if anew {
        anew_right(rig)
    } else {
        overwritten_right(rig)
    }
}

fn full_then<Rt: Threads + Wait + Sync>(
    rt: &Rt,
    alloc: Global,
    anew: bool,
) -> Result<String, Memory> {
    let mut rig = Rig::new(rt, alloc);
    let right = full_then_right(&mut rig, anew);
    rig.ended(right)
}

#[test]
fn a_full_volume_is_overwritten(rt: HostRuntime) {
    assert_none_wrong(&rt, full_then(&rt, rt.alloc(), false));
}

#[test]
fn a_full_volume_is_written_anew(rt: HostRuntime) {
    assert_none_wrong(&rt, full_then(&rt, rt.alloc(), true));
}

// One page is written over more often than the volume has pages for it.
fn of_one_page(alloc: Global) -> Result<Built, Memory> {
    let mut built = Built::new(alloc, 0)?;
    built.add("create /a", "ok")?;
    for _ in 0..737 {
        built.add("write /a 0 61", "ok 1")?;
    }
    Ok(built)
}

// 64 nodes, of which the root is one.
fn of_nodes(alloc: Global) -> Result<Built, Memory> {
    let mut built = Built::new(alloc, 0)?;
    for number in 0..63 {
        let call = format!(in alloc; "create /f{number}")?;
        built.add(call.as_str(), "ok")?;
    }
    built.add_all(&[
        ("create /f63", "ENOSPC nodes"),
        ("mkdir /f63", "ENOSPC nodes"),
        ("rename /f62 /f61", "ok"),
        ("mkdir /f63", "ok"),
        ("stat /", "ok dir 63"),
    ])?;
    Ok(built)
}

// Writes a byte into so many ranges of 256 page indexes.
fn add_ranges(alloc: Global, built: &mut Built, file: &str, count: u64) -> Result<(), Memory> {
    for range in 0..count {
        let from = range.saturating_mul(1048576).saturating_add(32768);
        let call = format!(in alloc; "write {file} {from} 61")?;
        built.add(call.as_str(), "ok 1")?;
    }
    Ok(())
}

// 32 metadata pages: one of the entries of the root, and one of each range of 256 page indexes.
fn of_metadata(alloc: Global) -> Result<Built, Memory> {
    let mut built = Built::new(alloc, 0)?;
    built.add_all(&[("create /a", "ok"), ("create /b", "ok")])?;
    add_ranges(alloc, &mut built, "/a", 16)?;
    add_ranges(alloc, &mut built, "/b", 15)?;
    built.add_all(&[
        ("write /b 15761408 61", "ENOSPC meta"),
        ("write /b 0 61", "ok 1"),
        ("mkdir /d", "ok"),
        ("create /d/x", "ENOSPC meta"),
        ("truncate /a 15761408", "ok"),
        ("create /d/x", "ok"),
        ("stat /a", "ok file 15761408 15"),
    ])?;
    Ok(built)
}

// Whether a run of these lines on a new volume and a check behind it are told as wanted.
fn most<Rt: Threads + Wait + Sync>(
    rig: &mut Rig<'_, Rt>,
    built: &Built,
    sound: &str,
) -> Result<bool, Memory> {
    rig.play_new(&[built.step(), ("check", "", 0, sound)])
}

fn most_of_one_page<Rt: Threads + Wait + Sync>(rig: &mut Rig<'_, Rt>) -> Result<bool, Memory> {
    let built = of_one_page(rig.alloc)?;
    let right = most(rig, &built, "sound 738\n");
    drop(built);
    right
}

fn most_nodes<Rt: Threads + Wait + Sync>(rig: &mut Rig<'_, Rt>) -> Result<bool, Memory> {
    let built = of_nodes(rig.alloc)?;
    let right = most(rig, &built, "sound 68\n");
    drop(built);
    right
}

fn most_metadata<Rt: Threads + Wait + Sync>(rig: &mut Rig<'_, Rt>) -> Result<bool, Memory> {
    let built = of_metadata(rig.alloc)?;
    let right = most(rig, &built, "sound 40\n");
    drop(built);
    right
}

fn most_right<Rt: Threads + Wait + Sync>(rig: &mut Rig<'_, Rt>) -> Result<bool, Memory> {
    Ok(most_of_one_page(rig)? && most_nodes(rig)? && most_metadata(rig)?)
}

fn most_wrong<Rt: Threads + Wait + Sync>(rt: &Rt, alloc: Global) -> Result<String, Memory> {
    let mut rig = Rig::new(rt, alloc);
    let right = most_right(&mut rig);
    rig.ended(right)
}

#[test]
fn the_most_of_a_volume(rt: HostRuntime) {
    assert_none_wrong(&rt, most_wrong(&rt, rt.alloc()));
}

// Names of 55 and of 56 bytes.
const LONGEST: &str = "create /nnnnnnnnnnnnnnnnnnnnnnnnnnnnnnnnnnnnnnnnnnnnnnnnnnnnnnn";

const LONGER: &str = "create /nnnnnnnnnnnnnnnnnnnnnnnnnnnnnnnnnnnnnnnnnnnnnnnnnnnnnnnn";

fn of_entries(alloc: Global) -> Result<Built, Memory> {
    let mut built = Built::new(alloc, 0)?;
    built.add("mkdir /d", "ok")?;
    for number in 0..1024 {
        let call = format!(in alloc; "create /d/e{number}")?;
        built.add(call.as_str(), "ok")?;
    }
    built.add("create /d/e1024", "ENOSPC dir")?;
    built.add(LONGEST, "ok")?;
    built.add(LONGER, "ENAMETOOLONG")?;
    built.add_all(&[
        ("rename /d/e1023 /e", "ok"),
        ("create /d/e1024", "ok"),
        ("stat /d", "ok dir 1024"),
    ])?;
    Ok(built)
}

const LARGE: Step<'static> = (
    "format 512 64",
    "",
    0,
    "formatted blocks 512 pages 64 data 30816 nodes 2048 meta 1024\n",
);

const ENTRIES: [Step<'static>; 2] = [
    ("check", "", 0, "sound 1031\n"),
    (
        "run",
        "0 stat /d\n0 stat /d/e0\n0 stat /d/e1023\n0 stat /d/e1024\n0 create /d/e1025\n",
        0,
        "opened 1031\n1 @1032 ok dir 1024\n2 @1033 ok file 0 0\n3 @1034 ENOENT\n4 @1035 ok file 0 0\n5 @1036 ENOSPC dir\n",
    ),
];

fn entries_right<Rt: Threads + Wait + Sync>(rig: &mut Rig<'_, Rt>) -> Result<bool, Memory> {
    if !rig.play(&[LARGE])? {
        return Ok(false);
    }
    let built = of_entries(rig.alloc)?;
    let right = built_right(rig, &built, &ENTRIES);
    drop(built);
    right
}

fn most_entries<Rt: Threads + Wait + Sync>(rt: &Rt, alloc: Global) -> Result<String, Memory> {
    let mut rig = Rig::new(rt, alloc);
    let right = entries_right(&mut rig);
    rig.ended(right)
}

#[test]
fn the_most_entries(rt: HostRuntime) {
    assert_none_wrong(&rt, most_entries(&rt, rt.alloc()));
}
