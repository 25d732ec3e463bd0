// Command lines and scripts that are refused.
use crate::asserting::assert_none_wrong;
use nl_field::Memory;
use nl_testkit_program::play::FORMAT;
use nl_testkit_program::program::Rig;
use std::alloc::Global;
use std::sync::Wait;
use std::thread::Threads;

const LINES: [&str; 26] = [
    "",
    "runs",
    "Run",
    "run run",
    "check 1",
    "tree 1",
    "report 1",
    "format",
    "format 32",
    "format 31 32",
    "format 32 31",
    "format 32 257",
    "format 4097 32",
    "format 4096 128",
    "format 32 32 1",
    "format x 32",
    "format -32 32",
    "format 32 +32",
    "format 32 4294967328",
    "soak",
    "soak 7 200",
    "soak 7 0 8",
    "soak 7 20001 8",
    "soak 7 200 0",
    "soak 7 200 9",
    "soak 9223372036854775808 200 8",
];

// One script for each cause. Nothing of a refused script is run.
const SCRIPTS: [(&str, &str); 16] = [
    ("0 write /a 0 6\n", "script 1 14 hex\n"),
    ("0 write /a 0", "script 1 13 missing\n"),
    ("9 create /a\n", "script 1 1 worker\n"),
    ("0 read /a 0 65537\n", "script 1 13 long\n"),
    ("0 create /a\n0 sync\t\n", "script 2 7 byte\n"),
    (
        "0 create /a\nbarrier\n\n0 make /b\n",
        "script 4 3 command\n",
    ),
    ("# a\n0 create /a/\n", "script 2 10 path\n"),
    ("0 rename /a b\n", "script 1 13 path\n"),
    (
        "0 truncate /a 9223372036854775808\n",
        "script 1 15 number\n",
    ),
    ("0 read /a 00000000000000000000 1\n", "script 1 11 number\n"),
    ("0 fill /a 0 1 616\n", "script 1 15 hex\n"),
    ("0 sync 0\n", "script 1 8 extra\n"),
    ("barrier 1\n", "script 1 9 extra\n"),
    ("0\n", "script 1 2 missing\n"),
    ("0 create /a\r\n0 mkdir   \r\n", "script 2 11 missing\n"),
    ("0 create /a\n8 create /b\n", "script 2 1 worker\n"),
];

// Whether each of the command lines is refused, and leaves the medium.
fn lines_refused<Rt: Threads + Wait + Sync>(rig: &mut Rig<'_, Rt>) -> Result<bool, Memory> {
    for line in LINES.iter() {
        if !rig.play(&[(*line, "", 2, "words\n")])? {
            return Ok(false);
        }
    }
    rig.play(&[("check", "", 7, "blank\n"), FORMAT])
}

// Whether each of the scripts is refused with its text, and leaves the volume sound after no call.
fn scripts_refused<Rt: Threads + Wait + Sync>(rig: &mut Rig<'_, Rt>) -> Result<bool, Memory> {
    for row in SCRIPTS.iter() {
        let (script, text) = *row;
        if !rig.play(&[("run", script, 2, text)])? {
            return Ok(false);
        }
    }
    rig.is_sound(0)
}

fn all_refused<Rt: Threads + Wait + Sync>(rig: &mut Rig<'_, Rt>) -> Result<bool, Memory> {
    Ok(lines_refused(rig)? && scripts_refused(rig)?)
}

fn taken<Rt: Threads + Wait + Sync>(rt: &Rt, alloc: Global) -> Result<String, Memory> {
    let mut rig = Rig::new(rt, alloc);
    let right = all_refused(&mut rig);
    rig.ended(right)
}

#[test]
fn lines_and_scripts(rt: HostRuntime) {
    assert_none_wrong(&rt, taken(&rt, rt.alloc()));
}

fn copies(alloc: Global, text: &str, count: u32) -> Result<String, Memory> {
    let mut all = String::new(alloc);
    for _ in 0..count {
        all.push_str(text)?;
    }
    Ok(all)
}

// Whether a run of this script on a new volume is told as wanted.
fn is_run<Rt: Threads + Wait + Sync>(
    rig: &mut Rig<'_, Rt>,
    script: &str,
    status: u8,
    text: &str,
) -> Result<bool, Memory> {
    rig.play_new(&[("run", script, status, text)])
}

fn reads(alloc: Global) -> Result<String, Memory> {
    let mut script = copies(alloc, "0 read /a 0 65536\n", 4095)?;
    script.push_str("0 list /\n0 read /a 0 1\n")?;
    Ok(script)
}

// The sum of the lengths that are read is at most 4096 times 65536, where a list counts as much as the longest read.
fn reads_right<Rt: Threads + Wait + Sync>(rig: &mut Rig<'_, Rt>) -> Result<bool, Memory> {
    let script = reads(rig.alloc)?;
    let right = is_run(rig, script.as_str(), 2, "script 4097 1 total\n");
    drop(script);
    right
}

fn written(alloc: Global, more: &str) -> Result<String, Memory> {
    let data = copies(alloc, "61", 65536)?;
    format!(in alloc; "0 create /a\n0 write /a 0 {data}{more}\n0 read /a 65535 2\n")
}

// A line of data with 131072 digits is the longest that is no comment.
fn data_right<Rt: Threads + Wait + Sync>(rig: &mut Rig<'_, Rt>) -> Result<bool, Memory> {
    let longest = written(rig.alloc, "")?;
    let text = "opened 0\n1 @1 ok\n2 @2 ok 65536\n3 @3 ok 61\n";
    let right = is_run(rig, longest.as_str(), 0, text);
    drop(longest);
    right
}

fn more_data_right<Rt: Threads + Wait + Sync>(rig: &mut Rig<'_, Rt>) -> Result<bool, Memory> {
    let longer = written(rig.alloc, "61")?;
    let right = is_run(rig, longer.as_str(), 2, "script 2 14 long\n");
    drop(longer);
    right
}

fn comment(alloc: Global) -> Result<String, Memory> {
    let line = copies(alloc, "#2345678", 17500)?;
    format!(in alloc; "{line}\n0 create /a\n{line}9\n")
}

// A comment has at most 140000 bytes.
fn comment_right<Rt: Threads + Wait + Sync>(rig: &mut Rig<'_, Rt>) -> Result<bool, Memory> {
    let script = comment(rig.alloc)?;
    let right = is_run(rig, script.as_str(), 2, "script 3 140001 long\n");
    drop(script);
    right
}

fn lengths_right<Rt: Threads + Wait + Sync>(rig: &mut Rig<'_, Rt>) -> Result<bool, Memory> {
    Ok(data_right(rig)? && more_data_right(rig)? && comment_right(rig)? && reads_right(rig)?)
}

fn lengths_wrong<Rt: Threads + Wait + Sync>(rt: &Rt, alloc: Global) -> Result<String, Memory> {
    let mut rig = Rig::new(rt, alloc);
    let right = lengths_right(&mut rig);
    rig.ended(right)
}

#[test]
fn the_greatest_lengths(rt: HostRuntime) {
    assert_none_wrong(&rt, lengths_wrong(&rt, rt.alloc()));
}
