// A read of the source or a write of the sink fails.
use crate::asserting::assert_none_wrong;
use nl_field::Memory;
use nl_testkit_program::note::{NOTE, SAVED, holds};
use nl_testkit_program::play::FORMAT;
use nl_testkit_program::program::{Given, Rig, Told};
use nl_top::NoGate;
use std::alloc::Global;
use std::sync::Wait;
use std::thread::Threads;

// Whether a saving was told whose text broke off.
fn is_broken_off(told: &Told) -> bool {
    let text = told.text();
    let part = SAVED.as_bytes().starts_with(text) && text.len() < SAVED.len();
    told.status == 4 && part && told.order.len() == 13 && told.synced() == 9
}

// Whether such a text broke off at this write of the sink.
fn breaks_off<Rt: Threads + Wait + Sync>(
    rig: &mut Rig<'_, Rt>,
    write: u64,
) -> Result<bool, Memory> {
    let given = Given {
        words: "run",
        script: NOTE,
        read: 0,
        write,
    };
    let told = rig.tell_with(&given, &NoGate)?;
    let right = if is_broken_off(&told) {
        Ok(true)
    } else {
        rig.note_told("run", &told)
    };
    drop(told);
    right
}

// The volume holds all of the saving. The text is two writes: the line of the opening, and the 13 lines of the answers.
fn writes_right<Rt: Threads + Wait + Sync>(rig: &mut Rig<'_, Rt>) -> Result<bool, Memory> {
    for write in 1..=2u64 {
        if !rig.play(&[FORMAT])? || !breaks_off(rig, write)? || !holds(rig, 13, 13, false)? {
            return rig.note_run(write);
        }
    }
    Ok(true)
}

fn writes<Rt: Threads + Wait + Sync>(rt: &Rt, alloc: Global) -> Result<String, Memory> {
    let mut rig = Rig::new(rt, alloc);
    let right = writes_right(&mut rig);
    rig.ended(right)
}

#[test]
fn each_write_of_the_sink_fails(rt: HostRuntime) {
    assert_none_wrong(&rt, writes(&rt, rt.alloc()));
}

// Words, a script, which read of the source and which write of the sink fails, and the status and the text.
type Row = (&'static str, &'static str, u64, u64, u8, &'static str);

// What fails first gives the status: the words, the source, the script, the medium, and last the sink.
const ORDER: [Row; 13] = [
    ("runs", "", 1, 1, 2, ""),
    ("run", "", 1, 0, 3, "source fault\n"),
    ("run", "", 1, 1, 3, ""),
    ("run", "0 create\n", 1, 0, 3, "source fault\n"),
    ("run", "0 create\n", 0, 1, 2, ""),
    ("run", "", 0, 1, 7, ""),
    ("check", "", 1, 1, 7, ""),
    ("tree", "", 1, 1, 7, ""),
    ("report", "", 1, 1, 7, ""),
    ("soak 7 5 2", "", 1, 1, 7, ""),
    ("format 32 32", "", 1, 1, 4, ""),
    ("check", "", 1, 1, 4, ""),
    ("run", "", 0, 1, 4, ""),
];

// Whether what is given is told with this status and text.
fn is_told<Rt: Threads + Wait + Sync>(
    rig: &mut Rig<'_, Rt>,
    given: &Given<'_>,
    status: u8,
    text: &str,
) -> Result<bool, Memory> {
    let told = rig.tell_with(given, &NoGate)?;
    let right = if told.is(status, text) {
        Ok(true)
    } else {
        rig.note_told(given.words, &told)
    };
    drop(told);
    right
}

fn order_right<Rt: Threads + Wait + Sync>(rig: &mut Rig<'_, Rt>) -> Result<bool, Memory> {
    for (at, row) in ORDER.iter().enumerate() {
        let (words, script, read, write, status, text) = *row;
        let given = Given {
            words,
            script,
            read,
            write,
        };
        if !is_told(rig, &given, status, text)? {
            return rig.note_run(at as u64);
        }
    }
    Ok(true)
}

fn order<Rt: Threads + Wait + Sync>(rt: &Rt, alloc: Global) -> Result<String, Memory> {
    let mut rig = Rig::new(rt, alloc);
    let right = order_right(&mut rig);
    rig.ended(right)
}

#[test]
fn what_fails_first_gives_the_status(rt: HostRuntime) {
    assert_none_wrong(&rt, order(&rt, rt.alloc()));
}

// A script whose bytes come by more than one read.
fn script_of(alloc: Global) -> Result<String, Memory> {
    let mut script = String::from_str(alloc, "0 create /a\n")?;
    for _ in 0..7000 {
        script.push_str("# a line of 20 bytes\n")?;
    }
    Ok(script)
}

// Whether each of the three reads of a script is told that fails.
fn script_right<Rt: Threads + Wait + Sync>(
    rig: &mut Rig<'_, Rt>,
    script: &str,
) -> Result<bool, Memory> {
    for read in 1..=3u64 {
        let given = Given {
            words: "run",
            script,
            read,
            write: 0,
        };
        if !is_told(rig, &given, 3, "source fault\n")? {
            return rig.note_run(read);
        }
    }
    Ok(true)
}

fn reads_right<Rt: Threads + Wait + Sync>(rig: &mut Rig<'_, Rt>) -> Result<bool, Memory> {
    if !rig.play(&[FORMAT])? {
        return Ok(false);
    }
    let script = script_of(rig.alloc)?;
    let right = script_right(rig, script.as_str());
    drop(script);
    Ok(right? && rig.is_sound(0)?)
}

fn reads<Rt: Threads + Wait + Sync>(rt: &Rt, alloc: Global) -> Result<String, Memory> {
    let mut rig = Rig::new(rt, alloc);
    let right = reads_right(&mut rig);
    rig.ended(right)
}

#[test]
fn each_read_of_the_source_fails(rt: HostRuntime) {
    assert_none_wrong(&rt, reads(&rt, rt.alloc()));
}
