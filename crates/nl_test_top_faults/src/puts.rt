// A file is put, and the source, the sink or a program of the medium fails.
use nl_field::{FailList, Memory};
use nl_nand::MemNand;
use nl_testkit_program::play::FORMAT;
use nl_testkit_program::program::{Given, Rig, only};
use nl_top::NoGate;
use std::alloc::Global;
use std::sync::Wait;
use std::test::Fail;
use std::thread::Threads;

// Which program or erase of the medium fails while a new file is put in place of an old one, and which of both is there then. The making
// and the first put make 15 of them. Of the 15 of the second put the commit page of its sync is the 8th, and that of its closing the 14th.
const FAILURES: [(u64, &str); 7] = [
    (16, "old"),
    (18, "old"),
    (19, "old"),
    (23, "old"),
    (24, "new"),
    (29, "new"),
    (30, "new"),
];

// A medium whose program of that number fails.
fn failing(alloc: Global, program: u64) -> Result<MemNand, Memory> {
    Ok(MemNand::new(alloc, FailList::new(alloc), only(alloc, program)?, None))
}

// Whether a put over an old file is not said to be done, and this text is there then.
fn is_left<Rt: Threads + Wait + Sync>(rig: &mut Rig<'_, Rt>, text: &str) -> Result<bool, Memory> {
    rig.play(&[
        FORMAT,
        ("put /a", "old", 0, "put 3\n"),
        ("put /a", "new", 5, ""),
        ("get /a", "", 0, text),
    ])
}

fn left_at<Rt: Threads + Wait + Sync>(
    rt: &Rt,
    alloc: Global,
    program: u64,
    text: &str,
) -> Result<String, Memory> {
    let mut rig = Rig::on(rt, alloc, failing(alloc, program)?);
    let right = is_left(&mut rig, text);
    rig.ended(right)
}

fn left_wrong<Rt: Threads + Wait + Sync>(rt: &Rt, alloc: Global) -> Result<String, Memory> {
    for row in FAILURES.iter() {
        let (program, text) = *row;
        let wrong = left_at(rt, alloc, program, text)?;
        if !wrong.is_empty() {
            return Ok(wrong);
        }
        drop(wrong);
    }
    Ok(String::new(alloc))
}

#[test]
fn a_program_of_a_put_fails(rt: HostRuntime) -> Result<(), Fail> {
    let wrong = left_wrong(&rt, rt.alloc())?;
    assert_eq!(rt; wrong.as_str(), "");
    Ok(())
}

// Which read of the source and which write of the sink fails, the status and the text, and what a `get` tells then.
type Row = (u64, u64, u8, &'static str, u8, &'static str);

const STREAMS: [Row; 4] = [
    (1, 0, 3, "source fault\n", 2, ""),
    (2, 1, 3, "", 2, ""),
    (0, 1, 4, "", 0, "hello"),
    (0, 0, 0, "put 5\n", 0, "hello"),
];

fn stream_right<Rt: Threads + Wait + Sync>(
    rig: &mut Rig<'_, Rt>,
    row: Row,
) -> Result<bool, Memory> {
    let (read, write, status, text, then, got) = row;
    let given = Given {
        words: "put /a",
        script: "hello",
        read,
        write,
    };
    let told = rig.tell_with(&given, &NoGate)?;
    let right = rig.is_told(&told, &("put /a", "", status, text));
    drop(told);
    Ok(right? && rig.play(&[("get /a", "", then, got)])?)
}

fn streams_right<Rt: Threads + Wait + Sync>(rig: &mut Rig<'_, Rt>) -> Result<bool, Memory> {
    if !rig.play(&[FORMAT])? {
        return Ok(false);
    }
    for (at, row) in STREAMS.iter().enumerate() {
        if !stream_right(rig, *row)? {
            return rig.note_run(at as u64);
        }
    }
    Ok(true)
}

fn streams_wrong<Rt: Threads + Wait + Sync>(rt: &Rt, alloc: Global) -> Result<String, Memory> {
    let mut rig = Rig::new(rt, alloc);
    let right = streams_right(&mut rig);
    rig.ended(right)
}

#[test]
fn the_streams_of_a_put_fail(rt: HostRuntime) -> Result<(), Fail> {
    let wrong = streams_wrong(&rt, rt.alloc())?;
    assert_eq!(rt; wrong.as_str(), "");
    Ok(())
}
