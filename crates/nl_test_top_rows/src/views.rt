// The paths of a volume, and its report.
use crate::asserting::assert_none_wrong;
use nl_field::Memory;
use nl_testkit_program::note::{NOTE, SAVED};
use nl_testkit_program::play::{FORMAT, Step, play_blank, played};
use nl_testkit_program::program::{Given, Rig};
use nl_top::NoGate;
use std::alloc::Global;
use std::sync::Wait;
use std::thread::Threads;

const A_NEW_VOLUME: [Step<'static>; 8] = [
    ("tree", "", 7, "blank\n"),
    ("report", "", 7, "blank\n"),
    FORMAT,
    ("tree", "", 0, "opened 0\nd / 0\n"),
    (
        "report",
        "",
        0,
        "opened 0\nblocks virtual 8 physical 24\npages data 0 of 480 nodes 1 of 64 meta 0 of 32\nremap 0\nwear least 0 greatest 0\nstamp 3\n",
    ),
    (
        "run",
        "0 create /a\n0 write /a 0 68656c6c6f\n0 read /a 0 5\n0 sync\n",
        0,
        "opened 0\n1 @1 ok\n2 @2 ok 5\n3 @3 ok 68656c6c6f\n4 @4 ok 3\n",
    ),
    ("tree", "", 0, "opened 4\nd / 1\nf /a 5 1\n"),
    // The making programs 2 pages, the file has 1, the sync writes 3 pages by 8 programs, and the closing 1 page by 4.
    (
        "report",
        "",
        0,
        "opened 4\nblocks virtual 8 physical 24\npages data 1 of 480 nodes 2 of 64 meta 1 of 32\nremap 0\nwear least 0 greatest 0\nstamp 16\n",
    ),
];

#[test]
fn a_new_volume(rt: HostRuntime) {
    assert_none_wrong(&rt, play_blank(&rt, rt.alloc(), &A_NEW_VOLUME));
}

const A_SAVED_NOTE: [Step<'static>; 4] = [
    ("run", NOTE, 0, SAVED),
    (
        "tree",
        "",
        0,
        "opened 13\nd / 1\nd /home 1\nd /home/ann 1\nf /home/ann/note 4 1\n",
    ),
    (
        "report",
        "",
        0,
        "opened 13\nblocks virtual 8 physical 24\npages data 1 of 480 nodes 4 of 64 meta 3 of 32\nremap 0\nwear least 0 greatest 0\nstamp 37\n",
    ),
    ("check", "", 0, "sound 13\n"),
];

#[test]
fn a_saved_note(rt: HostRuntime) {
    assert_none_wrong(&rt, played(&rt, rt.alloc(), &A_SAVED_NOTE));
}

// A directory comes before what is under it, and siblings by their bytes.
const THE_ORDER_OF_PATHS: [Step<'static>; 2] = [
    (
        "run",
        "0 mkdir /b\n0 mkdir /b/c\n0 create /b/c/d\n0 create /a!\n0 mkdir /a\n0 create /a/x\n0 create /A\n0 fill /a/x 8191 2 61\n0 truncate /A 5000\n0 list /\n",
        0,
        "opened 0\n1 @1 ok\n2 @2 ok\n3 @3 ok\n4 @4 ok\n5 @5 ok\n6 @6 ok\n7 @7 ok\n8 @8 ok 2\n9 @9 ok\n10 @10 ok 4 A a/ a! b/\n",
    ),
    (
        "tree",
        "",
        0,
        "opened 10\nd / 4\nf /A 5000 0\nd /a 1\nf /a/x 8193 2\nf /a! 0 0\nd /b 1\nd /b/c 1\nf /b/c/d 0 0\n",
    ),
];

#[test]
fn the_order_of_paths(rt: HostRuntime) {
    assert_none_wrong(&rt, played(&rt, rt.alloc(), &THE_ORDER_OF_PATHS));
}

// Words, which write of the sink fails, and the text: each path is written by itself, a report and both maps at once.
const SINK: [(&str, u64, &str); 5] = [
    ("tree", 1, ""),
    ("tree", 2, "opened 0\n"),
    ("report", 1, ""),
    ("map", 1, ""),
    ("map svg", 1, ""),
];

// Whether each is told as wanted.
fn sink_right<Rt: Threads + Wait + Sync>(rig: &mut Rig<'_, Rt>) -> Result<bool, Memory> {
    for row in SINK.iter() {
        let (words, write, text) = *row;
        let given = Given {
            words,
            script: "",
            read: 0,
            write,
        };
        let told = rig.tell_with(&given, &NoGate)?;
        let right = told.is(4, text);
        drop(told);
        if !right {
            return rig.note(words);
        }
    }
    Ok(true)
}

fn sink_right_of_new<Rt: Threads + Wait + Sync>(rig: &mut Rig<'_, Rt>) -> Result<bool, Memory> {
    Ok(rig.play(&[FORMAT])? && sink_right(rig)? && rig.is_sound(0)?)
}

fn sink_wrong<Rt: Threads + Wait + Sync>(rt: &Rt, alloc: Global) -> Result<String, Memory> {
    let mut rig = Rig::new(rt, alloc);
    let right = sink_right_of_new(&mut rig);
    rig.ended(right)
}

#[test]
fn a_sink_that_fails(rt: HostRuntime) {
    assert_none_wrong(&rt, sink_wrong(&rt, rt.alloc()));
}
