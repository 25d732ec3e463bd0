// A soak: its summary, the same one each time. The expected texts are those of a generator and a tree of files that were written apart from
// the program.
use crate::asserting::assert_none_wrong;
use nl_testkit_program::play::{FORMAT, Step, play_blank};

const LONG: &str =
    "soak calls 1608 ok 1090 refused 518\nbytes written 4637283 read 21686\ndata 201 nodes 34 meta 16\n";

const SUMMARIES: [Step<'static>; 6] = [
    ("soak 7 5 2", "", 7, "blank\n"),
    FORMAT,
    (
        "soak 7 5 2",
        "",
        0,
        "soak calls 12 ok 8 refused 4\nbytes written 0 read 0\ndata 0 nodes 6 meta 3\n",
    ),
    ("check", "", 0, "sound 12\n"),
    FORMAT,
    (
        "soak 7 20 8",
        "",
        0,
        "soak calls 168 ok 79 refused 89\nbytes written 221271 read 123\ndata 52 nodes 28 meta 13\n",
    ),
];

#[test]
fn summaries(rt: HostRuntime) {
    assert_none_wrong(&rt, play_blank(&rt, rt.alloc(), &SUMMARIES));
}

const A_LONG_ONE_ON_TWO_NEW_VOLUMES: [Step<'static>; 5] = [
    (
        "format 256 64",
        "",
        0,
        "formatted blocks 256 pages 64 data 15008 nodes 1024 meta 512\n",
    ),
    ("soak 7 200 8", "", 0, LONG),
    ("check", "", 0, "sound 1608\n"),
    (
        "format 256 64",
        "",
        0,
        "formatted blocks 256 pages 64 data 15008 nodes 1024 meta 512\n",
    ),
    ("soak 7 200 8", "", 0, LONG),
];

#[test]
fn a_long_one_on_two_new_volumes(rt: HostRuntime) {
    assert_none_wrong(
        &rt,
        play_blank(&rt, rt.alloc(), &A_LONG_ONE_ON_TWO_NEW_VOLUMES),
    );
}
