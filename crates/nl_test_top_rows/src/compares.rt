// A comparison of both devices: how many lines there are, the most pairs, and the most entries, which are the greatest data that the tree of
// the soak took. That number is from a tree of files that was written apart from the program; the pairs are those of `nl_test_compare`.
use crate::asserting::assert_none_wrong;
use nl_testkit_program::play::{FORMAT, Step, play_blank};

const NUMBERS: &str = "calls 1608\nremap most 1\nmap most 203\n";

const COMPARED: [Step<'static>; 6] = [
    ("compare 7 200 8", "", 0, NUMBERS),
    ("check", "", 7, "blank\n"),
    FORMAT,
    ("compare 7 200 8", "", 0, NUMBERS),
    ("check", "", 0, "sound 0\n"),
    ("compare 7 200 9", "", 2, "words\n"),
];

#[test]
fn compared(rt: HostRuntime) {
    assert_none_wrong(&rt, play_blank(&rt, rt.alloc(), &COMPARED));
}
