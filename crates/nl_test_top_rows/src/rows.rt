// Scripts of one worker on a new volume of 32 blocks of 32 pages, and their texts.
use crate::asserting::assert_none_wrong;
use nl_testkit_program::note::{NOTE, SAVED};
use nl_testkit_program::play::{FORMAT, Step, play_blank, play_rows};

const GEOMETRIES: [Step<'static>; 6] = [
    ("run", "", 7, "blank\n"),
    ("check", "", 7, "blank\n"),
    FORMAT,
    ("check", "", 0, "sound 0\n"),
    (
        "format 256 64",
        "",
        0,
        "formatted blocks 256 pages 64 data 15008 nodes 1024 meta 512\n",
    ),
    ("run", "0 stat /\n", 0, "opened 0\n1 @1 ok dir 0\n"),
];

#[test]
fn geometries(rt: HostRuntime) {
    assert_none_wrong(&rt, play_blank(&rt, rt.alloc(), &GEOMETRIES));
}

const ROWS: [&[Step<'static>]; 11] = [
    // What was synced is there when the volume is opened again.
    &[
        (
            "run",
            "0 create /a\n0 write /a 0 68656c6c6f\n0 read /a 0 5\n0 sync\n",
            0,
            "opened 0\n1 @1 ok\n2 @2 ok 5\n3 @3 ok 68656c6c6f\n4 @4 ok 3\n",
        ),
        ("run", "", 0, "opened 4\n"),
        ("check", "", 0, "sound 4\n"),
        (
            "run",
            "0 read /a 1 9\n0 read /a 5 9\n0 list /\n",
            0,
            "opened 4\n1 @5 ok 656c6c6f\n2 @6 ok -\n3 @7 ok 1 a\n",
        ),
        ("check", "", 0, "sound 7\n"),
    ],
    // Bytes over two pages.
    &[(
        "run",
        "0 create /a\n0 write /a 4090 00010203040506070809\n0 read /a 4088 14\n0 stat /a\n",
        0,
        "opened 0\n1 @1 ok\n2 @2 ok 10\n3 @3 ok 000000010203040506070809\n4 @4 ok file 4100 2\n",
    )],
    // A hole.
    &[(
        "run",
        "0 create /a\n0 write /a 20000 01\n0 read /a 0 4\n0 stat /a\n",
        0,
        "opened 0\n1 @1 ok\n2 @2 ok 1\n3 @3 ok 00000000\n4 @4 ok file 20001 1\n",
    )],
    // What is cut off is zero when the file grows again.
    &[
        (
            "run",
            "0 create /a\n0 write /a 0 68656c6c6f\n0 truncate /a 3\n0 truncate /a 10\n0 read /a 0 10\n",
            0,
            "opened 0\n1 @1 ok\n2 @2 ok 5\n3 @3 ok\n4 @4 ok\n5 @5 ok 68656c00000000000000\n",
        ),
        (
            "run",
            "0 stat /a\n0 truncate /a 0\n0 stat /a\n0 truncate /a 16809985\n0 truncate /a 16809984\n0 stat /a\n0 truncate / 0\n0 truncate /b 0\n",
            0,
            "opened 5\n1 @6 ok file 10 1\n2 @7 ok\n3 @8 ok file 0 0\n4 @9 EFBIG\n5 @10 ok\n6 @11 ok file 16809984 0\n7 @12 EISDIR\n8 @13 ENOENT\n",
        ),
    ],
    // The longest file.
    &[
        (
            "run",
            "0 create /a\n0 fill /a 16744448 65536 61\n0 write /a 16809984 62\n0 stat /a\n0 read /a 16809980 8\n",
            0,
            "opened 0\n1 @1 ok\n2 @2 ok 65536\n3 @3 EFBIG\n4 @4 ok file 16809984 16\n5 @5 ok 61616161\n",
        ),
        (
            "run",
            "0 read /a 16809980 8\n0 read /a 16744446 4\n0 write /a 16809984 -\n0 fill /a 16809983 2 62\n0 read /a 16809983 2\n",
            0,
            "opened 5\n1 @6 ok 61616161\n2 @7 ok 00006161\n3 @8 ok 0\n4 @9 EFBIG\n5 @10 ok 61\n",
        ),
    ],
    // Names.
    &[
        (
            "run",
            "0 mkdir /d\n0 create /a\n0 create /b\n0 write /a 0 61\n0 rename /a /a\n0 rename /d /d/x\n0 rename /a /b\n0 rename /b /d\n0 rename /d /b\n0 read /b 0 1\n0 list /\n0 read /a 0 1\n",
            0,
            "opened 0\n1 @1 ok\n2 @2 ok\n3 @3 ok\n4 @4 ok 1\n5 @5 ok\n6 @6 EINVAL\n7 @7 ok\n8 @8 EISDIR\n9 @9 ENOTDIR\n10 @10 ok 61\n11 @11 ok 2 b d/\n12 @12 ENOENT\n",
        ),
        (
            "run",
            "0 mkdir /d/e\n0 mkdir /d/e/f\n0 create /d/e/f/g\n0 mkdir /h\n0 rename /d/e /h\n0 stat /h/f/g\n0 stat /d/e\n0 list /\n0 rename /d /h\n0 rename /h /d/h\n0 list /d/h/f\n0 rename /b/c /d\n0 rename / /d\n0 rename /x /x\n",
            0,
            "opened 12\n1 @13 ok\n2 @14 ok\n3 @15 ok\n4 @16 ok\n5 @17 ok\n6 @18 ok file 0 0\n7 @19 ENOENT\n8 @20 ok 3 b d/ h/\n9 @21 ENOTEMPTY\n10 @22 ok\n11 @23 ok 1 g\n12 @24 ENOTDIR\n13 @25 EINVAL\n14 @26 ENOENT\n",
        ),
        (
            "run",
            "0 read /b 0 9\n0 list /\n0 list /d\n0 list /d/h\n0 stat /d/h/f/g\n",
            0,
            "opened 26\n1 @27 ok 61\n2 @28 ok 2 b d/\n3 @29 ok 1 h/\n4 @30 ok 1 f/\n5 @31 ok file 0 0\n",
        ),
    ],
    // Nothing is written.
    &[(
        "run",
        "0 create /a\n0 write /a 0 -\n0 write /b 0 -\n0 fill /a 7 0 61\n0 stat /a\n0 read /a 0 4\n",
        0,
        "opened 0\n1 @1 ok\n2 @2 ok 0\n3 @3 ENOENT\n4 @4 ok 0\n5 @5 ok file 0 0\n6 @6 ok -\n",
    )],
    // The refusals of a path.
    &[
        (
            "run",
            "0 mkdir /\n0 create /\n0 rmdir /\n0 unlink /\n0 write / 0 61\n0 read / 0 1\n0 list /\n0 stat /\n0 mkdir /d\n0 create /d\n0 create /d/a\n0 mkdir /d/a\n0 mkdir /d/a/x\n0 stat /d/a/x\n0 list /d/a\n0 rmdir /d/a\n0 unlink /d\n0 rmdir /d\n0 stat /x\n0 stat /x/y\n0 unlink /d/a\n0 rmdir /d\n0 rmdir /d\n0 unlink /d\n0 list /d\n",
            0,
            "opened 0\n1 @1 EEXIST\n2 @2 EEXIST\n3 @3 EINVAL\n4 @4 EISDIR\n5 @5 EISDIR\n6 @6 EISDIR\n7 @7 ok 0\n8 @8 ok dir 0\n9 @9 ok\n10 @10 EEXIST\n11 @11 ok\n12 @12 EEXIST\n13 @13 ENOTDIR\n14 @14 ENOTDIR\n15 @15 ENOTDIR\n16 @16 ENOTDIR\n17 @17 EISDIR\n18 @18 ENOTEMPTY\n19 @19 ENOENT\n20 @20 ENOENT\n21 @21 ok\n22 @22 ok\n23 @23 ENOENT\n24 @24 ENOENT\n25 @25 ENOENT\n",
        ),
        ("check", "", 0, "sound 25\n"),
    ],
    // Syncs and cleanings tell how many calls are durable.
    &[
        (
            "run",
            "0 sync\n0 create /a\n0 clean\n0 sync\n0 sync\n0 unlink /a\n0 stat /\n0 sync\n",
            0,
            "opened 0\n1 @1 ok 0\n2 @2 ok\n3 @3 ok\n4 @4 ok 3\n5 @5 ok 4\n6 @6 ok\n7 @7 ok dir 0\n8 @8 ok 7\n",
        ),
        ("check", "", 0, "sound 8\n"),
    ],
    // A file that is not there, and one that is.
    &[(
        "run",
        "0 read /b 0 1\n0 create /b\n0 create /b\n",
        0,
        "opened 0\n1 @1 ENOENT\n2 @2 ok\n3 @3 EEXIST\n",
    )],
    // A saved note.
    &[
        ("run", NOTE, 0, SAVED),
        ("check", "", 0, "sound 13\n"),
        (
            "run",
            "3 read /home/ann/note 0 9\nbarrier\n5 unlink /home/ann/note\n",
            0,
            "opened 13\n1 @14 ok 6e65770a\n3 @15 ok\n",
        ),
    ],
];

#[test]
fn rows(rt: HostRuntime) {
    assert_none_wrong(&rt, play_rows(&rt, rt.alloc(), &ROWS));
}
