// A note that is saved by a new file and a rename, and what a volume holds after each part of it.
ghost use Rattle.std.specs.Prelude.{◌<◌};

use crate::play::answered;
use crate::program::Rig;
use nl_field::Memory;
use nl_nand::Cut;
use std::sync::Wait;
use std::thread::Threads;

/// Saves a note, and saves it anew.
pub const NOTE: &str = "# save
0 mkdir /home
0 mkdir /home/ann
0 create /home/ann/note
0 write /home/ann/note 0 6f6c640a
0 sync
0 create /home/ann/.note.tmp
0 write /home/ann/.note.tmp 0 6e65770a
0 sync
0 rename /home/ann/.note.tmp /home/ann/note
0 sync
0 read /home/ann/note 0 100
0 list /home/ann
0 stat /home
";

/// The text where nothing fails.
pub const SAVED: &str = "opened 0
2 @1 ok
3 @2 ok
4 @3 ok
5 @4 ok 4
6 @5 ok 4
7 @6 ok
8 @7 ok 4
9 @8 ok 7
10 @9 ok
11 @10 ok 9
12 @11 ok 6e65770a
13 @12 ok 1 note
14 @13 ok dir 1
";

/// How many programs the run makes: 1 for the bytes of the note, 7 for the first sync, 1 for the new bytes, 10 and 8 for the other syncs, and
/// 7 for the closing. A sync copies the pages of the last transaction home, and then writes a header, the images of its own, and the commit
/// page; the closing copies its own home too. The first transaction has 5 pages, the super page, the nodes and three directories, those of
/// the other syncs have 3, the super page, the nodes and one directory, and the last has the super page.
pub const PROGRAMS: u64 = 34;

/// After how many calls the volume opens, once so many programs of the run are finished: commit pages are the programs 8, 19, 27 and 33.
pub fn committed_after(programs: u64) -> u64 {
    if programs < 8 {
        0
    } else if programs < 19 {
        4
    } else if programs < 27 {
        7
    } else if programs < 33 {
        9
    } else {
        13
    }
}

/// How many programs are finished after a stop within that one.
pub fn finished(program: u64, cut: Cut) -> u64 {
    match cut {
        Cut::After => program,
        _ => program.saturating_sub(1),
    }
}

/// Writes another file.
pub const OTHER: &str = "0 create /b\n0 write /b 0 62\n0 sync\n0 read /b 0 9\n";

const READS: &str =
    "0 list /\n0 read /b 0 9\n0 list /home\n0 list /home/ann\n0 read /home/ann/note 0 9\n0 read /home/ann/.note.tmp 0 9\n";

// What these reads answer without the other file and with it, where the saving has not made the note, has made it, has made the new file,
// and has renamed it.
const ANSWERS: [[&str; 6]; 8] = [
    ["ok 0", "ENOENT", "ENOENT", "ENOENT", "ENOENT", "ENOENT"],
    ["ok 1 b", "ok 62", "ENOENT", "ENOENT", "ENOENT", "ENOENT"],
    [
        "ok 1 home/",
        "ENOENT",
        "ok 1 ann/",
        "ok 1 note",
        "ok 6f6c640a",
        "ENOENT",
    ],
    [
        "ok 2 b home/",
        "ok 62",
        "ok 1 ann/",
        "ok 1 note",
        "ok 6f6c640a",
        "ENOENT",
    ],
    [
        "ok 1 home/",
        "ENOENT",
        "ok 1 ann/",
        "ok 2 .note.tmp note",
        "ok 6f6c640a",
        "ok 6e65770a",
    ],
    [
        "ok 2 b home/",
        "ok 62",
        "ok 1 ann/",
        "ok 2 .note.tmp note",
        "ok 6f6c640a",
        "ok 6e65770a",
    ],
    [
        "ok 1 home/",
        "ENOENT",
        "ok 1 ann/",
        "ok 1 note",
        "ok 6e65770a",
        "ENOENT",
    ],
    [
        "ok 2 b home/",
        "ok 62",
        "ok 1 ann/",
        "ok 1 note",
        "ok 6e65770a",
        "ENOENT",
    ],
];

// Which of them it is after so many calls of the saving.
fn row(saved: u64, other: bool) -> usize
    ensures { result < 8 }
{
    let stage = if saved < 4 {
        0
    } else if saved < 7 {
        2
    } else if saved < 9 {
        4
    } else {
        6
    };
    if other { stage + 1 } else { stage }
}

/// Whether a volume opens after so many calls, is sound, and holds what the saving has after so many of its calls, and the other file or
/// not. It has six more calls afterwards. What is told otherwise is noted.
pub fn holds<Rt: Threads + Wait + Sync>(
    rig: &mut Rig<'_, Rt>,
    opened: u64,
    saved: u64,
    other: bool,
) -> Result<bool, Memory> {
    if !rig.is_sound(opened)? {
        return Ok(false);
    }
    let text = answered(rig.alloc, opened, 0, &ANSWERS[row(saved, other)])?;
    let right = rig.play(&[("run", READS, 0, text.as_str())]);
    drop(text);
    right
}
