// Files are put: new ones, in place of others, and where the tree refuses them.
use nl_field::Memory;
use nl_testkit_program::play::{FORMAT, Step};
use nl_testkit_program::program::Rig;
use nl_tree::{Refusal, Space};
use std::alloc::Global;
use std::sync::Wait;
use std::test::Fail;
use std::thread::Threads;

// So many bytes, which are not the same in two pieces of a call.
fn text_of(alloc: Global, count: u32) -> Result<String, Memory> {
    let mut text = String::new(alloc);
    for _ in 0..count / 7 {
        text.push_str("bcdefg\n")?;
    }
    for _ in 0..count % 7 {
        text.push('a')?;
    }
    Ok(text)
}

// What is put is what is got: a file of one page, one in its place, an empty one, one of two pieces, and one whose path has the first name
// that a put takes. Each put makes the calls create, write for each piece, rename and sync, and one more where its name is taken.
fn puts_told<'a, Rt: Threads + Wait + Sync>(
    rig: &mut Rig<'_, Rt>,
    two: &'a str,
) -> Result<bool, Memory> {
    let steps: [Step<'a>; 18] = [
        ("put /a", "x", 7, "blank\n"),
        FORMAT,
        ("put /a", "hello", 0, "put 5\n"),
        ("get /a", "", 0, "hello"),
        ("put /a", "bye", 0, "put 3\n"),
        ("get /a", "", 0, "bye"),
        ("put /a", "", 0, "put 0\n"),
        ("get /a", "", 0, ""),
        (
            "run",
            "0 mkdir /d\n0 create /d/.put-0\n",
            0,
            "opened 11\n1 @12 ok\n2 @13 ok\n",
        ),
        ("put /d/two", two, 0, "put 65545\n"),
        ("get /d/two", "", 0, two),
        ("put /.put-0", "own", 0, "put 3\n"),
        ("get /.put-0", "", 0, "own"),
        ("put /d/.put-0", "mine", 0, "put 4\n"),
        ("get /d/.put-0", "", 0, "mine"),
        ("put a", "x", 2, "words\n"),
        (
            "tree",
            "",
            0,
            "opened 27\nd / 3\nf /.put-0 3 1\nf /a 0 0\nd /d 2\nf /d/.put-0 4 1\nf /d/two 65545 17\n",
        ),
        ("check", "", 0, "sound 27\n"),
    ];
    rig.play(&steps)
}

fn puts_right<Rt: Threads + Wait + Sync>(rig: &mut Rig<'_, Rt>) -> Result<bool, Memory> {
    let two = text_of(rig.alloc, 65_545)?;
    let right = puts_told(rig, two.as_str());
    drop(two);
    right
}

fn puts_wrong<Rt: Threads + Wait + Sync>(rt: &Rt, alloc: Global) -> Result<String, Memory> {
    let mut rig = Rig::new(rt, alloc);
    let right = puts_right(&mut rig);
    rig.ended(right)
}

#[test]
fn what_is_put_is_got(rt: HostRuntime) -> Result<(), Fail> {
    let wrong = puts_wrong(&rt, rt.alloc())?;
    assert_eq!(rt; wrong.as_str(), "");
    Ok(())
}

// Words, how many bytes are to be put, and the refusal of the tree. The last two are more than a file may have, and than the volume has room
// for.
const REFUSED: [(&str, u32, Refusal); 8] = [
    ("put /", 1, Refusal::Eisdir),
    ("put /d", 1, Refusal::Eisdir),
    ("put /e/f", 1, Refusal::Enoent),
    ("put /a/f", 1, Refusal::Enotdir),
    (
        "put /aaaaaaaaaabbbbbbbbbbccccccccccddddddddddeeeeeeeeeeffffff",
        1,
        Refusal::Enametoolong,
    ),
    ("put /e/f", 16_809_985, Refusal::Efbig),
    ("put /a", 16_809_985, Refusal::Efbig),
    ("put /a", 2_000_000, Refusal::Enospc(Space::Pages)),
];

const MADE: [Step<'static>; 3] = [
    FORMAT,
    ("put /a", "old", 0, "put 3\n"),
    ("run", "0 mkdir /d\n", 0, "opened 4\n1 @5 ok\n"),
];

// Whether it is refused, and nothing is printed.
fn is_refused<Rt: Threads + Wait + Sync>(
    rig: &mut Rig<'_, Rt>,
    words: &str,
    count: u32,
    refusal: Refusal,
) -> Result<bool, Memory> {
    let text = text_of(rig.alloc, count)?;
    let told = rig.tell(words, text.as_str())?;
    drop(text);
    let right = told.is(2, "") && told.refused == Some(refusal);
    drop(told);
    if right { Ok(true) } else { rig.note(words) }
}

// Whether each is refused, and the volume has what it had.
fn refused_right<Rt: Threads + Wait + Sync>(rig: &mut Rig<'_, Rt>) -> Result<bool, Memory> {
    if !rig.play(&MADE)? {
        return Ok(false);
    }
    for row in REFUSED.iter() {
        let (words, count, refusal) = *row;
        if !is_refused(rig, words, count, refusal)? {
            return Ok(false);
        }
    }
    rig.play(&[
        ("get /a", "", 0, "old"),
        ("tree", "", 0, "opened 50\nd / 2\nf /a 3 1\nd /d 0\n"),
        ("check", "", 0, "sound 50\n"),
    ])
}

fn refused_wrong<Rt: Threads + Wait + Sync>(rt: &Rt, alloc: Global) -> Result<String, Memory> {
    let mut rig = Rig::new(rt, alloc);
    let right = refused_right(&mut rig);
    rig.ended(right)
}

#[test]
fn what_is_refused_leaves_the_volume(rt: HostRuntime) -> Result<(), Fail> {
    let wrong = refused_wrong(&rt, rt.alloc())?;
    assert_eq!(rt; wrong.as_str(), "");
    Ok(())
}
