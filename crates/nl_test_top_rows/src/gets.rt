// The bytes of a file, printed.
use crate::asserting::assert_none_wrong;
use nl_field::Memory;
use nl_testkit_program::play::{FORMAT, Step};
use nl_testkit_program::program::{Given, Rig};
use nl_top::NoGate;
use nl_tree::Refusal;
use std::alloc::Global;
use std::sync::Wait;
use std::thread::Threads;

// A file whose second page is a hole, and whose last one has three bytes; one whose bytes lie in two pieces; and one without bytes.
const MADE: Step<'static> = (
    "run",
    "0 mkdir /d\n0 create /d/hole\n0 write /d/hole 0 616263\n0 fill /d/hole 12286 5 78\n0 create /two\n0 fill /two 65530 12 79\n0 create /none\n0 sync\n",
    0,
    "opened 0\n1 @1 ok\n2 @2 ok\n3 @3 ok 3\n4 @4 ok 5\n5 @5 ok\n6 @6 ok 12\n7 @7 ok\n8 @8 ok 7\n",
);

// So many of each text, one behind the other.
fn text_of(alloc: Global, parts: &[(u32, &str)]) -> Result<String, Memory> {
    let mut text = String::new(alloc);
    for part in parts {
        let (count, piece) = *part;
        for _ in 0..count {
            text.push_str(piece)?;
        }
    }
    Ok(text)
}

fn files_told<'a, Rt: Threads + Wait + Sync>(
    rig: &mut Rig<'_, Rt>,
    hole: &'a str,
    two: &'a str,
) -> Result<bool, Memory> {
    let steps: [Step<'a>; 8] = [
        ("get /two", "", 7, "blank\n"),
        FORMAT,
        MADE,
        ("get /d/hole", "", 0, hole),
        ("get /two", "", 0, two),
        ("get /none", "", 0, ""),
        ("get two", "", 2, "words\n"),
        ("check", "", 0, "sound 8\n"),
    ];
    rig.play(&steps)
}

fn files_right<Rt: Threads + Wait + Sync>(rig: &mut Rig<'_, Rt>) -> Result<bool, Memory> {
    let hole = text_of(rig.alloc, &[(1, "abc"), (12_283, "\0"), (5, "x")])?;
    let two = text_of(rig.alloc, &[(65_530, "\0"), (12, "y")])?;
    let right = files_told(rig, hole.as_str(), two.as_str());
    drop(two);
    drop(hole);
    right
}

fn files_wrong<Rt: Threads + Wait + Sync>(rt: &Rt, alloc: Global) -> Result<String, Memory> {
    let mut rig = Rig::new(rt, alloc);
    let right = files_right(&mut rig);
    rig.ended(right)
}

#[test]
fn files(rt: HostRuntime) {
    assert_none_wrong(&rt, files_wrong(&rt, rt.alloc()));
}

// Words, and the refusal of the tree.
const REFUSED: [(&str, Refusal); 6] = [
    ("get /", Refusal::Eisdir),
    ("get /d", Refusal::Eisdir),
    ("get /e", Refusal::Enoent),
    ("get /e/f", Refusal::Enoent),
    ("get /two/f", Refusal::Enotdir),
    (
        "get /aaaaaaaaaabbbbbbbbbbccccccccccddddddddddeeeeeeeeeeffffff",
        Refusal::Enametoolong,
    ),
];

// Whether each is refused, and nothing is printed.
fn refused_right<Rt: Threads + Wait + Sync>(rig: &mut Rig<'_, Rt>) -> Result<bool, Memory> {
    for row in REFUSED.iter() {
        let (words, refusal) = *row;
        let told = rig.tell(words, "")?;
        let right = told.is(2, "") && told.refused == Some(refusal);
        drop(told);
        if !right {
            return rig.note(words);
        }
    }
    Ok(true)
}

fn refused_right_of_new<Rt: Threads + Wait + Sync>(rig: &mut Rig<'_, Rt>) -> Result<bool, Memory> {
    Ok(rig.play(&[FORMAT, MADE])? && refused_right(rig)? && rig.is_sound(8)?)
}

fn refused_wrong<Rt: Threads + Wait + Sync>(rt: &Rt, alloc: Global) -> Result<String, Memory> {
    let mut rig = Rig::new(rt, alloc);
    let right = refused_right_of_new(&mut rig);
    rig.ended(right)
}

#[test]
fn paths_that_are_no_files(rt: HostRuntime) {
    assert_none_wrong(&rt, refused_wrong(&rt, rt.alloc()));
}

// Whether of two pieces the first is printed, where the sink does not take the second.
fn cut_right<Rt: Threads + Wait + Sync>(
    rig: &mut Rig<'_, Rt>,
    first: &str,
) -> Result<bool, Memory> {
    if !rig.play(&[FORMAT, MADE])? {
        return Ok(false);
    }
    let given = Given {
        words: "get /two",
        script: "",
        read: 0,
        write: 2,
    };
    let told = rig.tell_with(&given, &NoGate)?;
    let right = told.is(4, first) && told.refused.is_none();
    drop(told);
    Ok(right && rig.is_sound(8)?)
}

fn cut_wrong<Rt: Threads + Wait + Sync>(rt: &Rt, alloc: Global) -> Result<String, Memory> {
    let first = text_of(alloc, &[(65_530, "\0"), (6, "y")])?;
    let mut rig = Rig::new(rt, alloc);
    let right = cut_right(&mut rig, first.as_str());
    drop(first);
    rig.ended(right)
}

#[test]
fn a_sink_that_fails_at_the_second_piece(rt: HostRuntime) {
    assert_none_wrong(&rt, cut_wrong(&rt, rt.alloc()));
}
