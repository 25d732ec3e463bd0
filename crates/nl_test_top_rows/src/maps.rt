// The map of a volume, by hand: which pages hold the newest of their addresses, and which the pages of files.
use crate::asserting::assert_none_wrong;
use nl_field::Memory;
use nl_testkit_program::play::{FORMAT, Step};
use nl_testkit_program::program::Rig;
use std::alloc::Global;
use std::fmt::Write;
use std::sync::Wait;
use std::thread::Threads;

/// The pages of an erased block.
const DOTS: &str = "................................\n";

// Adds the lines of the erased blocks from this one on, below that one.
fn add_erased(text: &mut String, segment: &str, from: u32, below: u32) -> Result<(), Memory> {
    for block in from..below {
        write!(text, "block {block} {segment} erased wear 0\n{DOTS}")?;
    }
    Ok(())
}

// The making programs an inode page and the super page.
const FRESH: &str = "\
opened 0\n\
block 0 virtual used wear 0\n\
##..............................\n";

const FRESH_TOTALS: &str = "\
. erased 1022\n\
- dead 0\n\
# live 2\n\
o old copy 0\n\
x uncorrectable 0\n\
? not judged 0\n";

fn fresh(alloc: Global) -> Result<String, Memory> {
    let mut text = String::from_str(alloc, FRESH)?;
    add_erased(&mut text, "virtual", 1, 8)?;
    add_erased(&mut text, "physical", 8, 32)?;
    text.push_str(FRESH_TOTALS)?;
    Ok(text)
}

// A run writes to a block of its own: no opening goes on in one that is in use. The sync programs a header, three images, the commit page,
// and the three pages at home: the super page, the inodes and the directory. The closing programs a header, an image, the commit page and
// the super page at home. Two images of the sync are the newest of their addresses. The file has one page.
const USED: &str = "\
opened 4\n\
block 0 virtual free wear 0\n\
--..............................\n\
block 1 virtual used wear 0\n\
--##--######....................\n";

const USED_FILES: &str = "\
block 8 physical used wear 0\n\
#...............................\n";

const USED_TOTALS: &str = "\
. erased 1009\n\
- dead 6\n\
# live 9\n\
o old copy 0\n\
x uncorrectable 0\n\
? not judged 0\n";

fn used(alloc: Global) -> Result<String, Memory> {
    let mut text = String::from_str(alloc, USED)?;
    add_erased(&mut text, "virtual", 2, 8)?;
    text.push_str(USED_FILES)?;
    add_erased(&mut text, "physical", 9, 32)?;
    text.push_str(USED_TOTALS)?;
    Ok(text)
}

const RUN: Step<'static> = (
    "run",
    "0 create /a\n0 write /a 0 68656c6c6f\n0 read /a 0 5\n0 sync\n",
    0,
    "opened 0\n1 @1 ok\n2 @2 ok 5\n3 @3 ok 68656c6c6f\n4 @4 ok 3\n",
);

// Whether the map tells these, in this order: that the medium is blank, a new volume, and a used one.
pub(crate) fn maps<'a, Rt: Threads + Wait + Sync>(
    rig: &mut Rig<'_, Rt>,
    words: &'a str,
    fresh: &'a str,
    used: &'a str,
) -> Result<bool, Memory> {
    let steps: [Step<'a>; 5] = [
        (words, "", 7, "blank\n"),
        FORMAT,
        (words, "", 0, fresh),
        RUN,
        (words, "", 0, used),
    ];
    rig.play(&steps)
}

fn texts<Rt: Threads + Wait + Sync>(rt: &Rt, alloc: Global) -> Result<String, Memory> {
    let fresh = fresh(alloc)?;
    let used = used(alloc)?;
    let mut rig = Rig::new(rt, alloc);
    let right = maps(&mut rig, "map", fresh.as_str(), used.as_str());
    rig.ended(right)
}

#[test]
fn the_map_of_a_volume(rt: HostRuntime) {
    assert_none_wrong(&rt, texts(&rt, rt.alloc()));
}
