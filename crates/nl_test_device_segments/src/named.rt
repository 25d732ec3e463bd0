// A segment of pages under names: what an opening tells it.
ghost use Rattle.std.specs.Prelude.{◌≡◌, ℕ, IfOk, IsTrue, None};
ghost use Rattle.nl_test_device_segments.specs.Rigs.{HasNames};
ghost use Rattle.nl_nand.specs.Memory.{contents_of, geometry_of};
ghost use Rattle.nl_pseg.specs.Segment.{held_at};

use crate::medium::{blank, failing, least};
use nl_field::{FailList, Memory, Named, PageBuf, Pointer, SpareRec, Tag, spare_of};
use nl_nand::{MemNand, Nand, ReadAnswer};
use nl_pseg::PSeg;
use std::alloc::Global;

const TAG: Tag = Tag {
    ino: 1,
    generation: 1,
    index: 7,
};

/// A segment in blocks 8 to 31, on a medium of 32 blocks of 32 pages.
#[derive(Drop)]
struct Rig {
    seg: PSeg,
    media: MemNand,
    buf: PageBuf,
    ghost is: { HasNames (geometry_of media) (contents_of media) seg },
}

/// A blank medium with a new segment.
fn fresh(alloc: Global, writes: FailList) -> Result<Rig, Memory>
    ensures none { IfOk result (λ rig. (page : ℕ) → held_at rig.seg page ≡ None) }
    ensures victim { IfOk result (λ rig. rig.seg.victim ≡ None) }
{
    let shape = least()?;
    let buf = PageBuf::new(alloc)?;
    let seg = PSeg::new(alloc, &shape)?;
    let media = blank(alloc, FailList::new(alloc), writes, None)?;
    Ok(Rig { seg, media, buf })
}

impl Rig {
    /// Writes a page under a number from 1 on; its name, where it was placed.
    fn write(&mut self, stamp: u32) -> Option<u32> {
        let stamp = u64::from(stamp) + 1;
        match self
            .seg
            .nameless_write(&mut self.media, TAG, &self.buf, stamp)
        {
            Named::Placed(at) => Some(at.name),
            _ => None,
        }
    }

    fn free_blocks(&self) -> u32 {
        self.seg.free_blocks()
    }

    /// Whether a program fails. Then what is live stays.
    fn write_fails(&mut self) -> bool
        ensures live { IsTrue result → self.new.seg.held ≡ self.old.seg.held }
        ensures victim { self.new.seg.victim ≡ self.old.seg.victim }
    {
        matches!(
            self.seg.nameless_write(&mut self.media, TAG, &self.buf, 1),
            Named::Fault
        )
    }

    fn give_back(&mut self)
        requires none { (page : ℕ) → held_at self.old.seg page ≡ None }
        requires no_victim { self.old.seg.victim ≡ None }
    {
        self.seg.give_back();
    }

    /// Tells of each block that it was never erased, and does not read as erased.
    fn soil(&mut self)
        requires { self.old.seg.victim ≡ None }
    {
        for block in 8..32 {
            self.seg.soiled(block, 0);
        }
    }

    /// Programs and erases that finished, and those that failed.
    fn counts(&self) -> (u64, u64) {
        (self.media.clock(), self.media.write_faults())
    }

    /// The record on the page of that number.
    fn record(&mut self, page: u32) -> Option<SpareRec> {
        match self.media.read(page % 1024, &mut self.buf) {
            ReadAnswer::Written => spare_of(self.buf.spare()),
            _ => None,
        }
    }
}

impl Rig {
    /// The first erase fails, and then a block is erased before its first page is programmed.
    fn erases_soiled(&mut self) -> bool {
        self.write(0) == None
            && self.counts() == (0, 1)
            && self.free_blocks() == 24
            && self.writes_two()
    }

    /// Two pages are written, for which a block is erased.
    fn writes_two(&mut self) -> bool {
        self.write(0) == Some(256)
            && self.counts() == (2, 1)
            && self.write(1) == Some(257)
            && self.counts() == (3, 1)
    }

    /// No block was erased yet, so the one of least number is used, which is to be erased first.
    fn uses_it_again(&mut self) -> bool {
        self.free_blocks() == 24 && self.write(0) == Some(256) && self.counts() == (2, 1)
    }
}

/// The record of the second page that is written, where all blocks are soiled.
fn second_of_soiled(rig: &mut Rig) -> Option<SpareRec>
    requires { rig.old.seg.victim ≡ None }
{
    rig.soil();
    if rig.erases_soiled() {
        rig.record(257)
    } else {
        None
    }
}

/// The record of the second page that is written in a new segment, where all blocks are soiled and the first erase fails.
fn second_of_new(alloc: Global) -> Result<Option<SpareRec>, Memory> {
    let mut rig = fresh(alloc, failing(alloc, 1, 0)?)?;
    let second = second_of_soiled(&mut rig);
    drop(rig);
    Ok(second)
}

#[test]
fn soiled_blocks_are_erased(rt: HostRuntime) {
    let want = SpareRec::Physical {
        tag: TAG,
        stamp: 2,
        wear: 1,
    };
    assert!(rt; second_of_new(rt.alloc()) == Ok(Some(want)));
}

/// A block is given back after its first program failed, when no page was live, and used again.
fn is_given_back(rig: &mut Rig) -> bool
    requires none { (page : ℕ) → held_at rig.old.seg page ≡ None }
    requires no_victim { rig.old.seg.victim ≡ None }
{
    if !rig.write_fails() {
        return false;
    }
    rig.give_back();
    rig.uses_it_again()
}

fn is_given_back_of_new(alloc: Global) -> Result<bool, Memory> {
    let mut rig = fresh(alloc, failing(alloc, 1, 0)?)?;
    let is = is_given_back(&mut rig);
    drop(rig);
    Ok(is)
}

#[test]
fn blocks_are_given_back(rt: HostRuntime) {
    assert!(rt; is_given_back_of_new(rt.alloc()) == Ok(true));
}

/// A segment in which page 300 is loaded, with number 9.
fn loaded(alloc: Global) -> Result<PSeg, Memory> {
    let shape = least()?;
    let mut seg = PSeg::new(alloc, &shape)?;
    let at = Pointer {
        name: 300,
        stamp: 9,
    };
    seg.load(300, at, TAG);
    Ok(seg)
}

/// Whether the pointer is live.
fn is_live(seg: &PSeg, at: Pointer) -> bool {
    seg.is_live(at)
}

/// Frees the page of a pointer; whether it was live.
fn frees(seg: &mut PSeg, at: Pointer) -> bool {
    seg.free(at)
}

/// Whether it is live until it is freed.
fn is_loaded(seg: &mut PSeg) -> bool {
    let at = Pointer {
        name: 300,
        stamp: 9,
    };
    is_live(seg, at) && frees(seg, at) && !is_live(seg, at) && !frees(seg, at)
}

fn is_loaded_and_freed(alloc: Global) -> Result<bool, Memory> {
    let mut seg = loaded(alloc)?;
    let is = seg.free_blocks() == 23 && seg.resolve(300) == 300 && is_loaded(&mut seg);
    drop(seg);
    Ok(is)
}

#[test]
fn a_page_is_loaded(rt: HostRuntime) {
    assert!(rt; is_loaded_and_freed(rt.alloc()) == Ok(true));
}
