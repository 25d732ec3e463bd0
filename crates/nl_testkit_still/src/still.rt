// The memory, and how a page is written into it.
ghost use Rattle.std.specs.Prelude.{◌≡◌, ◌+◌, ◌<◌, ◌≤◌, ◌*◌, ◌^◌, IfOk, length, replicate, Some, None, set, slice_index_or};
ghost use Rattle.nl_field.specs.CrashStates.{Earlier, saturated};
ghost use Rattle.nl_field.specs.Numbers.{ShapeBounds};
ghost use Rattle.nl_iface.specs.Device.{IsVolumeShape};
ghost use Rattle.nl_testkit_still.specs.Stands.{IsFreshStill, IsStill};
ghost use Rattle.nl_testkit_still.specs.Still.{PutsStill, bytes_at, label};

use nl_field::{Memory, PageBuf, Shape, Tag};
use std::alloc::Global;

/// What a page was written with beside its bytes.
#[derive(Clone, Copy, Debug, PartialEq, Eq)]
pub struct Label {
    pub tag: Tag,
    pub stamp: u64,
}

/// Pages in memory. Those of files get the numbers of the physical segment one after the other, each is written once, and none is erased or
/// moved: an erase fails. A page of an address is written in its place.
#[derive(Drop)]
pub struct Still {
    pub(crate) shape: Shape,
    /// What each page was written with, None where it was not written.
    pub(crate) labels: Vec<Option<Label>>,
    /// What each live page holds, None where no live page is.
    pub(crate) live: Vec<Option<Label>>,
    pub(crate) pages: Vec<PageBuf>,
    /// The page that is written next.
    pub(crate) given: u32,
    /// How many pages can be written: all from that one on but those of the last block.
    pub(crate) room: u32,
    /// The blocks that they fill, and the last block.
    pub(crate) free: u32,
    /// The stamp of each address, None where it was never written.
    pub(crate) stamps: Vec<Option<u64>>,
    pub(crate) values: Vec<PageBuf>,
    /// The stamp of the next page.
    pub(crate) next: u64,
    /// How many pages were written.
    pub(crate) clock: u64,
    /// How many erases failed.
    pub(crate) failed: u64,
}

impl Still {
    /// A memory on which nothing is written.
    pub fn new(alloc: Global, shape: Shape) -> Result<Still, Memory>
        requires volume { IsVolumeShape shape }
        requires bounds { ShapeBounds shape }
        ensures formed { IfOk result IsStill }
        ensures fresh { IfOk result (IsFreshStill shape) }
    {
        let all = shape.blocks * shape.pages;
        let given = shape.vblocks * shape.pages;
        let room = all - shape.pages - given;
        Ok(Still {
            shape,
            labels: no_labels(alloc, all)?,
            live: no_labels(alloc, all)?,
            pages: blank_pages(alloc, all)?,
            given,
            room,
            free: 1 + room / shape.pages,
            stamps: no_stamps(alloc, shape.vaddrs)?,
            values: blank_pages(alloc, shape.vaddrs)?,
            next: 1,
            clock: 0,
            failed: 0,
        })
    }

    /// Writes the next page.
    pub(crate) fn put(&mut self, tag: Tag, from: &PageBuf)
        requires formed { IsStill self.old }
        requires room { 0 < self.old.room }
        requires stamp { self.old.next < 2 ^ 63 }
        ensures { PutsStill tag from.now self.old self.new }
    {
        let at = self.given as usize;
        let label = Label {
            tag,
            stamp: self.next,
        };
        self.labels[at] = Some(label);
        self.live[at] = Some(label);
        self.pages[at].copy_from(from);
        self.given += 1;
        self.room -= 1;
        self.free = 1 + self.room / self.shape.pages;
        self.next += 1;
        self.clock = later(self.clock);
    }

    /// What the live page of that number was written with.
    pub(crate) fn live_page(&self, page: u32) -> Option<Label>
        ensures { result ≡ slice_index_or self.now.live.items page None }
    {
        match self.live.get(page as usize) {
            Some(label) => *label,
            None => None,
        }
    }

    /// The stamp of an address.
    pub(crate) fn stamp_of(&self, vaddr: u32) -> Option<u64>
        ensures { result ≡ slice_index_or self.now.stamps.items vaddr None }
    {
        match self.stamps.get(vaddr as usize) {
            Some(stamp) => *stamp,
            None => None,
        }
    }

    /// The page of an address comes into a buffer.
    pub(crate) fn read_value(&self, vaddr: u32, buf: &mut PageBuf)
        requires { vaddr < length self.now.values.items }
        ensures { buf.new.main ≡ bytes_at self.now.values.items vaddr }
    {
        buf.copy_from(&self.values[vaddr as usize]);
    }
}

/// The clock after one page more. It stands at the end of its type.
pub(crate) fn later(clock: u64) -> u64
    ensures value { result ≡ saturated (clock + 1) }
    ensures never_falls { clock ≤ result }
    ensures later { Earlier clock result }
{
    clock.saturating_add(1)
}

fn no_labels(alloc: Global, count: u32) -> Result<Vec<Option<Label>>, Memory>
    ensures { IfOk result (λ v. v.items ≡ replicate count None) }
{
    Ok(vec![in alloc; None; count as usize]?)
}

fn no_stamps(alloc: Global, count: u32) -> Result<Vec<Option<u64>>, Memory>
    ensures { IfOk result (λ v. v.items ≡ replicate count None) }
{
    Ok(vec![in alloc; None; count as usize]?)
}

fn blank_pages(alloc: Global, count: u32) -> Result<Vec<PageBuf>, Memory>
    ensures { IfOk result (λ v. length v.items ≡ count) }
{
    let mut pages = Vec::with_capacity(alloc, count as usize)?;
    for made in 0..count {
        let _ = made;
        pages.push(PageBuf::new(alloc)?)?;
    }
    Ok(pages)
}
