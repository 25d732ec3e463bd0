// A page of nodes that is written and then fetched, twice, with a read that fails.
ghost use Rattle.std.specs.Prelude.{◌≡◌, ◌<◌, ◌≤◌, IfOk, length};
ghost use Rattle.nl_field.specs.Numbers.{shape_for};

use crate::blank_device::started;
use nl_device::Device;
use nl_field::{FailList, Memory, PageBuf, VirtualWrite, shape_of};
use nl_iface::{Counts, MovingPages, VirtualPages};
use nl_inode::{Fetch, fetch};
use nl_meta::Meta;
use nl_nand::MemNand;
use nl_test_device_segments::medium::blank;
use std::alloc::Global;

/// What a fetch answers, the first byte of the page where it is resident then, and how many pages are.
#[derive(Clone, Copy, PartialEq)]
pub struct Fetched {
    pub answer: Fetch,
    pub byte: Option<u8>,
    pub slots: u32,
}

/// The page of an address of nodes is written, so that it begins with 7, and fetched twice. Of the reads behind those of the scan, one
/// for each of the 1024 pages, the one of this number fails.
pub fn fetched_twice(alloc: Global, vaddr: u32, failing: u32) -> Result<[Fetched; 2], Memory>
    requires low { 67 ≤ vaddr }
    requires high { vaddr < 71 }
{
    let mut reads = FailList::new(alloc);
    reads.push(1024 + u64::from(failing))?;
    let media = blank(alloc, reads, FailList::new(alloc), None)?;
    let mut device = started(alloc, media)?;
    let fetched = write_and_fetch(alloc, &mut device, vaddr);
    drop(device);
    fetched
}

fn write_and_fetch(
    alloc: Global,
    device: &mut Device<MemNand>,
    vaddr: u32,
) -> Result<[Fetched; 2], Memory>
    requires formed { ⟦<Device<MemNand> as Counts>⟧.formed device.old }
    requires numbers { ⟦<Device<MemNand> as Counts>⟧.shape device.old ≡ shape_for 32 32 }
    requires spare { ⟦<Device<MemNand> as Counts>⟧.keeps_spare device.old }
    requires low { 67 ≤ vaddr }
    requires high { vaddr < 71 }
{
    write(alloc, device, vaddr)?;
    match shape_of(32, 32) {
        Some(shape) => {
            let mut meta = Meta::new(alloc, shape)?;
            let first = fetch_one(device, &mut meta, vaddr);
            let second = fetch_one(device, &mut meta, vaddr);
            Ok([first, second])
        }
        None => Err(Memory),
    }
}

fn write(alloc: Global, device: &mut Device<MemNand>, vaddr: u32) -> Result<(), Memory>
    requires formed { ⟦<Device<MemNand> as Counts>⟧.formed device.old }
    requires numbers { ⟦<Device<MemNand> as Counts>⟧.shape device.old ≡ shape_for 32 32 }
    requires spare { ⟦<Device<MemNand> as Counts>⟧.keeps_spare device.old }
    requires high { vaddr < 71 }
    ensures formed { IfOk result (λ u. ⟦<Device<MemNand> as Counts>⟧.formed device.new) }
    ensures numbers { IfOk result (λ u. ⟦<Device<MemNand> as Counts>⟧.shape device.new ≡ shape_for 32 32) }
{
    let mut buf = PageBuf::new(alloc)?;
    buf.set_main(0, &[7]);
    if device.next_stamp() > 10_000 {
        return Err(Memory);
    }
    match device.virtual_write(vaddr, &buf) {
        VirtualWrite::Done => Ok(()),
        _ => Err(Memory),
    }
}

fn fetch_one(device: &mut Device<MemNand>, meta: &mut Meta, vaddr: u32) -> Fetched
    requires formed { ⟦<Device<MemNand> as Counts>⟧.formed device.old }
    requires numbers { ⟦<Device<MemNand> as Counts>⟧.shape device.old ≡ shape_for 32 32 }
    requires low { 67 ≤ vaddr }
    requires high { vaddr < 71 }
    requires count { length meta.old.running ≡ 103 }
    ensures formed { ⟦<Device<MemNand> as Counts>⟧.formed device.new }
    ensures numbers { ⟦<Device<MemNand> as Counts>⟧.shape device.new ≡ shape_for 32 32 }
    ensures count { length meta.new.running ≡ 103 }
{
    let answer = fetch(device, meta, vaddr);
    let byte = if meta.resident(vaddr) {
        Some(meta.page(vaddr).main()[0])
    } else {
        None
    };
    Fetched {
        answer,
        byte,
        slots: meta.slots(),
    }
}
