// Two commits of the journal over a device, on a medium that stops, and what an opening finds then.
ghost use Rattle.std.specs.Prelude.{◌≡◌, ◌<◌, ◌≤◌, [], ◌∷◌, IfOk, IsSome, IsTrue, length};
ghost use Rattle.nl_field.specs.Numbers.{shape_for};
ghost use Rattle.nl_meta.specs.Pages.{with_address};
ghost use Rattle.nl_nand.specs.Memory.{contents_of, geometry_of};
ghost use Rattle.nl_iface.specs.Stored.{NoneFailed};
ghost use Rattle.nl_nand.specs.Nand.{IsBlank};
ghost use Rattle.nl_test_device.specs.Standing.{IsLeastDevice};

use crate::blank_device::started;
use nl_device::{Device, Started};
use nl_field::{FailList, Memory, PageBuf, VirtualRead, shape_of};
use nl_iface::{Counts, MovingPages, VirtualPages};
use nl_journal::{Committing, Journal, ReadBack};
use nl_meta::Meta;
use nl_nand::{Cut, MemNand, Nand, Stop};
use nl_test_device_segments::medium::blank;
use std::alloc::Global;

/// The pages that are committed: the super page, two of nodes, and the first and the last of the pool.
const ADDRESSES: [u32; 5] = [0, 67, 68, 71, 102];

/// A device with a journal and the metadata pages.
#[derive(Drop)]
pub struct Volume {
    device: Device<MemNand>,
    journal: Journal,
    meta: Meta,
}

/// What an opening finds: which transaction counts, as both calls tell it, and the first byte of each page that has one, once its images
/// were brought back.
#[derive(Clone, Copy, PartialEq)]
pub struct Stopped {
    pub found: ReadBack,
    pub brought: ReadBack,
    pub bytes: [Option<u8>; 5],
}

/// Two commits of five pages each, the first of pages that begin with 1 and the second with 2, on a medium that stops within an
/// operation. What an opening finds afterwards.
pub fn stopped_at(alloc: Global, operation: u64, cut: Cut) -> Result<Stopped, Memory> {
    let none = FailList::new(alloc);
    let stop = Stop { operation, cut };
    let media = blank(alloc, none, FailList::new(alloc), Some(stop))?;
    let mut volume = begin(alloc, media)?;
    if commit_all(&mut volume, 1) {
        commit_all(&mut volume, 2);
    }
    opened(alloc, volume.device.into_media().restart(None))
}

// The volume of a blank medium, before its first transaction.
fn begin(alloc: Global, media: MemNand) -> Result<Volume, Memory>
    requires numbers { geometry_of media ≡ record { blocks = 32; pages = 32 } }
    requires erased { IsBlank (contents_of media) }
    ensures { IfOk result (λ v. IsLeastDevice ⟦<Device<MemNand> as Counts>⟧ v.device v.journal v.meta) }
{
    let mut device = started(alloc, media)?;
    match make_beside(alloc, &mut device) {
        Ok(beside) => Ok(Volume {
            device,
            journal: beside.journal,
            meta: beside.meta,
        }),
        Err(memory) => {
            drop(device);
            Err(memory)
        }
    }
}

// What a volume has beside its device.
#[derive(Drop)]
struct Beside {
    journal: Journal,
    meta: Meta,
}

// A journal and the pages, beside the device of a blank medium.
fn make_beside(alloc: Global, device: &mut Device<MemNand>) -> Result<Beside, Memory>
    requires formed { ⟦<Device<MemNand> as Counts>⟧.formed device.old }
    requires numbers { ⟦<Device<MemNand> as Counts>⟧.shape device.old ≡ shape_for 32 32 }
    requires spare { ⟦<Device<MemNand> as Counts>⟧.keeps_spare device.old }
    requires idle { (⟦<Device<MemNand> as Counts>⟧.names device.old).pending ≡ [] }
    requires none_failed { NoneFailed (⟦<Device<MemNand> as Counts>⟧.shape device.old).vaddrs
        (⟦<Device<MemNand> as Counts>⟧.failed device.old) }
    ensures { IfOk result (λ b. IsLeastDevice ⟦<Device<MemNand> as Counts>⟧ device.new b.journal b.meta) }
{
    let mut journal = Journal::new(alloc)?;
    match shape_of(32, 32) {
        Some(shape) => {
            let mut meta = Meta::new(alloc, shape)?;
            match journal.bring_back(device, &mut meta, &shape) {
                ReadBack::Nothing => Ok(Beside { journal, meta }),
                _ => Err(Memory),
            }
        }
        None => Err(Memory),
    }
}

// Commits the pages, each of which begins with this byte. Whether it was done.
fn commit_all(volume: &mut Volume, byte: u8) -> bool
    requires { IsLeastDevice ⟦<Device<MemNand> as Counts>⟧ volume.old.device volume.old.journal volume.old.meta }
    ensures { IsTrue result → IsLeastDevice ⟦<Device<MemNand> as Counts>⟧ volume.new.device volume.new.journal volume.new.meta }
{
    if volume.device.next_stamp() > 10_000 {
        return false;
    }
    if !put_all(&mut volume.meta, byte) {
        return false;
    }
    volume.meta.stands();
    matches!(
        volume.journal.commit(&mut volume.device, &mut volume.meta),
        Committing::Done(_)
    )
}

// Whether the pages begin with this byte then, and are the dirty ones.
fn put_all(meta: &mut Meta, byte: u8) -> bool
    requires count { length meta.old.running ≡ 103 }
    requires clean { meta.old.dirty ≡ [] }
    ensures dirty { IsTrue result → meta.new.dirty ≡ 0 ∷ 67 ∷ 68 ∷ 71 ∷ 102 ∷ [] }
    ensures count { length meta.new.running ≡ length meta.old.running }
    ensures frozen { meta.new.frozen ≡ meta.old.frozen }
{
    if !put(meta, 0, byte) {
        return false;
    }
    if !put(meta, 67, byte) {
        return false;
    }
    if !put(meta, 68, byte) {
        return false;
    }
    if !put(meta, 71, byte) {
        return false;
    }
    put(meta, 102, byte)
}

// Whether the page of an address begins with this byte then, and is dirty.
fn put(meta: &mut Meta, vaddr: u32, byte: u8) -> bool
    requires { vaddr < length meta.old.running }
    ensures dirty { IsTrue result → meta.new.dirty ≡ with_address vaddr meta.old.dirty }
    ensures count { length meta.new.running ≡ length meta.old.running }
    ensures frozen { meta.new.frozen ≡ meta.old.frozen }
{
    if !meta.fresh(vaddr) {
        return false;
    }
    match meta.page_mut(vaddr) {
        Some(page) => {
            page.set_main(0, &[byte]);
            true
        }
        None => false,
    }
}

// What an opening of a medium of 32 blocks of 32 pages finds.
fn opened(alloc: Global, media: MemNand) -> Result<Stopped, Memory> {
    let geometry = media.geometry();
    if geometry.blocks != 32 || geometry.pages != 32 {
        drop(media);
        return Err(Memory);
    }
    match Device::start(alloc, media) {
        Started::Ready(mut device, _) => {
            let stopped = read_all(alloc, &mut device);
            drop(device);
            stopped
        }
        other => {
            drop(other);
            Err(Memory)
        }
    }
}

fn read_all(alloc: Global, device: &mut Device<MemNand>) -> Result<Stopped, Memory>
    requires formed { ⟦<Device<MemNand> as Counts>⟧.formed device.old }
    requires numbers { ⟦<Device<MemNand> as Counts>⟧.shape device.old ≡ shape_for 32 32 }
{
    let mut journal = Journal::new(alloc)?;
    match shape_of(32, 32) {
        Some(shape) => {
            let mut meta = Meta::new(alloc, shape)?;
            let found = journal.read_back(device, &shape);
            let brought = journal.bring_back(device, &mut meta, &shape);
            let bytes = bytes_of(alloc, device, &meta)?;
            Ok(Stopped {
                found,
                brought,
                bytes,
            })
        }
        None => Err(Memory),
    }
}

// The first byte of each page: of the one that is resident, and else of the page at home.
fn bytes_of(
    alloc: Global,
    device: &mut Device<MemNand>,
    meta: &Meta,
) -> Result<[Option<u8>; 5], Memory>
    requires formed { ⟦<Device<MemNand> as Counts>⟧.formed device.old }
    requires addresses { (⟦<Device<MemNand> as Counts>⟧.shape device.old).vaddrs ≡ 103 }
{
    let mut buf = PageBuf::new(alloc)?;
    let first = byte_of(device, meta, ADDRESSES[0], &mut buf)?;
    let second = byte_of(device, meta, ADDRESSES[1], &mut buf)?;
    let third = byte_of(device, meta, ADDRESSES[2], &mut buf)?;
    let fourth = byte_of(device, meta, ADDRESSES[3], &mut buf)?;
    let fifth = byte_of(device, meta, ADDRESSES[4], &mut buf)?;
    Ok([first, second, third, fourth, fifth])
}

fn byte_of(
    device: &mut Device<MemNand>,
    meta: &Meta,
    vaddr: u32,
    buf: &mut PageBuf,
) -> Result<Option<u8>, Memory>
    requires formed { ⟦<Device<MemNand> as Counts>⟧.formed device.old }
    requires addresses { (⟦<Device<MemNand> as Counts>⟧.shape device.old).vaddrs ≡ 103 }
    requires within { vaddr ≤ 102 }
    ensures formed { ⟦<Device<MemNand> as Counts>⟧.formed device.new }
    ensures addresses { (⟦<Device<MemNand> as Counts>⟧.shape device.new).vaddrs ≡ 103 }
{
    if meta.resident(vaddr) {
        return Ok(Some(meta.page(vaddr).main()[0]));
    }
    byte_at(device, vaddr, buf)
}

fn byte_at(
    device: &mut Device<MemNand>,
    vaddr: u32,
    buf: &mut PageBuf,
) -> Result<Option<u8>, Memory>
    requires formed { ⟦<Device<MemNand> as Counts>⟧.formed device.old }
    requires addresses { (⟦<Device<MemNand> as Counts>⟧.shape device.old).vaddrs ≡ 103 }
    requires within { vaddr ≤ 102 }
    ensures formed { ⟦<Device<MemNand> as Counts>⟧.formed device.new }
    ensures addresses { (⟦<Device<MemNand> as Counts>⟧.shape device.new).vaddrs ≡ 103 }
{
    match device.virtual_read(vaddr, buf) {
        VirtualRead::Done => Ok(Some(buf.main()[0])),
        VirtualRead::Unmapped => Ok(None),
        _ => Err(Memory),
    }
}
