// A new volume on a device, and the core over it.
ghost use Rattle.std.specs.Prelude.{◌≡◌, ◌*◌, ◌+◌, ◌≤◌, ◌<◌, ◌^◌, [], IfOk, IsTrue};
ghost use Rattle.nl_core.specs.Core.{IsCore};
ghost use Rattle.nl_core_new.specs.Idle.{IsAlwaysFirm, IsIdle};
ghost use Rattle.nl_core_new.specs.New.{IsNew, IsWrittenOn, StaysFormed, device_in};
ghost use Rattle.nl_field.specs.Numbers.{ShapeBounds};
ghost use Rattle.nl_flight.specs.Flight.{nothing};

use crate::beginning::begun;
use nl_core::Core;
use nl_field::{
    FailList, InodeRec, Kind, Memory, PageBuf, Pointer, PointerList, Shape, SuperRec, VirtualWrite,
};
use nl_flight::Flight;
use nl_iface::MovingPages;
use nl_nand::MemNand;
use nl_recover::{Recovered, recover};
use nl_scan::{ScanTables, Scanned, scan};
use nl_spec_commits::laws::device_stands;
use std::alloc::Global;

/// The core over a new volume on a device that is idle: the root and the super page are written, and then walked as an opening does. The
/// core runs as the tree with only the root, after no call. The device comes back for want of memory, where a write or a read failed, and
/// where the walk finds no such volume.
pub fn open_new<D: MovingPages>(alloc: Global, device: D, shape: Shape) -> Result<Core<D>, D>
    requires idle { IsIdle D.Counts device }
    requires shape { shape ≡ D.shape device }
    requires stamps { D.next_stamp device + 2 ≤ 2 ^ 63 }
    requires firm { IsAlwaysFirm D.Counts }
    ensures core { IfOk result (IsCore D.Counts) }
    ensures new { IfOk result (IsNew D.Counts) }
    ensures written { IfOk result (λ v. IsWrittenOn D.Counts 2 device v.device) }
    ensures device { StaysFormed D.Counts device (device_in result) }
{
    device_stands(&device);
    match wants_for(alloc, &shape) {
        Ok(wants) => open_with(alloc, device, shape, wants),
        Err(Memory) => Err(device),
    }
}

// The same with what it wants of memory.
fn open_with<D: MovingPages>(
    alloc: Global,
    device: D,
    shape: Shape,
    wants: Wants,
) -> Result<Core<D>, D>
    requires idle { IsIdle D.Counts device }
    requires shape { shape ≡ D.shape device }
    requires stamps { D.next_stamp device + 2 ≤ 2 ^ 63 }
    requires firm { IsAlwaysFirm D.Counts }
    requires flight { wants.flight ≡ nothing }
    requires freeing { wants.freeing.items ≡ [] }
    requires room { shape.pblocks * shape.pages ≤ wants.freeing.room }
    ensures core { IfOk result (IsCore D.Counts) }
    ensures new { IfOk result (IsNew D.Counts) }
    ensures written { IfOk result (λ v. IsWrittenOn D.Counts 2 device v.device) }
    ensures device { StaysFormed D.Counts device (device_in result) }
{
    let Wants {
        mut page,
        scan,
        flight,
        freeing,
    } = wants;
    let mut device = device;
    if !write_volume(&mut device, &shape, &mut page) {
        return Err(device);
    }
    match recover(alloc, &mut device, &shape, &scan) {
        Recovered::Ready(walked) => begun(device, shape, &scan, walked, flight, freeing),
        other => {
            drop(other);
            Err(device)
        }
    }
}

// Writes the first page of nodes, with an empty root, and the super page. Whether both were written and no write failed.
fn write_volume<D: MovingPages>(device: &mut D, shape: &Shape, page: &mut PageBuf) -> bool
    requires idle { IsIdle D.Counts device.old }
    requires shape { shape.now ≡ D.shape device.old }
    requires stamps { D.next_stamp device.old + 2 ≤ 2 ^ 63 }
    ensures idle { IsTrue result → IsIdle D.Counts device.new }
    ensures written { IsTrue result → IsWrittenOn D.Counts 2 device.old device.new }
    ensures device { StaysFormed D.Counts device.old device.new }
{
    device_stands(device);
    page.clear();
    InodeRec {
        kind: Kind::Dir,
        generation: 0,
        size: 0,
        direct: [Pointer { name: 0, stamp: 0 }; 8],
        addresses: [0; 16],
    }
    .into_page(page, 0);
    if !put(device, 67, page) {
        return false;
    }
    SuperRec {
        version: 1,
        blocks: shape.blocks,
        pages: shape.pages,
        count: 0,
    }
    .into_page(page, 0);
    put(device, 0, page)
}

// Writes the page of an address. Whether it was written and no write failed.
fn put<D: MovingPages>(device: &mut D, vaddr: u32, page: &PageBuf) -> bool
    requires idle { IsIdle D.Counts device.old }
    requires within { vaddr < (D.shape device.old).vaddrs }
    requires stamp { D.next_stamp device.old < 2 ^ 63 }
    ensures idle { IsTrue result → IsIdle D.Counts device.new }
    ensures written { IsTrue result → IsWrittenOn D.Counts 1 device.old device.new }
    ensures device { StaysFormed D.Counts device.old device.new }
{
    let before = device.write_faults();
    match device.virtual_write(vaddr, page) {
        VirtualWrite::Done => device.write_faults() == before,
        VirtualWrite::Lost { .. } | VirtualWrite::Fault => false,
    }
}

// What an opening wants of memory: a page, what a scan found, the lines in flight of all workers, and a list with room for each page of
// files.
#[derive(Drop)]
struct Wants {
    page: PageBuf,
    scan: ScanTables,
    flight: Flight,
    freeing: PointerList,
}

fn wants_for(alloc: Global, shape: &Shape) -> Result<Wants, Memory>
    requires { ShapeBounds shape.now }
    ensures flight { IfOk result (λ w. w.flight ≡ nothing) }
    ensures freeing { IfOk result (λ w. w.freeing.items ≡ []) }
    ensures room { IfOk result (λ w. shape.now.pblocks * shape.now.pages ≤ w.freeing.room) }
{
    let page = PageBuf::new(alloc)?;
    let scan = no_pages(alloc)?;
    let flight = Flight::new(alloc)?;
    let mut freeing = PointerList::new(alloc);
    freeing.reserve(shape.pblocks * shape.pages)?;
    Ok(Wants {
        page,
        scan,
        flight,
        freeing,
    })
}

// The list of no pages, as a scan of a medium gives it that was never formed.
fn no_pages(alloc: Global) -> Result<ScanTables, Memory> {
    let mut media = MemNand::new(alloc, FailList::new(alloc), FailList::new(alloc), None);
    match scan(alloc, &mut media) {
        Scanned::Tables(tables) => Ok(tables),
        Scanned::Fault | Scanned::Memory => Err(Memory),
    }
}
