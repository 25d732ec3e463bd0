// A device whose addresses are written.
ghost use Rattle.std.specs.Prelude.{IfOk, IsTrue};
ghost use Rattle.nl_field.specs.Numbers.{ShapeBounds};
ghost use Rattle.nl_iface.specs.Device.{IsVolumeShape};
ghost use Rattle.nl_test_namespace.specs.Volumes.{AddressesCanBeWritten};

use crate::device::{Stamps, blank};
use nl_device::{Device, Started};
use nl_field::{Memory, PageBuf, Shape, VirtualWrite};
use nl_iface::Counts;
use nl_meta::Meta;
use nl_nand::MemNand;
use nl_scan::ScanTables;
use std::alloc::Global;

/// A device that was started, and what its scan saw.
#[derive(Drop)]
pub struct Fresh {
    pub device: Device<MemNand>,
    pub scan: ScanTables,
}

/// A device of these numbers, on a blank medium.
pub fn begun(alloc: Global, shape: Shape) -> Result<Fresh, Memory>
    requires volume { IsVolumeShape shape }
    requires bounds { ShapeBounds shape }
    ensures { IfOk result (λ b. AddressesCanBeWritten ⟦<Device<MemNand> as Counts>⟧ b.device shape) }
{
    let media = blank(alloc, shape.blocks, shape.pages)?;
    match Device::start(alloc, media) {
        Started::Ready(device, scan) => Ok(Fresh { device, scan }),
        _ => Err(Memory),
    }
}

/// How the super page of a volume begins: before its numbers, and its count of calls, which is 0.
const SUPER: [u8; 12] = *b"NAMELESS\x01\0\0\0";

/// The record of a directory without entries.
const ROOT: [u8; 24] = *b"\x02\0\0\0\0\0\0\0\0\0\0\0\0\0\0\0\0\0\0\0\0\0\0\0";

/// A volume with an empty root is written. Whether it was.
pub fn format<D: Stamps>(device: &mut D, shape: &Shape, buf: &mut PageBuf) -> bool
    requires write { AddressesCanBeWritten D.Counts device.old shape.now }
    ensures write { IsTrue result → AddressesCanBeWritten D.Counts device.new shape.now }
{
    buf.clear();
    buf.set_main(0, &SUPER);
    buf.set_main(12, &shape.blocks.to_le_bytes());
    buf.set_main(16, &shape.pages.to_le_bytes());
    if !put(device, shape, 0, buf) {
        return false;
    }
    buf.clear();
    buf.set_main(0, &ROOT);
    put(device, shape, 67, buf)
}

/// Writes the page of an address. Whether it was written.
fn put<D: Stamps>(device: &mut D, shape: &Shape, vaddr: u32, buf: &PageBuf) -> bool
    requires write { AddressesCanBeWritten D.Counts device.old shape.now }
    ensures write { IsTrue result → AddressesCanBeWritten D.Counts device.new shape.now }
{
    if vaddr >= shape.vaddrs {
        return false;
    }
    if device.stamp() > 1_000_000 {
        return false;
    }
    match device.virtual_write(vaddr, buf) {
        VirtualWrite::Done => true,
        VirtualWrite::Lost { .. } => false,
        VirtualWrite::Fault => false,
    }
}

/// Writes each page that is resident, from an address on. A node that lost its name, if one did, gets the record of an unused one. Whether
/// all were written.
pub fn save<D: Stamps>(
    device: &mut D,
    shape: &Shape,
    meta: &Meta,
    gone: Option<u32>,
    buf: &mut PageBuf,
    vaddr: u32,
) -> bool
    requires write { AddressesCanBeWritten D.Counts device.old shape.now }
    ensures write { IsTrue result → AddressesCanBeWritten D.Counts device.new shape.now }
{
    if vaddr >= 4_000 {
        return true;
    }
    if !save_one(device, shape, meta, gone, buf, vaddr) {
        return false;
    }
    save(device, shape, meta, gone, buf, vaddr + 1)
}

/// Writes the page of an address that is resident. False where that failed.
fn save_one<D: Stamps>(
    device: &mut D,
    shape: &Shape,
    meta: &Meta,
    gone: Option<u32>,
    buf: &mut PageBuf,
    vaddr: u32,
) -> bool
    requires write { AddressesCanBeWritten D.Counts device.old shape.now }
    ensures write { IsTrue result → AddressesCanBeWritten D.Counts device.new shape.now }
{
    if !meta.resident(vaddr) {
        return true;
    }
    buf.set_main(0, meta.page(vaddr).main());
    clear_node(buf, vaddr, gone);
    put(device, shape, vaddr, buf)
}

/// Where the page has the node that lost its name, its record becomes that of an unused one.
fn clear_node(buf: &mut PageBuf, vaddr: u32, gone: Option<u32>) {
    if let Some(ino) = gone
        && ino < 16384
        && vaddr == 67 + ino / 16
    {
        buf.set_main((256 * (ino % 16)) as usize, &[0; 256]);
    }
}
