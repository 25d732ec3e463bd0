//! The pages at which a walk looks are made resident.
ghost use Rattle.std.specs.Prelude.{◌≡◌, ◌<◌, ◌≤◌, ℕ, false, true, length, slice_index};
ghost use Rattle.nl_field.specs.Numbers.{ShapeBounds};
ghost use Rattle.nl_field.specs.Virtual.{is_inode_address, map_bytes};
ghost use Rattle.nl_iface.specs.Calls.{OnlyReads, ReadsCounted};
ghost use Rattle.nl_meta.specs.Consistent.{AddressAt};
ghost use Rattle.nl_meta.specs.PageLaws.{IsApart};
ghost use Rattle.nl_meta.specs.Pages.{page_of};
ghost use Rattle.nl_meta.specs.Running.{running_over};
ghost use Rattle.nl_recover.specs.Filling.{FillsFrom};
ghost use Rattle.nl_recover.specs.Loading.{IsPoolAddress, IsTableAddress, LoadsMetadata, Settled};
ghost use Rattle.nl_recover.specs.Looking.{LooksAlike};

use crate::look::inode;
use nl_field::{PageBuf, Shape, VirtualRead};
use nl_iface::VirtualPages;
use nl_meta::Meta;

/// How a page was read.
#[derive(Clone, Copy, Debug, PartialEq, Eq)]
pub(crate) enum Fill {
    Ready,
    /// The address has no page, or its page was lost.
    Absent,
    Fault,
}

/// Makes resident what a walk looks at: the super page, the pages of nodes, and the addresses of used nodes that lie in the pool. Then
/// the resident pages are alike to what the volume has over the device, wherever a walk looks. False exactly where a read failed.
pub fn load<D: VirtualPages>(device: &mut D, meta: &mut Meta, shape: &Shape) -> bool
    requires formed { D.formed device.old }
    requires shape { shape.now ≡ D.shape device.old }
    requires bounds { ShapeBounds shape.now }
    requires count { length meta.old.running ≡ shape.now.vaddrs }
    ensures formed { D.formed device.new }
    ensures device { OnlyReads D.Counts device.old device.new }
    ensures faults { ReadsCounted D.Counts (result ≡ false) device.old device.new }
    ensures loads { result ≡ true → LoadsMetadata D.tells (map_bytes (D.shape device.old) (D.map device.old)) meta.old meta.new }
    ensures alike { D.tells → result ≡ true
        → LooksAlike shape.now (running_over (map_bytes (D.shape device.old) (D.map device.old)) meta.old) (page_of meta.new) }
{
    if !load_tables(device, meta, shape) {
        return false;
    }
    load_nodes(device, meta, shape, 0, shape.nodes)
}

/// Makes the super page and the pages of nodes resident. False exactly where a read failed.
fn load_tables<D: VirtualPages>(device: &mut D, meta: &mut Meta, shape: &Shape) -> bool
    requires formed { D.formed device.old }
    requires shape { shape.now ≡ D.shape device.old }
    requires bounds { ShapeBounds shape.now }
    requires count { length meta.old.running ≡ shape.now.vaddrs }
    ensures formed { D.formed device.new }
    ensures device { OnlyReads D.Counts device.old device.new }
    ensures faults { ReadsCounted D.Counts (result ≡ false) device.old device.new }
    ensures loads { result ≡ true → LoadsMetadata D.tells (map_bytes (D.shape device.old) (D.map device.old)) meta.old meta.new }
    ensures settled { result ≡ true → (u : ℕ) → IsTableAddress shape.now u
        → Settled D.tells (map_bytes (D.shape device.old) (D.map device.old)) meta.old meta.new u }
{
    if !load_page(device, meta, 0, shape) {
        return false;
    }
    load_range(device, meta, shape, 67, 67 + shape.inode_pages)
}

/// Makes the pages of addresses from one on up to another resident. False exactly where a read failed.
fn load_range<D: VirtualPages>(
    device: &mut D,
    meta: &mut Meta,
    shape: &Shape,
    from: u32,
    to: u32,
) -> bool
    requires formed { D.formed device.old }
    requires shape { shape.now ≡ D.shape device.old }
    requires within { to ≤ shape.now.vaddrs }
    requires apart { 67 ≤ from }
    requires count { length meta.old.running ≡ shape.now.vaddrs }
    ensures formed { D.formed device.new }
    ensures device { OnlyReads D.Counts device.old device.new }
    ensures faults { ReadsCounted D.Counts (result ≡ false) device.old device.new }
    ensures loads { result ≡ true → LoadsMetadata D.tells (map_bytes (D.shape device.old) (D.map device.old)) meta.old meta.new }
    ensures settled { result ≡ true → (u : ℕ) → from ≤ u → u < to
        → Settled D.tells (map_bytes (D.shape device.old) (D.map device.old)) meta.old meta.new u }
{
    if to <= from {
        return true;
    }
    if !load_page(device, meta, from, shape) {
        return false;
    }
    load_range(device, meta, shape, from + 1, to)
}

/// Makes the pages of addresses of used nodes resident, from one node on up to another. False exactly where a read failed.
fn load_nodes<D: VirtualPages>(
    device: &mut D,
    meta: &mut Meta,
    shape: &Shape,
    from: u32,
    to: u32,
) -> bool
    requires formed { D.formed device.old }
    requires shape { shape.now ≡ D.shape device.old }
    requires bounds { ShapeBounds shape.now }
    requires count { length meta.old.running ≡ shape.now.vaddrs }
    ensures formed { D.formed device.new }
    ensures device { OnlyReads D.Counts device.old device.new }
    ensures faults { ReadsCounted D.Counts (result ≡ false) device.old device.new }
    ensures loads { result ≡ true → LoadsMetadata D.tells (map_bytes (D.shape device.old) (D.map device.old)) meta.old meta.new }
    ensures settled { result ≡ true → (n slot a : ℕ) → from ≤ n → n < to → AddressAt shape.now (page_of meta.old) n slot a
        → IsPoolAddress shape.now a → Settled D.tells (map_bytes (D.shape device.old) (D.map device.old)) meta.old meta.new a }
{
    if to <= from {
        return true;
    }
    if !load_node(device, meta, shape, from) {
        return false;
    }
    load_nodes(device, meta, shape, from + 1, to)
}

fn load_node<D: VirtualPages>(device: &mut D, meta: &mut Meta, shape: &Shape, ino: u32) -> bool
    requires formed { D.formed device.old }
    requires shape { shape.now ≡ D.shape device.old }
    requires bounds { ShapeBounds shape.now }
    requires count { length meta.old.running ≡ shape.now.vaddrs }
    ensures formed { D.formed device.new }
    ensures device { OnlyReads D.Counts device.old device.new }
    ensures faults { ReadsCounted D.Counts (result ≡ false) device.old device.new }
    ensures loads { result ≡ true → LoadsMetadata D.tells (map_bytes (D.shape device.old) (D.map device.old)) meta.old meta.new }
    ensures settled { result ≡ true → (slot a : ℕ) → AddressAt shape.now (page_of meta.old) ino slot a → IsPoolAddress shape.now a
        → Settled D.tells (map_bytes (D.shape device.old) (D.map device.old)) meta.old meta.new a }
{
    match inode(meta, ino) {
        Some(rec) => load_addresses(device, meta, shape, &rec.addresses, 0),
        None => true,
    }
}

/// Makes the pages of those addresses, from a place on, resident that lie in the pool. False exactly where a read failed.
fn load_addresses<D: VirtualPages>(
    device: &mut D,
    meta: &mut Meta,
    shape: &Shape,
    addresses: &[u32],
    from: usize,
) -> bool
    requires formed { D.formed device.old }
    requires shape { shape.now ≡ D.shape device.old }
    requires bounds { ShapeBounds shape.now }
    requires count { length meta.old.running ≡ shape.now.vaddrs }
    ensures formed { D.formed device.new }
    ensures device { OnlyReads D.Counts device.old device.new }
    ensures faults { ReadsCounted D.Counts (result ≡ false) device.old device.new }
    ensures loads { result ≡ true → LoadsMetadata D.tells (map_bytes (D.shape device.old) (D.map device.old)) meta.old meta.new }
    ensures settled { result ≡ true → (k : ℕ) → from ≤ k → k < length addresses.now → IsPoolAddress shape.now (slice_index addresses.now k)
        → Settled D.tells (map_bytes (D.shape device.old) (D.map device.old)) meta.old meta.new (slice_index addresses.now k) }
{
    if addresses.len() <= from {
        return true;
    }
    if !load_address(device, meta, shape, addresses[from]) {
        return false;
    }
    load_addresses(device, meta, shape, addresses, from + 1)
}

/// Makes the page of an address of the pool resident, where it has one. False exactly where its read failed.
fn load_address<D: VirtualPages>(
    device: &mut D,
    meta: &mut Meta,
    shape: &Shape,
    address: u32,
) -> bool
    requires formed { D.formed device.old }
    requires shape { shape.now ≡ D.shape device.old }
    requires bounds { ShapeBounds shape.now }
    requires count { length meta.old.running ≡ shape.now.vaddrs }
    ensures formed { D.formed device.new }
    ensures device { OnlyReads D.Counts device.old device.new }
    ensures faults { ReadsCounted D.Counts (result ≡ false) device.old device.new }
    ensures loads { result ≡ true → LoadsMetadata D.tells (map_bytes (D.shape device.old) (D.map device.old)) meta.old meta.new }
    ensures settled { result ≡ true → IsPoolAddress shape.now address
        → Settled D.tells (map_bytes (D.shape device.old) (D.map device.old)) meta.old meta.new address }
{
    if address < 67 + shape.inode_pages || shape.vaddrs <= address {
        return true;
    }
    load_page(device, meta, address, shape)
}

/// Makes the page of an address resident, where it has one. False exactly where its read failed.
fn load_page<D: VirtualPages>(device: &mut D, meta: &mut Meta, vaddr: u32, shape: &Shape) -> bool
    requires formed { D.formed device.old }
    requires shape { shape.now ≡ D.shape device.old }
    requires within { vaddr < shape.now.vaddrs }
    requires apart { IsApart vaddr }
    requires count { length meta.old.running ≡ shape.now.vaddrs }
    ensures formed { D.formed device.new }
    ensures device { OnlyReads D.Counts device.old device.new }
    ensures faults { ReadsCounted D.Counts (result ≡ false) device.old device.new }
    ensures loads { result ≡ true → LoadsMetadata D.tells (map_bytes (D.shape device.old) (D.map device.old)) meta.old meta.new }
    ensures settled { result ≡ true → Settled D.tells (map_bytes (D.shape device.old) (D.map device.old)) meta.old meta.new vaddr }
{
    if meta.resident(vaddr) {
        return true;
    }
    meta.stands();
    let is_inode = 67 <= vaddr && vaddr - 67 < shape.inode_pages;
    match read_into(device, vaddr, is_inode, meta.admit(vaddr)) {
        Fill::Ready => true,
        Fill::Absent => {
            meta.dismiss(vaddr);
            true
        }
        Fill::Fault => false,
    }
}

/// Reads the page of an address, zeros where nodes have it and it was never written.
pub(crate) fn read_into<D: VirtualPages>(
    device: &mut D,
    vaddr: u32,
    is_inode: bool,
    page: &mut PageBuf,
) -> Fill
    requires formed { D.formed device.old }
    requires within { vaddr < (D.shape device.old).vaddrs }
    requires inode { is_inode ≡ is_inode_address (D.shape device.old) vaddr }
    ensures formed { D.formed device.new }
    ensures device { OnlyReads D.Counts device.old device.new }
    ensures faults { ReadsCounted D.Counts (result ≡ Fill.Fault) device.old device.new }
    ensures page { D.tells → FillsFrom (map_bytes (D.shape device.old) (D.map device.old) vaddr) page.new.main result }
{
    match device.virtual_read(vaddr, page) {
        VirtualRead::Done => Fill::Ready,
        VirtualRead::Unmapped => {
            if is_inode {
                page.clear();
                Fill::Ready
            } else {
                Fill::Absent
            }
        }
        VirtualRead::Lost { .. } => Fill::Absent,
        VirtualRead::Fault => Fill::Fault,
    }
}
