//! All committed pages of a volume are made resident: a check looks at addresses that an opening refuses, too.
ghost use Rattle.std.specs.Prelude.{◌≡◌, ◌<◌, ◌≤◌, ℕ, false, true, length};
ghost use Rattle.nl_field.specs.Virtual.{is_inode_address, map_bytes};
ghost use Rattle.nl_iface.specs.Calls.{OnlyReads, ReadsCounted};
ghost use Rattle.nl_meta.specs.Committed.{committed};
ghost use Rattle.nl_meta.specs.Pages.{page_of};
ghost use Rattle.nl_meta_running.specs.Running.{stored_on};
ghost use Rattle.nl_check.specs.Reading.{IfAllRead, IsNotRead, IsResident, MakesResident, ReadsInto};

use nl_field::{PageBuf, Shape, VirtualRead};
use nl_iface::VirtualPages;
use nl_meta::Meta;
use nl_recover::{Metadata, ReadPages, read_pages};
use std::alloc::Global;

/// What the reading of all committed pages answers.
#[derive(Drop)]
pub(crate) enum ReadAll {
    /// Each address has its committed page, where it has one.
    Done(Meta),
    /// A read failed.
    Fault,
    Memory,
}

/// Reads the journal and each committed page. The device is only read.
pub(crate) fn read_all<D: VirtualPages>(alloc: Global, device: &mut D, shape: &Shape) -> ReadAll
    requires formed { D.formed device.old }
    requires shape { shape.now ≡ D.shape device.old }
    ensures device { OnlyReads D.Counts device.old device.new }
    ensures faults { ReadsCounted D.Counts (IsNotRead result) device.old device.new }
    ensures read { D.tells
        → IfAllRead result (λ p. (v : ℕ) → page_of p v ≡ committed shape.now (stored_on D.Counts device.old) v) }
{
    match read_pages(alloc, device, shape) {
        ReadPages::Done(Metadata { journal: _, meta }) => read_rest(device, meta, shape),
        ReadPages::Fault => ReadAll::Fault,
        ReadPages::Memory => ReadAll::Memory,
    }
}

// Makes the pages of all addresses resident, beside those that are.
fn read_rest<D: VirtualPages>(device: &mut D, meta: Meta, shape: &Shape) -> ReadAll
    requires formed { D.formed device.old }
    requires shape { shape.now ≡ D.shape device.old }
    requires count { length meta.running ≡ shape.now.vaddrs }
    ensures device { OnlyReads D.Counts device.old device.new }
    ensures faults { ReadsCounted D.Counts (IsNotRead result) device.old device.new }
    ensures read { IfAllRead result (λ p. (u : ℕ)
        → IsResident D.tells (map_bytes (D.shape device.old) (D.map device.old)) meta p u) }
{
    let mut meta = meta;
    if load_range(device, &mut meta, shape, 0, shape.vaddrs) {
        ReadAll::Done(meta)
    } else {
        ReadAll::Fault
    }
}

/// Makes the pages of addresses from one on up to another resident. False exactly where a read failed.
fn load_range<D: VirtualPages>(
    device: &mut D,
    meta: &mut Meta,
    shape: &Shape,
    from: u32,
    to: u32,
) -> bool
    requires formed { D.formed device.old }
    requires shape { shape.now ≡ D.shape device.old }
    requires within { to ≤ shape.now.vaddrs }
    requires count { length meta.old.running ≡ shape.now.vaddrs }
    ensures formed { D.formed device.new }
    ensures device { OnlyReads D.Counts device.old device.new }
    ensures faults { ReadsCounted D.Counts (result ≡ false) device.old device.new }
    ensures loads { result ≡ true → MakesResident D.tells (map_bytes (D.shape device.old) (D.map device.old)) meta.old meta.new }
    ensures resident { result ≡ true → (u : ℕ) → from ≤ u → u < to
        → IsResident D.tells (map_bytes (D.shape device.old) (D.map device.old)) meta.old meta.new u }
{
    if to <= from {
        return true;
    }
    if !load_page(device, meta, shape, from) {
        return false;
    }
    load_range(device, meta, shape, from + 1, to)
}

/// Makes the page of an address resident, where it has one. False exactly where its read failed.
fn load_page<D: VirtualPages>(device: &mut D, meta: &mut Meta, shape: &Shape, vaddr: u32) -> bool
    requires formed { D.formed device.old }
    requires shape { shape.now ≡ D.shape device.old }
    requires within { vaddr < shape.now.vaddrs }
    requires count { length meta.old.running ≡ shape.now.vaddrs }
    ensures formed { D.formed device.new }
    ensures device { OnlyReads D.Counts device.old device.new }
    ensures faults { ReadsCounted D.Counts (result ≡ false) device.old device.new }
    ensures loads { result ≡ true → MakesResident D.tells (map_bytes (D.shape device.old) (D.map device.old)) meta.old meta.new }
    ensures resident { result ≡ true → IsResident D.tells (map_bytes (D.shape device.old) (D.map device.old)) meta.old meta.new vaddr }
{
    if meta.resident(vaddr) {
        return true;
    }
    meta.stands();
    let is_inode = 67 <= vaddr && vaddr - 67 < shape.inode_pages;
    match read_into(device, vaddr, is_inode, meta.admit(vaddr)) {
        Fill::Ready => true,
        Fill::Absent => {
            meta.dismiss(vaddr);
            true
        }
        Fill::Fault => false,
    }
}

/// How a page was read.
#[derive(Clone, Copy, Debug, PartialEq, Eq)]
pub(crate) enum Fill {
    Ready,
    /// The address has no page, or its page was lost.
    Absent,
    Fault,
}

/// Reads the page of an address, zeros where nodes have it and it was never written.
fn read_into<D: VirtualPages>(
    device: &mut D,
    vaddr: u32,
    is_inode: bool,
    page: &mut PageBuf,
) -> Fill
    requires formed { D.formed device.old }
    requires within { vaddr < (D.shape device.old).vaddrs }
    requires inode { is_inode ≡ is_inode_address (D.shape device.old) vaddr }
    ensures formed { D.formed device.new }
    ensures device { OnlyReads D.Counts device.old device.new }
    ensures faults { ReadsCounted D.Counts (result ≡ Fill.Fault) device.old device.new }
    ensures page { D.tells → ReadsInto (map_bytes (D.shape device.old) (D.map device.old) vaddr) page.new.main result }
{
    match device.virtual_read(vaddr, page) {
        VirtualRead::Done => Fill::Ready,
        VirtualRead::Unmapped => {
            if is_inode {
                page.clear();
                Fill::Ready
            } else {
                Fill::Absent
            }
        }
        VirtualRead::Lost { .. } => Fill::Absent,
        VirtualRead::Fault => Fill::Fault,
    }
}
