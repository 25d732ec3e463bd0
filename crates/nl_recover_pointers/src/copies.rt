//! The pages of both segments as copies, each with whether it is needed.
ghost use Rattle.std.specs.Prelude.{◌≡◌, ◌<◌, max, not, nat_lt, unwrap_or, map, true, IfOk, OnOk, Some};
ghost use Rattle.std.specs.BTreeMap.{get, Updates};
ghost use Rattle.std.specs.Ordering.{nat_cmp};
ghost use Rattle.nl_field.specs.Medium.{address_of};
ghost use Rattle.nl_field.specs.ScanList.{virtual_seen, physical_seen};
ghost use Rattle.nl_field.specs.SpareRecord.{stamp_of};
ghost use Rattle.nl_recover_pointers.specs.Copies.{AreGreatest, HasStamps, physical_copies, virtual_copies, virtual_copy, physical_copy};
ghost use Rattle.nl_recover_pointers.specs.Numbers.{has_number};

use crate::HeldList;
use crate::numbers::Numbers;
use crate::pages::{physical_pages, stamp_on, virtual_pages};
use crate::spare::PageCopy;
use nl_field::{Memory, Seen, Shape, SpareRec};
use nl_scan::ScanTables;
use std::alloc::Global;
use std::collections::BTreeMap;

fn address_on(rec: &SpareRec) -> u32
    ensures { result ≡ address_of rec.now }
{
    match *rec {
        SpareRec::Virtual { vaddr, .. } => vaddr,
        SpareRec::Physical { .. } => 0,
    }
}

fn greatest_of(greatest: &BTreeMap<u32, u64>, address: u32) -> u64
    ensures { result ≡ unwrap_or (get nat_cmp greatest.now address) 0 }
{
    match greatest.get(&address) {
        Some(stamp) => *stamp,
        None => 0,
    }
}

fn raise(greatest: &mut BTreeMap<u32, u64>, address: u32, stamp: u64) -> Result<(), Memory>
    ensures { OnOk result (Updates nat_cmp greatest.old greatest.new address
        (Some (max (unwrap_or (get nat_cmp greatest.old address) 0) stamp))) }
{
    let most = greatest_of(greatest, address).max(stamp);
    greatest.insert(address, most)?;
    Ok(())
}

/// The greatest write sequence number of each address that pages have.
fn greatest(alloc: Global, pages: &Vec<Seen>) -> Result<BTreeMap<u32, u64>, Memory>
    ensures { IfOk result (AreGreatest pages.now.items) }
{
    let mut greatest = BTreeMap::new(alloc);
    'pages: for at in 0..pages.len() {
        let rec = &pages[at].rec;
        raise(&mut greatest, address_on(rec), stamp_on(rec))?;
    }
    Ok(greatest)
}

fn virtual_copy(size: u32, greatest: &BTreeMap<u32, u64>, page: &Seen) -> PageCopy
    requires { 0 < size }
    ensures { result ≡ virtual_copy size
        (not (nat_lt (stamp_of page.now.rec) (unwrap_or (get nat_cmp greatest.now (address_of page.now.rec)) 0))) page.now }
{
    let address = address_on(&page.rec);
    let stamp = stamp_on(&page.rec);
    PageCopy {
        block: page.page / size,
        address,
        stamp,
        is_needed: greatest_of(greatest, address) <= stamp,
    }
}

/// The pages of the virtual segment. Those with the greatest write sequence number of their address are needed.
pub fn virtual_copies(
    alloc: Global,
    shape: &Shape,
    scan: &ScanTables,
) -> Result<Vec<PageCopy>, Memory>
    requires { 0 < shape.now.pages }
    ensures { IfOk result (λ copies. copies.items ≡ virtual_copies shape.now.pages (virtual_seen shape.now scan.now.seen)) }
{
    let pages = virtual_pages(alloc, shape, scan)?;
    let greatest = greatest(alloc, &pages)?;
    let mut copies = Vec::new(alloc);
    'pages: for at in 0..pages.len() {
        copies.push(virtual_copy(shape.pages, &greatest, &pages[at]))?;
    }
    Ok(copies)
}

/// The write sequence numbers of these pointers.
fn stamps(alloc: Global, held: &HeldList) -> Result<Numbers, Memory>
    ensures { IfOk result (HasStamps held.now) }
{
    let mut stamps = Numbers::new(alloc, 2 * held.len() as usize)?;
    'held: for at in 0..held.len() {
        stamps.add(held.get(at).pointer.stamp)?;
    }
    Ok(stamps)
}

fn physical_copy(size: u32, stamps: &Numbers, page: &Seen) -> PageCopy
    requires { 0 < size }
    ensures { result ≡ physical_copy size (has_number stamps.now (stamp_of page.now.rec)) page.now }
{
    let stamp = stamp_on(&page.rec);
    PageCopy {
        block: page.page / size,
        address: 0,
        stamp,
        is_needed: stamps.contains(stamp),
    }
}

/// The pages of the physical segment. Those with the write sequence number of a pointer are needed.
pub fn physical_copies(
    alloc: Global,
    shape: &Shape,
    scan: &ScanTables,
    held: &HeldList,
) -> Result<Vec<PageCopy>, Memory>
    requires { 0 < shape.now.pages }
    ensures { IfOk result (λ copies. copies.items ≡ physical_copies shape.now.pages held.now (physical_seen shape.now scan.now.seen)) }
{
    let pages = physical_pages(alloc, shape, scan)?;
    let stamps = stamps(alloc, held)?;
    let mut copies = Vec::new(alloc);
    'pages: for at in 0..pages.len() {
        copies.push(physical_copy(shape.pages, &stamps, &pages[at]))?;
    }
    Ok(copies)
}
