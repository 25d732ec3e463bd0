//! The pages of the virtual segment, as a scan lists them: which is read under an address, and the spare block of the segment.
ghost use Rattle.std.specs.Prelude.{◌≡◌, ◌<◌, ◌&&◌, ◌||◌, ◌/◌, ◌==◌, nat_lt, not, IfOk};
ghost use Rattle.std.specs.List.{list_all, list_any};
ghost use Rattle.nl_field.specs.Medium.{address_of, first_physical, is_virtual_rec};
ghost use Rattle.nl_field.specs.ScanList.{on_list, virtual_seen};
ghost use Rattle.nl_field.specs.Space.{has_greatest_among, is_outside, virtual_spare_among};
ghost use Rattle.nl_field.specs.SpareRecord.{stamp_of};
ghost use Rattle.nl_map_pages.specs.Looks.{first_outside, is_current, is_outdated_seen, read_under};

use nl_field::{Memory, Seen, Shape, SpareRec};
use nl_scan::ScanTables;
use std::alloc::Global;

fn stamp_on(rec: &SpareRec) -> u64
    ensures { result ≡ stamp_of rec.now }
{
    match *rec {
        SpareRec::Virtual { stamp, .. } => stamp,
        SpareRec::Physical { stamp, .. } => stamp,
    }
}

fn address_on(rec: &SpareRec) -> u32
    ensures { result ≡ address_of rec.now }
{
    match *rec {
        SpareRec::Virtual { vaddr, .. } => vaddr,
        SpareRec::Physical { .. } => 0,
    }
}

/// The number of the first page of the physical segment.
pub fn virtual_end(shape: &Shape) -> u64
    ensures { result ≡ first_physical shape.now }
{
    shape.vblocks as u64 * shape.pages as u64
}

fn is_virtual(shape: &Shape, seen: &Seen) -> bool
    ensures { result ≡ (nat_lt seen.now.page (first_physical shape.now) && is_virtual_rec shape.now seen.now.rec) }
{
    match seen.rec {
        SpareRec::Virtual { vaddr, .. } => {
            (seen.page as u64) < virtual_end(shape) && vaddr < shape.vaddrs
        }
        SpareRec::Physical { .. } => false,
    }
}

/// The pages of the virtual segment that a scan saw.
pub fn virtual_pages(alloc: Global, shape: &Shape, scan: &ScanTables) -> Result<Vec<Seen>, Memory>
    ensures { IfOk result (λ pages. pages.items ≡ virtual_seen shape.now scan.now.seen) }
{
    let mut pages = Vec::new(alloc);
    'seen: for at in 0..scan.len() {
        let seen = scan.get(at);
        if is_virtual(shape, seen) {
            pages.push(*seen)?;
        }
    }
    Ok(pages)
}

/// Whether one of the pages has the address and a greater write sequence number.
pub fn is_outdated(pages: &[Seen], address: u32, stamp: u64) -> bool
    ensures { result ≡ is_outdated_seen pages.now address stamp }
{
    pages.iter().any(|q| address_on(&q.rec) == address && stamp < stamp_on(&q.rec))
}

// Whether no page of its address has a greater write sequence number.
fn has_greatest(pages: &[Seen], page: &Seen) -> bool
    ensures { result ≡ has_greatest_among on_list pages.now page.now }
{
    !is_outdated(pages, address_on(&page.rec), stamp_on(&page.rec))
}

// Whether a page of another block has the address and the write sequence number of this one.
fn has_copy(pages: &[Seen], size: u32, block: u32, page: &Seen) -> bool
    requires { 0 < size }
    ensures { result ≡ list_any (λ q. not (q.page / size == block)
        && (address_of q.rec == address_of page.now.rec && stamp_of q.rec == stamp_of page.now.rec)) pages.now }
{
    let address = address_on(&page.rec);
    let stamp = stamp_on(&page.rec);
    pages.iter().any(|q| {
        q.page / size != block && (address_on(&q.rec) == address && stamp_on(&q.rec) == stamp)
    })
}

// Whether each page of the block that is needed has a copy in another block.
fn is_spare(pages: &[Seen], size: u32, block: u32) -> bool
    requires { 0 < size }
    ensures { result ≡ list_all (λ r. not (r.page / size == block && has_greatest_among on_list pages.now r)
        || list_any (λ q. not (q.page / size == block) && (address_of q.rec == address_of r.rec && stamp_of q.rec == stamp_of r.rec)) pages.now)
        pages.now }
{
    pages.iter().all(|r| {
        !(r.page / size == block && has_greatest(pages, r)) || has_copy(pages, size, block, r)
    })
}

/// The spare block: the least of the first blocks, so many of them, each needed page of which has a copy in another block.
pub fn spare_of(pages: &[Seen], size: u32, count: u32) -> Option<u32>
    requires { 0 < size }
    ensures { result ≡ virtual_spare_among on_list size count pages.now }
{
    'blocks: for block in 0..count {
        if is_spare(pages, size, block) {
            return Some(block);
        }
    }
    None
}

fn is_outside(size: u32, spare: Option<u32>, page: u32) -> bool
    requires { 0 < size }
    ensures { result ≡ is_outside size spare page }
{
    match spare {
        Some(block) => page / size != block,
        None => true,
    }
}

fn is_current(pages: &[Seen], address: u32, page: &Seen) -> bool
    ensures { result ≡ is_current pages.now address page.now }
{
    address_on(&page.rec) == address
        && !is_outdated(pages, address_on(&page.rec), stamp_on(&page.rec))
}

// The least page that is read under an address, of those outside a block.
fn first_outside(pages: &[Seen], size: u32, spare: Option<u32>, address: u32) -> Option<u32>
    requires { 0 < size }
    ensures { result ≡ first_outside pages.now size spare address }
{
    for page in pages {
        if is_current(pages, address, page) && is_outside(size, spare, page.page) {
            return Some(page.page);
        }
    }
    None
}

/// The page that is read under an address.
pub fn read_under(pages: &[Seen], size: u32, spare: Option<u32>, address: u32) -> Option<u32>
    requires { 0 < size }
    ensures { result ≡ read_under pages.now size spare address }
{
    match first_outside(pages, size, spare, address) {
        Some(page) => Some(page),
        None => first_outside(pages, size, None, address),
    }
}
