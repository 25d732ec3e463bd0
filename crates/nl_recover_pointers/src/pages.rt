//! The pages that a scan saw, split by segment.
ghost use Rattle.std.specs.Prelude.{◌≡◌, nat_le, nat_lt, ◌&&◌, IfOk};
ghost use Rattle.nl_field.specs.Medium.{first_physical, is_virtual_rec, is_physical_rec};
ghost use Rattle.nl_field.specs.ScanList.{virtual_seen, physical_seen};
ghost use Rattle.nl_field.specs.SpareRecord.{stamp_of};

use nl_field::{Memory, Seen, Shape, SpareRec};
use nl_scan::ScanTables;
use std::alloc::Global;

/// The write sequence number of a spare record of either segment.
pub fn stamp_on(rec: &SpareRec) -> u64
    ensures { result ≡ stamp_of rec.now }
{
    match *rec {
        SpareRec::Virtual { stamp, .. } => stamp,
        SpareRec::Physical { stamp, .. } => stamp,
    }
}

/// The number of the first physical page.
pub fn virtual_end(shape: &Shape) -> u64
    ensures { result ≡ first_physical shape.now }
{
    shape.vblocks as u64 * shape.pages as u64
}

fn is_virtual(shape: &Shape, seen: &Seen) -> bool
    ensures { result ≡ (nat_lt seen.now.page (first_physical shape.now) && is_virtual_rec shape.now seen.now.rec) }
{
    match seen.rec {
        SpareRec::Virtual { vaddr, .. } => {
            (seen.page as u64) < virtual_end(shape) && vaddr < shape.vaddrs
        }
        SpareRec::Physical { .. } => false,
    }
}

/// Whether a page is one of the physical segment.
pub fn is_physical(shape: &Shape, seen: &Seen) -> bool
    ensures { result ≡ (nat_le (first_physical shape.now) seen.now.page && is_physical_rec seen.now.rec) }
{
    match seen.rec {
        SpareRec::Virtual { .. } => false,
        SpareRec::Physical { .. } => virtual_end(shape) <= seen.page as u64,
    }
}

/// The pages of the virtual segment that a scan saw.
pub fn virtual_pages(alloc: Global, shape: &Shape, scan: &ScanTables) -> Result<Vec<Seen>, Memory>
    ensures { IfOk result (λ pages. pages.items ≡ virtual_seen shape.now scan.now.seen) }
{
    let mut pages = Vec::new(alloc);
    'seen: for at in 0..scan.len() {
        let seen = scan.get(at);
        if is_virtual(shape, seen) {
            pages.push(*seen)?;
        }
    }
    Ok(pages)
}

/// The pages of the physical segment that a scan saw.
pub fn physical_pages(alloc: Global, shape: &Shape, scan: &ScanTables) -> Result<Vec<Seen>, Memory>
    ensures { IfOk result (λ pages. pages.items ≡ physical_seen shape.now scan.now.seen) }
{
    let mut pages = Vec::new(alloc);
    'seen: for at in 0..scan.len() {
        let seen = scan.get(at);
        if is_physical(shape, seen) {
            pages.push(*seen)?;
        }
    }
    Ok(pages)
}
