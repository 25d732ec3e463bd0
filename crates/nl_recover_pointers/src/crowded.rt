//! The phase of a walk that looks for a block which can be erased in each segment, and counts pointers with stale names.
ghost use Rattle.std.specs.Prelude.{◌≡◌, ◌<◌, count_by, is_some, IfOk};
ghost use Rattle.nl_field.specs.ScanList.{is_lost_seen, virtual_spare_seen};
ghost use Rattle.nl_meta.specs.Walk.{crowded_fault, spare_beside};

use crate::HeldList;
use crate::blank::has_blank;
use crate::copies::{physical_copies, virtual_copies};
use crate::places::Places;
use crate::spare::has_spare;
use nl_field::{Memory, Shape};
use nl_scan::ScanTables;
use std::alloc::Global;

fn has_virtual_spare(alloc: Global, shape: &Shape, scan: &ScanTables) -> Result<bool, Memory>
    requires { 0 < shape.now.pages }
    ensures { IfOk result (λ has. has ≡ is_some (virtual_spare_seen shape.now scan.now.seen)) }
{
    if has_blank(alloc, scan, shape.pages, 0, shape.vblocks)? {
        return Ok(true);
    }
    let copies = virtual_copies(alloc, shape, scan)?;
    has_spare(alloc, &copies, 0, shape.vblocks)
}

fn has_physical_spare(
    alloc: Global,
    shape: &Shape,
    held: &HeldList,
    scan: &ScanTables,
) -> Result<bool, Memory>
    requires { 0 < shape.now.pages }
    ensures { IfOk result (λ has. has ≡ is_some (spare_beside shape.now scan.now.seen held.now)) }
{
    if has_blank(alloc, scan, shape.pages, shape.vblocks, shape.pblocks)? {
        return Ok(true);
    }
    let copies = physical_copies(alloc, shape, scan, held)?;
    has_spare(alloc, &copies, shape.vblocks, shape.pblocks)
}

/// How many pointers have another write sequence number than the page of their name.
fn count_lost(
    alloc: Global,
    shape: &Shape,
    held: &HeldList,
    scan: &ScanTables,
) -> Result<u32, Memory>
    ensures { IfOk result (λ lost. lost ≡ count_by (λ h. is_lost_seen shape.now scan.now.seen h.pointer) held.now) }
{
    let places = Places::of(alloc, shape, scan)?;
    let mut lost = 0;
    'held: for at in 0..held.len() {
        if !places.holds(&held.get(at).pointer) {
            lost += 1;
        }
    }
    Ok(lost)
}

/// Place 0 where no block of the virtual segment can be erased, else 1 where none of the physical segment can beside these pointers,
/// else 2 where more of them are stale than three blocks have pages. In a block that can be erased each needed page has a copy in
/// another block.
pub fn crowded_fault(
    alloc: Global,
    shape: &Shape,
    held: &HeldList,
    scan: &ScanTables,
) -> Result<Option<u32>, Memory>
    requires { 0 < shape.now.pages }
    ensures { IfOk result (λ place. place ≡ crowded_fault shape.now scan.now.seen held.now) }
{
    if !has_virtual_spare(alloc, shape, scan)? {
        return Ok(Some(0));
    }
    if !has_physical_spare(alloc, shape, held, scan)? {
        return Ok(Some(1));
    }
    let lost = count_lost(alloc, shape, held, scan)?;
    if 3 * (shape.pages as u64) < lost as u64 {
        return Ok(Some(2));
    }
    Ok(None)
}
