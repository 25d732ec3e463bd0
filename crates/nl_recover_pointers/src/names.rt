//! The phase of a walk that looks for pointers whose name leads to another page.
ghost use Rattle.std.specs.Prelude.{◌≡◌, IfOk};
ghost use Rattle.nl_meta.specs.Walk.{name_fault};

use crate::HeldList;
use crate::places::Places;
use nl_field::{Memory, Shape};
use nl_scan::ScanTables;
use std::alloc::Global;

/// The name of the first pointer whose named page is of the physical segment and has another write sequence number.
pub fn name_fault(
    alloc: Global,
    shape: &Shape,
    held: &HeldList,
    scan: &ScanTables,
) -> Result<Option<u32>, Memory>
    ensures { IfOk result (λ place. place ≡ name_fault shape.now scan.now.seen held.now) }
{
    let places = Places::of(alloc, shape, scan)?;
    'held: for at in 0..held.len() {
        let pointer = held.get(at).pointer;
        if !places.owns(&pointer) {
            return Ok(Some(pointer.name));
        }
    }
    Ok(None)
}
