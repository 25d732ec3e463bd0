//! The phase of a walk that looks at each pointer of a file: its index, and the pages with its write sequence number.
ghost use Rattle.std.specs.Prelude.{◌≡◌, ◌*◌, ◌-◌, ◌||◌, nat_lt, not, option_map, IfOk, OnOk};
ghost use Rattle.std.specs.Int.{div_ceil};
ghost use Rattle.nl_field.specs.ScanList.{physical_seen};
ghost use Rattle.nl_meta.specs.Walk.{pointer_fault};
ghost use Rattle.nl_recover_pointers.specs.Numbers.{AddsNumber, has_number};
ghost use Rattle.nl_recover_pointers.specs.Owners.{is_zero_from, zeros_at};

use crate::earlier::Earlier;
use crate::owners::{Zeros, has_page, owners};
use crate::{HeldList, HeldPointer};
use nl_field::{Memory, Shape};
use nl_scan::ScanTables;
use std::alloc::Global;

/// Whether a pointer is at fault behind the earlier ones. It is one of them afterwards.
fn is_at_fault(zeros: &Zeros, earlier: &mut Earlier, held: &HeldPointer) -> Result<bool, Memory>
    ensures fault { IfOk result (λ fault. fault ≡ (not (nat_lt held.now.tag.index (div_ceil held.now.size 4096))
        || (has_number earlier.old.stamps held.now.pointer.stamp || has_number earlier.old.names held.now.pointer.name)
        || not (is_zero_from (held.now.size - 4096 * held.now.tag.index)
        (zeros_at zeros.now held.now.pointer.stamp held.now.tag)))) }
    ensures stamps { OnOk result (AddsNumber earlier.old.stamps earlier.new.stamps held.now.pointer.stamp) }
    ensures names { OnOk result (AddsNumber earlier.old.names earlier.new.names held.now.pointer.name) }
{
    let is_new = earlier.add(&held.pointer)?;
    let is_within = (held.tag.index as u64) < held.size.div_ceil(4096);
    Ok(!is_within || !is_new || !has_page(zeros, held))
}

/// The node of the first pointer at fault: its index lies past the file's size, an earlier pointer has its name or its write sequence
/// number, no page of the physical segment has its number and its owner, or one that has is not zero from the file's size on.
pub fn pointer_fault(
    alloc: Global,
    shape: &Shape,
    held: &HeldList,
    scan: &ScanTables,
) -> Result<Option<u32>, Memory>
    ensures { IfOk result (λ place. place ≡ pointer_fault (physical_seen shape.now scan.now.seen) held.now) }
{
    let zeros = owners(alloc, shape, scan)?;
    let mut earlier = Earlier::new(alloc, 2 * held.len() as usize)?;
    'held: for at in 0..held.len() {
        let one = held.get(at);
        if is_at_fault(&zeros, &mut earlier, one)? {
            return Ok(Some(one.tag.ino));
        }
    }
    Ok(None)
}
