//! Blocks in which a scan saw no page: those can be erased, whatever is needed.
ghost use Rattle.std.specs.Prelude.{◌≡◌, ◌<◌, IfOk};
ghost use Rattle.nl_recover_pointers.specs.Blank.{has_blank};

use crate::spare::{has_unmarked, mark};
use nl_field::Memory;
use nl_scan::ScanTables;
use std::alloc::Global;

/// Whether in one of the blocks from the first on, so many of them, of so many pages each, no page was seen.
pub fn has_blank(
    alloc: Global,
    scan: &ScanTables,
    size: u32,
    first: u32,
    count: u32,
) -> Result<bool, Memory>
    requires { 0 < size }
    ensures { IfOk result (λ has. has ≡ has_blank size first count scan.now.seen) }
{
    let mut marks = vec![in alloc; false; count as usize]?;
    'seen: for at in 0..scan.len() {
        let block = scan.get(at).page / size;
        mark(&mut marks, first, block);
    }
    Ok(has_unmarked(&marks))
}
