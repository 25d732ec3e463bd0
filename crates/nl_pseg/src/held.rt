// The live pages of a segment, and the blocks that were told to be soiled.
ghost use Rattle.std.specs.Prelude.{◌≡◌, replicate, None, IfOk};

use nl_field::{Memory, Tag};
use std::alloc::Global;

/// What a live page holds: its owner, and the write sequence number that it was written under.
#[derive(Clone, Copy, Debug, PartialEq, Eq)]
pub struct Held {
    pub tag: Tag,
    pub stamp: u64,
}

/// A list of so many pages, none of which is live. An error where memory is refused.
pub fn no_pages(alloc: Global, count: u32) -> Result<Vec<Option<Held>>, Memory>
    ensures { IfOk result (λ v. v.items ≡ replicate count None) }
{
    Ok(vec![in alloc; None; count as usize]?)
}

/// A list of so many blocks, none of which was told to be soiled. An error where memory is refused.
pub fn no_marks(alloc: Global, count: u32) -> Result<Vec<Option<u32>>, Memory>
    ensures { IfOk result (λ v. v.items ≡ replicate count None) }
{
    Ok(vec![in alloc; None; count as usize]?)
}
