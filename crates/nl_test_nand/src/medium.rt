//! A medium of 32 blocks of 32 pages, that is written in rising order.
ghost use Rattle.std.specs.Prelude.{◌≡◌, ◌+◌, ◌<◌, IfSome};
ghost use Rattle.nl_nand.specs.Nand.{ErasedWithin};
ghost use Rattle.nl_nand.specs.Memory.{geometry_of, contents_of};

use nl_field::{FailList, PageBuf};
use nl_nand::{FormAnswer, MemNand, Nand, Stop, WriteAnswer};
use std::alloc::Global;

/// A medium whose pages are erased.
pub fn formed(
    alloc: Global,
    reads: FailList,
    writes: FailList,
    stop: Option<Stop>,
) -> Option<MemNand>
    ensures geometry { IfSome result (λ m. geometry_of m ≡ record { blocks = 32; pages = 32 }) }
    ensures erased { IfSome result (λ m. ErasedWithin (contents_of m) 0 1024) }
{
    let mut media = MemNand::new(alloc, reads, writes, stop);
    match media.form(32, 32) {
        FormAnswer::Done => Some(media),
        _ => None,
    }
}

/// Programs a page behind all that were written.
pub fn program(media: &mut MemNand, page: u32, buf: &PageBuf) -> WriteAnswer
    requires within { page < 1024 }
    requires geometry { geometry_of media.old ≡ record { blocks = 32; pages = 32 } }
    requires erased { ErasedWithin (contents_of media.old) page 1024 }
    ensures geometry { geometry_of media.new ≡ record { blocks = 32; pages = 32 } }
    ensures erased { ErasedWithin (contents_of media.new) (page + 1) 1024 }
{
    media.program(page, buf)
}
