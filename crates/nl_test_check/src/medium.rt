// A medium that is written page by page, and the spare bytes of a page.
ghost use Rattle.std.specs.Prelude.{◌≡◌, ◌+◌, ◌<◌, IfSome};
ghost use Rattle.nl_nand.specs.Memory.{contents_of, geometry_of};
ghost use Rattle.nl_nand.specs.Nand.{ErasedWithin};

use nl_field::{FailList, PageBuf, SpareRec, spare_into};
use nl_nand::{FormAnswer, MemNand, Nand, WriteAnswer};
use std::alloc::Global;

/// A medium of 32 blocks of 32 pages, each of them erased.
pub fn formed(alloc: Global) -> Option<MemNand>
    ensures geometry { IfSome result (λ m. geometry_of m ≡ record { blocks = 32; pages = 32 }) }
    ensures erased { IfSome result (λ m. ErasedWithin (contents_of m) 0 1024) }
{
    let mut media = MemNand::new(alloc, FailList::new(alloc), FailList::new(alloc), None);
    match media.form(32, 32) {
        FormAnswer::Done => Some(media),
        _ => None,
    }
}

/// Programs a page behind all that were written.
pub fn put(media: &mut MemNand, page: u32, buf: &PageBuf) -> WriteAnswer
    requires within { page < 1024 }
    requires geometry { geometry_of media.old ≡ record { blocks = 32; pages = 32 } }
    requires erased { ErasedWithin (contents_of media.old) page 1024 }
    ensures geometry { geometry_of media.new ≡ record { blocks = 32; pages = 32 } }
    ensures erased { ErasedWithin (contents_of media.new) (page + 1) 1024 }
{
    media.program(page, buf)
}

/// The spare bytes of a page with this record; zeros where its write sequence number is none.
pub fn spare_with(rec: &SpareRec) -> [u8; 64] {
    let mut spare = [0u8; 64];
    let stamp = match *rec {
        SpareRec::Virtual { stamp, .. } => stamp,
        SpareRec::Physical { stamp, .. } => stamp,
    };
    if 1 <= stamp && stamp < 1 << 63 {
        spare_into(rec, &mut spare);
    }
    spare
}
