//! The least volume.
ghost use Rattle.std.specs.Prelude.{◌≡◌, IfOk};
ghost use Rattle.nl_test_device_segments.specs.Rigs.{IsLeastVolume};
ghost use Rattle.nl_nand.specs.Memory.{contents_of, geometry_of};
ghost use Rattle.nl_nand.specs.Nand.{IsBlank};

use nl_field::{FailList, Memory, Shape, shape_of};
use nl_nand::{FormAnswer, MemNand, Nand, Stop};
use std::alloc::Global;

/// The numbers of the least volume.
pub fn least() -> Result<Shape, Memory>
    ensures { IfOk result IsLeastVolume }
{
    match shape_of(32, 32) {
        Some(shape) => Ok(shape),
        None => Err(Memory),
    }
}

/// A blank medium of 32 blocks of 32 pages.
pub fn blank(
    alloc: Global,
    reads: FailList,
    writes: FailList,
    stop: Option<Stop>,
) -> Result<MemNand, Memory>
    ensures numbers { IfOk result (λ m. geometry_of m ≡ record { blocks = 32; pages = 32 }) }
    ensures erased { IfOk result (λ m. IsBlank (contents_of m)) }
{
    let mut media = MemNand::new(alloc, reads, writes, stop);
    match media.form(32, 32) {
        FormAnswer::Done => Ok(media),
        _ => Err(Memory),
    }
}

/// The calls of these numbers fail, where they are not zero and rise.
pub fn failing(alloc: Global, first: u64, second: u64) -> Result<FailList, Memory> {
    let mut list = FailList::new(alloc);
    if 0 < first {
        list.push(first)?;
        if first < second {
            list.push(second)?;
        }
    }
    Ok(list)
}
