//! A device whose next write sequence number can be asked for, and a blank medium.
ghost use Rattle.std.specs.Prelude.{◌≡◌, IfOk, IsTrue};
ghost use Rattle.nl_field.specs.Numbers.{is_legal};
ghost use Rattle.nl_nand.specs.Memory.{contents_of, geometry_of};
ghost use Rattle.nl_nand.specs.Nand.{IsBlank};

use nl_device::Device;
use nl_field::{FailList, Memory};
use nl_iface::{Counts, MovingPages, NamedPages};
use nl_nand::{FormAnswer, MemNand, Nand};
use std::alloc::Global;

/// Pages whose next sequence number can be asked for.
pub trait Stamps: NamedPages {
    ghost use Rattle.std.specs.Prelude.{◌≡◌};

    fn stamp(&self) -> u64
        ensures { result ≡ Self.next_stamp self.now };
}

impl Stamps for Device<MemNand> {
    fn stamp(&self) -> u64 {
        self.next_stamp()
    }
}

/// A blank medium.
pub fn blank(alloc: Global, blocks: u32, pages: u32) -> Result<MemNand, Memory>
    requires { IsTrue (is_legal blocks pages) }
    ensures numbers { IfOk result (λ m. geometry_of m ≡ record { blocks = blocks; pages = pages }) }
    ensures erased { IfOk result (λ m. IsBlank (contents_of m)) }
{
    let none = FailList::new(alloc);
    let mut media = MemNand::new(alloc, none, FailList::new(alloc), None);
    match media.form(blocks, pages) {
        FormAnswer::Done => Ok(media),
        _ => Err(Memory),
    }
}
