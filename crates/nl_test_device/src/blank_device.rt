// A device that was started on a blank medium, with what it says of itself then.
ghost use Rattle.std.specs.Prelude.{◌≡◌, [], IfOk};
ghost use Rattle.nl_field.specs.Numbers.{shape_for};
ghost use Rattle.nl_iface.specs.Stored.{NoneFailed};
ghost use Rattle.nl_nand.specs.Memory.{contents_of, geometry_of};
ghost use Rattle.nl_nand.specs.Nand.{IsBlank};

use nl_device::{Device, Started};
use nl_field::Memory;
use nl_iface::Counts;
use nl_nand::MemNand;
use std::alloc::Global;

/// The device of a blank medium of 32 blocks of 32 pages.
pub fn started(alloc: Global, media: MemNand) -> Result<Device<MemNand>, Memory>
    requires numbers { geometry_of media ≡ record { blocks = 32; pages = 32 } }
    requires erased { IsBlank (contents_of media) }
    ensures formed { IfOk result (λ d. ⟦<Device<MemNand> as Counts>⟧.formed d) }
    ensures numbers { IfOk result (λ d. ⟦<Device<MemNand> as Counts>⟧.shape d ≡ shape_for 32 32) }
    ensures spare { IfOk result (λ d. ⟦<Device<MemNand> as Counts>⟧.keeps_spare d) }
    ensures idle { IfOk result (λ d. (⟦<Device<MemNand> as Counts>⟧.names d).pending ≡ []) }
    ensures none_failed { IfOk result (λ d. NoneFailed (⟦<Device<MemNand> as Counts>⟧.shape d).vaddrs
        (⟦<Device<MemNand> as Counts>⟧.failed d)) }
{
    match Device::start(alloc, media) {
        Started::Ready(device, tables) => {
            if tables.len() == 0 {
                Ok(device)
            } else {
                drop(device);
                Err(Memory)
            }
        }
        other => {
            drop(other);
            Err(Memory)
        }
    }
}
