//! Laws of a device that is formed. Each function stands for the laws that its contract names.
ghost use Rattle.nl_device.specs.DeviceLaws.{KeepsWhatItFound, PairsAreCalled};

use crate::device::Device;
use nl_iface::Counts;
use nl_nand::Nand;

/// Old names have callbacks, and what is kept of a scan is what was found.
pub fn formed_devices<M: Nand>()
    ensures called { PairsAreCalled ⟦<Device<M> as Counts>⟧ }
    ensures kept { KeepsWhatItFound ⟦<Device<M> as Counts>⟧ }
{}
