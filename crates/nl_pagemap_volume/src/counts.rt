//! What the volume tells of failures of its device, and whether its write sequence numbers are used up.
ghost use Rattle.std.specs.Prelude.{◌≡◌, ◌≤◌, ◌↔◌, ◌^◌, IsTrue};
ghost use Rattle.nl_pagemap_volume.specs.Volume.{counts_in, device_of};

use crate::volume::MapVolume;
use nl_iface::{Counts, MovingPages};
use nl_nand::Nand;
use nl_pagemap::Pagemap;

impl<M: Nand> MapVolume<M> {
    /// How many reads of its medium have failed.
    pub fn read_faults(&self) -> u64
        ensures { result ≡ (counts_in ⟦<Pagemap<M> as Counts>⟧ self.now).read_faults }
    {
        self.core.device.read_faults()
    }

    /// How many writes of its device have failed or were refused.
    pub fn write_faults(&self) -> u64
        ensures { result ≡ (counts_in ⟦<Pagemap<M> as Counts>⟧ self.now).write_faults }
    {
        self.core.device.write_faults()
    }

    /// Whether its write sequence numbers are used up: the next one has reached 2^62.
    pub fn is_worn(&self) -> bool
        ensures { IsTrue result ↔ 2 ^ 62 ≤ ⟦<Pagemap<M> as Counts>⟧.next_stamp (device_of self.now) }
    {
        self.core.device.next_stamp() >= 1 << 62
    }
}
