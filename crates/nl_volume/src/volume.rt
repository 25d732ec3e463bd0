ghost use Rattle.std.specs.Prelude.{◌≡◌, ◌≤◌, ◌*◌, ◌^◌, ◌↔◌, IsTrue};
ghost use Rattle.nl_device.specs.Medium.{medium_of};
ghost use Rattle.nl_turns.specs.Served.{StandsForSome};

use nl_core::Core;
use nl_device::Device;
use nl_field::PageBuf;
use nl_iface::{Counts, MovingPages};
use nl_nand::Nand;
use nl_spec_commits::laws::device_stands;
use nl_turns::Kept;
use nl_volume_stage::is_worn;

/// A volume: its core, how many effects it has had since its opening, at most 2^64 - 1, how many pages its files have, a page that it works
/// with, and the least and the greatest wear of the pages that were readable at its opening.
#[derive(Drop)]
pub struct Volume<M: Nand> {
    pub core: Core<Device<M>>,
    pub done: u64,
    pub files: u32,
    pub page: PageBuf,
    pub least: u32,
    pub greatest: u32,
}

impl<M: Nand> Kept for Volume<M> {
    ghost use Rattle.nl_volume.specs.Standing.{VolumeRepresents};

    ghost stands = { λ origin o h v. VolumeRepresents ⟦<Device<M> as Counts>⟧ origin o h v };
}

impl<M: Nand> Volume<M> {
    /// The count of the calls that it has answered.
    pub fn calls(&self) -> u64
        ensures { result ≡ self.now.core.count }
    {
        self.core.count
    }

    /// The Free blocks of its physical segment.
    pub fn free_blocks(&self) -> u32
        ensures { result ≡ (⟦<Device<M> as Counts>⟧.names self.now.core.device).space.free }
    {
        self.core.device.free_blocks()
    }

    /// Whether its write sequence numbers are used up: the next one has reached 2^62.
    pub fn worn(&self) -> bool
        ensures { IsTrue result ↔ 2 ^ 62 ≤ ⟦<Device<M> as Counts>⟧.next_stamp self.now.core.device }
    {
        is_worn(&self.core)
    }

    /// The number of the last callback since its opening, or 0.
    pub fn posted(&self) -> u64
        ensures { result ≡ (⟦<Device<M> as Counts>⟧.names self.now.core.device).posted }
    {
        self.core.device.posted()
    }

    /// How many moved pages have a pointer that still has their old name: the pairs of an old name and the page that it leads to. These are
    /// at most four times the pages of a block.
    pub fn pairs(&self) -> u32
        requires { StandsForSome ⟦<Volume<M> as Kept>⟧.stands self.now }
        ensures exactly { result ≡ (⟦<Device<M> as Counts>⟧.names self.now.core.device).space.pairs }
        ensures few { result ≤ 4 * (⟦<Device<M> as Counts>⟧.shape self.now.core.device).pages }
    {
        device_stands(&self.core.device);
        self.core.device.pairs()
    }

    /// Gives the medium back as it is. Nothing is written.
    pub fn into_media(self) -> M
        ensures { result ≡ medium_of self.core.device }
    {
        let Volume { core, .. } = self;
        let Core { device, .. } = core;
        device.into_media()
    }
}

// Stands for each type whose values can be given to another thread.
fn can_cross<T: Send>() {}

/// A volume can be given to another thread, where its medium can.
pub fn volumes_can_cross<M: Nand + Send>() {
    can_cross::<Volume<M>>();
}
