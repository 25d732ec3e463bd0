ghost use Rattle.std.specs.Prelude.{◌≡◌};
ghost use Rattle.nl_turns.specs.Served.{StandsForSome};
ghost use Rattle.nl_volume.specs.Reporting.{ReportsCharges};

use crate::volume::Volume;
use nl_device::Device;
use nl_iface::{Counts, MovingPages};
use nl_nand::Nand;
use nl_turns::Kept;
use nl_volume_list::count_taken;
use nl_volume_list::laws::files_are_charged;

/// What a volume tells of itself.
#[derive(Clone, Copy, Debug, PartialEq, Eq)]
pub struct VolumeReport {
    /// The pages of its files that hold bytes.
    pub data_pages: u64,
    /// The nodes that its tree takes.
    pub nodes: u32,
    /// The pages of entries and of pointers that its tree takes.
    pub meta: u32,
    /// The pairs of moved pages whose pointers still have the old name.
    pub pairs: u32,
    /// The least wear of the pages that were readable at its opening.
    pub least: u32,
    /// The greatest wear of these pages.
    pub greatest: u32,
    /// The next write sequence number.
    pub stamp: u64,
}

impl<M: Nand> Volume<M> {
    /// What its tree takes of it now, how many pairs it has now, the least and the greatest wear of the pages that were readable at its
    /// opening, and its next write sequence number.
    pub fn report(&self) -> VolumeReport
        requires { StandsForSome ⟦<Volume<M> as Kept>⟧.stands self.now }
        ensures charges { ReportsCharges ⟦<Device<M> as Counts>⟧ self.now.core result }
        ensures pairs { result.pairs ≡ (⟦<Device<M> as Counts>⟧.names self.now.core.device).space.pairs }
        ensures wear { (result.least ≡ self.now.least) × (result.greatest ≡ self.now.greatest) }
        ensures stamp { result.stamp ≡ ⟦<Device<M> as Counts>⟧.next_stamp self.now.core.device }
    {
        files_are_charged::<Device<M>>();
        let taken = count_taken(&self.core);
        VolumeReport {
            data_pages: u64::from(self.files),
            nodes: taken.nodes,
            meta: taken.meta,
            pairs: self.core.device.pairs(),
            least: self.least,
            greatest: self.greatest,
            stamp: self.core.device.next_stamp(),
        }
    }
}
