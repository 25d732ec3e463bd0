// The walk over the paths of a volume.
ghost use Rattle.std.specs.Prelude.{◌≡◌, ℕ, List, false};
ghost use Rattle.nl_calls_steps.specs.Steps.{ReadsOn};
ghost use Rattle.nl_meta_running.specs.Reading.{ReadsExplainStop};
ghost use Rattle.nl_turns.specs.History.{Opening};
ghost use Rattle.nl_turns.specs.Served.{StandsForSome};
ghost use Rattle.nl_turns.specs.declared.entry.Entry.{Entry as TurnEntry};
ghost use Rattle.nl_volume_list.specs.Next.{GivesNext, IsOnWay};
ghost use Rattle.nl_volume_list.specs.Walks.{is_path, item_stop};
ghost use Rattle.nl_volume.specs.declared.volume.Volume.{Volume as VolumeOf};

use crate::volume::Volume;
use nl_device::Device;
use nl_iface::Counts;
use nl_nand::Nand;
use nl_spec_commits::laws::device_stands;
use nl_turns::Kept;
use nl_volume_list::{TreeItem, TreeWalk};
use nl_volume_stage::counts;

impl<M: Nand> Volume<M> {
    /// The next path of its tree, and what stands there; the walk holds that path then. `End` comes exactly where no path is left. After
    /// `End`, `Fault` and `Lost` the walk stays. No call had its effect since the walk was made. Pages are only read.
    pub fn next_path(&mut self, walk: &mut TreeWalk) -> TreeItem
        requires stands { StandsForSome ⟦<Volume<M> as Kept>⟧.stands self.old }
        requires way { IsOnWay ⟦<Device<M> as Counts>⟧ self.old.core walk.old }
        ensures stands { (v : VolumeOf M) (o : Opening) (h : List TurnEntry) → ⟦<Volume<M> as Kept>⟧.stands v o h self.old
            → ⟦<Volume<M> as Kept>⟧.stands v o h self.new }
        ensures same { ReadsOn ⟦<Device<M> as Counts>⟧ self.old.core self.new.core }
        ensures rest { self.new ≡ record self.old { core = self.new.core } }
        ensures way { IsOnWay ⟦<Device<M> as Counts>⟧ self.new.core walk.new }
        ensures gives { GivesNext ⟦<Device<M> as Counts>⟧ self.old.core walk.old walk.new result }
        ensures stays { is_path result ≡ false → walk.new ≡ walk.old }
        ensures reads { ReadsExplainStop ⟦<Device<M> as Counts>⟧ self.old.core.device self.new.core.device (item_stop result) }
    {
        device_stands(&self.core.device);
        let item = nl_volume_list::next_path(&mut self.core, walk);
        device_stands(&self.core.device);
        counts(&self.core);
        item
    }
}
