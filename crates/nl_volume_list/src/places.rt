ghost use Rattle.std.specs.Prelude.{◌≡◌, ◌≢◌, [], IfOk};
ghost use Rattle.nl_meta.specs.Nodes.{graph_of};
ghost use Rattle.nl_meta_running.specs.Reading.{ReadsExplainStop, stop_of};
ghost use Rattle.nl_meta_running.specs.Running.{RunningIsRight, PreservesRunning, running_on};
ghost use Rattle.nl_volume_list.specs.Onward.{StepsOnward, NoneUnder};
ghost use Rattle.nl_volume_list.specs.Walks.{OnWay};

use crate::entries::least_behind;
use crate::walk::{Onward, TreeWalk};
use nl_iface::VirtualPages;
use nl_inode::Nodes;
use nl_meta::Meta;
use nl_meta_running::Stop;
use nl_tree::Names;

/// Where a walk goes on that has begun: at the least name of the node that it holds, or else behind the last name of its path that has a
/// later one beside it. None where no path comes behind.
pub(crate) fn next_place<D: VirtualPages>(
    device: &mut D,
    meta: &mut Meta,
    nodes: &Nodes,
    walk: &TreeWalk,
) -> Result<Option<Onward>, Stop>
    requires formed { D.formed device.old }
    requires runs { RunningIsRight D.Counts device.old meta.old }
    requires begun { walk.now.nodes ≢ [] }
    requires way { OnWay (graph_of (D.shape device.old) (running_on D.Counts device.old meta.old)) walk.now }
    ensures formed { D.formed device.new }
    ensures place { IfOk result (StepsOnward (graph_of (D.shape device.old) (running_on D.Counts device.old meta.old)) walk.now) }
    ensures kept { PreservesRunning D.Counts device.old meta.old device.new meta.new }
    ensures reads { ReadsExplainStop D.Counts device.old device.new (stop_of result) }
{
    let kept = walk.path().len();
    match least_behind(device, meta, nodes, walk.nodes()[kept as usize], b"") {
        Ok(Some(entry)) => Ok(Some(Onward { kept, entry })),
        Ok(None) => place_beside(device, meta, nodes, walk),
        Err(stop) => Err(stop),
    }
}

/// Where a walk goes on that has nothing under its path.
fn place_beside<D: VirtualPages>(
    device: &mut D,
    meta: &mut Meta,
    nodes: &Nodes,
    walk: &TreeWalk,
) -> Result<Option<Onward>, Stop>
    requires formed { D.formed device.old }
    requires runs { RunningIsRight D.Counts device.old meta.old }
    requires begun { walk.now.nodes ≢ [] }
    requires way { OnWay (graph_of (D.shape device.old) (running_on D.Counts device.old meta.old)) walk.now }
    requires bare { NoneUnder (graph_of (D.shape device.old) (running_on D.Counts device.old meta.old)) walk.now.path walk.now.path }
    ensures formed { D.formed device.new }
    ensures place { IfOk result (StepsOnward (graph_of (D.shape device.old) (running_on D.Counts device.old meta.old)) walk.now) }
    ensures kept { PreservesRunning D.Counts device.old meta.old device.new meta.new }
    ensures reads { ReadsExplainStop D.Counts device.old device.new (stop_of result) }
{
    let mut kept = walk.path().len();
    while kept > 0 {
        kept -= 1;
        let last = walk.path().name_at(kept);
        match least_behind(device, meta, nodes, walk.nodes()[kept as usize], last) {
            Ok(Some(entry)) => return Ok(Some(Onward { kept, entry })),
            Ok(None) => {}
            Err(stop) => return Err(stop),
        }
    }
    Ok(None)
}
