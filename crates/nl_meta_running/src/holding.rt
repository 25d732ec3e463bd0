//! Pages that a call needs are made resident, and the records of used nodes read from them.
ghost use Rattle.std.specs.Prelude.{◌≡◌, IfOk, IsSome};
ghost use Rattle.nl_inode.specs.Nodes.{page_of_node};
ghost use Rattle.nl_meta.specs.Pages.{page_of};
ghost use Rattle.nl_meta_running.specs.Holding.{HoldsPage};
ghost use Rattle.nl_meta_running.specs.Reading.{ReadsExplainStop, stop_of};
ghost use Rattle.nl_meta_running.specs.Running.{IsNeeded, IsNodeOf, IsUsedNode, RunningIsRight, PreservesRunning, running_on};

use crate::answer::Stop;
use nl_field::InodeRec;
use nl_iface::VirtualPages;
use nl_inode::{Fetch, Nodes, fetch};
use nl_meta::Meta;

/// Makes the page of an address that is needed resident, and touches it.
pub fn hold<D: VirtualPages>(device: &mut D, meta: &mut Meta, vaddr: u32) -> Result<(), Stop>
    requires formed { D.formed device.old }
    requires runs { RunningIsRight D.Counts device.old meta.old }
    requires needed { IsNeeded (D.shape device.old) (running_on D.Counts device.old meta.old) vaddr }
    ensures formed { D.formed device.new }
    ensures kept { PreservesRunning D.Counts device.old meta.old device.new meta.new }
    ensures reads { ReadsExplainStop D.Counts device.old device.new (stop_of result) }
    ensures there { IfOk result (λ u. HoldsPage vaddr meta.old meta.new) }
{
    match fetch(device, meta, vaddr) {
        Fetch::Ready => Ok(()),
        Fetch::Fault => Err(Stop::Fault),
        Fetch::Lost { wanted, found } => Err(Stop::Lost { wanted, found }),
    }
}

/// The record of a used node, whose page becomes resident.
pub fn node<D: VirtualPages>(
    device: &mut D,
    meta: &mut Meta,
    nodes: &Nodes,
    ino: u32,
) -> Result<InodeRec, Stop>
    requires formed { D.formed device.old }
    requires runs { RunningIsRight D.Counts device.old meta.old }
    requires used { IsUsedNode D.Counts device.old meta.old ino }
    ensures formed { D.formed device.new }
    ensures kept { PreservesRunning D.Counts device.old meta.old device.new meta.new }
    ensures reads { ReadsExplainStop D.Counts device.old device.new (stop_of result) }
    ensures node { IfOk result (IsNodeOf D.Counts device.old meta.old ino) }
    ensures there { IfOk result (λ rec. IsSome (page_of meta.new (page_of_node ino))) }
{
    match hold(device, meta, 67 + ino / 16) {
        Ok(()) => Ok(nodes.get(meta, ino)),
        Err(stop) => Err(stop),
    }
}
