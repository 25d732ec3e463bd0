ghost use Rattle.nl_core.specs.Core.{IsCore};
ghost use Rattle.nl_volume_list.specs.Counts.{CountsCharges};

use nl_core::Core;
use nl_iface::MovingPages;
use nl_spec_commits::laws::device_stands;

/// How many nodes are used, and how many addresses of the pool.
#[derive(Clone, Copy, Debug, PartialEq, Eq)]
pub struct Taken {
    pub nodes: u32,
    pub meta: u32,
}

/// How much of its volume the tree takes as which the core runs: its nodes, and its pages of entries and of pointers. It reads no page.
pub fn count_taken<D: MovingPages>(core: &Core<D>) -> Taken
    requires core { IsCore D.Counts core.now }
    ensures { CountsCharges D.Counts core.now result }
{
    device_stands(&core.device);
    Taken {
        nodes: core.shape.nodes - core.nodes.free_nodes(),
        meta: core.shape.meta - core.nodes.free_pool(),
    }
}
