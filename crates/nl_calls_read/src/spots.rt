ghost use Rattle.std.specs.Prelude.{◌≡◌};
ghost use Rattle.nl_meta_running.specs.Reading.{ReadsExplainStop};
ghost use Rattle.nl_meta_running.specs.Running.{IsUsedNode};
ghost use Rattle.nl_core.specs.Core.{IsCore};
ghost use Rattle.nl_calls_steps.specs.Steps.{ReadsOn};
ghost use Rattle.nl_calls_read.specs.Due.{FindsSpot};
ghost use Rattle.nl_calls_read.specs.Spots.{HasNode, IsOfNode, spot_stop};

use crate::answer::Spot;
use nl_calls_steps::{look_up, open_node};
use nl_core::Core;
use nl_field::Kind;
use nl_iface::MovingPages;
use nl_meta_running::Stop;
use nl_namespace::Look;
use nl_namespace::laws::looks_in_tree;
use nl_spec_commits::laws::device_stands;
use nl_tree::{Path, Refusal, is_long};

/// What stands at a path.
pub(crate) fn find_spot<D: MovingPages>(core: &mut Core<D>, path: &Path) -> Spot
    requires core { IsCore D.Counts core.old }
    ensures core { IsCore D.Counts core.new }
    ensures same { ReadsOn D.Counts core.old core.new }
    ensures spot { FindsSpot D.Counts core.old path.now result }
    ensures node { HasNode D.Counts core.new.device core.new.meta result }
    ensures reads { ReadsExplainStop D.Counts core.old.device core.new.device (spot_stop result) }
{
    looks_in_tree();
    device_stands(&core.device);
    if is_long(path.names()) {
        return Spot::No(Refusal::Enametoolong);
    }
    match look_up(core, path) {
        Look::At(ino) => open_spot(core, ino),
        Look::Missing => Spot::No(Refusal::Enoent),
        Look::No(refusal) => Spot::No(refusal),
        Look::Fault => Spot::Fault,
        Look::Lost { wanted, found } => Spot::Lost { wanted, found },
    }
}

/// What a used node is.
fn open_spot<D: MovingPages>(core: &mut Core<D>, ino: u32) -> Spot
    requires core { IsCore D.Counts core.old }
    requires used { IsUsedNode D.Counts core.old.device core.old.meta ino }
    ensures core { IsCore D.Counts core.new }
    ensures same { ReadsOn D.Counts core.old core.new }
    ensures ino { IsOfNode ino result }
    ensures was { HasNode D.Counts core.old.device core.old.meta result }
    ensures node { HasNode D.Counts core.new.device core.new.meta result }
    ensures reads { ReadsExplainStop D.Counts core.old.device core.new.device (spot_stop result) }
{
    match open_node(core, ino) {
        Ok(rec) => match rec.kind {
            Kind::File => Spot::File(ino, rec),
            _ => Spot::Dir(ino, rec),
        },
        Err(Stop::Fault) => Spot::Fault,
        Err(Stop::Lost { wanted, found }) => Spot::Lost { wanted, found },
    }
}
