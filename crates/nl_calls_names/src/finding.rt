ghost use Rattle.std.specs.Prelude.{◌≡◌, IfOk, IfSome};
ghost use Rattle.nl_core.specs.Core.{IsCore};
ghost use Rattle.nl_calls_steps.specs.Steps.{ReadsOn};
ghost use Rattle.nl_namespace.specs.Calls.{IsOfNames};
ghost use Rattle.nl_calls_names.specs.Gathering.{graph_on, node_lost};
ghost use Rattle.nl_meta_running.specs.Reading.{ReadsExplainStop, stop_of};
ghost use Rattle.nl_meta_running.specs.Running.{IsUsedNode};
ghost use Rattle.nl_tree.specs.Represents.{node_reached};

use nl_calls_steps::look_up;
use nl_core::Core;
use nl_iface::MovingPages;
use nl_meta_running::Stop;
use nl_namespace::Look;
use nl_tree::{Call, Path};

/// The node that loses its name where the call is done, if one does: the one at the path that is removed, or to which another is renamed.
pub(crate) fn find_lost<D: MovingPages>(
    core: &mut Core<D>,
    call: &Call,
) -> Result<Option<u32>, Stop>
    requires core { IsCore D.Counts core.old }
    requires of_names { IsOfNames call.now }
    ensures core { IsCore D.Counts core.new }
    ensures same { ReadsOn D.Counts core.old core.new }
    ensures node { IfOk result (λ o. o ≡ node_lost (graph_on D.Counts core.old) call.now) }
    ensures used { IfOk result (λ o. IfSome o (IsUsedNode D.Counts core.old.device core.old.meta)) }
    ensures reads { ReadsExplainStop D.Counts core.old.device core.new.device (stop_of result) }
{
    match call {
        Call::Mkdir(_) => Ok(None),
        Call::Rmdir(path) => node_at(core, path),
        Call::Create(_) => Ok(None),
        Call::Unlink(path) => node_at(core, path),
        Call::Rename(_, to) => node_at(core, to),
        _ => unreachable!(),
    }
}

/// The node at the end of a path, None where it leads to none.
pub(crate) fn node_at<D: MovingPages>(core: &mut Core<D>, path: &Path) -> Result<Option<u32>, Stop>
    requires core { IsCore D.Counts core.old }
    ensures core { IsCore D.Counts core.new }
    ensures same { ReadsOn D.Counts core.old core.new }
    ensures node { IfOk result (λ o. o ≡ node_reached (graph_on D.Counts core.old) 0 path.now) }
    ensures used { IfOk result (λ o. IfSome o (IsUsedNode D.Counts core.old.device core.old.meta)) }
    ensures reads { ReadsExplainStop D.Counts core.old.device core.new.device (stop_of result) }
{
    match look_up(core, path) {
        Look::At(ino) => Ok(Some(ino)),
        Look::Missing => Ok(None),
        Look::No(_) => Ok(None),
        Look::Fault => Err(Stop::Fault),
        Look::Lost { wanted, found } => Err(Stop::Lost { wanted, found }),
    }
}
